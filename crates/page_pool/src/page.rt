ghost use Rattle.std.specs.Prelude.{◌≡◌, IfOk, IfErr, OnOk, IsTrue, Some, Err};
ghost use Rattle.std.specs.FinMap as map;
ghost use Rattle.page_pool.specs.Disk.{faults_after};
ghost use Rattle.sha2.specs.Sha256.{sha256};

use crate::{Disk, DiskFault};
use sand_base::NoMemory;
use sha2::{Digest, Sha256};
use std::alloc::Global;
use std::marker::Model;

/// The bytes of one page.
#[derive(Drop)]
pub(crate) struct Page {
    bytes: Box<[u8; 4096]>,
}

impl Model for Page {
    ghost use Rattle.std.specs.Prelude.{ℕ, List};

    ghost Value = { List ℕ };

    ghost view = { λ page. page.bytes.value };
}

impl Page {
    // A page with these bytes.
    pub(crate) fn new(alloc: Global, bytes: &[u8; 4096]) -> Result<Page, NoMemory>
        ensures { IfOk result (λ page. page ≡ bytes.now) }
    {
        Ok(Page {
            bytes: Box::new(alloc, *bytes)?,
        })
    }

    #[inline]
    pub(crate) fn bytes(&self) -> &[u8; 4096]
        ensures { result.now ≡ self.now }
    {
        &self.bytes
    }

    // The page has these bytes from now on.
    pub(crate) fn set(&mut self, bytes: &[u8; 4096])
        ensures { self.new ≡ bytes.now }
    {
        *self.bytes = *bytes;
    }

    pub(crate) fn digest(&self) -> [u8; 32]
        ensures { result ≡ sha256 self.now }
    {
        Sha256::digest(self.bytes().as_slice())
    }
}

// Page `n` as the disk gives it now.
pub(crate) fn read_fresh<D: Disk>(alloc: Global, disk: &mut D, n: u64) -> Result<Page, DiskFault>
    requires { IsTrue (D.seen disk.old).told → IsTrue (map.contains_key (D.seen disk.old).pages n) }
    ensures value { IfOk result (λ page. IsTrue (D.seen disk.old).told → map.get (D.seen disk.old).pages n ≡ Some page) }
    ensures given { IfOk result (λ page. (D.seen disk.new).given ≡ page) }
    ensures told { (D.seen disk.new).told ≡ (D.seen disk.old).told }
    ensures pages { (D.seen disk.new).pages ≡ (D.seen disk.old).pages }
    ensures counted { (D.seen disk.new).faults ≡ faults_after (D.seen disk.old).faults result }
{
    let mut bytes = Box::new(alloc, [0; 4096])?;
    disk.read_page(n, &mut bytes)?;
    Ok(Page { bytes })
}
