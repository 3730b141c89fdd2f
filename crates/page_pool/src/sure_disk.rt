ghost use Rattle.std.specs.Prelude.{◌≡◌, true, IsTrue, [], OnErr, IfErr};
ghost use Rattle.std.specs.FinMap as map;
ghost use Rattle.page_pool.specs.declared.disk.DiskFault.TheVariants.{Memory};
ghost use Rattle.page_pool.specs.Disk.{Starts, ReadsPage, WritesPage};
ghost use Rattle.page_pool.specs.Pool.{zero_page};
ghost use Rattle.page_pool.specs.MemDisk.{sure_view};

use crate::page::Page;
use crate::{Disk, DiskFault};
use std::alloc::Global;
use std::collections::BTreeMap;
use std::marker::Model;

/// A disk in memory that never fails, and tells its pages.
#[derive(Drop)]
pub struct SureDisk {
    pages: BTreeMap<u64, Page>,
    given: [u8; 4096],
    alloc: Global,
}

impl Model for SureDisk {
    ghost use Rattle.std.specs.FinMap as map;
    ghost use Rattle.page_pool.specs.MemDisk.{SureDiskState};
    ghost use Rattle.page_pool.specs.Codes.{sure_disk_code};

    ghost Value = { SureDiskState };

    ghost coded = { sure_disk_code };

    ghost view = { λ a. record { pages = map.from_entries a.pages.entries; given = a.given } };
}

impl SureDisk {
    /// A disk with no page.
    pub fn new(alloc: Global) -> SureDisk
        ensures { result ≡ record { pages = map.empty; given = zero_page } }
    {
        SureDisk {
            pages: BTreeMap::new(alloc),
            given: [0; 4096],
            alloc,
        }
    }
}

impl Disk for SureDisk {
    ghost seen = { sure_view };

    fn start(&mut self, _name: Option<&str>) -> Result<(), DiskFault> {
        self.pages.clear();
        Ok(())
    }

    fn read_page(&mut self, n: u64, page: &mut [u8; 4096]) -> Result<(), DiskFault> {
        let Some(found) = self.pages.get(&n) else {
            return Err(DiskFault::Memory);
        };
        *page = *found.bytes();
        self.given = *found.bytes();
        Ok(())
    }

    fn write_page(&mut self, n: u64, page: &[u8; 4096]) -> Result<(), DiskFault> {
        let copy = Page::new(self.alloc, page)?;
        self.pages.insert(n, copy)?;
        Ok(())
    }
}
