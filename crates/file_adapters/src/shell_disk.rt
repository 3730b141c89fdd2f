ghost use Rattle.std.specs.Prelude.{◌≡◌, ◌↔◌, true, is_none, IsTrue, IsOk, IsSome, IfErr, OnOk, OnErr};
ghost use Rattle.std.specs.FinMap as map;
ghost use Rattle.sand_base.specs.Faults.{next_count};
ghost use Rattle.page_pool.specs.declared.disk.DiskFault.TheVariants.{Failed};
ghost use Rattle.page_pool.specs.Disk.{Starts, ReadsPage, WritesPage, faults_after};
ghost use Rattle.page_pool.specs.Pool.{zero_page};
ghost use Rattle.file_adapters.specs.Kept.{emptied, fault_where};

use crate::kept::Kept;
use crate::page_file;
use page_pool::{Disk, DiskFault, SureDisk};
use std::alloc::Global;
use std::fs::Files;
use std::io;
use std::marker::Model;

/// The disk of the program. Started without a name it keeps its pages in memory and tells them. Started with one it
/// keeps page `n` at byte 4,096 · n of that file and tells nothing of the pages. It counts its faults.
#[derive(Drop)]
pub struct ShellDisk<R: Files> {
    files: R,
    kept: Kept<R::File>,
    given: [u8; 4096],
    faults: u64,
    alloc: Global,
}

impl<R: Files> Model for ShellDisk<R> {
    ghost use Rattle.page_pool.specs.Disk.{DiskView};
    ghost use Rattle.page_pool.specs.Inside.{disk_code};
    ghost use Rattle.file_adapters.specs.Kept.{seen_as};

    ghost Value = { DiskView };

    ghost coded = { disk_code };

    ghost view = { λ a. seen_as a.kept a.given a.faults };
}

// The answer of the file system as the disk's. An error is one fault more.
fn counted<T: Drop>(faults: &mut u64, answer: io::Result<T>) -> Result<T, DiskFault>
    ensures count { faults.new ≡ faults_after faults.old result }
    ensures same { IsOk result ↔ IsOk answer }
    ensures cause { IfErr result (λ why. why ≡ Failed) }
{
    match answer {
        Ok(given) => Ok(given),
        Err(_) => {
            *faults = faults.saturating_add(1);
            Err(DiskFault::Failed)
        }
    }
}

impl<R: Files> ShellDisk<R> {
    /// A disk with no page over the files of this system. Until it is started it keeps its pages in memory.
    pub fn new(alloc: Global, files: R) -> ShellDisk<R>
        ensures { result ≡ record { told = true; pages = map.empty; given = zero_page; faults = 0 } }
    {
        ShellDisk {
            files,
            kept: Kept::Memory(SureDisk::new(alloc)),
            given: [0; 4096],
            faults: 0,
            alloc,
        }
    }
}

impl<R: Files> Disk for ShellDisk<R> {
    ghost seen = { λ s. s };

    fn start(&mut self, name: Option<&str>) -> Result<(), DiskFault>
        ensures seen { Starts self.old self.new result }
        ensures begun { OnOk result (self.new ≡ emptied (is_none name.entry) self.old) }
        ensures refused { OnErr result (self.new ≡ record self.old { faults = next_count self.old.faults }) }
        ensures cause { IfErr result (λ why. (why ≡ Failed) × IsSome name.entry) }
    {
        self.kept = match name {
            None => Kept::Memory(SureDisk::new(self.alloc)),
            Some(name) => {
                let file = page_file::create(&self.files, name);
                Kept::File(counted(&mut self.faults, file)?)
            }
        };
        Ok(())
    }

    fn read_page(&mut self, n: u64, page: &mut [u8; 4096]) -> Result<(), DiskFault>
        requires { IsTrue self.old.told → IsTrue (map.contains_key self.old.pages n) }
        ensures seen { ReadsPage self.old self.new n page.new result }
        ensures cause { IfErr result (λ why. why ≡ fault_where self.old.told) }
    {
        match &mut self.kept {
            Kept::Memory(disk) => disk.read_page(n, page)?,
            Kept::File(file) => {
                counted(&mut self.faults, page_file::read_page(file, n, page))?;
            }
        }
        self.given = *page;
        Ok(())
    }

    fn write_page(&mut self, n: u64, page: &[u8; 4096]) -> Result<(), DiskFault>
        ensures seen { WritesPage self.old self.new n page.now result }
        ensures cause { IfErr result (λ why. why ≡ fault_where self.old.told) }
    {
        match &mut self.kept {
            Kept::Memory(disk) => disk.write_page(n, page),
            Kept::File(file) => counted(&mut self.faults, page_file::write_page(file, n, page)),
        }
    }
}

#[cfg(test)]
mod tests {
    use super::*;
    use std::fs;
    use std::test::Fail;

    const NAME: &str = "shell_disk_test.pages";

    #[test]
    fn pages_are_kept_in_memory(rt: HostRuntime) -> Result<(), Fail> {
        let mut disk = ShellDisk::new(rt.alloc(), &rt);
        let mut page = [0; 4096];
        assert_eq!(rt; disk.start(None), Ok(()));
        assert_eq!(rt; disk.write_page(2, &[7; 4096]), Ok(()));
        assert_eq!(rt; disk.read_page(2, &mut page), Ok(()));
        assert_eq!(rt; page, [7; 4096]);
        assert_eq!(rt; disk.faults, 0);
        Ok(())
    }

    #[test]
    fn pages_are_kept_in_a_file_at_their_offsets(rt: HostRuntime) -> Result<(), Fail> {
        fs::write(&rt, NAME, b"of an earlier run".as_slice())?;
        let mut disk = ShellDisk::new(rt.alloc(), &rt);
        let mut page = [0; 4096];
        assert_eq!(rt; disk.start(Some(NAME)), Ok(()));
        assert_eq!(rt; disk.write_page(1, &[7; 4096]), Ok(()));
        assert_eq!(rt; disk.read_page(1, &mut page), Ok(()));
        assert_eq!(rt; page, [7; 4096]);
        let pages = [[0; 4096], [7; 4096]];
        assert_eq!(rt; fs::read(&rt, NAME)?.as_slice(), pages.as_flattened());
        assert_eq!(rt; disk.faults, 0);
        fs::remove_file(&rt, NAME)?;
        Ok(())
    }

    #[test]
    fn each_call_that_fails_is_one_fault(rt: HostRuntime) -> Result<(), Fail> {
        let mut disk = ShellDisk::new(rt.alloc(), &rt);
        assert_eq!(rt; disk.start(Some(".")), Err(DiskFault::Failed));
        assert_eq!(rt; disk.start(Some("faults.pages")), Ok(()));
        let mut page = [0; 4096];
        assert_eq!(rt; disk.read_page(0, &mut page), Err(DiskFault::Failed));
        for n in [1 << 51, u64::MAX] {
            assert_eq!(rt;
                disk.write_page(n, &page),
                Err(DiskFault::Failed),
                "page {n}"
            );
        }
        assert_eq!(rt; disk.faults, 4);
        fs::remove_file(&rt, "faults.pages")?;
        Ok(())
    }
}
