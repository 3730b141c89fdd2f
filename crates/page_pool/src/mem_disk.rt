ghost use Rattle.std.specs.Prelude.{◌≡◌, true, IsTrue, [], OnErr, IfErr};
ghost use Rattle.std.specs.FinMap as map;
ghost use Rattle.sand_base.specs.Calls.{no_calls};
ghost use Rattle.page_pool.specs.Disk.{Starts, ReadsPage, WritesPage};
ghost use Rattle.page_pool.specs.Pool.{zero_page};
ghost use Rattle.page_pool.specs.MemDisk.{mem_view, Numbers};

use crate::{Disk, DiskFault, SureDisk};
use sand_base::Calls;
use std::alloc::Global;
use std::marker::Model;

/// A disk in memory that fails at the calls that a list names, and tells its pages.
#[derive(Drop)]
pub struct MemDisk {
    disk: SureDisk,
    calls: Calls,
}

impl Model for MemDisk {
    ghost use Rattle.page_pool.specs.MemDisk.{MemDiskState};
    ghost use Rattle.page_pool.specs.Codes.{mem_disk_code};

    ghost Value = { MemDiskState };

    ghost coded = { mem_disk_code };

    ghost view = { λ a. record { disk = a.disk; calls = a.calls } };
}

impl MemDisk {
    /// A disk with no page. A call fails where `fails` has its number, which counts from 1.
    pub fn new(alloc: Global, fails: Vec<u64>) -> MemDisk
        ensures { result ≡ record { disk = record { pages = map.empty; given = zero_page }; calls = no_calls fails.items } }
    {
        MemDisk {
            disk: SureDisk::new(alloc),
            calls: Calls::new(fails),
        }
    }

    /// The number of calls so far; it stays at the greatest u64.
    pub fn calls(&self) -> u64
        ensures { result ≡ self.now.calls.made }
    {
        self.calls.made()
    }
}

impl Disk for MemDisk {
    ghost seen = { mem_view };

    fn start(&mut self, name: Option<&str>) -> Result<(), DiskFault>
        ensures seen { Starts (mem_view self.old) (mem_view self.new) result }
        ensures numbered { Numbers self.old self.new result }
    {
        self.calls.begin()?;
        self.disk.start(name)
    }

    fn read_page(&mut self, n: u64, page: &mut [u8; 4096]) -> Result<(), DiskFault>
        requires { IsTrue (map.contains_key self.old.disk.pages n) }
        ensures seen { ReadsPage (mem_view self.old) (mem_view self.new) n page.new result }
        ensures numbered { Numbers self.old self.new result }
    {
        self.calls.begin()?;
        self.disk.read_page(n, page)
    }

    fn write_page(&mut self, n: u64, page: &[u8; 4096]) -> Result<(), DiskFault>
        ensures seen { WritesPage (mem_view self.old) (mem_view self.new) n page.now result }
        ensures numbered { Numbers self.old self.new result }
    {
        self.calls.begin()?;
        self.disk.write_page(n, page)
    }
}
