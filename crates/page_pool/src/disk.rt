ghost use Rattle.std.specs.Prelude.{◌≡◌, ◌≢◌, ℕ, IsTrue, Some, IfOk, OnOk};
ghost use Rattle.std.specs.FinMap as map;
ghost use Rattle.page_pool.specs.declared.disk.DiskFault.TheVariants.{Memory, Failed};
ghost use Rattle.page_pool.specs.Disk.{DiskView, Starts, ReadsPage, WritesPage};

use sand_base::{Failed, NoMemory};
use std::alloc::AllocFailed;

/// Why a call of a disk was refused.
#[derive(Clone, Copy, Debug, PartialEq, Eq)]
pub enum DiskFault {
    /// Memory was refused.
    Memory,
    /// The disk failed.
    Failed,
}

/// Where pages of 4,096 bytes are kept by their numbers.
pub trait Disk {
    /// The pages, where the disk tells them, the page that its last accepted reading gave, and how often a call
    /// failed.
    ghost seen: { Self → DiskView };

    /// Begins with no page, in the file of this name or without one. It settles whether the disk tells its
    /// pages; no other call changes that.
    fn start(&mut self, name: Option<&str>) -> Result<(), DiskFault>
        ensures { Starts (seen self.old) (seen self.new) result };

    /// Reads page `n`. The pages stay, whatever the answer.
    fn read_page(&mut self, n: u64, page: &mut [u8; 4096]) -> Result<(), DiskFault>
        requires { IsTrue (seen self.old).told → IsTrue (map.contains_key (seen self.old).pages n) }
        ensures { ReadsPage (seen self.old) (seen self.new) n page.new result };

    /// Writes page `n`. After a fault it may hold any bytes or be missing; all others are unchanged.
    fn write_page(&mut self, n: u64, page: &[u8; 4096]) -> Result<(), DiskFault>
        ensures { WritesPage (seen self.old) (seen self.new) n page.now result };
}

impl From<NoMemory> for DiskFault {
    ghost from_gives = { λ _ why. why ≡ Memory };

    fn from(_: NoMemory) -> Self {
        DiskFault::Memory
    }
}

impl<T: Drop> From<AllocFailed<T>> for DiskFault {
    ghost from_gives = { λ _ why. why ≡ Memory };

    fn from(_: AllocFailed<T>) -> Self {
        DiskFault::Memory
    }
}

impl From<Failed> for DiskFault {
    ghost from_gives = { λ _ why. why ≡ Failed };

    fn from(_: Failed) -> Self {
        DiskFault::Failed
    }
}
