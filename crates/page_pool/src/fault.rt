ghost use Rattle.std.specs.Prelude.{◌≡◌};
ghost use Rattle.page_pool.specs.declared.fault.PageFault.TheVariants.{Memory};
ghost use Rattle.page_pool.specs.Causes.{page_fault};

use crate::DiskFault;
use sand_base::NoMemory;

/// Why a page could not be had.
#[derive(Clone, Copy, Debug, PartialEq, Eq)]
pub enum PageFault {
    /// Memory was refused.
    Memory,
    /// The disk failed.
    Device,
    /// The disk gave other bytes than were written: the digest of what was written and that of what was read.
    Damaged {
        page: u64,
        kept: [u8; 32],
        read: [u8; 32],
    },
}

impl From<NoMemory> for PageFault {
    ghost from_gives = { λ _ fault. fault ≡ Memory };

    fn from(_: NoMemory) -> Self {
        PageFault::Memory
    }
}

impl From<DiskFault> for PageFault {
    ghost from_gives = { λ why fault. fault ≡ page_fault why };

    fn from(why: DiskFault) -> Self {
        match why {
            DiskFault::Memory => PageFault::Memory,
            DiskFault::Failed => PageFault::Device,
        }
    }
}
