ghost use Rattle.std.specs.Prelude.{◌≡◌};
ghost use Rattle.pmr_tree.specs.declared.fault.PmrFault.TheVariants.{Memory};
ghost use Rattle.pmr_tree.specs.Plot.{pmr_fault};

use page_pool::PageFault;
use std::alloc::{AllocError, AllocFailed};

/// Why a quadtree could not be read or changed.
#[derive(Clone, Copy, Debug, PartialEq, Eq)]
pub enum PmrFault {
    /// Memory was refused.
    Memory,
    /// The disk failed.
    Device,
    /// The disk gave other bytes than were written: the digest of what was written and that of what was read.
    Damaged {
        page: u64,
        kept: [u8; 32],
        read: [u8; 32],
    },
    /// The tree would have more listings than the limit.
    IndexFull,
}

impl From<AllocError> for PmrFault {
    ghost from_gives = { λ _ fault. fault ≡ Memory };

    fn from(_: AllocError) -> Self {
        PmrFault::Memory
    }
}

impl<T: Drop> From<AllocFailed<T>> for PmrFault {
    ghost from_gives = { λ _ fault. fault ≡ Memory };

    fn from(_: AllocFailed<T>) -> Self {
        PmrFault::Memory
    }
}

impl From<PageFault> for PmrFault {
    ghost from_gives = { λ why fault. fault ≡ pmr_fault why };

    fn from(why: PageFault) -> Self {
        match why {
            PageFault::Memory => PmrFault::Memory,
            PageFault::Device => PmrFault::Device,
            PageFault::Damaged { page, kept, read } => PmrFault::Damaged { page, kept, read },
        }
    }
}
