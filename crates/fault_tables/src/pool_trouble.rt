use page_pool::PageFault;
use sand_base::NoMemory;
use std::alloc::{AllocError, AllocFailed};

/// Why a run did not come to its end.
#[derive(Clone, Copy, PartialEq, Eq)]
pub enum Trouble {
    /// Memory was short.
    Memory,
    /// A call was refused twice, though one call of the disk fails at most.
    Refused,
    /// A page that should be live is not.
    Missing,
}

impl From<NoMemory> for Trouble {
    fn from(_: NoMemory) -> Self {
        Trouble::Memory
    }
}

impl From<AllocError> for Trouble {
    fn from(_: AllocError) -> Self {
        Trouble::Memory
    }
}

impl<T: Drop> From<AllocFailed<T>> for Trouble {
    fn from(_: AllocFailed<T>) -> Self {
        Trouble::Memory
    }
}

impl From<PageFault> for Trouble {
    fn from(fault: PageFault) -> Self {
        match fault {
            PageFault::Memory => Trouble::Memory,
            _ => Trouble::Refused,
        }
    }
}
