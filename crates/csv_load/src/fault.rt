use sand_base::{Failed, NoMemory};
use std::alloc::{AllocError, AllocFailed};

/// Why a data file gives no rows.
#[derive(Clone, Copy, Debug, PartialEq, Eq)]
pub enum LoadFault {
    /// Memory was refused.
    Memory,
    /// The shelf failed.
    File,
    /// The file has more than 67,108,864 bytes.
    FileTooLong,
    /// A record is no row. The record and its leftmost bad column count from 1, a header that is left out included.
    BadRecord { row: u32, column: u32 },
}

impl From<AllocError> for LoadFault {
    ghost use Rattle.std.specs.Prelude.{◌≡◌};
    ghost use Rattle.csv_load.specs.declared.fault.LoadFault.TheVariants.{Memory};

    ghost from_gives = { λ _ fault. fault ≡ Memory };

    fn from(_: AllocError) -> Self {
        LoadFault::Memory
    }
}

impl From<NoMemory> for LoadFault {
    ghost use Rattle.std.specs.Prelude.{◌≡◌};
    ghost use Rattle.csv_load.specs.declared.fault.LoadFault.TheVariants.{Memory};

    ghost from_gives = { λ _ fault. fault ≡ Memory };

    fn from(_: NoMemory) -> Self {
        LoadFault::Memory
    }
}

impl<T: Drop> From<AllocFailed<T>> for LoadFault {
    ghost use Rattle.std.specs.Prelude.{◌≡◌};
    ghost use Rattle.csv_load.specs.declared.fault.LoadFault.TheVariants.{Memory};

    ghost from_gives = { λ _ fault. fault ≡ Memory };

    fn from(_: AllocFailed<T>) -> Self {
        LoadFault::Memory
    }
}

impl From<Failed> for LoadFault {
    ghost use Rattle.std.specs.Prelude.{◌≡◌};
    ghost use Rattle.csv_load.specs.declared.fault.LoadFault.TheVariants.{File};

    ghost from_gives = { λ _ fault. fault ≡ File };

    fn from(_: Failed) -> Self {
        LoadFault::File
    }
}
