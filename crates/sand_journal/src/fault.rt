ghost use Rattle.std.specs.Prelude.{◌≡◌};
ghost use Rattle.sand_journal.specs.declared.fault.JournalFault.TheVariants.{Memory, Failed};

use sand_base::{Failed, NoMemory};
use std::alloc::{AllocError, AllocFailed};

/// Why a journal gives no change.
#[derive(Clone, Copy, Debug, PartialEq, Eq)]
pub enum JournalFault {
    /// Memory was refused.
    Memory,
    /// The tape failed.
    Failed,
    /// The open record of this number, counted from 1, is none: its body is not of the form, the file ends before the
    /// gate that follows it, or that gate would stand above byte 2^62.
    Bad { number: u32 },
}

impl From<NoMemory> for JournalFault {
    ghost from_gives = { λ _ why. why ≡ Memory };

    fn from(_: NoMemory) -> Self {
        JournalFault::Memory
    }
}

impl From<AllocError> for JournalFault {
    ghost from_gives = { λ _ why. why ≡ Memory };

    fn from(_: AllocError) -> Self {
        JournalFault::Memory
    }
}

impl<T: Drop> From<AllocFailed<T>> for JournalFault {
    ghost from_gives = { λ _ why. why ≡ Memory };

    fn from(_: AllocFailed<T>) -> Self {
        JournalFault::Memory
    }
}

impl From<Failed> for JournalFault {
    ghost from_gives = { λ _ why. why ≡ Failed };

    fn from(_: Failed) -> Self {
        JournalFault::Failed
    }
}
