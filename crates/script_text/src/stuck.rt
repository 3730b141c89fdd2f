use sand_base::NoMemory;
use std::alloc::{AllocError, AllocFailed};

/// Why a step of the reader gives nothing.
#[derive(Clone, Copy, Debug, PartialEq, Eq)]
pub enum Stuck {
    /// Memory was refused.
    Memory,
    /// No statement goes on with the next token.
    Here,
}

impl From<NoMemory> for Stuck {
    ghost use Rattle.std.specs.Prelude.{◌≡◌};
    ghost use Rattle.script_text.specs.declared.stuck.Stuck.TheVariants.{Memory};

    ghost from_gives = { λ _ stuck. stuck ≡ Memory };

    fn from(_: NoMemory) -> Self {
        Stuck::Memory
    }
}

impl From<AllocError> for Stuck {
    ghost use Rattle.std.specs.Prelude.{◌≡◌};
    ghost use Rattle.script_text.specs.declared.stuck.Stuck.TheVariants.{Memory};

    ghost from_gives = { λ _ stuck. stuck ≡ Memory };

    fn from(_: AllocError) -> Self {
        Stuck::Memory
    }
}

impl<T: Drop> From<AllocFailed<T>> for Stuck {
    ghost use Rattle.std.specs.Prelude.{◌≡◌};
    ghost use Rattle.script_text.specs.declared.stuck.Stuck.TheVariants.{Memory};

    ghost from_gives = { λ _ stuck. stuck ≡ Memory };

    fn from(_: AllocFailed<T>) -> Self {
        Stuck::Memory
    }
}
