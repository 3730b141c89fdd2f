use std::alloc::AllocError;

/// Why a row has no encoding.
#[derive(Clone, Copy, Debug, PartialEq, Eq)]
pub enum CodecFault {
    /// Memory was refused.
    Memory,
    /// The row takes more than 3,900 bytes.
    TupleTooLong,
}

impl From<AllocError> for CodecFault {
    ghost use Rattle.std.specs.Prelude.{◌≡◌};
    ghost use Rattle.tuple_codec.specs.declared.fault.CodecFault.TheVariants.{Memory};

    ghost from_gives = { λ _ fault. fault ≡ Memory };

    fn from(_: AllocError) -> Self {
        CodecFault::Memory
    }
}
