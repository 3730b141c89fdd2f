/// The byte of a gate that is open: a record stands behind it.
pub const GATE_OPEN: u8 = 1;

/// The byte of a gate that isn't, as it is written.
pub const GATE_SHUT: u8 = 0;

/// The greatest place of a gate that is read.
pub const LAST_GATE: u64 = 1 << 62;

/// How many bytes the gate and the length of a record have.
pub const HEAD_BYTES: u64 = 5;
