ghost use Rattle.std.specs.Prelude.{◌≡◌};

use std::marker::Model;

/// A held stamp: the live pages as they were when it was taken, which its pool keeps until it is released.
#[derive(Drop)]
pub struct Stamp {
    slot: u64,
}

impl Model for Stamp {
    ghost use Rattle.std.specs.Prelude.{ℕ};

    ghost Value = { ℕ };

    ghost view = { λ stamp. stamp.slot };
}

impl Stamp {
    pub(crate) fn new(slot: u64) -> Stamp
        ensures { result ≡ slot }
    {
        Stamp { slot }
    }

    pub(crate) fn slot(&self) -> u64
        ensures { result ≡ self.now }
    {
        self.slot
    }
}
