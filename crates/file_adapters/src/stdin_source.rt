ghost use Rattle.std.specs.Prelude.{◌≡◌};

use sand_base::{Failed, Source};
use std::io::Read;

/// A reader as the source of a script: standard input in the program. What the reader tells of the bytes to come
/// is what the source tells (standard input tells nothing). It counts its faults.
#[derive(Drop)]
pub struct StdinSource<R: Read + Drop> {
    input: R,
    faults: u64,
}

impl<R: Read + Drop> StdinSource<R> {
    /// A source of the bytes that this reader gives, with no fault so far.
    pub fn new(input: R) -> StdinSource<R>
        ensures input { result.input ≡ input }
        ensures faults { result.faults ≡ 0 }
    {
        StdinSource { input, faults: 0 }
    }
}

impl<R: Read + Drop> Source for StdinSource<R> {
    ghost left = { λ s. R.remaining s.input };

    ghost faults = { λ s. s.faults };

    fn read(&mut self, piece: &mut [u8]) -> Result<usize, Failed> {
        let Ok(n) = self.input.read(piece) else {
            self.faults = self.faults.saturating_add(1);
            return Err(Failed {});
        };
        Ok(n)
    }
}
