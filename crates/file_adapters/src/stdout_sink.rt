ghost use Rattle.std.specs.Prelude.{◌≡◌};
ghost use Rattle.file_adapters.specs.Written.{HoldsBytes};

use sand_base::{Failed, Sink};
use std::io::Write;

/// A writer as the sink of the answers: standard output in the program. It has taken the bytes that the writer
/// tells it holds (standard output tells nothing). It counts its faults; a write that takes no byte is one.
#[derive(Drop)]
pub struct StdoutSink<W: Write + Drop> {
    output: W,
    faults: u64,
}

impl<W: Write + Drop> StdoutSink<W> {
    /// A sink into this writer, with no fault so far.
    pub fn new(output: W) -> StdoutSink<W>
        ensures output { result.output ≡ output }
        ensures faults { result.faults ≡ 0 }
    {
        StdoutSink { output, faults: 0 }
    }
}

impl<W: Write + Drop> Sink for StdoutSink<W> {
    ghost took = { λ s. HoldsBytes (W.contents s.output) };

    ghost faults = { λ s. s.faults };

    fn write(&mut self, piece: &[u8]) -> Result<usize, Failed> {
        match self.output.write(piece) {
            Ok(n) if n > 0 => Ok(n),
            _ => {
                self.faults = self.faults.saturating_add(1);
                Err(Failed {})
            }
        }
    }
}
