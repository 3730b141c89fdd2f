ghost use Rattle.std.specs.Prelude.{◌≡◌, ◌<◌, ◌≤◌, ℕ, List, [], length, IfOk};
ghost use Rattle.sand_base.specs.Faults.{HasCause};
ghost use Rattle.sand_base.specs.Streams.{TakesFront};
ghost use Rattle.work_gen.specs.RefusedLines.{refused_lines};
ghost use Rattle.work_gen.specs.Summary.{summary};
ghost use Rattle.work_gen.specs.Taken.{HasTallied};

use crate::tally::Tally;
use crate::{DigestSink, SummaryText};
use sand_base::{Failed, Sink};

/// A sink that keeps of what it took the digest, the number of its bytes, and how many of its lines begin with `refused`. Both
/// numbers stay at the greatest u64. It never fails.
#[derive(Drop)]
pub struct TallySink {
    digest: DigestSink,
    tally: Tally,
}

impl TallySink {
    /// A sink that has taken nothing.
    pub fn new() -> TallySink
        ensures { HasTallied result [] }
    {
        TallySink {
            digest: DigestSink::new(),
            tally: Tally::new(),
        }
    }

    /// The summary of a run of so many lines, whose text the sink took.
    pub fn summary(self, lines: u64) -> SummaryText
        ensures { (text : List ℕ) → HasTallied self text → result ≡ summary lines (refused_lines text) text }
    {
        let refused = self.tally.refused();
        self.digest.summary(lines, refused)
    }
}

impl Sink for TallySink {
    ghost took = { λ sink text. HasTallied sink text };

    ghost faults = { λ sink. 0 };

    fn write(&mut self, piece: &[u8]) -> Result<usize, Failed>
        requires { 0 < length piece.now }
        ensures count { IfOk result (λ n. (1 ≤ n) × (n ≤ length piece.now)) }
        ensures bytes { TakesFront (HasTallied self.old) (HasTallied self.new) result piece.now }
        ensures cause { HasCause 0 0 result }
    {
        let count = self.digest.write(piece)?;
        self.tally.take(&piece[..count]);
        Ok(count)
    }
}
