ghost use Rattle.std.specs.Prelude.{◌≡◌, ◌<◌, ◌≤◌, ℕ, List, [], length, IfOk};
ghost use Rattle.sand_base.specs.Faults.{HasCause};
ghost use Rattle.sand_base.specs.Streams.{TakesFront};
ghost use Rattle.work_gen.specs.Summary.{summary};
ghost use Rattle.work_gen.specs.Taken.{HasTakenText};

use crate::SummaryText;
use crate::summary_text::{append_count, append_digest};
use sand_base::{Failed, Sink};
use sha2::{Digest, Sha256};

/// A sink that keeps of what it took only the number of its bytes, which stays at the greatest u64, and its digest. It never
/// fails.
#[derive(Drop)]
pub struct DigestSink {
    hasher: Sha256,
    bytes: u64,
}

impl DigestSink {
    /// A sink that has taken nothing.
    pub fn new() -> DigestSink
        ensures { HasTakenText result [] }
    {
        DigestSink {
            hasher: Sha256::new(),
            bytes: 0,
        }
    }

    /// The summary of a run of so many lines, some of them refused, whose text the sink took.
    pub fn summary(self, lines: u64, refused: u64) -> SummaryText
        ensures { (text : List ℕ) → HasTakenText self text → result ≡ summary lines refused text }
    {
        let DigestSink { hasher, bytes } = self;
        let mut text = SummaryText::new();
        append_count(&mut text, "lines", lines);
        append_count(&mut text, "refused", refused);
        append_count(&mut text, "bytes", bytes);
        append_digest(&mut text, &hasher.finalize());
        text
    }
}

impl Sink for DigestSink {
    ghost took = { λ sink text. HasTakenText sink text };

    ghost faults = { λ sink. 0 };

    fn write(&mut self, piece: &[u8]) -> Result<usize, Failed>
        requires { 0 < length piece.now }
        ensures count { IfOk result (λ n. (1 ≤ n) × (n ≤ length piece.now)) }
        ensures bytes { TakesFront (HasTakenText self.old) (HasTakenText self.new) result piece.now }
        ensures cause { HasCause 0 0 result }
    {
        self.hasher.update(piece);
        self.bytes = self.bytes.saturating_add(piece.len() as u64);
        Ok(piece.len())
    }
}
