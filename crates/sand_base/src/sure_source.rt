ghost use Rattle.std.specs.Prelude.{◌≡◌, ◌<◌, ◌≤◌, [], Some, length, take, drop};
ghost use Rattle.std.specs.Io.{ReadsAtMost};
ghost use Rattle.std.specs.Io.KnownBytes.{ReadConsumes};
ghost use Rattle.sand_base.specs.Faults.{HasCause};
ghost use Rattle.sand_base.specs.SureSource.{SureReads, given_count};

use crate::{Failed, Source};
use std::alloc::Global;
use std::marker::Model;

/// A source in memory that never fails.
#[derive(Drop)]
pub struct SureSource {
    bytes: Vec<u8>,
    at: usize,
    chunk: usize,
}

impl Model for SureSource {
    ghost use Rattle.std.specs.Prelude.{◌≤◌, drop, length};
    ghost use Rattle.sand_base.specs.SureSource.{SureState};

    ghost Value = { SureState };

    ghost view = { λ a. record { left = drop a.at a.bytes.items; chunk = a.chunk } };

    ghost invariant = { λ a. (a.at ≤ length a.bytes.items) × (1 ≤ a.chunk) };
}

impl SureSource {
    /// A source of these bytes. A read gives at most `chunk` of them.
    pub fn new(_alloc: Global, bytes: Vec<u8>, chunk: usize) -> SureSource
        requires { 1 ≤ chunk }
        ensures { result ≡ record { left = bytes.items; chunk = chunk } }
    {
        SureSource {
            bytes,
            at: 0,
            chunk,
        }
    }

    /// What `read` does, with its count of bytes alone.
    pub(crate) fn fill(&mut self, piece: &mut [u8]) -> usize
        ensures count { result ≡ given_count self.old.chunk self.old.left (length piece.old) }
        ensures left { self.new ≡ record self.old { left = drop result self.old.left } }
        ensures bytes { take result piece.new ≡ take result self.old.left }
        ensures end { 0 < length piece.old → result ≡ 0 → self.old.left ≡ [] }
    {
        let count = self.chunk.min(piece.len()).min(self.bytes.len() - self.at);
        piece[..count].copy_from_slice(&self.bytes[self.at..self.at + count]);
        self.at += count;
        count
    }
}

impl Source for SureSource {
    ghost left = { λ s. Some s.left };

    ghost faults = { λ s. 0 };

    fn read(&mut self, piece: &mut [u8]) -> Result<usize, Failed>
        ensures bound { ReadsAtMost result piece.new }
        ensures bytes { ReadConsumes (Some self.old.left) (Some self.new.left) result piece.new }
        ensures cause { HasCause 0 0 result }
        ensures step { SureReads self.old self.new result (length piece.old) }
    {
        Ok(self.fill(piece))
    }
}
