ghost use Rattle.std.specs.Prelude.{◌≡◌, ◌≤◌, Some, length};
ghost use Rattle.std.specs.Io.{ReadsAtMost};
ghost use Rattle.std.specs.Io.KnownBytes.{ReadConsumes};
ghost use Rattle.sand_base.specs.Calls.{no_calls};
ghost use Rattle.sand_base.specs.Faults.{HasCause};
ghost use Rattle.sand_base.specs.MemSource.{ReadsPiece};

use crate::{Calls, Failed, Source, SureSource};
use std::alloc::Global;
use std::marker::Model;

/// A source in memory that fails at the calls that a list names.
#[derive(Drop)]
pub struct MemSource {
    source: SureSource,
    calls: Calls,
}

impl Model for MemSource {
    ghost use Rattle.sand_base.specs.MemSource.{SourceState};

    ghost Value = { SourceState };

    ghost view = { λ a. record { left = a.source.left; chunk = a.source.chunk; calls = a.calls } };
}

impl MemSource {
    /// A source of these bytes. A read gives at most `chunk` of them, and fails where `fails` has the number of
    /// the call, which counts from 1.
    pub fn new(alloc: Global, bytes: Vec<u8>, chunk: usize, fails: Vec<u64>) -> MemSource
        requires { 1 ≤ chunk }
        ensures { result ≡ record { left = bytes.items; chunk = chunk; calls = no_calls fails.items } }
    {
        MemSource {
            source: SureSource::new(alloc, bytes, chunk),
            calls: Calls::new(fails),
        }
    }
}

impl Source for MemSource {
    ghost left = { λ s. Some s.left };

    ghost faults = { λ s. s.calls.faults };

    fn read(&mut self, piece: &mut [u8]) -> Result<usize, Failed>
        ensures bound { ReadsAtMost result piece.new }
        ensures bytes { ReadConsumes (Some self.old.left) (Some self.new.left) result piece.new }
        ensures cause { HasCause self.old.calls.faults self.new.calls.faults result }
        ensures step { ReadsPiece self.old self.new result (length piece.old) }
    {
        self.calls.begin()?;
        Ok(self.source.fill(piece))
    }
}
