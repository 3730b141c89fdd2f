ghost use Rattle.std.specs.Prelude.{◌≡◌, ◌+◌, ◌≤◌, [], length, IfOk, OnErr, nat_lt};
ghost use Rattle.std.specs.Io.KnownBytes.{Keeps, ReadConsumes};
ghost use Rattle.sand_base.specs.Faults.{HasCause};
ghost use Rattle.script_lines.specs.Parts.{Refills, TakesByte};
ghost use Rattle.script_lines.specs.declared.TheConstants.{LONGEST_SCRIPT};

use crate::LONGEST_SCRIPT;
use sand_base::{Failed, Source};
use std::marker::Model;

// How many bytes of the script are asked for at a time.
const PIECE: usize = 4_096;

/// The piece of the script in hand. Contracts see the bytes of it that are ahead, and how many were read in all.
#[derive(Drop)]
pub(crate) struct Chunk {
    piece: [u8; PIECE],
    at: usize,
    filled: usize,
    count: usize,
}

impl Model for Chunk {
    ghost use Rattle.std.specs.Prelude.{◌≤◌, ◌+◌, drop, take};
    ghost use Rattle.script_lines.specs.Parts.{ChunkState};
    ghost use Rattle.script_lines.specs.declared.TheConstants.{LONGEST_SCRIPT};

    ghost Value = { ChunkState };

    ghost view = { λ c. record { ahead = drop c.at (take c.filled c.piece); count = c.count } };

    ghost invariant = { λ c. (c.at ≤ c.filled) × (c.filled ≤ 4096) × (c.count ≤ LONGEST_SCRIPT + 1) };
}

impl Chunk {
    /// Before the first read.
    pub(crate) fn new() -> Chunk
        ensures { result ≡ record { ahead = []; count = 0 } }
    {
        Chunk {
            piece: [0u8; PIECE],
            at: 0,
            filled: 0,
            count: 0,
        }
    }

    /// The next byte ahead.
    pub(crate) fn next(&mut self) -> Option<u8>
        ensures { TakesByte self.old self.new result }
    {
        if self.at == self.filled {
            return None;
        }
        let byte = self.piece[self.at];
        self.at += 1;
        Some(byte)
    }

    /// Whether a byte was read that a script may not have.
    pub(crate) fn is_over(&self) -> bool
        ensures { result ≡ nat_lt LONGEST_SCRIPT self.now.count }
    {
        self.count > LONGEST_SCRIPT
    }

    /// Reads the next bytes, at most one byte more than a script may have. False at the end of the script.
    pub(crate) fn refill<S: Source>(&mut self, script: &mut S) -> Result<bool, Failed>
        requires over { self.old.ahead ≡ [] }
        requires room { self.old.count ≤ LONGEST_SCRIPT }
        ensures refills { IfOk result (λ some. Refills some self.old self.new (S.left script.old) (S.left script.new)) }
        ensures stays { OnErr result (Keeps (S.left script.old) (S.left script.new) × (self.new ≡ self.old)) }
        ensures cause { HasCause (S.faults script.old) (S.faults script.new) result }
    {
        let want = PIECE.min(LONGEST_SCRIPT + 1 - self.count);
        let n = match read_piece(script, &mut self.piece, want) {
            Ok(n) => n,
            Err(Failed {}) => return Err(Failed {}),
        };
        self.count += n;
        self.at = 0;
        self.filled = if self.count > LONGEST_SCRIPT {
            n - 1
        } else {
            n
        };
        Ok(n > 0)
    }
}

// Reads the next bytes into the front of the piece, at most as many as are wanted.
fn read_piece<S: Source>(script: &mut S, piece: &mut [u8], want: usize) -> Result<usize, Failed>
    requires some { 1 ≤ want }
    requires room { want ≤ length piece.old }
    ensures bound { IfOk result (λ n. n ≤ want) }
    ensures bytes { ReadConsumes (S.left script.old) (S.left script.new) result piece.new }
    ensures cause { HasCause (S.faults script.old) (S.faults script.new) result }
{
    let n = script.read(&mut piece[..want])?;
    Ok(n)
}
