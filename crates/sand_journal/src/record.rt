ghost use Rattle.std.specs.Prelude.{◌≡◌, ◌+◌, ◌^◌, ◌<◌, [], ◌∷◌, ◌++◌, length, IfOk};
ghost use Rattle.sand_journal.specs.Images.{IsShort, framed};

use crate::gate::GATE_SHUT;
use sand_base::NoMemory;
use std::alloc::Global;
use std::marker::Model;

/// A record that waits to be appended: a length, a body and the gate that follows it, as they are written. Contracts
/// see the list of the body's bytes.
#[derive(Drop)]
pub struct Record {
    bytes: Vec<u8>,
}

impl Model for Record {
    ghost use Rattle.std.specs.Prelude.{ℕ, List};
    ghost use Rattle.sand_journal.specs.Record.{IsEntry, body_in};

    ghost Value = { List ℕ };

    ghost view = { λ one. body_in one.bytes.items };

    ghost invariant = { λ one. IsEntry one.bytes.items };
}

impl Record {
    /// The record with this body.
    pub fn with_body(alloc: Global, body: &[u8]) -> Result<Record, NoMemory>
        requires { length body.now < 2 ^ 32 }
        ensures body { IfOk result (λ one. one ≡ body.now) }
        ensures short { IfOk result (λ one. IsShort one) }
    {
        let size = body.len() as u32;
        let mut bytes = Vec::with_capacity(alloc, body.len() + 5)?;
        bytes.extend_from_slice(&size.to_be_bytes())?;
        bytes.extend_from_slice(body)?;
        bytes.push(GATE_SHUT)?;
        Ok(Record { bytes })
    }

    // What is written behind a gate.
    pub(crate) fn as_bytes(&self) -> &[u8]
        ensures bytes { result.now ≡ framed self.now ++ 0 ∷ [] }
        ensures short { IsShort self.now }
    {
        &self.bytes
    }

    /// From its gate to the next, in bytes.
    pub fn step(&self) -> u64
        ensures step { result ≡ length self.now + 5 }
        ensures short { IsShort self.now }
    {
        self.bytes.len() as u64
    }
}
