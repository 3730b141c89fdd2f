// A tape in memory that writes in place and tells nothing.
ghost use Rattle.std.specs.Prelude.{◌≤◌, length};
ghost use Rattle.benches.specs.Untold.{untold, untold_follows};

use sand_base::{Calls, Failed, NoMemory};
use sand_journal::Tape;
use std::alloc::Global;

/// A tape in memory that writes in place. Its syncs do nothing, and it tells nothing of its bytes.
#[derive(Drop)]
pub struct PlainTape {
    bytes: Vec<u8>,
    started: bool,
    calls: Calls,
}

impl PlainTape {
    /// An empty tape.
    pub fn new(alloc: Global) -> PlainTape {
        PlainTape {
            bytes: Vec::new(alloc),
            started: false,
            calls: Calls::new(Vec::new(alloc)),
        }
    }

    /// The bytes that it holds.
    pub fn bytes(&self) -> &[u8] {
        &self.bytes
    }
}

// Copies what the bytes have from this place on into the front of the piece, and says how many they are.
fn copy_from(bytes: &[u8], at: u64, piece: &mut [u8]) -> usize
    ensures { result ≤ length piece.new }
{
    if at >= bytes.len() as u64 {
        return 0;
    }
    let rest = &bytes[at as usize..];
    let count = piece.len().min(rest.len());
    piece[..count].copy_from_slice(&rest[..count]);
    count
}

// Puts a piece over the bytes from this place on, and past their end.
fn put_over(bytes: &mut Vec<u8>, at: usize, piece: &[u8]) -> Result<(), NoMemory>
    requires { at ≤ length bytes.old.items }
{
    let (over, past) = piece.split_at(piece.len().min(bytes.len() - at));
    bytes[at..at + over.len()].copy_from_slice(over);
    bytes.extend_from_slice(past)?;
    Ok(())
}

impl Tape for PlainTape {
    ghost seen = { untold };

    ghost reads_an_image = { λ tape told. untold_follows told };

    ghost now_counts = { λ tape t image told le left. untold_follows told };

    ghost now_is_all = { λ tape image told since. untold_follows told };

    fn start(&mut self, _name: &str) -> Result<(), Failed> {
        self.started = true;
        Ok(())
    }

    fn read_at(&mut self, at: u64, piece: &mut [u8]) -> Result<usize, Failed> {
        Ok(copy_from(&self.bytes, at, piece))
    }

    /// A write past the end fails, as one does for want of memory.
    fn write_at(&mut self, at: u64, bytes: &[u8]) -> Result<(), Failed> {
        if at > self.bytes.len() as u64 {
            return Err(self.calls.fault());
        }
        match put_over(&mut self.bytes, at as usize, bytes) {
            Ok(()) => Ok(()),
            Err(_) => Err(self.calls.fault()),
        }
    }

    fn sync(&mut self) -> Result<(), Failed> {
        Ok(())
    }
}
