// The writes and syncs of a journal, without it.
use crate::plain_tape::PlainTape;
use crate::sample::body;
use sand_base::{Failed, NoMemory};
use sand_journal::{JournalFault, Tape};
use std::alloc::Global;

// What is written behind a gate: a length, the body and a shut gate.
fn framed(alloc: Global, body: &[u8]) -> Result<Vec<u8>, NoMemory> {
    let mut piece = Vec::new(alloc);
    piece.extend_from_slice(&u32::try_from(body.len()).unwrap_or(0).to_be_bytes())?;
    piece.extend_from_slice(body)?;
    piece.push(0)?;
    Ok(piece)
}

// Writes a piece and opens the gate before it, so many times, where there is room.
fn write_all(tape: &mut PlainTape, piece: &[u8], count: u32) -> Result<(), Failed> {
    let mut end = 0u64;
    'records: for _ in 0..count {
        if end > 1 << 40 {
            break;
        }
        tape.write_at(end + 1, piece)?;
        tape.sync()?;
        tape.write_at(end, &[1])?;
        tape.sync()?;
        end = end.saturating_add(piece.len() as u64);
    }
    Ok(())
}

/// Writes so many records to a new tape.
pub fn append(alloc: Global, count: u32) -> Result<PlainTape, JournalFault> {
    let piece = framed(alloc, &body())?;
    let mut tape = PlainTape::new(alloc);
    tape.write_at(0, &[0])?;
    tape.sync()?;
    write_all(&mut tape, &piece, count)?;
    Ok(tape)
}
