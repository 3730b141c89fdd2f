ghost use Rattle.std.specs.Prelude.{◌≡◌, ◌+◌, ◌-◌, ◌≤◌, ◌<◌, ◌^◌, ℕ, List, true, false, IsTrue, IfOk, IfErr, MatchBool, IfSome, IfNone, length, take, drop};
ghost use Rattle.sand_base.specs.Faults.{HasCause};
ghost use Rattle.sand_journal.specs.Ahead.{IsHead, IsAhead, IsNearAhead, IsMemoryOrTape};
ghost use Rattle.sand_journal.specs.Journal.{IsOnlyRead, HasFaultCause, StandsBehind};

use crate::gate::{GATE_OPEN, HEAD_BYTES, LAST_GATE};
use crate::{JournalFault, Tape};
use sand_base::Failed;
use std::alloc::Global;

// What the first bytes from a gate on show: a gate that isn't open, too few bytes, or an open gate and a length.
#[derive(Clone, Copy)]
pub(crate) enum Head {
    Shut,
    Cut,
    Open(u32),
}

// What stands behind the records that are passed: no more, an open record that is none, or one with this body.
#[derive(Drop)]
pub(crate) enum Ahead {
    End,
    Bad,
    Body(Vec<u8>),
}

// What these bytes of a file show, the first five from a gate on.
fn head_of(bytes: &[u8]) -> Head
    requires { length bytes.now ≤ 5 }
    ensures { IsHead bytes.now result }
{
    match bytes {
        [GATE_OPEN, a, b, c, d] => Head::Open(u32::from_be_bytes([*a, *b, *c, *d])),
        [GATE_OPEN, ..] => Head::Cut,
        _ => Head::Shut,
    }
}

// Reads the head of a record.
fn read_head<T: Tape>(tape: &mut T, at: u64) -> Result<Head, Failed>
    ensures read { IsOnlyRead (T.seen tape.old) (T.seen tape.new) }
    ensures head { IfOk result (λ head. IsTrue (T.seen tape.old).told → IsHead (take 5 (drop at (T.seen tape.old).bytes)) head) }
    ensures cause { HasCause (T.seen tape.old).faults (T.seen tape.new).faults result }
{
    let mut head = [0u8; 5];
    let count = tape.read_at(at, &mut head)?;
    Ok(head_of(&head[..count]))
}

// Whether the file has a byte at this place.
fn has_byte<T: Tape>(tape: &mut T, at: u64) -> Result<bool, Failed>
    ensures read { IsOnlyRead (T.seen tape.old) (T.seen tape.new) }
    ensures there { IfOk result (λ is_there. IsTrue (T.seen tape.old).told
        → MatchBool is_there (at < length (T.seen tape.old).bytes) (length (T.seen tape.old).bytes ≤ at)) }
    ensures cause { HasCause (T.seen tape.old).faults (T.seen tape.new).faults result }
{
    let mut byte = [0u8; 1];
    let count = tape.read_at(at, &mut byte)?;
    Ok(count > 0)
}

// Fills the piece from this place on, and says whether the file has as many bytes.
fn fill<T: Tape>(tape: &mut T, at: u64, piece: &mut [u8]) -> Result<bool, Failed>
    ensures read { IsOnlyRead (T.seen tape.old) (T.seen tape.new) }
    ensures filled { IfOk result (λ is_filled. IsTrue (T.seen tape.old).told
        → MatchBool is_filled (piece.new ≡ take (length piece.new) (drop at (T.seen tape.old).bytes))
        (length (T.seen tape.old).bytes < at + length piece.new)) }
    ensures cause { HasCause (T.seen tape.old).faults (T.seen tape.new).faults result }
{
    let count = tape.read_at(at, piece)?;
    Ok(count >= piece.len())
}

// The body at this place, or None where the file ends before the gate that follows it. Memory is taken only for a body
// that is there.
fn read_body<T: Tape>(
    alloc: Global,
    tape: &mut T,
    at: u64,
    size: u32,
) -> Result<Option<Vec<u8>>, JournalFault>
    requires { at + size ≤ 2 ^ 62 }
    ensures read { IsOnlyRead (T.seen tape.old) (T.seen tape.new) }
    ensures size { IfOk result (λ found. IfSome found (λ body. length body.items ≡ size)) }
    ensures body { IfOk result (λ found. IfSome found (λ body. IsTrue (T.seen tape.old).told
        → (at + size < length (T.seen tape.old).bytes) × (body.items ≡ take size (drop at (T.seen tape.old).bytes)))) }
    ensures none { IfOk result (λ found. IfNone found (IsTrue (T.seen tape.old).told → length (T.seen tape.old).bytes ≤ at + size)) }
    ensures outside { IfErr result IsMemoryOrTape }
    ensures cause { HasFaultCause (T.seen tape.old).faults (T.seen tape.new).faults result }
{
    if !has_byte(tape, at + u64::from(size))? {
        return Ok(None);
    }
    let mut body = vec![in alloc; 0u8; size as usize]?;
    if !fill(tape, at, &mut body)? {
        return Ok(None);
    }
    Ok(Some(body))
}

// Reads what stands behind the records that end at this gate.
pub(crate) fn look_ahead<T: Tape>(
    alloc: Global,
    tape: &mut T,
    end: u64,
) -> Result<Ahead, JournalFault>
    ensures read { IsOnlyRead (T.seen tape.old) (T.seen tape.new) }
    ensures ahead { IfOk result (λ ahead. (bodies : List (List ℕ)) → StandsBehind (T.seen tape.old) end bodies
        → IsTrue (T.seen tape.old).told → IsAhead (T.seen tape.old) bodies ahead) }
    ensures near { IfOk result (λ ahead. IsNearAhead end ahead) }
    ensures outside { IfErr result IsMemoryOrTape }
    ensures cause { HasFaultCause (T.seen tape.old).faults (T.seen tape.new).faults result }
{
    let size = match read_head(tape, end)? {
        Head::Shut => return Ok(Ahead::End),
        Head::Cut => return Ok(Ahead::Bad),
        Head::Open(size) => size,
    };
    if end > LAST_GATE - HEAD_BYTES - u64::from(size) {
        return Ok(Ahead::Bad);
    }
    match read_body(alloc, tape, end + HEAD_BYTES, size)? {
        Some(body) => Ok(Ahead::Body(body)),
        None => Ok(Ahead::Bad),
    }
}
