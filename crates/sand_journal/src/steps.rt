ghost use Rattle.std.specs.Prelude.{◌≡◌, ◌+◌, ◌^◌, ◌<◌, ◌≤◌, ℕ, List, [], ◌∷◌, ◌++◌, length, IsTrue, OnOk};
ghost use Rattle.sand_base.specs.Faults.{HasCause};
ghost use Rattle.sand_journal.specs.Images.{IsShort, HasBodies, LiesBetween, LeavesOnly};
ghost use Rattle.sand_journal.specs.Journal.{WasOpened, HasOpened, IsAtRest, IsStaged};

use crate::gate::{GATE_OPEN, GATE_SHUT};
use crate::{Record, Tape};
use sand_base::Failed;

// Syncs the tape, and writes the first gate of an empty file.
pub(crate) fn begin<T: Tape>(tape: &mut T) -> Result<(), Failed>
    requires { IsTrue (T.seen tape.old).started }
    ensures opened { WasOpened (T.seen tape.old) (T.seen tape.new) }
    ensures done { OnOk result (HasOpened (T.seen tape.old) (T.seen tape.new)) }
    ensures cause { HasCause (T.seen tape.old).faults (T.seen tape.new).faults result }
{
    tape.sync()?;
    let mut first = [0u8; 1];
    if tape.read_at(0, &mut first)? == 0 {
        tape.write_at(0, &[GATE_SHUT])?;
        tape.sync()?;
    }
    Ok(())
}

// Writes a record behind the gate at this place, which stays shut, and makes it durable.
pub(crate) fn stage<T: Tape>(tape: &mut T, end: u64, entry: &Record) -> Result<(), Failed>
    requires room { end < 2 ^ 63 }
    requires gate { IsTrue (T.seen tape.old).told → end < length (T.seen tape.old).bytes }
    ensures staged { OnOk result ((bodies : List (List ℕ)) → IsAtRest (T.seen tape.old) end bodies → IsStaged (T.seen tape.new) end bodies entry.now) }
    ensures any_moment { (bodies : List (List ℕ)) → IsAtRest (T.seen tape.old) end bodies → IsTrue (T.seen tape.old).told
        → LeavesOnly (T.seen tape.old) (T.seen tape.new) (HasBodies bodies) }
    ensures told { (T.seen tape.new).told ≡ (T.seen tape.old).told }
    ensures cause { HasCause (T.seen tape.old).faults (T.seen tape.new).faults result }
{
    tape.write_at(end + 1, entry.as_bytes())?;
    tape.sync()?;
    Ok(())
}

// Opens the gate at this place, behind which a record is durable.
pub(crate) fn open_gate<T: Tape>(tape: &mut T, end: u64) -> Result<(), Failed>
    requires { IsTrue (T.seen tape.old).told → end ≤ length (T.seen tape.old).bytes }
    ensures opened { OnOk result ((bodies : List (List ℕ)) (body : List ℕ) → IsStaged (T.seen tape.old) end bodies body
        → IsAtRest (T.seen tape.new) (end + length body + 5) (bodies ++ body ∷ [])) }
    ensures any_moment { (bodies : List (List ℕ)) (body : List ℕ) → IsStaged (T.seen tape.old) end bodies body → IsTrue (T.seen tape.old).told
        → LeavesOnly (T.seen tape.old) (T.seen tape.new) (LiesBetween bodies (bodies ++ body ∷ [])) }
    ensures told { (T.seen tape.new).told ≡ (T.seen tape.old).told }
    ensures cause { HasCause (T.seen tape.old).faults (T.seen tape.new).faults result }
{
    tape.write_at(end, &[GATE_OPEN])?;
    tape.sync()?;
    Ok(())
}
