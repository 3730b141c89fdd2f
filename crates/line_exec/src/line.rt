ghost use Rattle.std.specs.Prelude.{◌≤◌, [], List, Option, Some, IfErr, length};
ghost use Rattle.line_meaning.specs.Carrying.{FollowsMoment};
ghost use Rattle.open_cursors.specs.Carried.{AreCounted};
ghost use Rattle.open_cursors.specs.OpenCursors.{AreHeld, HaveOwnNames};
ghost use Rattle.open_cursors.specs.OverPages.{AreStanding, StandOver};
ghost use Rattle.sand_journal.specs.ChangeBody.{ChangeValue};
ghost use Rattle.sand_model.specs.Cursor.{Cursor};
ghost use Rattle.sand_store.specs.Contents.{database};
ghost use Rattle.script_text.specs.declared.TheConstants.{LONGEST_LINE};
ghost use Rattle.statement_exec.specs.Moment.{moment_of, state_with, while_open};
ghost use Rattle.line_exec.specs.Keeping.{AcceptsUnfailed, HasLineCause, IsUntold, KeepsOn, TakesUpTo, last_end, sink_result, tape_count};
ghost use Rattle.line_exec.specs.KeptChanges.{KeepsIfAny};
ghost use Rattle.line_exec.specs.LineCarried.{CarriesKept, LineCarried};

use crate::LineFault;
use crate::keeping::of_sink;
use crate::statement::carry_statement;
use line_meaning::read_line;
use open_cursors::OpenCursor;
use page_pool::Disk;
use plan_ops::{Source, Stage};
use sand_base::{Shelf, Sink};
use sand_journal::{Journal, Tape};
use sand_store::Store;
use statement_exec::refuse;
use std::alloc::Global;

/// Carries a line out on a store, beside the cursors that are open over it, and writes what it prints. The answer says
/// whether the line was refused: `Ok(false)` behind a line that was carried out or passed over, `Ok(true)` where the
/// last line written is that of a refusal, and then the relations are as they were; `Err` where the sink failed, which
/// took a prefix of what the line printed. The cursors stay as they stand, but that an `open` adds one, a `close` takes
/// one away and a `next` takes rows of one.
pub fn carry_line<D: Disk, H: Shelf, K: Sink, T: Tape>(
    alloc: Global,
    store: Store<D>,
    cursors: &mut Vec<OpenCursor<Source, Stage>>,
    line: &[u8],
    shelf: &mut H,
    out: &mut K,
    journal: &mut Option<Journal<T>>,
) -> (Store<D>, Result<bool, LineFault>)
    requires short { length line.now ≤ LONGEST_LINE }
    requires journal { TakesUpTo T.seen last_end journal.old }
    requires stands { AreStanding store.pool cursors.old.items }
    ensures carried { (kept : Option (List ChangeValue)) × ((cs : List Cursor) → HaveOwnNames cs → AreCounted cs → StandOver store.pool cursors.old.items cs
        → LineCarried (CarriesKept (Some line.now) kept) (while_open store (H.files shelf.old) (H.faults shelf.old))
        (while_open result.0 (H.files shelf.new) (H.faults shelf.new)) cs
        (K.took out.old) (K.took out.new) (sink_result result.1) (StandOver result.0.pool cursors.new.items))
        × KeepsIfAny T.seen journal.old journal.new kept (moment_of store (H.files shelf.old) (H.faults shelf.old)) (state_with [] (database result.0)) result.1 }
    ensures held { AreHeld result.0.pool.stamps cursors.new.items }
    ensures follows { FollowsMoment (moment_of store (H.files shelf.old) (H.faults shelf.old)) (moment_of result.0 (H.files shelf.new) (H.faults shelf.new)) }
    ensures keeps { KeepsOn T.seen journal.old journal.new result.1 }
    ensures untold { IfErr result.1 (IsUntold (K.took out.old) (K.took out.new) (moment_of store (H.files shelf.old) (H.faults shelf.old))
        (moment_of result.0 (H.files shelf.new) (H.faults shelf.new))) }
    ensures cause { HasLineCause (K.faults out.old) (K.faults out.new) (tape_count T.seen journal.old) (tape_count T.seen journal.new) result.1 }
    ensures unfailed { AcceptsUnfailed store.pool result.0.pool result.1 }
{
    match read_line(alloc, line) {
        Ok(Some(statement)) => {
            carry_statement(alloc, store, cursors, statement, shelf, out, journal)
        }
        Ok(None) => (store, Ok(false)),
        Err(why) => (store, of_sink(refuse(out, why))),
    }
}
