// A statement, carried out on a store and beside the cursors that are open.
ghost use Rattle.std.specs.Prelude.{[], ℕ, List, Option, Some, IfErr};
ghost use Rattle.line_meaning.specs.Carrying.{FollowsMoment};
ghost use Rattle.line_meaning.specs.Reading.{Says};
ghost use Rattle.open_cursors.specs.Carried.{AreCounted};
ghost use Rattle.open_cursors.specs.OpenCursors.{AreHeld, HaveOwnNames};
ghost use Rattle.open_cursors.specs.OverPages.{AreStanding, StandOver};
ghost use Rattle.sand_journal.specs.ChangeBody.{ChangeValue};
ghost use Rattle.sand_model.specs.Cursor.{Cursor};
ghost use Rattle.sand_store.specs.Contents.{database};
ghost use Rattle.script_text.specs.InRange.{IsInRange};
ghost use Rattle.statements.specs.Statement.{statement_value};
ghost use Rattle.statement_exec.specs.Moment.{moment_of, state_with, while_open};
ghost use Rattle.line_exec.specs.Keeping.{AcceptsUnfailed, HasLineCause, IsUntold, KeepsOn, TakesUpTo, last_end, sink_result, tape_count};
ghost use Rattle.line_exec.specs.KeptChanges.{KeepsIfAny};
ghost use Rattle.line_exec.specs.LineCarried.{CarriesKept, LineCarried};

use crate::LineFault;
use crate::changes::change;
use crate::keeping::{finish_kept, of_sink};
use open_cursors::{OpenCursor, end_statement, read_statement};
use page_pool::Disk;
use plan_ops::{Source, Stage};
use sand_base::{Shelf, Sink};
use sand_journal::{Journal, Tape};
use sand_store::Store;
use script_text::Statement;
use std::alloc::Global;

/// Carries a statement out, and writes what it prints. The answer says whether it was refused; after a refusal all is as
/// it was.
pub(crate) fn carry_statement<D: Disk, H: Shelf, K: Sink, T: Tape>(
    alloc: Global,
    store: Store<D>,
    cursors: &mut Vec<OpenCursor<Source, Stage>>,
    statement: Statement,
    shelf: &mut H,
    out: &mut K,
    journal: &mut Option<Journal<T>>,
) -> (Store<D>, Result<bool, LineFault>)
    requires in_range { IsInRange (statement_value statement) }
    requires journal { TakesUpTo T.seen last_end journal.old }
    requires stands { AreStanding store.pool cursors.old.items }
    ensures carried { (kept : Option (List ChangeValue))
        × ((line : List ℕ) → Says line (Some statement) → (cs : List Cursor) → HaveOwnNames cs → AreCounted cs → StandOver store.pool cursors.old.items cs
        → LineCarried (CarriesKept (Some line) kept) (while_open store (H.files shelf.old) (H.faults shelf.old))
        (while_open result.0 (H.files shelf.new) (H.faults shelf.new)) cs
        (K.took out.old) (K.took out.new) (sink_result result.1) (StandOver result.0.pool cursors.new.items))
        × KeepsIfAny T.seen journal.old journal.new kept (moment_of store (H.files shelf.old) (H.faults shelf.old)) (state_with [] (database result.0)) result.1 }
    ensures held { AreHeld result.0.pool.stamps cursors.new.items }
    ensures follows { FollowsMoment (moment_of store (H.files shelf.old) (H.faults shelf.old)) (moment_of result.0 (H.files shelf.new) (H.faults shelf.new)) }
    ensures keeps { KeepsOn T.seen journal.old journal.new result.1 }
    ensures untold { IfErr result.1 (IsUntold (K.took out.old) (K.took out.new) (moment_of store (H.files shelf.old) (H.faults shelf.old))
        (moment_of result.0 (H.files shelf.new) (H.faults shelf.new))) }
    ensures cause { HasLineCause (K.faults out.old) (K.faults out.new) (tape_count T.seen journal.old) (tape_count T.seen journal.new) result.1 }
    ensures unfailed { AcceptsUnfailed store.pool result.0.pool result.1 }
{
    let mut changed = store;
    let keeps = journal.is_some();
    match change(alloc, &mut changed, shelf, statement, keeps) {
        Ok(made) => (changed, finish_kept(journal, &made, out)),
        Err(other) => {
            let (read, done) = read_statement(alloc, changed, cursors, &other, out);
            end_statement(other);
            (read, of_sink(done))
        }
    }
}
