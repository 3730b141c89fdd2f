// The lines of the script, drawn and carried out one by one.
ghost use Rattle.std.specs.Prelude.{◌≡◌, [], ℕ, List, Option, IfErr, false, is_some, not, ◌^◌};
ghost use Rattle.line_exec.specs.KeptChanges.{KeepsIfAny, no_changes};
ghost use Rattle.line_exec.specs.Keeping.{HasLineCause, IsUntold, KeepsOn, TakesUpTo, last_end, sink_result, tape_count};
ghost use Rattle.line_exec.specs.LineCarried.{CarriesKept, LineCarried};
ghost use Rattle.line_meaning.specs.Carrying.{FollowsMoment};
ghost use Rattle.open_cursors.specs.Carried.{AreCounted};
ghost use Rattle.open_cursors.specs.OpenCursors.{AreHeld, HaveOwnNames};
ghost use Rattle.open_cursors.specs.OverPages.{AreStanding, StandOver};
ghost use Rattle.sand_journal.specs.ChangeBody.{ChangeValue};
ghost use Rattle.sand_model.specs.Cursor.{Cursor, State};
ghost use Rattle.sand_store.specs.Contents.{database};
ghost use Rattle.script_lines.specs.Lines.{is_short_line};
ghost use Rattle.script_lines.specs.Reading.{ReadsLines};
ghost use Rattle.statement_exec.specs.Moment.{moment_of, state_with, while_open};
ghost use Rattle.session.specs.Ends.{IsCaused, tape_after};
ghost use Rattle.session.specs.KeptTape.{ShowsIfAny};
ghost use Rattle.session.specs.RunStates.{EndsAt, FromBetweenLines, run_state, status_of_line};

use crate::Status;
use crate::drawing::{draw, ended};
use line_exec::{LineFault, carry_line, of_sink};
use open_cursors::OpenCursor;
use page_pool::Disk;
use plan_ops::{Source as PlanSource, Stage};
use sand_base::{Refusal, Shelf, Sink, Source};
use sand_journal::{Journal, Tape};
use sand_store::Store;
use script_lines::ScriptLines;
use statement_exec::refuse;
use std::alloc::Global;

// Carries the line in hand out. The answer says whether it was refused.
fn carry_hand<D: Disk, H: Shelf, K: Sink, T: Tape>(
    alloc: Global,
    store: Store<D>,
    cursors: &mut Vec<OpenCursor<PlanSource, Stage>>,
    lines: &ScriptLines,
    is_long: bool,
    shelf: &mut H,
    out: &mut K,
    journal: &mut Option<Journal<T>>,
) -> (Store<D>, Result<bool, LineFault>)
    requires short { is_short_line lines.now.line ≡ not is_long }
    requires journal { TakesUpTo T.seen last_end journal.old }
    requires stands { AreStanding store.pool cursors.old.items }
    ensures carried { (kept : Option (List ChangeValue)) × ((cs : List Cursor) → HaveOwnNames cs → AreCounted cs → StandOver store.pool cursors.old.items cs
        → LineCarried (CarriesKept lines.now.line kept) (while_open store (H.files shelf.old) (H.faults shelf.old))
        (while_open result.0 (H.files shelf.new) (H.faults shelf.new)) cs
        (K.took out.old) (K.took out.new) (sink_result result.1) (StandOver result.0.pool cursors.new.items))
        × KeepsIfAny T.seen journal.old journal.new kept (moment_of store (H.files shelf.old) (H.faults shelf.old)) (state_with [] (database result.0)) result.1 }
    ensures held { AreHeld result.0.pool.stamps cursors.new.items }
    ensures follows { FollowsMoment (moment_of store (H.files shelf.old) (H.faults shelf.old)) (moment_of result.0 (H.files shelf.new) (H.faults shelf.new)) }
    ensures keeps { KeepsOn T.seen journal.old journal.new result.1 }
    ensures untold { IfErr result.1 (IsUntold (K.took out.old) (K.took out.new) (moment_of store (H.files shelf.old) (H.faults shelf.old))
        (moment_of result.0 (H.files shelf.new) (H.faults shelf.new))) }
    ensures cause { HasLineCause (K.faults out.old) (K.faults out.new) (tape_count T.seen journal.old) (tape_count T.seen journal.new) result.1 }
{
    if is_long {
        return (store, of_sink(refuse(out, Refusal::LineTooLong)));
    }
    carry_line(alloc, store, cursors, lines.line(), shelf, out, journal)
}

// The status of a run that a line ended.
fn status_of(why: LineFault) -> Status
    ensures { result ≡ status_of_line why }
{
    match why {
        LineFault::Sink => Status::WriteFault,
        LineFault::Journal => Status::JournalFault,
    }
}

/// Carries the lines of the script out, from its first on, with no cursor open yet.
pub(crate) fn carry_script<S: Source, H: Shelf, D: Disk, K: Sink, T: Tape>(
    alloc: Global,
    store: Store<D>,
    cursors: &mut Vec<OpenCursor<PlanSource, Stage>>,
    lines: &mut ScriptLines,
    script: &mut S,
    shelf: &mut H,
    out: &mut K,
    journal: &mut Option<Journal<T>>,
) -> (Store<D>, Status)
    requires none { cursors.old.items ≡ [] }
    requires held { AreHeld store.pool.stamps cursors.old.items }
    requires begun { (left : Option (List ℕ)) → ReadsLines lines.old left [] [] }
    requires journal { TakesUpTo T.seen (2 ^ 62) journal.old }
    ensures ends { (last : State) × (kept : Option (List ChangeValue)) × (untold : Option (List ChangeValue))
        × FromBetweenLines (run_state lines.old (S.left script.old) (moment_of store (H.files shelf.old) (H.faults shelf.old)) false (no_changes journal.old))
        (EndsAt result.1 (record (moment_of result.0 (H.files shelf.new) (H.faults shelf.new)) { state = last }) kept untold (S.left script.new) (K.took out.old) (K.took out.new))
        × ShowsIfAny T.seen journal.old journal.new result.1 (moment_of store (H.files shelf.old) (H.faults shelf.old)) last kept untold }
    ensures cause { IsCaused result.1 (S.faults script.old) (S.faults script.new) (K.faults out.old) (K.faults out.new) }
    ensures there { is_some journal.new ≡ is_some journal.old }
    ensures tape { tape_count T.seen journal.new ≡ tape_after result.1 (tape_count T.seen journal.old) }
{
    let mut now = store;
    let mut refused = false;
    'lines: loop {
        let is_long = match draw(lines, script) {
            Ok(is_long) => is_long,
            Err(status) => return (now, ended(status, refused)),
        };
        let (next, done) = carry_hand(alloc, now, cursors, lines, is_long, shelf, out, journal);
        now = next;
        match done {
            Ok(refusal) => refused = refused || refusal,
            Err(why) => return (now, status_of(why)),
        }
    }
}
