// The rows of a column farthest from a point.
ghost use Rattle.std.specs.Prelude.{◌≡◌, [], ◌∷◌, List, IfOk, IfSome, OnErr, OnOk, None};
ghost use Rattle.best_first.specs.Visits.{told_pages};
ghost use Rattle.far_cursor.specs.FarCursor.{FarStands};
ghost use Rattle.output_text.specs.Writing.{Writes, WritesPrefix};
ghost use Rattle.page_pool.specs.Causes.{HasPageCause};
ghost use Rattle.page_pool.specs.Pool.{IsTold};
ghost use Rattle.page_pool.specs.Reads.{IsRead};
ghost use Rattle.plan_iterator.specs.Rows.{row_of};
ghost use Rattle.row_output.specs.Stepping.{printed_refusal as fault_in};
ghost use Rattle.sand_base.specs.Faults.{HasCause};
ghost use Rattle.sand_base.specs.Plane.{IsInPlane};
ghost use Rattle.sand_model.specs.Cursor.{Cursor, Row as RowLine};
ghost use Rattle.sand_model.specs.OutputText.{IsText};
ghost use Rattle.sand_store.specs.Standing.{IsStore};
ghost use Rattle.statement_exec.specs.Ending.{PagesHaveCause, PagesHaveLineCause};
ghost use Rattle.statement_exec.specs.Printing.{WritesOf};
ghost use Rattle.statements.specs.Statement.{Far as FarFrom};
ghost use Rattle.open_cursors.specs.FarthestLines.{BreaksFound, PrintsFarthest, WritesFound, answer_of, first_found, far_found};
ghost use Rattle.open_cursors.specs.Outcomes.{PerformsBeside};
ghost use Rattle.open_cursors.specs.Steps.{AnswersPages};

use crate::row_steps::refusal_of;
use best_first::Hit;
use far_cursor::Far;
use output_text::{LineRef, write_line};
use page_pool::{Desk, Disk};
use plan_iterator::Answer;
use row_output::{Next, print_row};
use sand_base::{Failed, Ids, Point, Refusal, Row, Sink};
use sand_store::Catalog;
use script_text::Column;
use statement_exec::{end_with, refuse};
use std::alloc::Global;
use z_code::Block;

// The row of a plan that a row of the search is.
fn answer_of(alloc: Global, hit: Hit) -> Answer
    ensures { result ≡ answer_of hit }
{
    Answer {
        gap: Some(hit.gap),
        ids: Ids::one(hit.left),
        values: Row::new(Vec::new(alloc)),
    }
}

// Writes the line of a row of the search.
fn print_hit<K: Sink>(alloc: Global, hit: Hit, out: &mut K) -> Result<(), Failed>
    ensures written { OnOk result (Writes (IsText (RowLine (row_of (answer_of hit)) ∷ [])) (K.took out.old) (K.took out.new)) }
    ensures prefix { OnErr result (WritesPrefix (IsText (RowLine (row_of (answer_of hit)) ∷ [])) (K.took out.old) (K.took out.new)) }
    ensures cause { HasCause (K.faults out.old) (K.faults out.new) result }
{
    let row = answer_of(alloc, hit);
    print_row(out, &row)?;
    Ok(())
}

// Makes one step of the search and writes its line.
fn print_farthest<D: Disk, K: Sink>(
    alloc: Global,
    far: &mut Far,
    desk: &mut Desk<D>,
    out: &mut K,
) -> Result<Next, Failed>
    requires { IfSome (told_pages desk.old) (FarStands ⟦<Block as Ord>⟧.cmp far.old.search.hierarchy far.old.search.frontier.queue.items far.old.search.frontier.last) }
    ensures hierarchy { far.new.search.hierarchy ≡ far.old.search.hierarchy }
    ensures stands { IfSome (told_pages desk.old) (FarStands ⟦<Block as Ord>⟧.cmp far.old.search.hierarchy far.new.search.frontier.queue.items far.new.search.frontier.last) }
    ensures line { PrintsFarthest (told_pages desk.old) far.old.search.hierarchy far.old.search.frontier.last far.new.search.frontier.last result (K.took out.old) (K.took out.new) }
    ensures read { IsRead desk.old.pool desk.new.pool }
    ensures refused { HasPageCause desk.old.pool desk.new.pool (fault_in result) }
    ensures sink { HasCause (K.faults out.old) (K.faults out.new) result }
{
    match far.next(desk) {
        Ok(Some(hit)) => {
            print_hit(alloc, hit, out)?;
            Ok(Next::Row)
        }
        Ok(None) => {
            write_line(out, &LineRef::End)?;
            Ok(Next::End)
        }
        Err(fault) => Ok(Next::Refused(fault)),
    }
}

// The first rows of the search, up to so many, and `end` where fewer are left; or the rows before a refusal, whose line
// is still to be printed.
fn print_far<D: Disk, K: Sink>(
    alloc: Global,
    far: &mut Far,
    desk: &mut Desk<D>,
    count: u32,
    out: &mut K,
) -> Result<Option<Refusal>, Failed>
    requires stands { IfSome (told_pages desk.old) (FarStands ⟦<Block as Ord>⟧.cmp far.old.search.hierarchy far.old.search.frontier.queue.items far.old.search.frontier.last) }
    requires none { far.old.search.frontier.last ≡ None }
    ensures written { IfOk result (λ end. WritesFound (IsTold desk.old.pool) count (first_found count (far_found far.old.search.hierarchy desk.old.pool.pages)) end (K.took out.old) (K.took out.new)) }
    ensures broken { OnErr result (BreaksFound (IsTold desk.old.pool) count (first_found count (far_found far.old.search.hierarchy desk.old.pool.pages)) (K.took out.old) (K.took out.new)) }
    ensures read { IsRead desk.old.pool desk.new.pool }
    ensures cause { PagesHaveCause desk.old.pool desk.new.pool result }
    ensures pages { AnswersPages result }
    ensures sink { HasCause (K.faults out.old) (K.faults out.new) result }
{
    let mut rows = 0;
    'rows: while rows < count {
        match print_farthest(alloc, far, desk, out) {
            Ok(Next::Row) => rows += 1,
            Ok(Next::End) => return Ok(None),
            Ok(Next::Refused(fault)) => return Ok(Some(refusal_of(fault))),
            Err(failed) => return Err(failed),
        }
    }
    Ok(None)
}

/// `far`: the rows of a column farthest from a point, up to so many, to their end or to a refusal. The answer says whether
/// it was refused.
pub(crate) fn far_line<D: Disk, K: Sink>(
    alloc: Global,
    catalog: &Catalog,
    desk: &mut Desk<D>,
    count: u32,
    column: &Column,
    goal: Point,
    out: &mut K,
) -> Result<bool, Failed>
    requires stored { IsStore catalog.now desk.old.pool }
    requires goal { IsInPlane goal }
    ensures written { (cs : List Cursor) → WritesOf (PerformsBeside (FarFrom count column.now goal) catalog.now desk.old.pool desk.new.pool cs cs) (K.took out.old) (K.took out.new) result }
    ensures stands { IsStore catalog.now desk.new.pool }
    ensures read { IsRead desk.old.pool desk.new.pool }
    ensures cause { PagesHaveLineCause desk.old.pool desk.new.pool result }
    ensures sink { HasCause (K.faults out.old) (K.faults out.new) result }
{
    let relation = column.relation.as_str();
    let name = column.column.as_str();
    let mut far = match Far::start(alloc, catalog, relation, name, goal) {
        Ok(far) => far,
        Err(why) => return refuse(out, why),
    };
    match print_far(alloc, &mut far, desk, count, out) {
        Ok(end) => end_with(out, end),
        Err(Failed {}) => Err(Failed {}),
    }
}
