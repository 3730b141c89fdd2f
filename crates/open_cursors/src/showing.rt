ghost use Rattle.std.specs.Prelude.{◌≡◌, IfSome, List};
ghost use Rattle.best_first.specs.Visits.{told_pages};
ghost use Rattle.page_pool.specs.Reads.{IsRead};
ghost use Rattle.plan_iterator.specs.Standing.{IsAt};
ghost use Rattle.plan_iterator.specs.Rows.{counts_of};
ghost use Rattle.sand_base.specs.Faults.{HasCause};
ghost use Rattle.sand_model.specs.Cursor.{Cursor};
ghost use Rattle.statement_exec.specs.Ending.{PagesHaveLineCause};
ghost use Rattle.open_cursors.specs.Carried.{AreRowLines, RowsOf};
ghost use Rattle.statement_exec.specs.Printing.{WritesOf};
ghost use Rattle.statements.specs.Plan.{plan_value};
ghost use Rattle.statements.specs.Statement.{Show};
ghost use Rattle.sand_store.specs.Standing.{IsStore};
ghost use Rattle.script_text.specs.InRange.{IsPlanInRange};
ghost use Rattle.open_cursors.specs.Outcomes.{PerformsBeside};

use crate::row_steps::print_steps;
use crate::starting::started;
use page_pool::{Desk, Disk};
use plan_iterator::{RowCursor, RowSource, RowStage};
use sand_base::{Failed, Sink};
use sand_store::Catalog;
use script_text::Plan;
use statement_exec::{end_with, refuse};
use std::alloc::Global;

// The next rows of a cursor that has no name are written, up to their end or to a refusal. The answer says whether it was
// refused.
fn rows_line<S: RowSource, T: RowStage, D: Disk, K: Sink>(
    alloc: Global,
    desk: &mut Desk<D>,
    cursor: &mut RowCursor<S, T>,
    count: u32,
    out: &mut K,
) -> Result<bool, Failed>
    requires stands { IfSome (told_pages desk.old) (λ pages. (c : Cursor) × IsAt S.At T.Stands T.closed (λ s. counts_of (S.seen s)) cursor.old pages c) }
    ensures plain { WritesOf (AreRowLines count desk.old.pool desk.new.pool) (K.took out.old) (K.took out.new) result }
    ensures written { IfSome (told_pages desk.old) (λ pages. (c : Cursor) → IsAt S.At T.Stands T.closed (λ s. counts_of (S.seen s)) cursor.old pages c
        → WritesOf (RowsOf c count desk.old.pool desk.new.pool) (K.took out.old) (K.took out.new) result) }
    ensures read { IsRead desk.old.pool desk.new.pool }
    ensures cause { PagesHaveLineCause desk.old.pool desk.new.pool result }
    ensures sink { HasCause (K.faults out.old) (K.faults out.new) result }
{
    match print_steps(cursor, alloc, desk, count, out) {
        Ok(end) => end_with(out, end),
        Err(Failed {}) => Err(Failed {}),
    }
}

/// `show`: the first rows of a plan are written, up to so many, to their end or to a refusal, beside open cursors. The
/// answer says whether it was refused.
pub(crate) fn show_line<D: Disk, K: Sink>(
    alloc: Global,
    catalog: &Catalog,
    desk: &mut Desk<D>,
    count: u32,
    plan: &Plan,
    out: &mut K,
) -> Result<bool, Failed>
    requires stored { IsStore catalog.now desk.old.pool }
    requires in_range { IsPlanInRange (plan_value plan.now) }
    ensures written { (cs : List Cursor) → WritesOf (PerformsBeside (Show count (plan_value plan.now)) catalog.now desk.old.pool desk.new.pool cs cs) (K.took out.old) (K.took out.new) result }
    ensures stands { IsStore catalog.now desk.new.pool }
    ensures read { IsRead desk.old.pool desk.new.pool }
    ensures cause { PagesHaveLineCause desk.old.pool desk.new.pool result }
    ensures sink { HasCause (K.faults out.old) (K.faults out.new) result }
{
    match started(alloc, catalog, plan) {
        Ok(mut running) => {
            let shown = rows_line(alloc, desk, &mut running.cursor, count, out);
            running.close();
            shown
        }
        Err(why) => refuse(out, why),
    }
}
