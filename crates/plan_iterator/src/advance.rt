ghost use Rattle.std.specs.Prelude.{◌≡◌, IfSome};
ghost use Rattle.page_pool.specs.Causes.{HasPageCause};
ghost use Rattle.page_pool.specs.Reads.{IsRead};
ghost use Rattle.sand_model.specs.Cursor.{Cursor};
ghost use Rattle.best_first.specs.Visits.{told_pages};
ghost use Rattle.plan_iterator.specs.Rows.{counts_of};
ghost use Rattle.plan_iterator.specs.SourceSteps.{FallsAtRow};
ghost use Rattle.plan_iterator.specs.Following.{steps_of};
ghost use Rattle.plan_iterator.specs.Paying.{prices};
ghost use Rattle.plan_iterator.specs.PaidCalls.{AdvancesPaid};
ghost use Rattle.plan_iterator.specs.Standing.{KeepsRows};

use crate::{Answer, Operator, RowSource, RowStage, Step};
use page_pool::{Desk, Disk, PageFault};
use std::alloc::Global;

// Makes steps until one gives a row or the end.
pub fn advance<S: RowSource, T: RowStage, D: Disk>(
    operator: &mut Operator<S, T>,
    alloc: Global,
    desk: &mut Desk<D>,
) -> Result<Option<Answer>, PageFault>
    requires stands { IfSome (told_pages desk.old) (λ pages. (c : Cursor) × KeepsRows S.At T.Stands T.closed (λ s. counts_of (S.seen s)) operator.old pages c) }
    ensures read { IsRead desk.old.pool desk.new.pool }
    ensures cause { HasPageCause desk.old.pool desk.new.pool result }
    ensures falls { FallsAtRow (steps_of S.steps T.steps operator.old) (steps_of S.steps T.steps operator.new) result }
    ensures step { IfSome (told_pages desk.old) (AdvancesPaid S.At T.Stands T.closed (prices S.heights S.step_price S.owed T.price T.owed)
        (λ s. counts_of (S.seen s)) operator.old operator.new desk.old desk.new result) }
{
    'steps: loop {
        match operator.step(alloc, desk) {
            Ok(Step::Row(row)) => return Ok(Some(row)),
            Ok(Step::Pass) => {}
            Ok(Step::End) => return Ok(None),
            Err(fault) => return Err(fault),
        }
    }
}
