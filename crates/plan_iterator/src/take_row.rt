ghost use Rattle.std.specs.Prelude.{◌≡◌, ◌<◌, ◌+◌, ◌≤◌, min, ℕ, false, List, [], ◌∷◌, ◌++◌, IfSome};
ghost use Rattle.sand_base.specs.Faults.{last_count};
ghost use Rattle.page_pool.specs.Causes.{HasPageCause};
ghost use Rattle.page_pool.specs.Reads.{IsRead};
ghost use Rattle.sand_model.specs.Database.{Database};
ghost use Rattle.sand_model.specs.Operators.{PlanRow};
ghost use Rattle.statements.specs.Plan.{Plan};
ghost use Rattle.best_first.specs.Visits.{told_pages};
ghost use Rattle.plan_iterator.specs.Prices.{unless_refused};
ghost use Rattle.plan_iterator.specs.Rows.{row_of};
ghost use Rattle.plan_iterator.specs.Stages.{Works};
ghost use Rattle.plan_iterator.specs.Steps.{Lowers};

use crate::{Answer, RowStage, Sifted, Step};
use page_pool::{Desk, Disk, PageFault};
use std::alloc::Global;

// Gives a stage the next row, on which it works at once where it can. A row that it is done with at a look is never moved
// into it. After a refusal the row is taken.
#[inline(always)]
pub fn take_row<T: RowStage, D: Disk>(
    stage: &mut T,
    alloc: Global,
    desk: &mut Desk<D>,
    row: Answer,
) -> Result<Step, PageFault>
    requires free { T.waits stage.old ≡ false }
    requires stands { IfSome (told_pages desk.old) (λ pages. (d : Database) × ((p : Plan) × ((taken : List PlanRow) × ((given : List PlanRow) × T.Stands stage.old pages d p taken given)))) }
    ensures read { IsRead desk.old.pool desk.new.pool }
    ensures log { desk.new.visits ≡ desk.old.visits }
    ensures up { min desk.old.pool.gets last_count ≤ desk.new.pool.gets }
    ensures cause { HasPageCause desk.old.pool desk.new.pool result }
    ensures falls { (m n : ℕ) → m < n → Lowers (T.steps stage.old n) (T.steps stage.new m) result }
    ensures closed { T.closed stage.new ≡ T.closed stage.old }
    ensures step { IfSome (told_pages desk.old) (λ pages. (d : Database) (p : Plan) (taken given : List PlanRow) → T.Stands stage.old pages d p taken given
        → Works d p (taken ++ row_of row ∷ []) given (T.closed stage.new) result (T.Stands stage.new pages d p (taken ++ row_of row ∷ []))) }
    ensures price { T.price stage.new ≡ T.price stage.old }
    ensures costs { IfSome (told_pages desk.old) (λ pages. (d : Database) (p : Plan) (taken given : List PlanRow) → T.Stands stage.old pages d p taken given
        → desk.new.pool.gets + unless_refused result (T.owed stage.new pages d p) ≤ desk.old.pool.gets + T.price stage.old pages d p (row_of row)) }
{
    match stage.sift(alloc, desk, &row) {
        Ok(Sifted::Lost) => return Ok(Step::Pass),
        Ok(Sifted::Given) => return Ok(Step::Row(row)),
        Ok(Sifted::Wanted) => {
            stage.hold(row);
            if stage.is_busy() {
                return stage.work(alloc, desk);
            }
            return Ok(Step::Pass);
        }
        Err(fault) => {
            stage.hold(row);
            return Err(fault);
        }
    }
}
