ghost use Rattle.std.specs.Prelude.{◌≡◌, ℕ, List, [], IfSome};
ghost use Rattle.page_pool.specs.Causes.{HasPageCause};
ghost use Rattle.page_pool.specs.Disk.{PageMap};
ghost use Rattle.page_pool.specs.Reads.{IsRead};
ghost use Rattle.sand_model.specs.Cursor.{Cursor, new_cursor};
ghost use Rattle.sand_model.specs.Database.{Database};
ghost use Rattle.statements.specs.Plan.{Plan};
ghost use Rattle.sand_model.specs.Reach.{no_counts};
ghost use Rattle.best_first.specs.Visits.{told_pages};
ghost use Rattle.plan_iterator.specs.Rows.{counts_of};
ghost use Rattle.plan_iterator.specs.CursorStep.{number_after};
ghost use Rattle.plan_iterator.specs.SourceSteps.{FallsAtRow, nothing_taken};
ghost use Rattle.plan_iterator.specs.Following.{Follows, source_of, steps_of};
ghost use Rattle.plan_iterator.specs.Paying.{prices};
ghost use Rattle.plan_iterator.specs.PaidCalls.{StepsPaid};
ghost use Rattle.plan_iterator.specs.Standing.{AreStats, IsAt, counts_among};

use crate::advance::advance;
use crate::below::counts_below;
use crate::{Answer, Operator, RowSource, RowStage, Stats};
use page_pool::{Desk, Disk, PageFault};
use std::alloc::Global;

/// A cursor over a plan: it gives the rows of the plan's answer one by one.
#[derive(Drop)]
pub struct RowCursor<S, T> {
    operator: Operator<S, T>,
    given: u64,
}

impl<S: RowSource, T: RowStage> RowCursor<S, T> {
    /// A cursor that has given nothing. It takes no memory.
    pub fn new(operator: Operator<S, T>) -> RowCursor<S, T>
        ensures operator { result.operator ≡ operator }
        ensures starts { counts_of (S.seen (source_of operator)) ≡ no_counts → (pages : PageMap) (name : List ℕ) (p : Plan) (d : Database)
            → Follows S.At T.Stands T.closed operator pages d p nothing_taken [] → IsAt S.At T.Stands T.closed (λ s. counts_of (S.seen s)) result pages (new_cursor name p d) }
    {
        RowCursor { operator, given: 0 }
    }

    /// The next row of the plan's answer, None exactly where all are given. After a refusal the rows given are
    /// unchanged, and `next` may be called again. Its page gets are at most the price of the visits that it noted, of
    /// the steps of the source that it made, and of the rows that operators handled in it.
    pub fn next<D: Disk>(
        &mut self,
        alloc: Global,
        desk: &mut Desk<D>,
    ) -> Result<Option<Answer>, PageFault>
        requires stands { IfSome (told_pages desk.old) (λ pages. (c : Cursor) × IsAt S.At T.Stands T.closed (λ s. counts_of (S.seen s)) self.old pages c) }
        ensures read { IsRead desk.old.pool desk.new.pool }
        ensures cause { HasPageCause desk.old.pool desk.new.pool result }
        ensures number { self.new.given ≡ number_after self.old.given result }
        ensures falls { FallsAtRow (steps_of S.steps T.steps self.old.operator) (steps_of S.steps T.steps self.new.operator) result }
        ensures step { IfSome (told_pages desk.old) (StepsPaid S.At T.Stands T.closed (prices S.heights S.step_price S.owed T.price T.owed)
            (λ s. counts_of (S.seen s)) self.old self.new desk.old desk.new result) }
    {
        match advance(&mut self.operator, alloc, desk) {
            Ok(Some(row)) => {
                self.given = self.given.saturating_add(1);
                return Ok(Some(row));
            }
            Ok(None) => return Ok(None),
            Err(fault) => return Err(fault),
        }
    }

    /// What the source has visited, and how many rows were given. It reads no page and takes no memory.
    pub fn stats(&self) -> Stats
        ensures counts { counts_among result ≡ counts_of (S.seen (source_of self.now.operator)) }
        ensures rows { result.rows ≡ self.now.given }
        ensures stands { (pages : PageMap) (c : Cursor) → IsAt S.At T.Stands T.closed (λ s. counts_of (S.seen s)) self.now pages c → AreStats c result }
    {
        let seen = counts_below(&self.operator);
        Stats {
            blocks: seen.blocks,
            pairs: seen.pairs,
            geometries: seen.geometries,
            rows: self.given,
        }
    }
}
