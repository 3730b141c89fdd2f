ghost use Rattle.std.specs.Prelude.{◌≡◌, ℕ, List, IfSome};
ghost use Rattle.page_pool.specs.Causes.{HasPageCause};
ghost use Rattle.page_pool.specs.Reads.{IsRead};
ghost use Rattle.sand_model.specs.Database.{Database};
ghost use Rattle.sand_model.specs.Operators.{PlanRow};
ghost use Rattle.statements.specs.Plan.{Plan};
ghost use Rattle.sand_model.specs.Taken.{Taken};
ghost use Rattle.best_first.specs.Visits.{told_pages};
ghost use Rattle.plan_iterator.specs.Rows.{counts_of};
ghost use Rattle.plan_iterator.specs.Following.{Follows, IsOver, steps_of};
ghost use Rattle.plan_iterator.specs.Paying.{GoesPaid, prices};
ghost use Rattle.plan_iterator.specs.Steps.{Lowers};

use crate::take_row::take_row;
use crate::{RowSource, RowStage, Step};
use page_pool::{Desk, Disk, PageFault};
use std::alloc::Global;
use std::boxed::Box;

/// A source, or a stage over an operator.
#[cycle(operator)]
#[derive(Drop)]
pub enum Operator<S, T> {
    Source(S),
    Over(Over<S, T>),
}

/// A stage, and the operator whose rows it takes.
#[cycle(operator)]
#[derive(Drop)]
pub struct Over<S, T> {
    pub stage: T,
    pub below: Box<Operator<S, T>>,
}

impl<S: RowSource, T: RowStage> Operator<S, T> {
    /// Makes one step. A stage works at once on a row that it takes, where it can. After a refusal no row is lost, and
    /// `step` may be called again. Its page gets are at most the price of the visits that it noted, of one step of the
    /// source where it asked it, and of the rows that stages handled; what a stage has still to do for a row that it
    /// holds is left to pay in later steps.
    pub fn step<D: Disk>(&mut self, alloc: Global, desk: &mut Desk<D>) -> Result<Step, PageFault>
        requires stands { IfSome (told_pages desk.old) (λ pages. (d : Database) × ((p : Plan) × ((t : Taken) × ((given : List PlanRow) × Follows S.At T.Stands T.closed self.old pages d p t given)))) }
        ensures read { IsRead desk.old.pool desk.new.pool }
        ensures cause { HasPageCause desk.old.pool desk.new.pool result }
        ensures falls { Lowers (steps_of S.steps T.steps self.old) (steps_of S.steps T.steps self.new) result }
        ensures step { IfSome (told_pages desk.old) (GoesPaid S.At T.Stands T.closed (prices S.heights S.step_price S.owed T.price T.owed)
            (λ s. counts_of (S.seen s)) self.old self.new desk.old desk.new result) }
    {
        match self {
            Operator::Source(source) => match source.next(alloc, desk) {
                Ok(Some(row)) => return Ok(Step::Row(row)),
                Ok(None) => return Ok(Step::End),
                Err(fault) => return Err(fault),
            },
            Operator::Over(over) => return over.step(alloc, desk),
        }
    }
}

impl<S: RowSource, T: RowStage> Over<S, T> {
    // Lets the stage work, or gives it the next row beneath, on which it works at once where it can.
    fn step<D: Disk>(&mut self, alloc: Global, desk: &mut Desk<D>) -> Result<Step, PageFault>
        requires stands { IfSome (told_pages desk.old) (λ pages. (d : Database)
            × ((p : Plan) × ((t : Taken) × ((given : List PlanRow) × Follows S.At T.Stands T.closed (Operator.Over self.old) pages d p t given)))) }
        ensures read { IsRead desk.old.pool desk.new.pool }
        ensures cause { HasPageCause desk.old.pool desk.new.pool result }
        ensures falls { Lowers (steps_of S.steps T.steps (Operator.Over self.old)) (steps_of S.steps T.steps (Operator.Over self.new)) result }
        ensures step { IfSome (told_pages desk.old) (GoesPaid S.At T.Stands T.closed (prices S.heights S.step_price S.owed T.price T.owed) (λ s. counts_of (S.seen s))
            (Operator.Over self.old) (Operator.Over self.new) desk.old desk.new result) }
    {
        if self.stage.is_busy() {
            return self.stage.work(alloc, desk);
        }
        match &mut *self.below {
            Operator::Source(source) => match source.next(alloc, desk) {
                Ok(Some(row)) => return take_row(&mut self.stage, alloc, desk, row),
                Ok(None) => return self.stage.finish(alloc),
                Err(fault) => return Err(fault),
            },
            Operator::Over(over) => match over.step(alloc, desk) {
                Ok(Step::Row(row)) => return take_row(&mut self.stage, alloc, desk, row),
                Ok(Step::Pass) => return Ok(Step::Pass),
                Ok(Step::End) => return self.stage.finish(alloc),
                Err(fault) => return Err(fault),
            },
        }
    }
}
