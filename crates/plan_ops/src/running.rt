ghost use Rattle.std.specs.Prelude.{◌≡◌, ℕ, List, IfOk, IfSome};
ghost use Rattle.page_pool.specs.Causes.{HasPageCause};
ghost use Rattle.page_pool.specs.Disk.{PageMap};
ghost use Rattle.page_pool.specs.Reads.{IsRead};
ghost use Rattle.sand_model.specs.Cursor.{Cursor, new_cursor};
ghost use Rattle.sand_store.specs.Contents.{database_in};
ghost use Rattle.sand_store.specs.Standing.{CatalogStands};
ghost use Rattle.best_first.specs.Visits.{told_pages};
ghost use Rattle.statements.specs.Plan.{plan_value};
ghost use Rattle.plan_iterator.specs.CursorStep.{number_after};
ghost use Rattle.plan_iterator.specs.Standing.{AreStats};
ghost use Rattle.plan_iterator.specs.SourceSteps.{FallsAtRow};
ghost use Rattle.plan_ops.specs.Openable.{IsOpenable};
ghost use Rattle.plan_ops.specs.Running.{RunningStandsAt, TakesPaidStep, steps_left};

use crate::operators::operator_of;
use crate::{Source, Stage};
use page_pool::{Desk, Disk, PageFault};
use plan_iterator::{Answer, RowCursor, Stats};
use sand_base::NoMemory;
use sand_store::Catalog;
use script_text::Plan;
use std::alloc::Global;

/// A cursor over a plan. It owns what it needs of the catalog, so relations may change while it lives.
#[derive(Drop)]
pub struct Running {
    pub cursor: RowCursor<Source, Stage>,
}

impl Running {
    /// A cursor that has given nothing. No page is read. Condition: the checks of the plan's operators pass.
    pub fn start(alloc: Global, catalog: &Catalog, plan: &Plan) -> Result<Running, NoMemory>
        requires { IsOpenable catalog.now plan.now }
        ensures { IfOk result (λ r. (pages : PageMap) → CatalogStands pages catalog.now → (name : List ℕ)
            → RunningStandsAt r pages (new_cursor name (plan_value plan.now) (database_in pages catalog.now.relations))) }
    {
        let operator = operator_of(alloc, catalog, plan)?;
        Ok(Running {
            cursor: RowCursor::new(operator),
        })
    }

    /// The next row of the plan's answer, None exactly where all are given. After a refusal the rows given are
    /// unchanged, and `next` may be called again. Condition: where the disk tells its pages, the cursor stands over them.
    /// Whatever it answers, its page gets are at most the price of the visits that it noted, of the steps of its source,
    /// and of the rows that its operators handled: those that they took in it or held before it.
    pub fn next<D: Disk>(
        &mut self,
        alloc: Global,
        desk: &mut Desk<D>,
    ) -> Result<Option<Answer>, PageFault>
        requires stands { IfSome (told_pages desk.old) (λ pages. (c : Cursor) × RunningStandsAt self.old pages c) }
        ensures read { IsRead desk.old.pool desk.new.pool }
        ensures cause { HasPageCause desk.old.pool desk.new.pool result }
        ensures number { self.new.cursor.given ≡ number_after self.old.cursor.given result }
        ensures falls { FallsAtRow (steps_left self.old) (steps_left self.new) result }
        ensures step { IfSome (told_pages desk.old) (TakesPaidStep self.old self.new desk.old desk.new result) }
    {
        self.cursor.next(alloc, desk)
    }

    /// What the source has visited, and how many rows were given. It reads no page and takes no memory.
    pub fn stats(&self) -> Stats
        ensures { (pages : PageMap) (c : Cursor) → RunningStandsAt self.now pages c → AreStats c result }
    {
        self.cursor.stats()
    }

    /// Ends the cursor. It takes no memory.
    pub fn close(self) {}
}
