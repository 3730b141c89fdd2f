ghost use Rattle.std.specs.Prelude.{◌≡◌, ℕ, IfSome};
ghost use Rattle.page_pool.specs.Disk.{PageMap};
ghost use Rattle.page_pool.specs.Reads.{IsRead};
ghost use Rattle.page_pool.specs.Causes.{HasPageCause};
ghost use Rattle.sand_model.specs.Database.{Database};
ghost use Rattle.statements.specs.Plan.{Plan};
ghost use Rattle.sand_model.specs.Taken.{Taken};
ghost use Rattle.best_first.specs.Visits.{told_pages};
ghost use Rattle.plan_iterator.specs.Rows.{counts_of};
ghost use Rattle.plan_iterator.specs.Prices.{Heights, Costs};
ghost use Rattle.plan_iterator.specs.SourceSteps.{SourceStep, FallsAtRow};
ghost use Rattle.plan_iterator.specs.declared.stats.SourceCounts.{SourceCounts as Numbers};

use crate::{Answer, SourceCounts};
use page_pool::{Desk, Disk, PageFault};
use std::alloc::Global;

/// What gives the rows of a plan's source one by one.
pub trait RowSource: Drop {
    // Over these pages and for this database, so much was taken of the source of this plan.
    ghost At: { Self → PageMap → Database → Plan → Taken → Type 0 };

    // What was visited.
    ghost seen: { Self → Numbers };

    // The heights of the B-trees that it reads.
    ghost heights: { Self → Heights };

    // The price of a step in page gets, beside that of its visits and of the entries of an index that it passes.
    ghost step_price: { Self → ℕ };

    // The price of the entries of an index that it has still to pass, over these pages.
    ghost owed: { Self → PageMap → ℕ };

    // How many steps may still be made, whatever the pages.
    ghost steps: { Self → ℕ };

    /// The next row of the source, None where none is left. Condition: where the disk tells its pages, something was
    /// taken of the source of some plan over them. After a refusal the same rows are left, and `next` may be called
    /// again.
    fn next<D: Disk>(
        &mut self,
        alloc: Global,
        desk: &mut Desk<D>,
    ) -> Result<Option<Answer>, PageFault>
        requires stands { IfSome (told_pages desk.old) (λ pages. (d : Database) × ((p : Plan) × ((t : Taken) × At self.old pages d p t))) }
        ensures read { IsRead desk.old.pool desk.new.pool }
        ensures cause { HasPageCause desk.old.pool desk.new.pool result }
        ensures falls { FallsAtRow (steps self.old) (steps self.new) result }
        ensures step { IfSome (told_pages desk.old) (λ pages. (d : Database) (p : Plan) (t : Taken) → At self.old pages d p t
            → SourceStep pages d p t (counts_of (seen self.old)) (counts_of (seen self.new)) desk.old desk.new result (At self.new pages d p)) }
        ensures heights { heights self.new ≡ heights self.old }
        ensures step_price { step_price self.new ≡ step_price self.old }
        ensures costs { IfSome (told_pages desk.old) (λ pages. (d : Database) (p : Plan) (t : Taken) → At self.old pages d p t
            → Costs (heights self.old) (step_price self.old) (owed self.old pages) (owed self.new pages) d p desk.old desk.new result) };

    /// What was visited so far. It reads no page and takes no memory.
    fn counts(&self) -> SourceCounts
        ensures { result ≡ seen self.now };
}
