ghost use Rattle.std.specs.Prelude.{Ok, ◌≡◌, ◌<◌, ◌+◌, ◌≤◌, min, ℕ, Bool, true, false, List, [], ◌∷◌, ◌++◌, IfSome, IfErr};
ghost use Rattle.sand_base.specs.Faults.{last_count};
ghost use Rattle.page_pool.specs.Causes.{HasPageCause, IsMemory};
ghost use Rattle.page_pool.specs.Disk.{PageMap};
ghost use Rattle.page_pool.specs.Reads.{IsRead};
ghost use Rattle.sand_model.specs.Database.{Database};
ghost use Rattle.sand_model.specs.Operators.{PlanRow};
ghost use Rattle.statements.specs.Plan.{Plan};
ghost use Rattle.sand_model.specs.Taken.{is_lazy};
ghost use Rattle.best_first.specs.Visits.{told_pages};
ghost use Rattle.plan_iterator.specs.Prices.{unless_refused};
ghost use Rattle.plan_iterator.specs.Rows.{row_of};
ghost use Rattle.plan_iterator.specs.Outermost.{beneath};
ghost use Rattle.plan_iterator.specs.Sifts.{IfDone, LooksPaid};
ghost use Rattle.plan_iterator.specs.Stages.{Standing, Works, Finishes, IsOutermost, GivesFront, OpensLate, ClosedWaits, RisesWithSteps, IsDry};
ghost use Rattle.plan_iterator.specs.Steps.{Lowers, GoesOn};

use crate::{Answer, Sifted, Step};
use page_pool::{Desk, Disk, PageFault};
use std::alloc::Global;

/// What one operator does with the rows of the plan beneath it.
pub trait RowStage: Drop {
    // Over these pages and for this database it is the outermost operator of the plan, took the first rows and gave the
    // second ones.
    ghost Stands: { Self → PageMap → Database → Plan → List PlanRow → List PlanRow → Type 0 };

    // It has work of its own, and wants no row.
    ghost waits: { Self → Bool };

    // It is a sort that has taken its plan whole.
    ghost closed: { Self → Bool };

    // The price of handling a row in page gets, over these pages and for this database, as the outermost operator of the
    // plan.
    ghost price: { Self → PageMap → Database → Plan → PlanRow → ℕ };

    // The price of what is still to be done for the row that it holds.
    ghost owed: { Self → PageMap → Database → Plan → ℕ };

    // How many steps may still be made, where so many may be made beneath it.
    ghost steps: { Self → ℕ → ℕ };

    /// Whether it has work of its own. Else it wants the next row of the plan beneath it.
    fn is_busy(&self) -> bool
        ensures busy { result ≡ waits self.now }
        ensures dry { result ≡ false → (pages : PageMap) (d : Database) (p : Plan) (taken given : List PlanRow) → Stands self.now pages d p taken given → is_lazy p ≡ true → IsDry d p taken given };

    /// Takes the next row. It reads no page and takes no memory.
    fn hold(&mut self, row: Answer)
        requires free { waits self.old ≡ false }
        ensures falls { (m n : ℕ) → m < n → steps self.new m < steps self.old n }
        ensures closed { closed self.new ≡ closed self.old }
        ensures stands { (pages : PageMap) (d : Database) (p : Plan) (taken given : List PlanRow) → Stands self.old pages d p taken given → Stands self.new pages d p (taken ++ row_of row ∷ []) given }
        ensures price { price self.new ≡ price self.old }
        ensures owes { (pages : PageMap) (d : Database) (p : Plan) → owed self.new pages d p ≤ price self.old pages d p (row_of row) };

    /// Takes the end of the rows. A sort sorts what it has; any other stage is at its end too.
    fn finish(&mut self, alloc: Global) -> Result<Step, PageFault>
        requires free { waits self.old ≡ false }
        ensures cause { IfErr result IsMemory }
        ensures falls { (m n : ℕ) → m ≤ n → Lowers (steps self.old n) (steps self.new m) result }
        ensures stands { (pages : PageMap) (d : Database) (p : Plan) (given : List PlanRow) → Stands self.old pages d p (beneath d p) given
            → Finishes d p given result (Stands self.new pages d p (beneath d p)) }
        ensures price { price self.new ≡ price self.old }
        ensures owes { (pages : PageMap) (d : Database) (p : Plan) → owed self.new pages d p ≤ owed self.old pages d p }
        ensures shuts { GoesOn result (closed self.new ≡ true) };

    /// Does some of the work: it gives a row, or only comes nearer to one, or is at its end. After a refusal all is as it
    /// was, or nearer, and `work` may be called again.
    fn work<D: Disk>(&mut self, alloc: Global, desk: &mut Desk<D>) -> Result<Step, PageFault>
        requires busy { waits self.old ≡ true }
        requires stands { IfSome (told_pages desk.old) (λ pages. (d : Database) × ((p : Plan) × ((taken : List PlanRow) × ((given : List PlanRow) × Stands self.old pages d p taken given)))) }
        ensures read { IsRead desk.old.pool desk.new.pool }
        ensures log { desk.new.visits ≡ desk.old.visits }
        ensures up { min desk.old.pool.gets last_count ≤ desk.new.pool.gets }
        ensures cause { HasPageCause desk.old.pool desk.new.pool result }
        ensures falls { (n : ℕ) → Lowers (steps self.old n) (steps self.new n) result }
        ensures closed { closed self.new ≡ closed self.old }
        ensures step { IfSome (told_pages desk.old) (λ pages. (d : Database) (p : Plan) (taken given : List PlanRow) → Stands self.old pages d p taken given
            → Works d p taken given (closed self.new) result (Stands self.new pages d p taken)) }
        ensures price { price self.new ≡ price self.old }
        ensures costs { IfSome (told_pages desk.old) (λ pages. (d : Database) (p : Plan) (taken given : List PlanRow) → Stands self.old pages d p taken given
            → desk.new.pool.gets + unless_refused result (owed self.new pages d p) ≤ desk.old.pool.gets + owed self.old pages d p) };

    /// Looks at the next row before it is taken. Where it is lost, or given as it is, the stage is done with it; where
    /// it is wanted, nothing was done. After a refusal the row is to be held.
    fn sift<D: Disk>(
        &self,
        alloc: Global,
        desk: &mut Desk<D>,
        row: &Answer,
    ) -> Result<Sifted, PageFault>
        requires free { waits self.now ≡ false }
        requires stands { IfSome (told_pages desk.old) (λ pages. (d : Database) × ((p : Plan) × ((taken : List PlanRow) × ((given : List PlanRow) × Stands self.now pages d p taken given)))) }
        ensures read { IsRead desk.old.pool desk.new.pool }
        ensures log { desk.new.visits ≡ desk.old.visits }
        ensures up { min desk.old.pool.gets last_count ≤ desk.new.pool.gets }
        ensures cause { HasPageCause desk.old.pool desk.new.pool result }
        ensures step { IfSome (told_pages desk.old) (λ pages. (d : Database) (p : Plan) (taken given : List PlanRow) → Stands self.now pages d p taken given
            → IfDone row.now result (λ made. Works d p (taken ++ row_of row.now ∷ []) given (closed self.now) made (Stands self.now pages d p (taken ++ row_of row.now ∷ [])))) }
        ensures still { result ≡ Ok Sifted.Wanted → desk.new ≡ desk.old }
        ensures costs { IfSome (told_pages desk.old) (λ pages. (d : Database) (p : Plan) (taken given : List PlanRow) → Stands self.now pages d p taken given
            → LooksPaid result desk.old.pool.gets desk.new.pool.gets (owed self.now pages d p) (price self.now pages d p (row_of row.now))) }
    {
        Ok(Sifted::Wanted)
    }

    ghost outermost: { IsOutermost Stands };

    ghost front: { GivesFront Stands };

    ghost late: { OpensLate Stands closed };

    ghost closed_waits: { ClosedWaits closed waits };

    ghost rises: { RisesWithSteps steps };
}
