// A cursor over a plan whose checks pass.
ghost use Rattle.std.specs.Prelude.{◌≡◌, ◌⊎◌, ℕ, List, IfOk, IfErr, Some, None};
ghost use Rattle.page_pool.specs.Disk.{PageMap};
ghost use Rattle.statements.specs.Plan.{plan_value};
ghost use Rattle.plan_ops.specs.Running.{RunningStandsAt};
ghost use Rattle.sand_base.specs.declared.refusal.Refusal.TheVariants as why;
ghost use Rattle.sand_model.specs.Checks.{check};
ghost use Rattle.sand_model.specs.Cursor.{new_cursor};
ghost use Rattle.sand_store.specs.Catalog.{IsCatalog};
ghost use Rattle.sand_store.specs.Contents.{database_in};
ghost use Rattle.sand_store.specs.Standing.{CatalogStands};
ghost use Rattle.script_text.specs.InRange.{IsPlanInRange};

use plan_names::check;
use plan_ops::Running;
use sand_base::{NoMemory, Refusal};
use sand_store::Catalog;
use script_text::Plan;
use std::alloc::Global;

// A cursor that has given nothing. The checks come first, that of the depth last: making the cursor calls itself once
// for each operator, of which an unchecked plan may have hundreds.
pub(crate) fn started(alloc: Global, catalog: &Catalog, plan: &Plan) -> Result<Running, Refusal>
    requires described { IsCatalog catalog.now }
    requires in_range { IsPlanInRange (plan_value plan.now) }
    ensures passes { IfOk result (λ r. (pages : PageMap) → check (database_in pages catalog.now.relations) (plan_value plan.now) ≡ None) }
    ensures stands { IfOk result (λ r. (pages : PageMap) → CatalogStands pages catalog.now → (name : List ℕ)
        → RunningStandsAt r pages (new_cursor name (plan_value plan.now) (database_in pages catalog.now.relations))) }
    ensures refused { IfErr result (λ w. (w ≡ why.Memory) ⊎ ((pages : PageMap) → check (database_in pages catalog.now.relations) (plan_value plan.now) ≡ Some w)) }
{
    check(catalog, plan)?;
    match Running::start(alloc, catalog, plan) {
        Ok(running) => Ok(running),
        Err(NoMemory {}) => Err(Refusal::Memory),
    }
}
