// The operator of a plan.
ghost use Rattle.std.specs.Prelude.{◌≡◌, [], IfOk};
ghost use Rattle.page_pool.specs.Disk.{PageMap};
ghost use Rattle.sand_model.specs.Reach.{no_counts};
ghost use Rattle.sand_store.specs.Contents.{database_in};
ghost use Rattle.sand_store.specs.Standing.{CatalogStands};
ghost use Rattle.statements.specs.Plan.{plan_value};
ghost use Rattle.plan_iterator.specs.Rows.{counts_of};
ghost use Rattle.plan_iterator.specs.SourceSteps.{nothing_taken};
ghost use Rattle.plan_iterator.specs.Following.{Follows, source_of};
ghost use Rattle.plan_ops.specs.Openable.{IsOpenable};
ghost use Rattle.plan_ops.specs.Sources.{source_at, source_seen};
ghost use Rattle.plan_ops.specs.Stages.{StageStands, is_closed};

use crate::{Source, Stage};
use plan_iterator::{Operator, Over};
use sand_base::NoMemory;
use sand_store::Catalog;
use script_text::Plan;
use std::alloc::Global;
use std::boxed::Box;

/// The operator of a plan, which has taken and given nothing. No page is read.
#[cycle(operator_of)]
pub(crate) fn operator_of(
    alloc: Global,
    catalog: &Catalog,
    plan: &Plan,
) -> Result<Operator<Source, Stage>, NoMemory>
    requires { IsOpenable catalog.now plan.now }
    ensures counts { IfOk result (λ o. counts_of (source_seen (source_of o)) ≡ no_counts) }
    ensures begun { IfOk result (λ o. (pages : PageMap) → CatalogStands pages catalog.now
        → Follows source_at StageStands is_closed o pages (database_in pages catalog.now.relations) (plan_value plan.now) nothing_taken []) }
{
    match plan {
        Plan::Filter { plan: inner, .. }
        | Plan::Match { plan: inner, .. }
        | Plan::Fetch { plan: inner, .. }
        | Plan::First { plan: inner, .. }
        | Plan::SortBy { plan: inner, .. }
        | Plan::SortNear { plan: inner, .. } => {
            let below = operator_of(alloc, catalog, inner)?;
            let stage = Stage::start(alloc, catalog, plan)?;
            let below = Box::new(alloc, below)?;
            Ok(Operator::Over(Over { stage, below }))
        }
        Plan::Scan { .. }
        | Plan::Rank { .. }
        | Plan::Near { .. }
        | Plan::Window { .. }
        | Plan::PickEqual { .. }
        | Plan::PickBetween { .. }
        | Plan::Join { .. }
        | Plan::Semi { .. }
        | Plan::Knn { .. } => {
            let source = Source::start(alloc, catalog, plan)?;
            Ok(Operator::Source(source))
        }
    }
}
