ghost use Rattle.std.specs.Prelude.{◌≡◌, false, [], IfOk};
ghost use Rattle.page_pool.specs.Disk.{PageMap};
ghost use Rattle.sand_store.specs.Contents.{database_in};
ghost use Rattle.sand_store.specs.Standing.{CatalogStands};
ghost use Rattle.statements.specs.Plan.{plan_value};
ghost use Rattle.plan_iterator.specs.Outermost.{is_source};
ghost use Rattle.plan_ops.specs.Openable.{IsOpenable};
ghost use Rattle.plan_ops.specs.Stages.{StageStands, is_closed};

use crate::Stage;
use crate::columns::look_up;
use crate::places::{add_spots, add_tests, spot};
use plan_stages::{Fetch, Filter, First, Match, SortBy, SortNear};
use sand_base::NoMemory;
use sand_store::Catalog;
use script_text::Plan;
use std::alloc::Global;

impl Stage {
    /// The stage of the outermost operator of a plan, which took nothing. No page is read. Counts are at least 1, so
    /// that no `first` opens its sort without a row.
    pub fn start(alloc: Global, catalog: &Catalog, plan: &Plan) -> Result<Stage, NoMemory>
        requires openable { IsOpenable catalog.now plan.now }
        requires operator { is_source (plan_value plan.now) ≡ false }
        ensures open { IfOk result (λ s. is_closed s ≡ false) }
        ensures begun { IfOk result (λ s. (pages : PageMap) → CatalogStands pages catalog.now → StageStands s pages (database_in pages catalog.now.relations) (plan_value plan.now) [] []) }
    {
        match plan {
            Plan::Filter { plan, tests } => {
                let mut found = Vec::new(alloc);
                add_tests(alloc, catalog, plan, tests.as_slice(), &mut found)?;
                Ok(Stage::Filter(Filter::new(found)))
            }
            Plan::Match {
                plan,
                place,
                column,
            } => {
                let spot = spot(alloc, catalog, plan, place)?;
                let look_up = look_up(alloc, catalog, column)?;
                Ok(Stage::Match(Match::new(spot, look_up)))
            }
            Plan::Fetch { plan, places } => {
                let mut found = Vec::new(alloc);
                add_spots(alloc, catalog, plan, places.as_slice(), &mut found)?;
                Ok(Stage::Fetch(Fetch::new(found)))
            }
            Plan::First { count, .. } => Ok(Stage::First(First::new(*count, false))),
            Plan::SortBy { plan, place } => {
                let spot = spot(alloc, catalog, plan, place)?;
                Ok(Stage::SortBy(SortBy::new(alloc, spot)))
            }
            Plan::SortNear { plan, place, goal } => {
                let goal = goal.copy(alloc)?;
                let spot = spot(alloc, catalog, plan, place)?;
                let sort = SortNear::new(alloc, spot, goal);
                Ok(Stage::SortNear(sort))
            }
            Plan::Scan { .. }
            | Plan::Rank { .. }
            | Plan::Near { .. }
            | Plan::Window { .. }
            | Plan::PickEqual { .. }
            | Plan::PickBetween { .. }
            | Plan::Join { .. }
            | Plan::Semi { .. }
            | Plan::Knn { .. } => unreachable!(),
        }
    }
}
