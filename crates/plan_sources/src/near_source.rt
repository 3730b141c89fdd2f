ghost use Rattle.std.specs.Prelude.{◌≡◌, [], ◌∷◌, Some, IfSome, IfOk};
ghost use Rattle.sand_base.specs.InRange.{IsCeilingInRange};
ghost use Rattle.sand_base.specs.Plane.{IsShapeInClosedPlane};
ghost use Rattle.page_pool.specs.Causes.{HasPageCause};
ghost use Rattle.page_pool.specs.Disk.{PageMap};
ghost use Rattle.page_pool.specs.Reads.{IsRead};
ghost use Rattle.sand_model.specs.Database.{Database};
ghost use Rattle.sand_model.specs.Reach.{no_counts};
ghost use Rattle.sand_model.specs.Taken.{Taken};
ghost use Rattle.statements.specs.Plan.{Plan};
ghost use Rattle.best_first.specs.Steps.{steps};
ghost use Rattle.best_first.specs.Visits.{told_pages};
ghost use Rattle.near_cursor.specs.NearRanking.{near_weight};
ghost use Rattle.plan_iterator.specs.Rows.{counts_of};
ghost use Rattle.plan_iterator.specs.SourceSteps.{FallsAtRow};
ghost use Rattle.plan_sources.specs.NearPlans.{BeginsNear, near_heights, geometries_seen};
ghost use Rattle.plan_sources.specs.NearSteps.{IsNearAt, HasReadSoFar, StepsNear, no_step_price, CostsNear, ReadsNoNodeTwice};

use crate::RtreeColumn;
use best_first::{BestFirst, Hit, Item};
use near_cursor::NearTree;
use page_pool::{Desk, Disk, PageFault};
use plan_iterator::{Answer, RowSource, SourceCounts};
use rank_queue::{CopyQueue, Queue};
use sand_base::{Goal, Ids, NoMemory, Row, Shape};
use sand_store::FileShapes;
use std::alloc::Global;

/// The rows of a column by their distance from a shape, nearest first, found by the column's R-tree.
#[derive(Drop)]
pub struct NearSource {
    search: BestFirst<NearTree<FileShapes>, CopyQueue<Item<(u64, u32)>>>,
}

impl NearSource {
    /// The ranking of a column from a shape, with a greatest distance where there is a ceiling. No page is read.
    pub fn start(
        alloc: Global,
        column: RtreeColumn,
        goal: Shape,
        ceiling: Option<u32>,
    ) -> Result<NearSource, NoMemory>
        requires plane { IsShapeInClosedPlane goal }
        requires small { IsCeilingInRange ceiling }
        ensures counts { IfOk result (λ s. counts_of (⟦<NearSource as RowSource>⟧.seen s) ≡ no_counts) }
        ensures none_read { IfOk result (λ s. (pages : PageMap) (d : Database) (p : Plan) (t : Taken) → IsNearAt s pages d p t → HasReadSoFar s pages []) }
        ensures begun { IfOk result (λ s. BeginsNear (⟦<NearSource as RowSource>⟧.At s) column.entry.relation.now column.entry.column column.entry.tree goal ceiling) }
    {
        let shapes = column.shapes(alloc)?;
        let hierarchy = NearTree::over(column.tree, shapes, Goal::Shape(goal), ceiling);
        let search = BestFirst::start(alloc, hierarchy, CopyQueue::empty(alloc))?;
        Ok(NearSource { search })
    }
}

// A row that was found by its gap.
fn answer_of(alloc: Global, hit: Hit) -> Answer
    ensures gap { result.gap ≡ Some hit.gap }
    ensures ids { result.ids ≡ hit.left ∷ [] }
    ensures values { result.values ≡ [] }
{
    Answer {
        gap: Some(hit.gap),
        ids: Ids::one(hit.left),
        values: Row::new(Vec::new(alloc)),
    }
}

impl RowSource for NearSource {
    ghost At = { IsNearAt };

    ghost seen = { λ s. geometries_seen s.search.frontier.counts };

    ghost heights = { λ s. near_heights s.search.hierarchy };

    ghost step_price = { no_step_price };

    ghost owed = { λ s pages. 0 };

    ghost steps = { λ s. steps near_weight s.search.frontier.queue.items };

    // The clauses of the trait, and one more: no node of the R-tree is read twice.
    fn next<D: Disk>(
        &mut self,
        alloc: Global,
        desk: &mut Desk<D>,
    ) -> Result<Option<Answer>, PageFault>
        requires stands { IfSome (told_pages desk.old) (λ pages. (d : Database) × ((p : Plan) × ((t : Taken) × IsNearAt self.old pages d p t))) }
        ensures read { IsRead desk.old.pool desk.new.pool }
        ensures cause { HasPageCause desk.old.pool desk.new.pool result }
        ensures falls { FallsAtRow (steps near_weight self.old.search.frontier.queue.items) (steps near_weight self.new.search.frontier.queue.items) result }
        ensures step { IfSome (told_pages desk.old) (StepsNear self.old self.new desk.old desk.new result) }
        ensures heights { near_heights self.new.search.hierarchy ≡ near_heights self.old.search.hierarchy }
        ensures step_price { no_step_price self.new ≡ no_step_price self.old }
        ensures costs { IfSome (told_pages desk.old) (CostsNear self.old self.new desk.old desk.new result) }
        ensures once { IfSome (told_pages desk.old) (ReadsNoNodeTwice self.old self.new desk.old desk.new result) }
    {
        match self.search.next(desk) {
            Ok(Some(hit)) => return Ok(Some(answer_of(alloc, hit))),
            Ok(None) => return Ok(None),
            Err(fault) => return Err(fault),
        }
    }

    fn counts(&self) -> SourceCounts {
        SourceCounts {
            blocks: 0,
            pairs: 0,
            geometries: self.search.fetched(),
        }
    }
}
