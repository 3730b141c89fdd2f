ghost use Rattle.std.specs.Prelude.{◌≡◌, ◌<◌, [], ◌∷◌, Some, IfOk};
ghost use Rattle.sand_base.specs.InRange.{IsCeilingInRange};
ghost use Rattle.sand_base.specs.Plane.{IsGoalInClosedPlane};
ghost use Rattle.sand_model.specs.Reach.{no_counts};
ghost use Rattle.plan_iterator.specs.Rows.{counts_of};
ghost use Rattle.plan_sources.specs.Rankings.{IsSearchAt, BeginsRanking, hierarchy_of, search_seen, search_steps, heights_of};

use crate::TreeColumn;
use crate::search::Search;
use best_first::{BestFirst, Hit, ZeroSearch};
use page_pool::{Desk, Disk, PageFault};
use plan_iterator::{Answer, RowSource, SourceCounts};
use rank_cursor::RankTree;
use rank_queue::{CopyQueue, Queue};
use sand_base::{Goal, Ids, NoMemory, Row};
use std::alloc::Global;

/// The rows of a column by their distance from a goal, nearest first.
#[derive(Drop)]
pub struct RankSource {
    search: Search,
}

impl RankSource {
    /// The ranking of a column from a goal, with a greatest distance where there is a ceiling. No page is read.
    pub fn start(
        alloc: Global,
        column: TreeColumn,
        goal: Goal,
        ceiling: Option<u32>,
    ) -> Result<RankSource, NoMemory>
        requires plane { IsGoalInClosedPlane goal }
        requires small { IsCeilingInRange ceiling }
        ensures counts { IfOk result (λ s. counts_of (⟦<RankSource as RowSource>⟧.seen s) ≡ no_counts) }
        ensures begun { IfOk result (λ s. BeginsRanking (⟦<RankSource as RowSource>⟧.At s) column.entry.relation.now column.entry.column column.entry.tree.now goal ceiling) }
    {
        let shapes = column.shapes(alloc)?;
        let hierarchy = RankTree::over(*column.tree, shapes, goal, ceiling);
        match ceiling {
            // Each id of a row has a bit.
            Some(0) => {
                let count = column.relation.greatest().saturating_add(1);
                let search = ZeroSearch::start(alloc, hierarchy, count)?;
                Ok(RankSource {
                    search: Search::AtZero(search),
                })
            }
            _ => {
                let search = BestFirst::start(alloc, hierarchy, CopyQueue::empty(alloc))?;
                Ok(RankSource {
                    search: Search::Nearest(search),
                })
            }
        }
    }
}

// A row that was found by its gap.
fn answer_of(alloc: Global, hit: Hit) -> Answer
    ensures gap { result.gap ≡ Some hit.gap }
    ensures ids { result.ids ≡ hit.left ∷ [] }
    ensures values { result.values ≡ [] }
{
    Answer {
        gap: Some(hit.gap),
        ids: Ids::one(hit.left),
        values: Row::new(Vec::new(alloc)),
    }
}

impl RowSource for RankSource {
    ghost At = { λ s pages d p t. IsSearchAt s.search pages d p t };

    ghost seen = { λ s. search_seen s.search };

    ghost heights = { λ s. heights_of (hierarchy_of s.search) };

    ghost step_price = { λ s. 0 };

    ghost owed = { λ s pages. 0 };

    ghost steps = { λ s. search_steps s.search };

    fn next<D: Disk>(
        &mut self,
        alloc: Global,
        desk: &mut Desk<D>,
    ) -> Result<Option<Answer>, PageFault> {
        match self.search.next(desk) {
            Ok(Some(hit)) => return Ok(Some(answer_of(alloc, hit))),
            Ok(None) => return Ok(None),
            Err(fault) => return Err(fault),
        }
    }

    fn counts(&self) -> SourceCounts {
        SourceCounts {
            blocks: self.search.visited(),
            pairs: 0,
            geometries: self.search.fetched(),
        }
    }
}
