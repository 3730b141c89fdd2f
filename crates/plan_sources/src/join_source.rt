ghost use Rattle.std.specs.Prelude.{◌≡◌, ℕ, ◌<◌, IfOk};
ghost use Rattle.sand_base.specs.InRange.{IsCeilingInRange};
ghost use Rattle.best_first.specs.Steps.{steps};
ghost use Rattle.dist_join.specs.OverPages.{pair_weight};
ghost use Rattle.sand_model.specs.Reach.{no_counts};
ghost use Rattle.plan_iterator.specs.Rows.{counts_of};
ghost use Rattle.plan_sources.specs.Joins.{joined_columns, join_of, joining_in, heights_of, HasTakenPairs, Begins};

use crate::TreeColumn;
use crate::pair_answer::{pair_answer, room};
use crate::pair_search::pair_search;
use best_first::{BestFirst, Item};
use dist_join::PairTree;
use page_pool::{Desk, Disk, PageFault};
use plan_iterator::{Answer, RowSource, SourceCounts};
use rank_queue::CopyQueue;
use sand_base::NoMemory;
use sand_store::FileShapes;
use std::alloc::Global;
use z_code::Block;

/// The pairs of rows of two columns by their distance, nearest first.
#[derive(Drop)]
pub struct JoinSource {
    search: BestFirst<PairTree<FileShapes>, CopyQueue<Item<(Block, Block)>>>,
}

impl JoinSource {
    /// The join of two columns, with a greatest distance where there is a ceiling. No page is read.
    pub fn start(
        alloc: Global,
        left: TreeColumn,
        right: TreeColumn,
        ceiling: Option<u32>,
    ) -> Result<JoinSource, NoMemory>
        requires small { IsCeilingInRange ceiling }
        ensures counts { IfOk result (λ s. counts_of (⟦<JoinSource as RowSource>⟧.seen s) ≡ no_counts) }
        ensures begun { IfOk result (λ s. Begins (⟦<JoinSource as RowSource>⟧.At s) (joined_columns left.entry right.entry ceiling)) }
    {
        let search = pair_search(alloc, left, right, ceiling)?;
        Ok(JoinSource { search })
    }
}

impl RowSource for JoinSource {
    ghost At = { λ s pages d p t. HasTakenPairs ⟦<(Block, Block) as Ord>⟧.cmp
        (joining_in (join_of s.search.hierarchy) pages) s.search.frontier.queue.items s.search.frontier.last s.search.frontier.counts d p t };

    ghost seen = { λ s. record { blocks = 0; pairs = s.search.frontier.counts.visited; geometries = s.search.frontier.counts.fetched } };

    ghost heights = { λ s. heights_of (join_of s.search.hierarchy) };

    ghost step_price = { λ s. 0 };

    ghost owed = { λ s pages. 0 };

    ghost steps = { λ s. steps pair_weight s.search.frontier.queue.items };

    fn next<D: Disk>(
        &mut self,
        alloc: Global,
        desk: &mut Desk<D>,
    ) -> Result<Option<Answer>, PageFault> {
        // Room for the ids comes first: where memory is refused for it, nothing is taken.
        let Ok(ids) = room(alloc) else {
            return Err(PageFault::Memory);
        };
        match self.search.next(desk) {
            Ok(Some(hit)) => Ok(Some(pair_answer(alloc, ids, hit))),
            Ok(None) => Ok(None),
            Err(fault) => Err(fault),
        }
    }

    fn counts(&self) -> SourceCounts {
        SourceCounts {
            blocks: 0,
            pairs: self.search.visited(),
            geometries: self.search.fetched(),
        }
    }
}
