ghost use Rattle.std.specs.Prelude.{◌≡◌, ◌≤◌, ◌<◌, IfOk};
ghost use Rattle.sand_base.specs.InRange.{IsCeilingInRange};
ghost use Rattle.sand_model.specs.Reach.{no_counts};
ghost use Rattle.best_first.specs.Steps.{steps};
ghost use Rattle.dist_join.specs.OverPages.{pair_weight};
ghost use Rattle.plan_iterator.specs.Rows.{counts_of};
ghost use Rattle.plan_sources.specs.Joins.{joined_columns, join_of, joining_in, heights_of, HasTakenPartners, BeginsPartners};

use crate::TreeColumn;
use crate::pair_answer::{pair_answer, room};
use crate::pair_search::pair_search;
use best_first::Item;
use dist_join::PairTree;
use knn_join::Knn;
use page_pool::{Desk, Disk, PageFault};
use plan_iterator::{Answer, RowSource, SourceCounts};
use rank_queue::CopyQueue;
use sand_base::NoMemory;
use sand_store::FileShapes;
use std::alloc::Global;
use z_code::Block;

/// The first pairs of each row of the left column, those with the nearest rows of the right column, at most a count of
/// each, nearest first.
#[derive(Drop)]
pub struct KnnSource {
    knn: Knn<PairTree<FileShapes>, CopyQueue<Item<(Block, Block)>>>,
}

impl KnnSource {
    /// The join of two columns with at most k partners of each left row, with a greatest distance where there is a
    /// ceiling. It takes one byte for each id of the left relation. No page is read.
    pub fn start(
        alloc: Global,
        k: u8,
        left: TreeColumn,
        right: TreeColumn,
        ceiling: Option<u32>,
    ) -> Result<KnnSource, NoMemory>
        requires some { 1 ≤ k }
        requires small { IsCeilingInRange ceiling }
        ensures counts { IfOk result (λ s. counts_of (⟦<KnnSource as RowSource>⟧.seen s) ≡ no_counts) }
        ensures begun { IfOk result (λ s. BeginsPartners k (⟦<KnnSource as RowSource>⟧.At s) (joined_columns left.entry right.entry ceiling)) }
    {
        let search = pair_search(alloc, left, right, ceiling)?;
        let lefts = left.relation.rows();
        let rights = right.relation.rows();
        let knn = Knn::start(alloc, search, k, lefts, rights, left.relation.greatest())?;
        Ok(KnnSource { knn })
    }
}

impl RowSource for KnnSource {
    ghost At = { λ s pages d p t. HasTakenPartners ⟦<(Block, Block) as Ord>⟧.cmp
        (joining_in (join_of s.knn.engine.hierarchy) pages) s.knn.engine.frontier.queue.items s.knn.engine.frontier.last s.knn.engine.frontier.counts s.knn.partners d p t };

    ghost seen = { λ s. record { blocks = 0; pairs = s.knn.engine.frontier.counts.visited; geometries = s.knn.engine.frontier.counts.fetched } };

    ghost heights = { λ s. heights_of (join_of s.knn.engine.hierarchy) };

    ghost step_price = { λ s. 0 };

    ghost owed = { λ s pages. 0 };

    ghost steps = { λ s. steps pair_weight s.knn.engine.frontier.queue.items };

    fn next<D: Disk>(
        &mut self,
        alloc: Global,
        desk: &mut Desk<D>,
    ) -> Result<Option<Answer>, PageFault> {
        // Room for the ids comes first: where memory is refused for it, nothing is taken.
        let Ok(ids) = room(alloc) else {
            return Err(PageFault::Memory);
        };
        match self.knn.next(desk) {
            Ok(Some(hit)) => Ok(Some(pair_answer(alloc, ids, hit))),
            Ok(None) => Ok(None),
            Err(fault) => Err(fault),
        }
    }

    fn counts(&self) -> SourceCounts {
        let search = self.knn.engine();
        SourceCounts {
            blocks: 0,
            pairs: search.visited(),
            geometries: search.fetched(),
        }
    }
}
