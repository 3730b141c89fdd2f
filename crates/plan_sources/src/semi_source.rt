ghost use Rattle.std.specs.Prelude.{◌≡◌, ◌<◌, IfOk};
ghost use Rattle.sand_base.specs.InRange.{IsCeilingInRange};
ghost use Rattle.sand_model.specs.Reach.{no_counts};
ghost use Rattle.best_first.specs.Steps.{steps};
ghost use Rattle.dist_join.specs.OverPages.{pair_weight};
ghost use Rattle.plan_iterator.specs.Rows.{counts_of};
ghost use Rattle.plan_sources.specs.Joins.{joined_columns, join_of, joining_in, heights_of, HasTakenFirsts, BeginsFirsts};

use crate::TreeColumn;
use crate::pair_answer::{pair_answer, room};
use crate::pair_search::pair_search;
use best_first::Item;
use dist_join::PairTree;
use page_pool::{Desk, Disk, PageFault};
use plan_iterator::{Answer, RowSource, SourceCounts};
use rank_queue::CopyQueue;
use sand_base::NoMemory;
use sand_store::FileShapes;
use semi_join::Semi;
use std::alloc::Global;
use z_code::Block;

/// The first pair of each row of the left column, the one with the nearest row of the right column, nearest first.
#[derive(Drop)]
pub struct SemiSource {
    semi: Semi<PairTree<FileShapes>, CopyQueue<Item<(Block, Block)>>>,
}

impl SemiSource {
    /// The semi-join of two columns, with a greatest distance where there is a ceiling. It takes one bit for each id
    /// of the left relation. No page is read.
    pub fn start(
        alloc: Global,
        left: TreeColumn,
        right: TreeColumn,
        ceiling: Option<u32>,
    ) -> Result<SemiSource, NoMemory>
        requires small { IsCeilingInRange ceiling }
        ensures counts { IfOk result (λ s. counts_of (⟦<SemiSource as RowSource>⟧.seen s) ≡ no_counts) }
        ensures begun { IfOk result (λ s. BeginsFirsts (⟦<SemiSource as RowSource>⟧.At s) (joined_columns left.entry right.entry ceiling)) }
    {
        let search = pair_search(alloc, left, right, ceiling)?;
        let semi = Semi::start(
            alloc,
            search,
            left.relation.rows(),
            left.relation.greatest(),
        )?;
        Ok(SemiSource { semi })
    }
}

impl RowSource for SemiSource {
    ghost At = { λ s pages d p t. HasTakenFirsts ⟦<(Block, Block) as Ord>⟧.cmp
        (joining_in (join_of s.semi.engine.hierarchy) pages) s.semi.engine.frontier.queue.items s.semi.engine.frontier.counts s.semi.lefts d p t };

    ghost seen = { λ s. record { blocks = 0; pairs = s.semi.engine.frontier.counts.visited; geometries = s.semi.engine.frontier.counts.fetched } };

    ghost heights = { λ s. heights_of (join_of s.semi.engine.hierarchy) };

    ghost step_price = { λ s. 0 };

    ghost owed = { λ s pages. 0 };

    ghost steps = { λ s. steps pair_weight s.semi.engine.frontier.queue.items };

    fn next<D: Disk>(
        &mut self,
        alloc: Global,
        desk: &mut Desk<D>,
    ) -> Result<Option<Answer>, PageFault> {
        // Room for the ids comes first: where memory is refused for it, nothing is taken.
        let Ok(ids) = room(alloc) else {
            return Err(PageFault::Memory);
        };
        match self.semi.next(desk) {
            Ok(Some(hit)) => Ok(Some(pair_answer(alloc, ids, hit))),
            Ok(None) => Ok(None),
            Err(fault) => Err(fault),
        }
    }

    fn counts(&self) -> SourceCounts {
        let search = self.semi.engine();
        SourceCounts {
            blocks: 0,
            pairs: search.visited(),
            geometries: search.fetched(),
        }
    }
}
