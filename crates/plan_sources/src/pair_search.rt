ghost use Rattle.std.specs.Prelude.{◌≡◌, ◌<◌, [], None, IfOk};
ghost use Rattle.sand_base.specs.InRange.{IsCeilingInRange};
ghost use Rattle.page_pool.specs.Disk.{PageMap};
ghost use Rattle.best_first.specs.Frontier.{Stands};
ghost use Rattle.best_first.specs.Hierarchy.{MeetsLaws};
ghost use Rattle.best_first.specs.Visits.{IsCounted};
ghost use Rattle.z_code.specs.declared.block.Block.{Block as Place};
ghost use Rattle.dist_join.specs.Joining.{join_meaning};
ghost use Rattle.plan_sources.specs.Joins.{joined_columns, join_view, join_of, joining_in};

use crate::TreeColumn;
use best_first::{BestFirst, Item};
use dist_join::PairTree;
use rank_queue::{CopyQueue, Queue};
use sand_base::NoMemory;
use sand_store::FileShapes;
use std::alloc::Global;
use z_code::Block;

// The search over the pairs of places of two quadtrees, which has given nothing.
pub fn pair_search(
    alloc: Global,
    left: TreeColumn,
    right: TreeColumn,
    ceiling: Option<u32>,
) -> Result<BestFirst<PairTree<FileShapes>, CopyQueue<Item<(Block, Block)>>>, NoMemory>
    requires small { IsCeilingInRange ceiling }
    ensures view { IfOk result (λ s. join_of s.hierarchy ≡ join_view (joined_columns left.entry right.entry ceiling)) }
    ensures none_given { IfOk result (λ s. s.frontier.last ≡ None) }
    ensures none_taken { IfOk result (λ s. IsCounted {N = Place × Place} [] s.frontier.counts) }
    ensures stands { IfOk result (λ s. (p : PageMap) → MeetsLaws (join_meaning (joining_in (join_view (joined_columns left.entry right.entry ceiling)) p))
        → Stands ⟦<(Block, Block) as Ord>⟧.cmp (join_meaning (joining_in (join_view (joined_columns left.entry right.entry ceiling)) p)) s.frontier.queue.items s.frontier.last []) }
{
    let left_shapes = left.shapes(alloc)?;
    let right_shapes = right.shapes(alloc)?;
    let hierarchy = PairTree::over(*left.tree, left_shapes, *right.tree, right_shapes, ceiling);
    let search = BestFirst::start(alloc, hierarchy, CopyQueue::empty(alloc))?;
    Ok(search)
}
