ghost use Rattle.std.specs.Prelude.{◌+◌, ◌≤◌, IfOk};
ghost use Rattle.sand_base.specs.declared.visit.Visit.TheVariants as visit;
ghost use Rattle.page_pool.specs.Causes.{HasPageCause};
ghost use Rattle.page_pool.specs.Pool.{IsTold};
ghost use Rattle.page_pool.specs.Reads.{IsRead};
ghost use Rattle.code_btree.specs.Tree.{pages_in};
ghost use Rattle.r_tree.specs.Nodes.{ShowsNode, IsTreeNode};
ghost use Rattle.r_tree.specs.Tree.{node_at};
ghost use Rattle.pmr_tree.specs.Calls.{GetsSome, NotesVisit};

use page_pool::{Desk, Disk, PageFault, Pages};
use r_tree::{RTree, TreeNode};
use sand_base::Visit;
use std::alloc::Global;

// Notes a node of the tree in the log, then reads it: one page get. A visit that was noted stays so where the read is
// refused.
pub fn visit_node<D: Disk>(
    tree: &RTree,
    alloc: Global,
    desk: &mut Desk<D>,
    page: u64,
) -> Result<TreeNode, PageFault>
    requires { IsTold desk.old.pool → IsTreeNode (pages_in desk.old.pool) tree.now page }
    ensures noted { NotesVisit (visit.Tree tree.now.number page) desk.old desk.new result }
    ensures shows { IfOk result (λ found. IsTold desk.old.pool → ShowsNode (node_at (pages_in desk.old.pool) page) found) }
    ensures read { IsRead desk.old.pool desk.new.pool }
    ensures cause { HasPageCause desk.old.pool desk.new.pool result }
    ensures up { desk.old.pool.gets ≤ desk.new.pool.gets }
    ensures some { GetsSome desk.old.pool desk.new.pool result }
    ensures price { desk.new.pool.gets ≤ desk.old.pool.gets + 1 }
{
    // For the proof alone: a count of gets is at most the greatest u64, so it doesn't fall.
    let _before = desk.gets();
    desk.note(Visit::Tree {
        tree: tree.number(),
        page,
    })?;
    let node = tree.node(alloc, desk.pages(), page)?;
    Ok(node)
}
