// A B+-tree of entries that come in the order of their keys.
ghost use Rattle.std.specs.Prelude.{IfOk};
ghost use Rattle.page_pool.specs.Pool.{IsOpen, IsTold};
ghost use Rattle.page_pool.specs.Causes.{HasPageCause};
ghost use Rattle.page_pool.specs.Steps.{InCommand};
ghost use Rattle.code_btree.specs.Items.{Ascending};
ghost use Rattle.code_btree.specs.Tree.{pages_in};
ghost use Rattle.pmr_build.specs.Calls.{BuildsTree};

use code_btree::Tree;
use page_pool::{Disk, PageFault, Pool};

// The tree of these entries, on new pages. Each comes into the last leaf, so that leaves fill up one after another and
// none is looked at again once it is full. After a refusal the command is to be aborted.
pub fn tree_of_entries<D: Disk>(
    pool: &mut Pool<D>,
    entries: &[(u128, u128)],
) -> Result<Tree, PageFault>
    requires opened { IsOpen pool.old }
    requires ascending { IsTold pool.old → Ascending entries.now }
    ensures built { IfOk result (λ tree. IsTold pool.old → BuildsTree (pages_in pool.old) (pages_in pool.new) tree entries.now) }
    ensures within { InCommand pool.old pool.new }
    ensures cause { HasPageCause pool.old pool.new result }
{
    let mut tree = Tree::plant(pool)?;
    'entries: for (key, value) in entries {
        tree.insert(pool, *key, *value)?;
    }
    Ok(tree)
}
