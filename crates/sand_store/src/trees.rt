// The R-trees of a relation, as a row enters or leaves.
ghost use Rattle.std.specs.Prelude.{◌≡◌, ℕ, List, IfOk, IfErr};
ghost use Rattle.page_pool.specs.Pool.{IsOpen, IsTold};
ghost use Rattle.page_pool.specs.Steps.{InCommand};
ghost use Rattle.sand_base.specs.declared.value.Value.{Value};
ghost use Rattle.sand_store.specs.Calls.{HasStoreCause};
ghost use Rattle.sand_store.specs.Standing.{TreeStands};
ghost use Rattle.sand_store.specs.Steps.{SameColumns, IsOutside};
ghost use Rattle.sand_store.specs.Trees.{CanChange, rows_after, TreesCanChange, TreeChanged, TreesChanged};

use crate::refusal::refusal_of;
use crate::shapes::plane_shape_at;
use page_pool::{Disk, Pool};
use r_tree::{RTree, with_shape, without_shape};
use sand_base::{Refusal, Row};
use std::alloc::Global;

/// What happens to a row of a relation: it enters under an id above the others, or leaves.
#[derive(Clone, Copy)]
pub enum RowChange {
    Enters,
    Leaves,
}

// The R-tree of a column when a row entered or left.
fn changed_tree<D: Disk>(
    alloc: Global,
    pool: &mut Pool<D>,
    tree: RTree,
    column: usize,
    change: RowChange,
    id: u32,
    row: &Row,
) -> Result<RTree, Refusal>
    requires opened { IsOpen pool.old }
    requires can { IsTold pool.old → (rows : List (ℕ × List Value)) × (TreeStands pool.old.pages rows (column, tree) × CanChange change id row.now rows) }
    ensures changed { IfOk result (λ after. IsTold pool.old → (rows : List (ℕ × List Value)) → TreeStands pool.old.pages rows (column, tree) → CanChange change id row.now rows
        → TreeChanged pool.old.pages pool.new.pages (rows_after change id row.now rows) column tree after) }
    ensures outside { IfErr result IsOutside }
    ensures within { InCommand pool.old pool.new }
    ensures cause { HasStoreCause pool.old pool.new result }
{
    let Some(shape) = plane_shape_at(row, column) else {
        return Err(Refusal::Memory);
    };
    match change {
        RowChange::Enters => match with_shape(alloc, pool, tree, id, shape) {
            Ok(grown) => Ok(grown),
            Err(why) => Err(refusal_of(why)),
        },
        RowChange::Leaves => match without_shape(alloc, pool, tree, id, shape) {
            Ok(shrunk) => Ok(shrunk),
            Err(why) => Err(refusal_of(why)),
        },
    }
}

/// All R-trees of a relation, in their order, when a row entered or left.
pub fn changed_trees<D: Disk>(
    alloc: Global,
    pool: &mut Pool<D>,
    trees: &[(usize, RTree)],
    change: RowChange,
    id: u32,
    row: &Row,
) -> Result<Vec<(usize, RTree)>, Refusal>
    requires opened { IsOpen pool.old }
    requires can { IsTold pool.old → (rows : List (ℕ × List Value)) × (TreesCanChange pool.old.pages rows trees.now × CanChange change id row.now rows) }
    ensures changed { IfOk result (λ after. IsTold pool.old → (rows : List (ℕ × List Value)) → TreesCanChange pool.old.pages rows trees.now → CanChange change id row.now rows
        → TreesChanged pool.old.pages pool.new.pages (rows_after change id row.now rows) trees.now after.items) }
    ensures columns { IfOk result (λ after. SameColumns trees.now after.items) }
    ensures outside { IfErr result IsOutside }
    ensures within { InCommand pool.old pool.new }
    ensures cause { HasStoreCause pool.old pool.new result }
{
    let mut changed = Vec::new(alloc);
    'trees: for at in 0..trees.len() {
        let (column, tree) = trees[at];
        match changed_tree(alloc, pool, tree, column, change, id, row) {
            Ok(tree) => changed.push((column, tree))?,
            Err(why) => return Err(why),
        }
    }
    Ok(changed)
}
