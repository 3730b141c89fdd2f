// A change of a quadtree in pages, and whether the tree has the leaves of a plain one.
ghost use Rattle.std.specs.Prelude.{◌≡◌, ◌≤◌, false};
ghost use Rattle.page_pool.specs.Pool.{IsOpen, IsClosed};

use crate::edge_shapes::{EdgeShapes, shape_of_id};
use crate::plain_tree::{PlainTree, listings, plain};
use crate::shy_disk::ShyDisk;
use page_pool::{PageFault, Pool};
use pmr_tree::{Pmr, PmrFault};
use std::alloc::Global;

/// Whether a tree in pages has the leaves of a plain one.
pub fn is_same(
    alloc: Global,
    pool: &mut Pool<ShyDisk>,
    tree: &Pmr,
    plain: &PlainTree,
) -> Result<bool, PageFault>
    requires untold { pool.old.disk.told ≡ false }
    ensures beginning { pool.new.beginning ≡ pool.old.beginning }
    ensures shown { pool.new.live ≡ pool.old.live }
    ensures untold { pool.new.disk.told ≡ false }
{
    'leaves: for leaf in &plain.leaves {
        let (block, ids) = tree.leaf_at(alloc, pool, leaf.block.z)?;
        if block != leaf.block || ids.as_slice() != leaf.ids.as_slice() {
            return Ok(false);
        }
    }
    Ok(tree.listings() == listings(plain))
}

/// A change of an id: it comes, with a limit on the listings, or leaves.
#[derive(Clone, Copy)]
pub enum Change {
    Insert(u64),
    Delete,
}

// Makes a change in an open command.
fn made(
    alloc: Global,
    pool: &mut Pool<ShyDisk>,
    tree: &mut Pmr,
    id: u32,
    change: Change,
) -> Result<(), PmrFault>
    requires opened { IsOpen pool.old }
    requires untold { pool.old.disk.told ≡ false }
    requires id { 1 ≤ id }
    ensures opened { IsOpen pool.new }
    ensures untold { pool.new.disk.told ≡ false }
{
    let Ok(shape) = shape_of_id(alloc, id) else {
        return Err(PmrFault::Memory);
    };
    match change {
        Change::Insert(limit) => {
            tree.insert(alloc, pool, &EdgeShapes {}, id, &shape, limit)?;
        }
        Change::Delete => {
            tree.delete(alloc, pool, id, &shape)?;
        }
    }
    Ok(())
}

/// Makes a change in a command of its own, which is aborted where the change is refused.
pub fn commanded(
    alloc: Global,
    pool: &mut Pool<ShyDisk>,
    tree: &mut Pmr,
    id: u32,
    change: Change,
) -> Result<(), PmrFault>
    requires closed { IsClosed pool.old }
    requires untold { pool.old.disk.told ≡ false }
    requires id { 1 ≤ id }
    ensures closed { IsClosed pool.new }
    ensures untold { pool.new.disk.told ≡ false }
{
    pool.begin()?;
    match made(alloc, pool, tree, id, change) {
        Ok(()) => {
            pool.commit();
            Ok(())
        }
        Err(why) => {
            pool.abort();
            Err(why)
        }
    }
}
