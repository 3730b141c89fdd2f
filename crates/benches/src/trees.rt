// Quadtrees: mixed inserts and deletes, and their leaves.
ghost use Rattle.std.specs.Prelude.{◌≤◌, ◌<◌, ◌*◌, ◌^◌};
ghost use Rattle.sand_base.specs.declared.TheConstants.{COORDINATE_BITS};

use crate::draws::Draws;
use crate::open_pool::OpenPool;
use crate::shapes::Shapes;
use page_pool::PageFault;
use pmr_tree::Pmr;
use sand_base::COORDINATE_BITS;
use std::alloc::Global;
use std::collections::BTreeSet;
use z_code::Block;

/// The number of leaves of a tree, and a number that tells their blocks and ids in their order.
#[derive(Clone, Copy)]
pub struct LeafDigest {
    pub count: u64,
    pub digest: u64,
}

// The number with one more told.
fn told(digest: u64, number: u64) -> u64 {
    digest.wrapping_mul(1_000_003).wrapping_add(number)
}

// The code behind a block's.
fn behind(block: Block) -> u64 {
    let bits = (2 * COORDINATE_BITS).saturating_sub(u32::from(block.level) * 2);
    block.z.saturating_add(1u64 << bits)
}

// The number with a leaf more told.
fn told_leaf(digest: u64, block: Block, ids: &[u32]) -> u64 {
    let mut digest = told(told(digest, block.z), u64::from(block.level));
    'ids: for id in ids {
        digest = told(digest, u64::from(*id));
    }
    digest
}

// The number with the leaf of a code more told, and the code behind the leaf.
fn next_leaf(
    alloc: Global,
    pool: &mut OpenPool,
    tree: &Pmr,
    z: u64,
    digest: u64,
) -> Result<(u64, u64), PageFault>
    requires { z < 2 ^ (2 * COORDINATE_BITS) }
{
    let (block, ids) = pool.leaf(alloc, tree, z)?;
    Ok((told_leaf(digest, block, ids.as_slice()), behind(block)))
}

/// The leaves of a tree, in the order of their codes.
pub fn leaves(alloc: Global, pool: &mut OpenPool, tree: &Pmr) -> Result<LeafDigest, PageFault> {
    let mut count = 0u64;
    let mut digest = 0u64;
    let mut z = 0u64;
    'leaves: for _ in 0..1_000_000u32 {
        if z >= 1 << (2 * COORDINATE_BITS) {
            break;
        }
        let (told, next) = next_leaf(alloc, pool, tree, z, digest)?;
        count = count.wrapping_add(1);
        digest = told;
        z = next;
    }
    Ok(LeafDigest { count, digest })
}

// Inserts an id that isn't there, and deletes one that is.
fn toggle(
    alloc: Global,
    pool: &mut OpenPool,
    tree: &mut Pmr,
    there: &mut BTreeSet<u32>,
    id: u32,
) -> Result<(), PageFault>
    requires { 1 ≤ id }
{
    if there.remove(&id) {
        return pool.delete(alloc, tree, Shapes::Mixed, id);
    }
    let Ok(_new) = there.insert(id) else {
        return Err(PageFault::Memory);
    };
    pool.insert(alloc, tree, Shapes::Mixed, id)
}

/// So many drawn inserts and deletes of points, segments and triangles, with ids up to this one.
pub fn mixed(
    alloc: Global,
    pool: &mut OpenPool,
    threshold: u8,
    calls: u32,
    ids: u32,
) -> Result<Pmr, PageFault>
    requires least { 1 ≤ threshold }
    requires most { threshold ≤ 64 }
    requires some { 1 ≤ ids }
{
    let mut tree = pool.plant_tree(threshold, 1)?;
    let mut draws = Draws::begin(calls.into());
    let mut there = BTreeSet::new(alloc);
    'calls: for _ in 0..calls {
        let id = (draws.word() % u64::from(ids)) as u32 + 1;
        toggle(alloc, pool, &mut tree, &mut there, id)?;
    }
    Ok(tree)
}

/// A tree of the shapes of the ids up to this one.
pub fn planted(
    alloc: Global,
    pool: &mut OpenPool,
    threshold: u8,
    shapes: Shapes,
    ids: u32,
) -> Result<Pmr, PageFault>
    requires least { 1 ≤ threshold }
    requires most { threshold ≤ 64 }
{
    let mut tree = pool.plant_tree(threshold, 1)?;
    'ids: for id in 1..=ids {
        pool.insert(alloc, &mut tree, shapes, id)?;
    }
    Ok(tree)
}

/// Two trees of shapes in one pool, each of the ids up to its number.
pub fn planted_both(
    alloc: Global,
    pool: &mut OpenPool,
    left: (Shapes, u32),
    right: (Shapes, u32),
) -> Result<(Pmr, Pmr), PageFault> {
    let first = planted(alloc, pool, 8, left.0, left.1)?;
    let second = planted(alloc, pool, 8, right.0, right.1)?;
    Ok((first, second))
}
