// Quadtrees of all rows at once, beside plain ones to which the rows come one by one.
ghost use Rattle.std.specs.Prelude.{◌≡◌, ◌≤◌, false};
ghost use Rattle.page_pool.specs.Pool.{IsOpen};

use crate::draws::Draws;
use crate::edge_shapes::{AGAIN, COVERING, EdgeShapes, ONE_PLACE, shape_of_id};
use crate::filled_pool::untold_pool;
use crate::plain_tree::{PlainTree, grown, plain};
use crate::shy_disk::ShyDisk;
use crate::tree_changes::is_same;
use page_pool::{PageFault, Pool};
use pmr_build::build;
use r_tree::rough_shape;
use sand_base::{NoMemory, Rough};
use std::alloc::Global;
use std::io;

/// How many sets of rows are tried.
const SETS: u32 = 1_000;

// Adds fewer than so many ids, by ascending number, from behind this one on.
fn push_some(
    ids: &mut Vec<u32>,
    draws: &mut Draws,
    behind: u32,
    most: u32,
) -> Result<(), NoMemory> {
    let mut id = behind;
    for _ in 0..draws.word() % u64::from(most.max(1)) {
        id = id.saturating_add((draws.word() % 300) as u32 + 1);
        ids.push(id)?;
    }
    Ok(())
}

// The ids of a set: shapes on edges of blocks, points on one place, triangles over almost half of the plane, and again the first.
fn ids_of(alloc: Global, draws: &mut Draws) -> Result<Vec<u32>, NoMemory> {
    let mut ids = Vec::new(alloc);
    push_some(&mut ids, draws, 0, 25)?;
    push_some(&mut ids, draws, ONE_PLACE, 13)?;
    push_some(&mut ids, draws, COVERING, 3)?;
    push_some(&mut ids, draws, AGAIN, 9)?;
    Ok(ids)
}

// The ids with their rough shapes.
fn members_of(alloc: Global, ids: &[u32]) -> Result<Vec<(u32, Rough)>, NoMemory> {
    let mut members = Vec::new(alloc);
    for id in ids {
        let shape = shape_of_id(alloc, *id)?;
        members.push((*id, rough_shape(&shape)))?;
    }
    Ok(members)
}

// The plain tree to which these ids came one by one.
fn plain_of(alloc: Global, ids: &[u32], threshold: u8) -> Result<PlainTree, NoMemory> {
    let mut tree = plain(alloc, threshold)?;
    for id in ids {
        tree = grown(alloc, &tree, *id)?;
    }
    Ok(tree)
}

// Whether the tree of all ids at once has the leaves of a plain one.
fn is_alike(
    alloc: Global,
    pool: &mut Pool<ShyDisk>,
    ids: &[u32],
    tree: &PlainTree,
    threshold: u8,
) -> Result<bool, PageFault>
    requires opened { IsOpen pool.old }
    requires untold { pool.old.disk.told ≡ false }
    requires least { 1 ≤ threshold }
{
    let members = members_of(alloc, ids)?;
    match build(
        alloc,
        pool,
        &EdgeShapes {},
        &members,
        threshold,
        1,
        1_000_000,
    ) {
        Ok(built) => is_same(alloc, pool, &built, tree),
        Err(_why) => Ok(false),
    }
}

// How many leaves the tree of a set has, where it is the same both ways.
fn leaves_of(alloc: Global, set: u32) -> Result<Option<usize>, PageFault> {
    let mut draws = Draws::begin(set.into());
    let threshold = (draws.word() % 8) as u8 + 1;
    let ids = ids_of(alloc, &mut draws)?;
    let tree = plain_of(alloc, &ids, threshold)?;
    let mut pool = untold_pool(alloc, 16, 0)?;
    pool.begin()?;
    let same = is_alike(alloc, &mut pool, &ids, &tree, threshold)?;
    Ok(same.then_some(tree.leaves.len()))
}

// The leaves of all sets together, where each is the same both ways.
fn all_leaves(alloc: Global) -> Result<Option<usize>, PageFault> {
    let mut leaves = 0usize;
    'sets: for set in 1..=SETS {
        let Some(more) = leaves_of(alloc, set)? else {
            return Ok(None);
        };
        leaves = leaves.saturating_add(more);
    }
    Ok(Some(leaves))
}

/// Compares the trees of drawn sets of rows, built at once, with those to which the rows came one by one.
pub fn tell(rt: &(impl Print + AllocGlobal)) -> io::Result<()> {
    match all_leaves(rt.alloc()) {
        Ok(Some(leaves)) => rt.println(format_args!(
            "{SETS} sets of rows at once have the trees to which they came one by one, {leaves} leaves in all"
        )),
        _ => rt.println("a tree of all rows at once differs, or memory was short"),
    }
}
