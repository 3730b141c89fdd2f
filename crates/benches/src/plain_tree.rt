// Plain quadtrees in memory, grown and shrunk by the definition. A tree is the list of its leaves in the order of their codes: a leaf
// that has too many ids with a new one gives way to four, and four leaves that have too few ids together to one.
ghost use Rattle.std.specs.Prelude.{◌<◌, IsTrue, IfSome};
ghost use Rattle.z_code.specs.Block.{IsBlock};

use crate::edge_shapes::shape_of_id;
use ring_geom::meets_rect;
use sand_base::{COORDINATE_BITS, NoMemory};
use std::alloc::Global;
use z_code::Block;

/// A leaf of a plain tree.
#[derive(Drop)]
pub struct PlainLeaf {
    pub block: Block,
    pub ids: Vec<u32>,
    ghost is_block: { IsBlock block },
}

/// A plain tree, as its leaves in the order of their codes.
#[derive(Drop)]
pub struct PlainTree {
    pub leaves: Vec<PlainLeaf>,
    threshold: u8,
}

/// The tree of one empty leaf.
pub fn plain(alloc: Global, threshold: u8) -> Result<PlainTree, NoMemory> {
    let mut leaves = Vec::new(alloc);
    leaves.push(PlainLeaf {
        block: Block::root(),
        ids: Vec::new(alloc),
    })?;
    Ok(PlainTree { leaves, threshold })
}

// Whether the shape of an id meets the square of a block.
fn meets(alloc: Global, id: u32, block: Block) -> Result<bool, NoMemory>
    requires { IsBlock block }
{
    let shape = shape_of_id(alloc, id)?;
    Ok(meets_rect(&shape, block.rect()))
}

// A leaf with those of the ids whose shapes meet its square.
fn part(alloc: Global, block: Block, ids: &[u32]) -> Result<PlainLeaf, NoMemory>
    requires { IsBlock block }
{
    let mut met = Vec::new(alloc);
    for id in ids {
        if meets(alloc, *id, block)? {
            met.push(*id)?;
        }
    }
    Ok(PlainLeaf { block, ids: met })
}

// The ids of a leaf, with one more where its shape meets the leaf's square.
fn with(alloc: Global, leaf: &PlainLeaf, id: u32) -> Result<Vec<u32>, NoMemory> {
    let mut ids = without(alloc, &leaf.ids, id)?;
    if meets(alloc, id, leaf.block)? {
        ids.push(id)?;
        ids.sort()?;
    }
    Ok(ids)
}

// Adds the four leaves in the place of one with these ids.
fn push_four(
    alloc: Global,
    grown: &mut Vec<PlainLeaf>,
    block: Block,
    ids: &[u32],
) -> Result<(), NoMemory>
    requires block { IsBlock block }
    requires up { block.level < COORDINATE_BITS }
{
    let [first, second, third, fourth] = block.children();
    grown.push(part(alloc, first, ids)?)?;
    grown.push(part(alloc, second, ids)?)?;
    grown.push(part(alloc, third, ids)?)?;
    grown.push(part(alloc, fourth, ids)?)?;
    Ok(())
}

// Whether a leaf with these ids gives way to four: it has the new one, and more than the threshold allows.
fn is_split(leaf: &PlainLeaf, ids: &[u32], threshold: u8) -> bool
    ensures { IsTrue result → leaf.now.block.level < COORDINATE_BITS }
{
    ids.len() > leaf.ids.len()
        && ids.len() > usize::from(threshold)
        && u32::from(leaf.block.level) < COORDINATE_BITS
}

// Adds the leaf with the id more, or the four in its place, to the leaves of a grown tree.
fn push_grown(
    alloc: Global,
    grown: &mut Vec<PlainLeaf>,
    threshold: u8,
    leaf: &PlainLeaf,
    id: u32,
) -> Result<(), NoMemory> {
    let ids = with(alloc, leaf, id)?;
    if is_split(leaf, &ids, threshold) {
        return push_four(alloc, grown, leaf.block, &ids);
    }
    grown.push(PlainLeaf {
        block: leaf.block,
        ids,
    })?;
    Ok(())
}

/// The tree with an id more.
pub fn grown(alloc: Global, tree: &PlainTree, id: u32) -> Result<PlainTree, NoMemory> {
    let mut leaves = Vec::new(alloc);
    for leaf in &tree.leaves {
        push_grown(alloc, &mut leaves, tree.threshold, leaf, id)?;
    }
    Ok(PlainTree {
        leaves,
        threshold: tree.threshold,
    })
}

// The ids of a leaf without one.
fn without(alloc: Global, ids: &[u32], id: u32) -> Result<Vec<u32>, NoMemory> {
    let mut left = Vec::new(alloc);
    for other in ids {
        if *other != id {
            left.push(*other)?;
        }
    }
    Ok(left)
}

// Adds the ids that aren't there.
fn add(all: &mut Vec<u32>, ids: &[u32]) -> Result<(), NoMemory> {
    for id in ids {
        if !all.contains(id) {
            all.push(*id)?;
        }
    }
    Ok(())
}

// The ids of four leaves, ascending, each once.
fn union(
    alloc: Global,
    a: &PlainLeaf,
    b: &PlainLeaf,
    c: &PlainLeaf,
    d: &PlainLeaf,
) -> Result<Vec<u32>, NoMemory> {
    let mut all = Vec::new(alloc);
    add(&mut all, &a.ids)?;
    add(&mut all, &b.ids)?;
    add(&mut all, &c.ids)?;
    add(&mut all, &d.ids)?;
    all.sort()?;
    Ok(all)
}

// The block of this level whose children the first and the last of four leaves are, if they are.
fn parent(first: &PlainLeaf, last: &PlainLeaf, level: u8) -> Option<Block>
    ensures { IfSome result IsBlock }
{
    if first.block.level != level.saturating_add(1) || last.block.level != first.block.level {
        return None;
    }
    let parent = first.block.parent();
    if parent.z != first.block.z || !parent.holds(last.block) {
        return None;
    }
    Some(parent)
}

// The four leaves from a place on, as one leaf of this level where they are the children of such a block and have fewer ids
// together than the threshold.
fn merged(
    alloc: Global,
    tree: &PlainTree,
    at: usize,
    level: u8,
) -> Result<Option<PlainLeaf>, NoMemory> {
    let [a, b, c, d, ..] = &tree.leaves[at.min(tree.leaves.len())..] else {
        return Ok(None);
    };
    let Some(block) = parent(a, d, level) else {
        return Ok(None);
    };
    let ids = union(alloc, a, b, c, d)?;
    if ids.len() >= usize::from(tree.threshold) {
        return Ok(None);
    }
    Ok(Some(PlainLeaf { block, ids }))
}

// The leaf at a place of the tree whose places of this level are merged, and how many leaves of the old one it is for.
fn merged_or_kept(
    alloc: Global,
    tree: &PlainTree,
    at: usize,
    leaf: &PlainLeaf,
    level: u8,
) -> Result<(PlainLeaf, usize), NoMemory> {
    match merged(alloc, tree, at, level)? {
        Some(one) => Ok((one, 4)),
        None => Ok((part_of(alloc, leaf)?, 1)),
    }
}

// The tree whose places of this level are merged.
fn merged_at(alloc: Global, tree: &PlainTree, level: u8) -> Result<PlainTree, NoMemory> {
    let mut leaves = Vec::new(alloc);
    let mut passed = 0;
    for (at, leaf) in tree.leaves.iter().enumerate() {
        if at < passed {
            continue;
        }
        let (next, count) = merged_or_kept(alloc, tree, at, leaf, level)?;
        leaves.push(next)?;
        passed = at.saturating_add(count);
    }
    Ok(PlainTree {
        leaves,
        threshold: tree.threshold,
    })
}

// A leaf once more.
fn part_of(alloc: Global, leaf: &PlainLeaf) -> Result<PlainLeaf, NoMemory> {
    let ids = without(alloc, &leaf.ids, 0)?;
    Ok(PlainLeaf {
        block: leaf.block,
        ids,
    })
}

// The leaves of a tree without an id, none merged.
fn thinned(alloc: Global, tree: &PlainTree, id: u32) -> Result<PlainTree, NoMemory> {
    let mut leaves = Vec::new(alloc);
    for leaf in &tree.leaves {
        let ids = without(alloc, &leaf.ids, id)?;
        leaves.push(PlainLeaf {
            block: leaf.block,
            ids,
        })?;
    }
    Ok(PlainTree {
        leaves,
        threshold: tree.threshold,
    })
}

/// The tree without an id.
pub fn shrunk(alloc: Global, tree: &PlainTree, id: u32) -> Result<PlainTree, NoMemory> {
    let mut left = thinned(alloc, tree, id)?;
    for level in (0..COORDINATE_BITS as u8).rev() {
        if left.leaves.iter().any(|leaf| leaf.block.level > level) {
            left = merged_at(alloc, &left, level)?;
        }
    }
    Ok(left)
}

/// The sum over the leaves of their ids, an empty one counting 1.
pub fn listings(tree: &PlainTree) -> u64 {
    let mut count = 0u64;
    for leaf in &tree.leaves {
        count = count.saturating_add((leaf.ids.len() as u64).max(1));
    }
    count
}
