ghost use Rattle.std.specs.Prelude.{◌≡◌, ◌+◌, ◌<◌, ◌≤◌, length, map, flat_map, All, vec_len, vec_capacity, OnOk, OnErr};
ghost use Rattle.sand_base.specs.declared.TheConstants.{COORDINATE_BITS};
ghost use Rattle.z_code.specs.Block.{IsBlock, with_square, IsWithSquare};
ghost use Rattle.pmr_tree.specs.Calls.{IsFoundInRange};
ghost use Rattle.pmr_tree.specs.declared.listed.Node.TheVariants as of_tree;
ghost use Rattle.best_first.specs.Hierarchy.{FindsAlike};
ghost use Rattle.dist_join.specs.OverPages.{squares_found, parts_of, pairs_found, places_found};

use crate::entries::push_lists;
use crate::figures::pair_item;
use crate::room::reserve_pairs;
use best_first::Item;
use exact_frac::Frac;
use pmr_tree::Node;
use sand_base::{NoMemory, Rect};
use std::alloc::Global;
use z_code::Block;

// Adds a block with each of the others at the end of a list that has room for them.
fn push_with(left: (Block, Rect), rights: &[(Block, Rect)], found: &mut Vec<Item<(Block, Block)>>)
    requires left { IsWithSquare left }
    requires rights { All IsWithSquare rights.now }
    requires room { vec_len found.old + length rights.now ≤ vec_capacity found.old }
    ensures added { FindsAlike (squares_found rights.now left) found.old.items found.new.items }
    ensures len { vec_len found.new ≤ vec_len found.old + length rights.now }
    ensures capacity { vec_capacity found.new ≡ vec_capacity found.old }
{
    'rights: for right in rights {
        found.push_reserved(pair_item(left, *right));
    }
}

// Adds each block of one list with each of the other.
fn push_pairs(
    lefts: &[(Block, Rect)],
    rights: &[(Block, Rect)],
    found: &mut Vec<Item<(Block, Block)>>,
) -> Result<(), NoMemory>
    requires lefts { All IsWithSquare lefts.now }
    requires rights { All IsWithSquare rights.now }
    ensures added { OnOk result (FindsAlike (flat_map (squares_found rights.now) lefts.now) found.old.items found.new.items) }
    ensures unchanged { OnErr result (found.new.items ≡ found.old.items) }
{
    reserve_pairs(lefts.len(), rights.len(), found)?;
    'lefts: for left in lefts {
        push_with(*left, rights, found);
    }
    Ok(())
}

// Adds each of some blocks with each into which another place is divided: its quarters, or itself where it is a leaf.
fn push_beside(
    lefts: &[(Block, Rect)],
    block: Block,
    other: &Node,
    found: &mut Vec<Item<(Block, Block)>>,
) -> Result<(), NoMemory>
    requires lefts { All IsWithSquare lefts.now }
    requires block { IsBlock block }
    requires above_points { other.now ≡ of_tree.Inner → block.level < COORDINATE_BITS }
    ensures added { OnOk result (FindsAlike (flat_map (squares_found (map with_square (parts_of block other.now))) lefts.now) found.old.items found.new.items) }
    ensures unchanged { OnErr result (found.new.items ≡ found.old.items) }
{
    match other {
        Node::Inner => push_pairs(lefts, &block.quarters(), found),
        Node::Leaf(_) => push_pairs(lefts, &[(block, block.rect())], found),
    }
}

// Adds the pairs into which a pair of places is divided.
fn push_parts(
    node: (Block, Block),
    place: &Node,
    other: &Node,
    found: &mut Vec<Item<(Block, Block)>>,
) -> Result<(), NoMemory>
    requires block { IsBlock node.0 }
    requires other_block { IsBlock node.1 }
    requires above_points { place.now ≡ of_tree.Inner → node.0.level < COORDINATE_BITS }
    requires other_above { other.now ≡ of_tree.Inner → node.1.level < COORDINATE_BITS }
    ensures added { OnOk result (FindsAlike (flat_map (pairs_found (parts_of node.1 other.now)) (parts_of node.0 place.now)) found.old.items found.new.items) }
    ensures unchanged { OnErr result (found.new.items ≡ found.old.items) }
{
    match place {
        Node::Inner => push_beside(&node.0.quarters(), node.1, other, found),
        Node::Leaf(_) => push_beside(&[(node.0, node.0.rect())], node.1, other, found),
    }
}

// Adds what a pair of places gives at the end of the list. It takes room for all of it first, so that a refusal
// leaves the list as it was.
pub fn add_found(
    alloc: Global,
    leaf: Frac,
    node: (Block, Block),
    place: &Node,
    other: &Node,
    found: &mut Vec<Item<(Block, Block)>>,
) -> Result<(), NoMemory>
    requires block { IsBlock node.0 }
    requires other_block { IsBlock node.1 }
    requires above_points { place.now ≡ of_tree.Inner → node.0.level < COORDINATE_BITS }
    requires other_above { other.now ≡ of_tree.Inner → node.1.level < COORDINATE_BITS }
    requires range { IsFoundInRange place.now }
    requires other_range { IsFoundInRange other.now }
    ensures added { OnOk result (FindsAlike (places_found leaf node place.now other.now) found.old.items found.new.items) }
    ensures unchanged { OnErr result (found.new.items ≡ found.old.items) }
{
    match place {
        Node::Inner => push_parts(node, place, other, found),
        Node::Leaf(lefts) => match other {
            Node::Inner => push_parts(node, place, other, found),
            Node::Leaf(rights) => push_lists(alloc, leaf, lefts, rights, found),
        },
    }
}
