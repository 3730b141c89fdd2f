ghost use Rattle.std.specs.Prelude.{◌≡◌, ◌+◌, ◌<◌, ◌≤◌, map, flat_map, All, option_to_list, vec_len, vec_capacity, OnOk, OnErr};
ghost use Rattle.std.specs.List.{AllZip};
ghost use Rattle.sand_base.specs.Plane.{IsInClosedPlane};
ghost use Rattle.sand_base.specs.declared.TheConstants.{COORDINATE_BITS};
ghost use Rattle.z_code.specs.Block.{IsBlock, children_of};
ghost use Rattle.z_code.specs.declared.block.Block.{Block};
ghost use Rattle.pmr_tree.specs.Calls.{IsFoundInRange};
ghost use Rattle.pmr_tree.specs.Entries.{IsRoughInPlane};
ghost use Rattle.pmr_tree.specs.declared.listed.Node.TheVariants as of_tree;
ghost use Rattle.best_first.specs.declared.item.Item.{Item};
ghost use Rattle.sand_model.specs.Nodes.{greater};
ghost use Rattle.best_first.specs.Hierarchy.{FindsAlike};
ghost use Rattle.best_first.specs.Item.{IsAlike};
ghost use Rattle.far_cursor.specs.FarRanking.{far_block, far_exact, far_entry, far_place};

use crate::keys::{rect_key, shape_key};
use best_first::Item;
use exact_frac::Frac;
use pmr_tree::{LeafList, Listed, Node, listed_of};
use sand_base::{NoMemory, Point, Rough, Shape};
use z_code::Block;

// An exact item under its key, unless it comes before its leaf: then it was given already.
fn exact_item(leaf: Frac, id: u32, key: Frac) -> Option<Item<Block>>
    ensures { option_to_list result ≡ far_exact leaf id key }
{
    if key < leaf {
        return None;
    }
    Some(Item::Row {
        gap: key,
        left: id,
        right: 0,
    })
}

// A rough item, at the greater of the key of its bounding rectangle and of its leaf.
fn rough_item(leaf: Frac, id: u32, key: Frac) -> Item<Block>
    ensures { result ≡ Item.Rough (greater key leaf) id 0 }
{
    let gap = if key < leaf { leaf } else { key };
    Item::Rough {
        gap,
        left: id,
        right: 0,
    }
}

// What an entry of a leaf gives.
fn entry_item(goal: Point, leaf: Frac, listed: Listed) -> Option<Item<Block>>
    requires goal { IsInClosedPlane goal }
    requires rough { IsRoughInPlane listed.rough }
    ensures { AllZip IsAlike (option_to_list result) (far_entry goal leaf listed.id listed.rough) }
{
    match listed.rough {
        Rough::Point(p) => exact_item(leaf, listed.id, shape_key(goal, &Shape::Point(p))),
        Rough::Segment(s) => exact_item(leaf, listed.id, shape_key(goal, &Shape::Segment(s))),
        Rough::Bound(r) => Some(rough_item(leaf, listed.id, rect_key(goal, r))),
    }
}

// Adds what an entry of a leaf gives at the end of a list that has room for it.
fn push_entry(goal: Point, leaf: Frac, listed: Listed, found: &mut Vec<Item<Block>>)
    requires goal { IsInClosedPlane goal }
    requires rough { IsRoughInPlane listed.rough }
    requires room { vec_len found.old < vec_capacity found.old }
    ensures added { FindsAlike (far_entry goal leaf listed.id listed.rough) found.old.items found.new.items }
    ensures len { vec_len found.new ≤ vec_len found.old + 1 }
    ensures capacity { vec_capacity found.new ≡ vec_capacity found.old }
{
    if let Some(item) = entry_item(goal, leaf, listed) {
        found.push_reserved(item);
    }
}

// Adds the items of a leaf at the end of the list.
fn push_leaf(
    goal: Point,
    leaf: Frac,
    list: &LeafList,
    found: &mut Vec<Item<Block>>,
) -> Result<(), NoMemory>
    requires goal { IsInClosedPlane goal }
    requires roughs { All (λ l. IsRoughInPlane l.rough) list.now }
    ensures added { OnOk result (FindsAlike (flat_map (λ l. far_entry goal leaf l.id l.rough) list.now) found.old.items found.new.items) }
    ensures unchanged { OnErr result (found.new.items ≡ found.old.items) }
{
    let pairs = list.pairs();
    found.reserve(pairs.len())?;
    'entries: for pair in pairs {
        if let Some(listed) = listed_of(*pair) {
            push_entry(goal, leaf, listed, found);
        }
    }
    Ok(())
}

// Adds the four children at the end of the list.
fn push_children(goal: Point, block: Block, found: &mut Vec<Item<Block>>) -> Result<(), NoMemory>
    requires goal { IsInClosedPlane goal }
    requires block { IsBlock block }
    requires above_points { block.level < COORDINATE_BITS }
    ensures added { OnOk result (FindsAlike (map (far_block goal) (children_of block)) found.old.items found.new.items) }
    ensures unchanged { OnErr result (found.new.items ≡ found.old.items) }
{
    found.reserve(4)?;
    'children: for (child, square) in &block.quarters() {
        let gap = rect_key(goal, *square);
        found.push_reserved(Item::Node { gap, node: *child });
    }
    Ok(())
}

// Adds what a place gives at the end of the list. It takes room for all of it first, so that a refusal leaves the
// list as it was.
pub fn add_found(
    goal: Point,
    leaf: Frac,
    block: Block,
    place: &Node,
    found: &mut Vec<Item<Block>>,
) -> Result<(), NoMemory>
    requires goal { IsInClosedPlane goal }
    requires block { IsBlock block }
    requires above_points { place.now ≡ of_tree.Inner → block.level < COORDINATE_BITS }
    requires range { IsFoundInRange place.now }
    ensures added { OnOk result (FindsAlike (far_place goal leaf block place.now) found.old.items found.new.items) }
    ensures unchanged { OnErr result (found.new.items ≡ found.old.items) }
{
    match place {
        Node::Inner => push_children(goal, block, found),
        Node::Leaf(list) => push_leaf(goal, leaf, list, found),
    }
}
