ghost use Rattle.std.specs.Prelude.{◌≡◌, ◌+◌, ◌<◌, ◌≤◌, ◌||◌, length, flat_map, All, option_to_list, vec_len, vec_capacity, OnOk, OnErr};
ghost use Rattle.std.specs.List.{AllZip};
ghost use Rattle.sand_model.specs.Nodes.{greater};
ghost use Rattle.pmr_tree.specs.Entries.{IsRoughInPlane};
ghost use Rattle.best_first.specs.declared.item.Item.{Item};
ghost use Rattle.best_first.specs.Hierarchy.{FindsAlike};
ghost use Rattle.best_first.specs.Item.{IsAlike};
ghost use Rattle.dist_join.specs.OverPages.{is_bound as bounds, exact_pair_found, pair_found, row_found};

use crate::figures::{figure, figures_gap, is_bound};
use crate::room::reserve_pairs;
use best_first::Item;
use exact_frac::Frac;
use pmr_tree::{LeafList, Listed};
use sand_base::NoMemory;
use std::alloc::Global;
use z_code::Block;

// An exact item, unless it is nearer than its leaves: then it was given already.
fn exact_item(leaf: Frac, left: u32, right: u32, gap: Frac) -> Option<Item<(Block, Block)>>
    ensures { option_to_list result ≡ exact_pair_found leaf left right gap }
{
    if gap < leaf {
        return None;
    }
    Some(Item::Row { gap, left, right })
}

// A rough item, at the greater of the gap of the rough shapes and of its leaves.
fn rough_item(leaf: Frac, left: u32, right: u32, gap: Frac) -> Item<(Block, Block)>
    ensures { result ≡ Item.Rough (greater gap leaf) left right }
{
    let gap = if gap < leaf { leaf } else { gap };
    Item::Rough { gap, left, right }
}

// Whether one of two entries is a polygon's.
fn is_rough(left: Listed, right: Listed) -> bool
    ensures { result ≡ (bounds left.rough || bounds right.rough) }
{
    is_bound(left.rough) || is_bound(right.rough)
}

// What two entries of two leaves give.
fn entry_item(leaf: Frac, left: Listed, right: Listed) -> Option<Item<(Block, Block)>>
    requires left { IsRoughInPlane left.rough }
    requires right { IsRoughInPlane right.rough }
    ensures { AllZip IsAlike (option_to_list result) (pair_found leaf left right) }
{
    let gap = figures_gap(&figure(left.rough), &figure(right.rough));
    if is_rough(left, right) {
        return Some(rough_item(leaf, left.id, right.id, gap));
    }
    exact_item(leaf, left.id, right.id, gap)
}

// Adds what two entries give at the end of a list that has room for it.
fn push_entry(leaf: Frac, left: Listed, right: Listed, found: &mut Vec<Item<(Block, Block)>>)
    requires left { IsRoughInPlane left.rough }
    requires right { IsRoughInPlane right.rough }
    requires room { vec_len found.old < vec_capacity found.old }
    ensures added { FindsAlike (pair_found leaf left right) found.old.items found.new.items }
    ensures len { vec_len found.new ≤ vec_len found.old + 1 }
    ensures capacity { vec_capacity found.new ≡ vec_capacity found.old }
{
    if let Some(item) = entry_item(leaf, left, right) {
        found.push_reserved(item);
    }
}

// Adds what an entry gives with those of the other leaf at the end of a list that has room for it.
fn push_row(leaf: Frac, left: Listed, rights: &[Listed], found: &mut Vec<Item<(Block, Block)>>)
    requires left { IsRoughInPlane left.rough }
    requires rights { All (λ r. IsRoughInPlane r.rough) rights.now }
    requires room { vec_len found.old + length rights.now ≤ vec_capacity found.old }
    ensures added { FindsAlike (row_found leaf rights.now left) found.old.items found.new.items }
    ensures len { vec_len found.new ≤ vec_len found.old + length rights.now }
    ensures capacity { vec_capacity found.new ≡ vec_capacity found.old }
{
    'rights: for right in rights {
        push_entry(leaf, left, *right, found);
    }
}

// Adds the items of two leaves at the end of the list.
fn push_leaves(
    leaf: Frac,
    lefts: &[Listed],
    rights: &[Listed],
    found: &mut Vec<Item<(Block, Block)>>,
) -> Result<(), NoMemory>
    requires lefts { All (λ l. IsRoughInPlane l.rough) lefts.now }
    requires rights { All (λ r. IsRoughInPlane r.rough) rights.now }
    ensures added { OnOk result (FindsAlike (flat_map (row_found leaf rights.now) lefts.now) found.old.items found.new.items) }
    ensures unchanged { OnErr result (found.new.items ≡ found.old.items) }
{
    reserve_pairs(lefts.len(), rights.len(), found)?;
    'lefts: for left in lefts {
        push_row(leaf, *left, rights, found);
    }
    Ok(())
}

// Adds the items of the leaves of two trees at the end of the list. Each leaf is decoded once for all of its pairs.
pub fn push_lists(
    alloc: Global,
    leaf: Frac,
    lefts: &LeafList,
    rights: &LeafList,
    found: &mut Vec<Item<(Block, Block)>>,
) -> Result<(), NoMemory>
    requires lefts { All (λ l. IsRoughInPlane l.rough) lefts.now }
    requires rights { All (λ r. IsRoughInPlane r.rough) rights.now }
    ensures added { OnOk result (FindsAlike (flat_map (row_found leaf rights.now) lefts.now) found.old.items found.new.items) }
    ensures unchanged { OnErr result (found.new.items ≡ found.old.items) }
{
    let of_left = lefts.to_vec(alloc)?;
    let of_right = rights.to_vec(alloc)?;
    push_leaves(leaf, &of_left, &of_right, found)
}
