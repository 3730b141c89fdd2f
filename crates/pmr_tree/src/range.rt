ghost use Rattle.std.specs.Prelude.{◌≡◌, ◌+◌, ◌/◌, ◌<◌, ◌≤◌, filter, take, option_to_list, length, min, IfOk, IfSome, OnOk};
ghost use Rattle.sand_base.specs.Faults.{next_count, last_count};
ghost use Rattle.z_code.specs.Block.{IsBlock};
ghost use Rattle.page_pool.specs.Pool.{IsTold};
ghost use Rattle.page_pool.specs.Reads.{IsRead};
ghost use Rattle.page_pool.specs.Causes.{HasPageCause};
ghost use Rattle.code_btree.specs.Tree.{IsTree, pages_in, tree_items};
ghost use Rattle.code_btree.specs.Near.{IsNear};
ghost use Rattle.pmr_tree.specs.Lists.{is_from_to};
ghost use Rattle.pmr_tree.specs.Leaves.{own_pairs};

use crate::leaf::key_of;
use code_btree::{Near, Tree};
use page_pool::{PageFault, Pages};
use std::alloc::Global;
use z_code::Block;

// The entries of a tree from `low` on and below `high`.
pub fn entries_between<P: Pages>(
    alloc: Global,
    tree: Tree,
    pages: &mut P,
    low: u128,
    high: u128,
) -> Result<Vec<(u128, u128)>, PageFault>
    requires { IsTold (P.shown pages.old) → IsTree (pages_in (P.shown pages.old)) tree }
    ensures found { IfOk result (λ found. IsTold (P.shown pages.old) → found.items ≡ filter (λ e. is_from_to low high e.0) (tree_items (pages_in (P.shown pages.old)) tree)) }
    ensures read { IsRead (P.shown pages.old) (P.shown pages.new) }
    ensures cause { HasPageCause (P.shown pages.old) (P.shown pages.new) result }
{
    let found = tree.between(alloc, pages, low, high)?;
    Ok(found)
}

// The first entry of a tree from `low` on and below `high`, if there is one.
pub fn entry_between<P: Pages>(
    tree: Tree,
    pages: &mut P,
    low: u128,
    high: u128,
) -> Result<Option<(u128, u128)>, PageFault>
    requires { IsTold (P.shown pages.old) → IsTree (pages_in (P.shown pages.old)) tree }
    ensures found { IfOk result (λ found. IsTold (P.shown pages.old)
        → option_to_list found ≡ take 1 (filter (λ e. is_from_to low high e.0) (tree_items (pages_in (P.shown pages.old)) tree))) }
    ensures below { IfOk result (λ found. IfSome found (λ e. e.0 < high)) }
    ensures read { IsRead (P.shown pages.old) (P.shown pages.new) }
    ensures cause { HasPageCause (P.shown pages.old) (P.shown pages.new) result }
{
    let Some(pair) = tree.ceiling(pages, low)? else {
        return Ok(None);
    };
    if pair.0 >= high {
        return Ok(None);
    }
    Ok(Some(pair))
}

// The entries of a block itself, one get for each page on which they stand, and a descent before where they don't begin
// on the page that is held. Afterwards that on which they begin is held.
pub fn own_entries<P: Pages>(
    alloc: Global,
    tree: Tree,
    pages: &mut P,
    block: Block,
    near: &mut Near,
) -> Result<Vec<(u128, u128)>, PageFault>
    requires tree { IsTold (P.shown pages.old) → IsTree (pages_in (P.shown pages.old)) tree }
    requires block { IsBlock block }
    requires near { IsTold (P.shown pages.old) → IsNear (pages_in (P.shown pages.old)) tree near.old }
    ensures found { IfOk result (λ found. IsTold (P.shown pages.old) → found.items ≡ own_pairs block (tree_items (pages_in (P.shown pages.old)) tree)) }
    ensures near { IsTold (P.shown pages.old) → IsNear (pages_in (P.shown pages.old)) tree near.new }
    ensures read { IsRead (P.shown pages.old) (P.shown pages.new) }
    ensures cause { HasPageCause (P.shown pages.old) (P.shown pages.new) result }
    ensures up { min (P.shown pages.old).gets last_count ≤ (P.shown pages.new).gets }
    ensures some { OnOk result (next_count (P.shown pages.old).gets ≤ (P.shown pages.new).gets) }
    ensures price { IsTold (P.shown pages.old) → (P.shown pages.new).gets ≤ (P.shown pages.old).gets +
        (tree.height + 1 + length (own_pairs block (tree_items (pages_in (P.shown pages.old)) tree)) / 63) }
{
    let mark = key_of(block, 0);
    let found = tree.between_near(alloc, pages, mark, mark + (1 << 32), near)?;
    Ok(found)
}
