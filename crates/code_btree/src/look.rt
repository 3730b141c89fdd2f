ghost use Rattle.std.specs.Prelude.{◌≡◌, ◌+◌, IfOk};
ghost use Rattle.page_pool.specs.Pool.{IsTold};
ghost use Rattle.code_btree.specs.Tree.{pages_in, items};
ghost use Rattle.code_btree.specs.Items.{find_item, floor_item};
ghost use Rattle.code_btree.specs.Steps.{Subtree, LeadsTo, IsFoundIn, IsFloorIn};
ghost use Rattle.code_btree.specs.Calls.{Looks};

use crate::inner::{child_at, inner_count, key_at, place_of};
use crate::leaf::{find_behind, floor_of, leaf_count};
use page_pool::{PageFault, Pages};

// The child of page `n` under which a key belongs: one get.
#[inline]
pub fn child_for<P: Pages>(pages: &mut P, n: u64, key: u128) -> Result<Option<u64>, PageFault>
    ensures value { IfOk result (λ child. IsTold (P.shown pages.old) → LeadsTo (pages_in (P.shown pages.old)) n key child) }
    ensures looks { Looks (P.shown pages.old) (P.shown pages.new) 1 result }
{
    let page = pages.live_page(n)?;
    let Some(count) = inner_count(page) else {
        return Ok(None);
    };
    Ok(Some(child_at(page, place_of(page, count, key))))
}

// The value of a key in leaf `n`, which begins with the key `first` if it has it: one get.
#[inline]
fn find_in_leaf<P: Pages>(
    pages: &mut P,
    n: u64,
    first: u128,
    key: u128,
) -> Result<Option<u128>, PageFault>
    ensures value { IfOk result (λ found. IsTold (P.shown pages.old) → IsFoundIn (pages_in (P.shown pages.old)) n key found) }
    ensures looks { Looks (P.shown pages.old) (P.shown pages.new) 1 result }
{
    let page = pages.live_page(n)?;
    let Some(count) = leaf_count(page) else {
        return Ok(None);
    };
    return Ok(find_behind(page, count, first, key));
}

/// The value of a key under page `n`, which stands `level` above the leaves. `first` is the separator before the page, or
/// 1: whatever it is, it changes no answer.
pub fn find_under<P: Pages>(
    pages: &mut P,
    level: u32,
    n: u64,
    first: u128,
    key: u128,
) -> Result<Option<u128>, PageFault>
    requires { IsTold (P.shown pages.old) → Subtree (pages_in (P.shown pages.old)) level n }
    ensures value { IfOk result (λ found. IsTold (P.shown pages.old) → found ≡ find_item key (items (pages_in (P.shown pages.old)) level n)) }
    ensures looks { Looks (P.shown pages.old) (P.shown pages.new) (level + 1) result }
{
    let mut left = level;
    let mut place = n;
    let mut begin = first;
    'levels: while left > 0 {
        let page = pages.live_page(place)?;
        let Some(count) = inner_count(page) else {
            return Ok(None);
        };
        let at = place_of(page, count, key);
        begin = if at == 0 { 1 } else { key_at(page, at - 1) };
        place = child_at(page, at);
        left -= 1;
    }
    return find_in_leaf(pages, place, begin, key);
}

// The entry of the greatest key not above this one in leaf `n`: one get.
fn floor_in_leaf<P: Pages>(
    pages: &mut P,
    n: u64,
    key: u128,
) -> Result<Option<(u128, u128)>, PageFault>
    ensures value { IfOk result (λ found. IsTold (P.shown pages.old) → IsFloorIn (pages_in (P.shown pages.old)) n key found) }
    ensures looks { Looks (P.shown pages.old) (P.shown pages.new) 1 result }
{
    let page = pages.live_page(n)?;
    let Some(count) = leaf_count(page) else {
        return Ok(None);
    };
    Ok(floor_of(page, count, key))
}

/// The pair of the greatest key not above this one under page `n`, which stands `level` above the leaves.
pub fn floor_under<P: Pages>(
    pages: &mut P,
    level: u32,
    n: u64,
    key: u128,
) -> Result<Option<(u128, u128)>, PageFault>
    requires { IsTold (P.shown pages.old) → Subtree (pages_in (P.shown pages.old)) level n }
    ensures value { IfOk result (λ found. IsTold (P.shown pages.old) → found ≡ floor_item key (items (pages_in (P.shown pages.old)) level n)) }
    ensures looks { Looks (P.shown pages.old) (P.shown pages.new) (level + 1) result }
{
    if level == 0 {
        return floor_in_leaf(pages, n, key);
    }
    let Some(child) = child_for(pages, n, key)? else {
        return Ok(None);
    };
    floor_under(pages, level - 1, child, key)
}
