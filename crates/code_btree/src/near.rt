ghost use Rattle.std.specs.Prelude.{◌≡◌, ℕ, ◌-◌, ◌<◌, ◌≤◌, IfOk};
ghost use Rattle.page_pool.specs.Pool.{IsTold};
ghost use Rattle.code_btree.specs.Node.{key_in};
ghost use Rattle.code_btree.specs.Tree.{Store, pages_in};
ghost use Rattle.code_btree.specs.Steps.{Subtree};
ghost use Rattle.code_btree.specs.Between.{IsLeafFor};
ghost use Rattle.code_btree.specs.Near.{IsNearUnder, IsFoundNear};
ghost use Rattle.code_btree.specs.Calls.{Peeks};

use crate::bytes::Page;
use crate::inner::{child_at, inner_count, key_at, place_of};
use page_pool::{PageFault, Pages};

/// More than any place in a leaf: which one it is, isn't known.
const NO_PLACE: usize = 128;

/// A page of a tree, and the keys that belong under it: those from `low` on and below `high`. Held from one range to
/// the next, it is the leaf at which the one before began, and a range that begins with such a key needs no descent.
/// `at` is the place in the leaf at which the range before ended, where the next one mostly begins: it is looked at
/// first, and whatever it is, it changes no answer.
#[derive(Clone, Copy, Debug)]
pub struct Near {
    page: u64,
    low: u128,
    high: u128,
    pub(crate) at: usize,
}

impl Near {
    ghost use Rattle.code_btree.specs.Tree.{Store};
    ghost use Rattle.code_btree.specs.declared.map.Tree.{Tree};
    ghost use Rattle.code_btree.specs.Near.{IsNear};

    /// No page: no key belongs to it.
    pub fn nowhere() -> Near
        ensures { (m : Store) (t : Tree) → IsNear m t result }
    {
        Near {
            page: 0,
            low: 1,
            high: 0,
            at: NO_PLACE,
        }
    }

    // A page under this one, with those of its keys alone that belong to this one as well.
    fn under(self, page: u64, low: u128, high: u128) -> Near
        ensures page { result.page ≡ page }
        ensures low { self.low ≤ result.low }
        ensures part_low { low ≤ result.low }
        ensures high { result.high ≤ self.high }
        ensures part_high { result.high ≤ high }
    {
        Near {
            page,
            low: self.low.max(low),
            high: self.high.min(high),
            at: self.at,
        }
    }
}

// The least key under the child at this place, as far as the separator before it tells.
fn low_at(page: &Page, at: usize) -> u128
    requires { at ≤ 169 }
    ensures { 1 ≤ at → key_in page.now (at - 1) ≤ result }
{
    if at == 0 {
        return 0;
    }
    key_at(page, at - 1)
}

// The key below which all keys under the child at this place stay, as far as the separator behind it tells.
fn high_at(page: &Page, count: usize, at: usize) -> u128
    requires { count ≤ 169 }
    ensures { at < count → result ≤ key_in page.now at }
{
    if at >= count {
        return u128::MAX;
    }
    key_at(page, at)
}

// The leaf under page `n` to which a key belongs, and what other keys do: one get for each level above it.
fn leaf_near<P: Pages>(pages: &mut P, level: u32, n: u64, key: u128) -> Result<Near, PageFault>
    requires { IsTold (P.shown pages.old) → Subtree (pages_in (P.shown pages.old)) level n }
    ensures value { IfOk result (λ near. IsTold (P.shown pages.old) → IsFoundNear (pages_in (P.shown pages.old)) level n key near) }
    ensures peeks { Peeks (P.shown pages.old) (P.shown pages.new) level result }
{
    let mut near = Near {
        page: n,
        low: 0,
        high: u128::MAX,
        at: NO_PLACE,
    };
    let mut left = level;
    'levels: while left > 0 {
        let page = pages.live_page(near.page)?;
        let Some(count) = inner_count(page) else {
            return Ok(Near::nowhere());
        };
        let at = place_of(page, count, key);
        near = near.under(
            child_at(page, at),
            low_at(page, at),
            high_at(page, count, at),
        );
        left -= 1;
    }
    Ok(near)
}

/// The leaf under page `n` to which a key belongs: the one that is held, or else the one found by a descent, which is
/// held from then on.
pub fn leaf_for<P: Pages>(
    pages: &mut P,
    level: u32,
    n: u64,
    key: u128,
    near: &mut Near,
) -> Result<u64, PageFault>
    requires tree { IsTold (P.shown pages.old) → Subtree (pages_in (P.shown pages.old)) level n }
    requires near { IsTold (P.shown pages.old) → IsNearUnder (pages_in (P.shown pages.old)) level n near.old }
    ensures value { IfOk result (λ leaf. IsTold (P.shown pages.old) → IsLeafFor (pages_in (P.shown pages.old)) level n key leaf) }
    ensures near { IsTold (P.shown pages.old) → IsNearUnder (pages_in (P.shown pages.old)) level n near.new }
    ensures peeks { Peeks (P.shown pages.old) (P.shown pages.new) level result }
{
    if near.low <= key && key < near.high {
        return Ok(near.page);
    }
    *near = leaf_near(pages, level, n, key)?;
    Ok(near.page)
}
