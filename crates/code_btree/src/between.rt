ghost use Rattle.std.specs.Prelude.{◌≡◌, ◌+◌, ◌/◌, ◌≤◌, ◌∷◌, ◌++◌, [], List, length, IfOk, OnOk};
ghost use Rattle.page_pool.specs.Pool.{IsTold};
ghost use Rattle.code_btree.specs.Node.{Pair, IsLeafOf, node_of, entries_of, next_of};
ghost use Rattle.code_btree.specs.Items.{Ascending};
ghost use Rattle.code_btree.specs.Tree.{IsTree, pages_in, tree_items};
ghost use Rattle.code_btree.specs.Between.{items_between, TakesEntry, IsTakenIn, IsRest};
ghost use Rattle.code_btree.specs.Near.{IsNear};
ghost use Rattle.code_btree.specs.Calls.{Looks, Peeks};

use crate::Tree;
use crate::bytes::Page;
use crate::leaf::{entry_key_at, entry_value_at, leaf_count, next_at, rank_from};
use crate::near::{Near, leaf_for};
use page_pool::{PageFault, Pages};
use sand_base::NoMemory;
use std::alloc::Global;

// Adds a pair; the first one of a list makes room for eight.
fn add(found: &mut Vec<(u128, u128)>, pair: (u128, u128)) -> Result<(), NoMemory>
    ensures { OnOk result (found.new.items ≡ found.old.items ++ pair ∷ []) }
{
    if found.is_empty() {
        found.reserve(8)?;
    }
    found.push(pair)?;
    Ok(())
}

// Takes the pairs of a leaf from `low` on and below `high`, and gives the leaf that follows; or 0, where an entry from
// `low` on is at `high` or behind it. The first of them is sought at `place` before anywhere else; `place` is then where
// the pairs of the range end.
fn take_page(
    found: &mut Vec<(u128, u128)>,
    page: &Page,
    count: usize,
    low: u128,
    high: u128,
    place: &mut usize,
) -> Result<u64, NoMemory>
    requires { IsLeafOf page.now count }
    ensures { IfOk result (λ next. Ascending (entries_of (node_of page.now)) → TakesEntry (entries_of (node_of page.now)) (next_of (node_of page.now)) low high found.old.items found.new.items next) }
{
    let from = rank_from(page, count, *place, low);
    let mut at = from;
    'entries: while at < count {
        let key = entry_key_at(page, at);
        if key >= high {
            *place = at;
            return Ok(0);
        }
        add(found, (key, entry_value_at(page, at)))?;
        at += 1;
    }
    *place = at;
    Ok(next_at(page))
}

// Takes the pairs of leaf `n` from `low` on and below `high`, and gives the leaf that follows: one get. The first of
// them is sought at `place` before anywhere else; `place` is then where the pairs of the range end.
fn take_leaf<P: Pages>(
    pages: &mut P,
    n: u64,
    low: u128,
    high: u128,
    found: &mut Vec<(u128, u128)>,
    place: &mut usize,
) -> Result<u64, PageFault>
    ensures value { IfOk result (λ next. IsTold (P.shown pages.old) → IsTakenIn (pages_in (P.shown pages.old)) n low high found.old.items found.new.items next) }
    ensures looks { Looks (P.shown pages.old) (P.shown pages.new) 1 result }
{
    let page = pages.live_page(n)?;
    let Some(count) = leaf_count(page) else {
        return Ok(0);
    };
    let next = take_page(found, page, count, low, high, place)?;
    Ok(next)
}

// Takes the pairs of a range from a leaf on, one get for each leaf: all of those leaves begin in the range or behind it.
// A tree has no more leaves than entries.
fn take_on<P: Pages>(
    pages: &mut P,
    tree: Tree,
    first: u64,
    low: u128,
    high: u128,
    found: &mut Vec<(u128, u128)>,
) -> Result<(), PageFault>
    requires { IsTold (P.shown pages.old) → IsTree (pages_in (P.shown pages.old)) tree }
    ensures value { OnOk result (IsTold (P.shown pages.old) → (want : List Pair) → IsRest (pages_in (P.shown pages.old)) tree low high first tree.entries want
        → found.new.items ≡ found.old.items ++ want) }
    ensures peeks { Peeks (P.shown pages.old) (P.shown pages.new) tree.entries result }
    ensures price { IsTold (P.shown pages.old) → (want : List Pair) → IsRest (pages_in (P.shown pages.old)) tree low high first tree.entries want
        → (P.shown pages.new).gets ≤ (P.shown pages.old).gets + (1 + length want / 63) }
{
    let mut leaf = first;
    let mut left = tree.entries;
    'leaves: while left > 0 {
        if leaf == 0 {
            return Ok(());
        }
        let mut place = 0;
        leaf = take_leaf(pages, leaf, low, high, found, &mut place)?;
        left -= 1;
    }
    Ok(())
}

impl Tree {
    /// The pairs from `low` on and below `high`, in ascending order. Each leaf is read by one get: a range of n pairs
    /// takes a descent, one get more and another for each 63 pairs at most.
    pub fn between<P: Pages>(
        &self,
        alloc: Global,
        pages: &mut P,
        low: u128,
        high: u128,
    ) -> Result<Vec<(u128, u128)>, PageFault>
        requires { IsTold (P.shown pages.old) → IsTree (pages_in (P.shown pages.old)) self.now }
        ensures value { IfOk result (λ found. IsTold (P.shown pages.old) → found.items ≡ items_between low high (tree_items (pages_in (P.shown pages.old)) self.now)) }
        ensures looks { Looks (P.shown pages.old) (P.shown pages.new) (self.now.height + self.now.entries) result }
        ensures price { IsTold (P.shown pages.old) → (P.shown pages.new).gets ≤ (P.shown pages.old).gets +
            (self.now.height + 1 + length (items_between low high (tree_items (pages_in (P.shown pages.old)) self.now)) / 63) }
    {
        let mut near = Near::nowhere();
        self.between_near(alloc, pages, low, high, &mut near)
    }

    /// The same pairs, with the leaf of the range before held in `near`, which has the leaf of this one afterwards. Where
    /// they are one, the range takes no descent. What is held is worth nothing once the tree has changed.
    pub fn between_near<P: Pages>(
        &self,
        alloc: Global,
        pages: &mut P,
        low: u128,
        high: u128,
        near: &mut Near,
    ) -> Result<Vec<(u128, u128)>, PageFault>
        requires tree { IsTold (P.shown pages.old) → IsTree (pages_in (P.shown pages.old)) self.now }
        requires near { IsTold (P.shown pages.old) → IsNear (pages_in (P.shown pages.old)) self.now near.old }
        ensures value { IfOk result (λ found. IsTold (P.shown pages.old) → found.items ≡ items_between low high (tree_items (pages_in (P.shown pages.old)) self.now)) }
        ensures near { IsTold (P.shown pages.old) → IsNear (pages_in (P.shown pages.old)) self.now near.new }
        ensures looks { Looks (P.shown pages.old) (P.shown pages.new) (self.now.height + self.now.entries) result }
        ensures price { IsTold (P.shown pages.old) → (P.shown pages.new).gets ≤ (P.shown pages.old).gets +
            (self.now.height + 1 + length (items_between low high (tree_items (pages_in (P.shown pages.old)) self.now)) / 63) }
    {
        if self.height == 0 {
            return Err(PageFault::Memory);
        }
        let mut found = Vec::new(alloc);
        let leaf = leaf_for(pages, self.height - 1, self.root, low, near)?;
        let next = take_leaf(pages, leaf, low, high, &mut found, &mut near.at)?;
        take_on(pages, *self, next, low, high, &mut found)?;
        Ok(found)
    }
}
