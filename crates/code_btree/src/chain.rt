ghost use Rattle.std.specs.Prelude.{◌≡◌, ◌+◌, ◌≤◌, IfOk, None};
ghost use Rattle.page_pool.specs.Pool.{IsTold};
ghost use Rattle.code_btree.specs.Node.{IsLeafOf, node_of, entries_of, next_of};
ghost use Rattle.code_btree.specs.Items.{items_from};
ghost use Rattle.code_btree.specs.Tree.{pages_in, IsTree, tree_items};
ghost use Rattle.code_btree.specs.Steps.{Subtree};
ghost use Rattle.code_btree.specs.Chain.{GivesEntry, IsGivenIn, IsGivenFrom, Seeks, IsFirstOf};
ghost use Rattle.code_btree.specs.Calls.{Looks, Peeks};

use crate::Tree;
use crate::bytes::Page;
use crate::leaf::{entry_key_at, entry_value_at, leaf_count, next_at, rank};
use crate::look::child_for;
use page_pool::{PageFault, Pages};

/// What a leaf gives at a place: the pair there, if there is one, and where the next one stands, a leaf and a place
/// in it. Leaf 0 is no leaf.
#[derive(Clone, Copy)]
pub struct Given {
    pub pair: Option<(u128, u128)>,
    pub leaf: u64,
    pub place: usize,
}

// What leaf `n` gives at a place.
fn give(page: &Page, n: u64, count: usize, at: usize) -> Given
    requires { count ≤ 127 }
    ensures { IsLeafOf page.now count → GivesEntry (entries_of (node_of page.now)) (next_of (node_of page.now)) n at result }
{
    let next = next_at(page);
    if at >= count {
        return Given {
            pair: None,
            leaf: next,
            place: 0,
        };
    }
    let pair = Some((entry_key_at(page, at), entry_value_at(page, at)));
    if at + 1 < count {
        return Given {
            pair,
            leaf: n,
            place: at + 1,
        };
    }
    Given {
        pair,
        leaf: next,
        place: 0,
    }
}

// Nothing, and nothing behind it.
fn nothing() -> Given
    ensures { result ≡ record { pair = None; leaf = 0; place = 0 } }
{
    Given {
        pair: None,
        leaf: 0,
        place: 0,
    }
}

// What leaf `n` gives at a place: one get.
fn give_at<P: Pages>(pages: &mut P, n: u64, place: usize) -> Result<Given, PageFault>
    ensures value { IfOk result (λ given. IsTold (P.shown pages.old) → IsGivenIn (pages_in (P.shown pages.old)) n place given) }
    ensures looks { Looks (P.shown pages.old) (P.shown pages.new) 1 result }
{
    let page = pages.live_page(n)?;
    let Some(count) = leaf_count(page) else {
        return Ok(nothing());
    };
    Ok(give(page, n, count, place))
}

// What leaf `n` gives at the least key not below this one: one get.
fn give_from<P: Pages>(pages: &mut P, n: u64, key: u128) -> Result<Given, PageFault>
    ensures value { IfOk result (λ given. IsTold (P.shown pages.old) → IsGivenFrom (pages_in (P.shown pages.old)) n key given) }
    ensures looks { Looks (P.shown pages.old) (P.shown pages.new) 1 result }
{
    let page = pages.live_page(n)?;
    let Some(count) = leaf_count(page) else {
        return Ok(nothing());
    };
    Ok(give(page, n, count, rank(page, count, key)))
}

// What the leaf under page `n` to which a key belongs gives at the least key not below it.
fn seek<P: Pages>(pages: &mut P, level: u32, n: u64, key: u128) -> Result<Given, PageFault>
    requires { IsTold (P.shown pages.old) → Subtree (pages_in (P.shown pages.old)) level n }
    ensures value { IfOk result (λ given. IsTold (P.shown pages.old) → Seeks (pages_in (P.shown pages.old)) level n key given) }
    ensures looks { Looks (P.shown pages.old) (P.shown pages.new) (level + 1) result }
{
    if level == 0 {
        let given = give_from(pages, n, key)?;
        return Ok(given);
    }
    let Some(child) = child_for(pages, n, key)? else {
        return Ok(nothing());
    };
    let given = seek(pages, level - 1, child, key)?;
    Ok(given)
}

// What stands at the place of the next pair: one get, or none behind the last leaf.
pub fn give_on<P: Pages>(pages: &mut P, leaf: u64, place: usize) -> Result<Given, PageFault>
    ensures none { leaf ≡ 0 → IfOk result (λ given. given.pair ≡ None) }
    ensures value { 1 ≤ leaf → IfOk result (λ given. IsTold (P.shown pages.old) → IsGivenIn (pages_in (P.shown pages.old)) leaf place given) }
    ensures peeks { Peeks (P.shown pages.old) (P.shown pages.new) 1 result }
{
    if leaf == 0 {
        return Ok(nothing());
    }
    let given = give_at(pages, leaf, place)?;
    Ok(given)
}

// The pair of the least key not below this one, and where the next one stands.
pub fn first<P: Pages>(pages: &mut P, tree: Tree, key: u128) -> Result<Given, PageFault>
    requires { IsTold (P.shown pages.old) → IsTree (pages_in (P.shown pages.old)) tree }
    ensures value { IfOk result (λ given. IsTold (P.shown pages.old) → IsFirstOf (pages_in (P.shown pages.old)) tree (items_from key (tree_items (pages_in (P.shown pages.old)) tree)) given) }
    ensures looks { Looks (P.shown pages.old) (P.shown pages.new) (tree.height + 1) result }
{
    if tree.height == 0 {
        return Err(PageFault::Memory);
    }
    let given = seek(pages, tree.height - 1, tree.root, key)?;
    if let Some(_) = given.pair {
        return Ok(given);
    }
    let next = give_on(pages, given.leaf, given.place)?;
    Ok(next)
}
