ghost use Rattle.std.specs.Prelude.{◌≡◌, ◌≤◌, OnOk, IfOk, IfSome};
ghost use Rattle.page_pool.specs.Pool.{IsOpen, IsTold};
ghost use Rattle.code_btree.specs.Tree.{IsTree, pages_in};

use crate::draws::Draws;
use code_btree::Tree;
use page_pool::{PageFault, Pool, SureDisk};
use std::alloc::Global;
use std::collections::BTreeMap;

// A map in memory.
type Twin = BTreeMap<u128, u128>;

// One drawn call of both maps, with a key below this number; tells whether their answers are the same.
fn call(
    pool: &mut Pool<SureDisk>,
    tree: &mut Tree,
    twin: &mut Twin,
    draws: &mut Draws,
    keys: u64,
) -> Result<bool, PageFault>
    requires some { 1 ≤ keys }
    requires opened { IsOpen pool.old }
    requires tree { IsTold pool.old → IsTree (pages_in pool.old) tree.old }
    ensures opened { OnOk result (IsOpen pool.new) }
    ensures tree { OnOk result (IsTold pool.new → IsTree (pages_in pool.new) tree.new) }
{
    let kind = draws.word() % 4;
    let key = u128::from(draws.word() % keys);
    let value = draws.key();
    if kind < 2 {
        let was = tree.insert(pool, key, value)?;
        let Ok(other) = twin.insert(key, value) else {
            return Err(PageFault::Memory);
        };
        return Ok(was == other);
    }
    if kind == 2 {
        let was = tree.remove(pool, key)?;
        return Ok(was == twin.remove(&key));
    }
    let found = tree.get(pool, key)?;
    Ok(found == twin.get(&key).copied())
}

// Whether the map in pages gives the pairs of the one in memory, in their order.
fn same_pairs(pool: &mut Pool<SureDisk>, tree: Tree, twin: &Twin) -> bool
    requires { IsTold pool.old → IsTree (pages_in pool.old) tree }
{
    let mut others = twin.iter();
    let mut run = tree.run(pool, 0);
    for (key, value) in &mut run {
        let Some((other_key, other)) = others.next() else {
            return false;
        };
        if *other_key != key {
            return false;
        }
        if *other != value {
            return false;
        }
    }
    others.next().is_none()
}

// So many drawn calls of both maps, with keys below this number; tells whether all answers were the same.
fn call_all(
    pool: &mut Pool<SureDisk>,
    tree: &mut Tree,
    twin: &mut Twin,
    calls: u32,
    keys: u64,
) -> Result<bool, PageFault>
    requires some { 1 ≤ keys }
    requires opened { IsOpen pool.old }
    requires tree { IsTold pool.old → IsTree (pages_in pool.old) tree.old }
    ensures { OnOk result (IsTold pool.new → IsTree (pages_in pool.new) tree.new) }
{
    let mut draws = Draws::begin(calls.into());
    'calls: for _ in 0..calls {
        if !call(pool, tree, twin, &mut draws, keys)? {
            return Ok(false);
        }
    }
    Ok(true)
}

/// So many drawn calls of a map in pages and of one in memory, with keys below this number. Gives the number of
/// pairs left where all answers and all pairs were the same.
pub fn mixed(
    alloc: Global,
    pool: &mut Pool<SureDisk>,
    calls: u32,
    keys: u64,
) -> Result<Option<u64>, PageFault>
    requires some { 1 ≤ keys }
    requires opened { IsOpen pool.old }
{
    let mut tree = Tree::plant(pool)?;
    let mut twin = BTreeMap::new(alloc);
    if call_all(pool, &mut tree, &mut twin, calls, keys)? && same_pairs(pool, tree, &twin) {
        return Ok(Some(tree.entries));
    }
    Ok(None)
}

/// Puts the keys below this number into a map, from the least on, and takes them out again, from the least on.
pub fn emptied(pool: &mut Pool<SureDisk>, keys: u32) -> Result<Tree, PageFault>
    requires { IsOpen pool.old }
{
    let mut tree = Tree::plant(pool)?;
    'puts: for key in 0..keys {
        tree.insert(pool, u128::from(key), 1)?;
    }
    'takes: for key in 0..keys {
        tree.remove(pool, u128::from(key))?;
    }
    Ok(tree)
}
