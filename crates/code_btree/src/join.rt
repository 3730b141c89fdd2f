ghost use Rattle.std.specs.Prelude.{◌≡◌, ◌+◌, ◌≤◌, ◌<◌, ◌++◌, ◌∷◌, ℕ, suc, IfOk};
ghost use Rattle.page_pool.specs.Pool.{IsOpen, IsTold};
ghost use Rattle.page_pool.specs.Causes.{HasPageCause};
ghost use Rattle.page_pool.specs.Steps.{InCommand};
ghost use Rattle.code_btree.specs.Node.{IsLeaf, IsLeafOf, IsInnerOf, node_of, entries_of, next_of, keys_of, child_pages};
ghost use Rattle.code_btree.specs.Node.Node.{leaf, inner};
ghost use Rattle.code_btree.specs.Tree.{pages_in, least};
ghost use Rattle.code_btree.specs.Steps.{HalvesLeaf, HalvesInner};
ghost use Rattle.code_btree.specs.Removals.{Neighbours, Balances};

use crate::bytes::Page;
use crate::inner::{
    child_at, child_bytes, children_at, inner_count, key_at, key_bytes, keys_at, splice_inner,
};
use crate::leaf::{
    entries_at, entry_key_at, entry_value_at, leaf_count, next_at, set_next, splice_entries,
};
use crate::split::{put_child, put_entry};
use crate::store::{read, release, write};
use page_pool::{Disk, PageFault, Pool};

// The entries of a second leaf behind those of a first, which then leads to where the second led.
fn join_leaves(page: &mut Page, count: usize, right: &Page, more: usize)
    requires leaf { IsLeafOf page.old count }
    requires right_leaf { IsLeafOf right.now more }
    requires room { count + more ≤ 127 }
    ensures { node_of page.new ≡ leaf (entries_of (node_of page.old) ++ entries_of (node_of right.now)) (next_of (node_of right.now)) }
{
    splice_entries(page, count, count, count, entries_at(right, more, 0, more));
    set_next(page, count + more, next_at(right));
}

// One entry goes from the fuller of two leaves to the other.
fn even_leaves(page: &mut Page, count: usize, right: &mut Page, more: usize)
    requires leaf { IsLeafOf page.old count }
    requires right_leaf { IsLeafOf right.old more }
    requires many { 128 ≤ count + more }
    requires room { count + more ≤ 253 }
    ensures halves { 62 ≤ count → 62 ≤ more → HalvesLeaf (entries_of (node_of page.new)) (entries_of (node_of right.new)) (entries_of (node_of page.old) ++ entries_of (node_of right.old)) }
    ensures leaf { node_of page.new ≡ leaf (entries_of (node_of page.new)) (next_of (node_of page.old)) }
    ensures right_leaf { node_of right.new ≡ leaf (entries_of (node_of right.new)) (next_of (node_of right.old)) }
{
    if count < more {
        put_entry(
            page,
            count,
            count,
            entry_key_at(right, 0),
            entry_value_at(right, 0),
        );
        splice_entries(right, more, 0, 1, &[]);
        return;
    }
    put_entry(
        right,
        more,
        0,
        entry_key_at(page, count - 1),
        entry_value_at(page, count - 1),
    );
    splice_entries(page, count, count - 1, count, &[]);
}

// The keys and children of a second inner page behind those of a first, with the key between them.
fn join_inners(page: &mut Page, count: usize, key: u128, right: &Page, more: usize)
    requires inner { IsInnerOf page.old count }
    requires right_inner { IsInnerOf right.now more }
    requires room { count + more ≤ 168 }
    ensures { node_of page.new ≡ inner (keys_of (node_of page.old) ++ (key ∷ keys_of (node_of right.now))) (child_pages (node_of page.old) ++ child_pages (node_of right.now)) }
{
    put_child(page, count, count, key, child_at(right, 0));
    splice_inner(
        page,
        count + 1,
        count + 1,
        count + 1,
        keys_at(right, more, 0, more),
        count + 2,
        count + 2,
        children_at(right, more, 1, more + 1),
    );
}

// One child goes from the fuller of two inner pages to the other, by way of the key between them; the new one comes
// back.
fn even_inners(page: &mut Page, count: usize, key: u128, right: &mut Page, more: usize) -> u128
    requires inner { IsInnerOf page.old count }
    requires right_inner { IsInnerOf right.old more }
    requires many { 169 ≤ count + more }
    requires room { count + more ≤ 337 }
    ensures halves { 83 ≤ count → 83 ≤ more → HalvesInner (keys_of (node_of page.new)) (child_pages (node_of page.new)) result (keys_of (node_of right.new))
        (child_pages (node_of right.new)) (keys_of (node_of page.old) ++ (key ∷ keys_of (node_of right.old))) (child_pages (node_of page.old) ++ child_pages (node_of right.old)) }
    ensures inner { node_of page.new ≡ inner (keys_of (node_of page.new)) (child_pages (node_of page.new)) }
    ensures right_inner { node_of right.new ≡ inner (keys_of (node_of right.new)) (child_pages (node_of right.new)) }
{
    if count < more {
        let up = key_at(right, 0);
        put_child(page, count, count, key, child_at(right, 0));
        splice_inner(right, more, 0, 1, &[], 0, 1, &[]);
        return up;
    }
    let up = key_at(page, count - 1);
    splice_inner(
        right,
        more,
        0,
        0,
        &key_bytes(key),
        0,
        0,
        &child_bytes(child_at(page, count)),
    );
    splice_inner(page, count, count - 1, count, &[], count, count + 1, &[]);
    up
}

// Two neighbouring leaves become one, or one gives the other an entry.
fn balance_leaves<D: Disk>(pool: &mut Pool<D>, a: u64, b: u64) -> Result<Option<u128>, PageFault>
    requires { IsOpen pool.old }
    ensures value { IfOk result (λ up. IsTold pool.old → Neighbours (pages_in pool.old) 0 a b → Balances (pages_in pool.old) (pages_in pool.new) 0 a b up) }
    ensures within { InCommand pool.old pool.new }
    ensures cause { HasPageCause pool.old pool.new result }
{
    let mut left = [0; 4096];
    read(pool, a, &mut left)?;
    let mut right = [0; 4096];
    read(pool, b, &mut right)?;
    let Some(count) = leaf_count(&left) else {
        return Err(PageFault::Memory);
    };
    let Some(more) = leaf_count(&right) else {
        return Err(PageFault::Memory);
    };
    if count + more <= 127 {
        join_leaves(&mut left, count, &right, more);
        write(pool, a, &left)?;
        release(pool, b)?;
        return Ok(None);
    }
    if count + more > 253 {
        return Err(PageFault::Memory);
    }
    even_leaves(&mut left, count, &mut right, more);
    write(pool, a, &left)?;
    write(pool, b, &right)?;
    Ok(Some(entry_key_at(&right, 0)))
}

// Two neighbouring inner pages become one, or one gives the other a child.
fn balance_inners<D: Disk>(
    pool: &mut Pool<D>,
    a: u64,
    key: u128,
    b: u64,
) -> Result<Option<u128>, PageFault>
    requires { IsOpen pool.old }
    ensures value { IfOk result (λ up. IsTold pool.old → (h : ℕ) → key ≡ least (pages_in pool.old) (suc h) b → Neighbours (pages_in pool.old) (suc h) a b
        → Balances (pages_in pool.old) (pages_in pool.new) (suc h) a b up) }
    ensures within { InCommand pool.old pool.new }
    ensures cause { HasPageCause pool.old pool.new result }
{
    let mut left = [0; 4096];
    read(pool, a, &mut left)?;
    let mut right = [0; 4096];
    read(pool, b, &mut right)?;
    let Some(count) = inner_count(&left) else {
        return Err(PageFault::Memory);
    };
    let Some(more) = inner_count(&right) else {
        return Err(PageFault::Memory);
    };
    if count + more <= 168 {
        join_inners(&mut left, count, key, &right, more);
        write(pool, a, &left)?;
        release(pool, b)?;
        return Ok(None);
    }
    if count + more > 337 {
        return Err(PageFault::Memory);
    }
    let up = even_inners(&mut left, count, key, &mut right, more);
    write(pool, a, &left)?;
    write(pool, b, &right)?;
    Ok(Some(up))
}

/// Two neighbours, of which each is at most one short, become one page, or two that are filled; the key between
/// these comes back.
pub fn balance<D: Disk>(
    pool: &mut Pool<D>,
    level: u32,
    a: u64,
    key: u128,
    b: u64,
) -> Result<Option<u128>, PageFault>
    requires { IsOpen pool.old }
    ensures value { IfOk result (λ up. IsTold pool.old → key ≡ least (pages_in pool.old) level b → Neighbours (pages_in pool.old) level a b
        → Balances (pages_in pool.old) (pages_in pool.new) level a b up) }
    ensures within { InCommand pool.old pool.new }
    ensures cause { HasPageCause pool.old pool.new result }
{
    if level == 0 {
        let up = balance_leaves(pool, a, b)?;
        return Ok(up);
    }
    let up = balance_inners(pool, a, key, b)?;
    Ok(up)
}
