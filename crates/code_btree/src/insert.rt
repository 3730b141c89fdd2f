ghost use Rattle.std.specs.Prelude.{◌≡◌, ◌≤◌, ◌<◌, ◌+◌, IfOk, IfSome, OnOk, Some};
ghost use Rattle.page_pool.specs.Pool.{IsOpen, IsTold};
ghost use Rattle.page_pool.specs.Causes.{HasPageCause};
ghost use Rattle.page_pool.specs.Steps.{InCommand};
ghost use Rattle.code_btree.specs.Node.{IsLeafOf, IsInnerOf, node_of, entries_of, next_of, keys_of, child_pages};
ghost use Rattle.code_btree.specs.Tree.{live, pages_in};
ghost use Rattle.code_btree.specs.Steps.{put_at, Subtree, InsertsUnder, SplitsLeaf, Adopts, Packs, count_after};

use crate::bytes::Page;
use crate::inner::{child_at, inner_count, place_of};
use crate::leaf::{
    entry_bytes, entry_key_at, leaf_count, rank, set_next, splice_entries, value_found,
};
use crate::remove::mend;
use crate::split::{cut_inner, cut_leaf, put_child, put_entry};
use crate::store::{gain, read, write};
use page_pool::{Disk, PageFault, Pool};

/// What became of a page under which a pair was put.
#[derive(Clone, Copy)]
pub enum Grown {
    /// It is whole.
    Kept,
    /// It was split: the least key under the new page, and that page's number.
    Split(u128, u64),
}

// A full leaf is split, with one entry more.
fn split_leaf<D: Disk>(
    pool: &mut Pool<D>,
    n: u64,
    page: &mut Page,
    at: usize,
    key: u128,
    value: u128,
) -> Result<(u128, u64), PageFault>
    requires opened { IsOpen pool.old }
    requires leaf { IsLeafOf page.old 127 }
    requires place { at ≤ 127 }
    ensures value { IfOk result (λ r. live (pages_in pool.old) n ≡ 1
        → SplitsLeaf (pages_in pool.old) (pages_in pool.new) n r.1 r.0 (put_at at (key, value) (entries_of (node_of page.old))) (next_of (node_of page.old))) }
    ensures within { InCommand pool.old pool.new }
    ensures cause { HasPageCause pool.old pool.new result }
{
    let right = cut_leaf(page, at, key, value);
    let r = gain(pool, &right)?;
    set_next(page, 63, r);
    write(pool, n, page)?;
    Ok((entry_key_at(&right, 0), r))
}

// A pair is put into a leaf.
fn insert_leaf<D: Disk>(
    pool: &mut Pool<D>,
    n: u64,
    key: u128,
    value: u128,
) -> Result<(Option<u128>, Grown), PageFault>
    requires opened { IsOpen pool.old }
    requires tree { IsTold pool.old → Subtree (pages_in pool.old) 0 n }
    ensures value { IfOk result (λ r. IsTold pool.old → InsertsUnder (pages_in pool.old) (pages_in pool.new) 0 n key value r.0 r.1) }
    ensures within { InCommand pool.old pool.new }
    ensures cause { HasPageCause pool.old pool.new result }
{
    let mut page = [0; 4096];
    read(pool, n, &mut page)?;
    let Some(count) = leaf_count(&page) else {
        return Err(PageFault::Memory);
    };
    let at = rank(&page, count, key);
    if let Some(was) = value_found(&page, count, at, key) {
        splice_entries(&mut page, count, at, at + 1, &entry_bytes(key, value));
        write(pool, n, &page)?;
        return Ok((Some(was), Grown::Kept));
    }
    if count < 127 {
        put_entry(&mut page, count, at, key, value);
        write(pool, n, &page)?;
        return Ok((None, Grown::Kept));
    }
    let (up, right) = split_leaf(pool, n, &mut page, at, key, value)?;
    Ok((None, Grown::Split(up, right)))
}

// An inner page takes a child in, behind child `at`.
fn adopt<D: Disk>(
    pool: &mut Pool<D>,
    n: u64,
    page: &mut Page,
    count: usize,
    at: usize,
    key: u128,
    child: u64,
) -> Result<Grown, PageFault>
    requires opened { IsOpen pool.old }
    requires inner { IsInnerOf page.old count }
    requires place { at ≤ count }
    ensures value { IfOk result (λ grown. live (pages_in pool.old) n ≡ 1
        → Adopts (pages_in pool.old) (pages_in pool.new) n (put_at at key (keys_of (node_of page.old))) (put_at (at + 1) child (child_pages (node_of page.old))) grown) }
    ensures within { InCommand pool.old pool.new }
    ensures cause { HasPageCause pool.old pool.new result }
{
    if count < 169 {
        put_child(page, count, at, key, child);
        write(pool, n, page)?;
        return Ok(Grown::Kept);
    }
    let (up, right) = cut_inner(page, at, key, child);
    let r = gain(pool, &right)?;
    write(pool, n, page)?;
    Ok(Grown::Split(up, r))
}

// Whether one leaf has room for what two pages hold.
fn fit_in_one<D: Disk>(pool: &mut Pool<D>, a: u64, b: u64) -> Result<bool, PageFault>
    ensures same { pool.new.pages ≡ pool.old.pages }
    ensures within { InCommand pool.old pool.new }
    ensures cause { HasPageCause pool.old pool.new result }
{
    let mut page = [0; 4096];
    read(pool, a, &mut page)?;
    let Some(count) = leaf_count(&page) else {
        return Ok(false);
    };
    read(pool, b, &mut page)?;
    let Some(more) = leaf_count(&page) else {
        return Ok(false);
    };
    Ok(count + more <= 127)
}

// Child `at` of page `n` and the one in front of it become one leaf, where one has room for both. So leaves fill up
// where keys come in order, which else would stay half full.
fn pack<D: Disk>(pool: &mut Pool<D>, n: u64, at: usize) -> Result<(), PageFault>
    requires opened { IsOpen pool.old }
    requires place { at ≤ 169 }
    requires tree { IsTold pool.old → Subtree (pages_in pool.old) 1 n }
    ensures value { OnOk result (IsTold pool.old → Packs (pages_in pool.old) (pages_in pool.new) 1 n) }
    ensures within { InCommand pool.old pool.new }
    ensures cause { HasPageCause pool.old pool.new result }
{
    if at == 0 {
        return Ok(());
    }
    let mut page = [0; 4096];
    read(pool, n, &mut page)?;
    let Some(count) = inner_count(&page) else {
        return Err(PageFault::Memory);
    };
    if !fit_in_one(pool, child_at(&page, at - 1), child_at(&page, at))? {
        return Ok(());
    }
    mend(pool, 0, n, &mut page, count, at - 1)?;
    Ok(())
}

/// Puts a pair into the tree under page `n`, which stands `level` above the leaves.
pub fn insert_under<D: Disk>(
    pool: &mut Pool<D>,
    level: u32,
    n: u64,
    key: u128,
    value: u128,
) -> Result<(Option<u128>, Grown), PageFault>
    requires opened { IsOpen pool.old }
    requires tree { IsTold pool.old → Subtree (pages_in pool.old) level n }
    ensures value { IfOk result (λ r. IsTold pool.old → InsertsUnder (pages_in pool.old) (pages_in pool.new) level n key value r.0 r.1) }
    ensures within { InCommand pool.old pool.new }
    ensures cause { HasPageCause pool.old pool.new result }
{
    if level == 0 {
        return insert_leaf(pool, n, key, value);
    }
    let mut page = [0; 4096];
    read(pool, n, &mut page)?;
    let Some(count) = inner_count(&page) else {
        return Err(PageFault::Memory);
    };
    let at = place_of(&page, count, key);
    let child = child_at(&page, at);
    let (was, below) = insert_under(pool, level - 1, child, key, value)?;
    match below {
        Grown::Kept => Ok((was, Grown::Kept)),
        Grown::Split(up, right) => {
            let grown = adopt(pool, n, &mut page, count, at, up, right)?;
            match grown {
                Grown::Kept if level == 1 => {
                    pack(pool, n, at)?;
                    Ok((was, Grown::Kept))
                }
                _ => Ok((was, grown)),
            }
        }
    }
}

/// The number of entries after a pair was put, where it can be told.
pub fn counted(entries: u64, was: Option<u128>) -> Option<u64>
    ensures { IfSome result (λ count. count ≡ count_after entries was) }
{
    match was {
        Some(_) => Some(entries),
        None => entries.checked_add(1),
    }
}
