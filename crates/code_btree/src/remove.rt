ghost use Rattle.std.specs.Prelude.{◌≡◌, ◌≤◌, ◌+◌, ◌++◌, ◌∷◌, [], take, drop, IfOk, IfSome, None, Some, false};
ghost use Rattle.page_pool.specs.Pool.{IsOpen, IsTold};
ghost use Rattle.page_pool.specs.Causes.{HasPageCause};
ghost use Rattle.page_pool.specs.Steps.{InCommand};
ghost use Rattle.code_btree.specs.Node.{IsLeafOf, IsInnerOf, node_of, entries_of, keys_of, child_pages};
ghost use Rattle.code_btree.specs.Node.Node.{inner};
ghost use Rattle.code_btree.specs.Tree.{pages_in, first_key};
ghost use Rattle.code_btree.specs.Steps.{Subtree};
ghost use Rattle.code_btree.specs.Removals.{RemovesUnder, FallsTo, Mends, noted_keys, count_before};

use crate::bytes::Page;
use crate::inner::{child_at, inner_count, key_at, key_bytes, place_of, splice_inner};
use crate::join::balance;
use crate::leaf::{entry_key_at, leaf_count, rank, splice_entries, value_found};
use crate::store::{read, write};
use page_pool::{Disk, PageFault, Pool};

/// What became of a page from under which a key was taken.
#[derive(Clone, Copy)]
pub struct Shrunk {
    /// The value that the key had.
    pub was: Option<u128>,
    /// The least key under the page, where it is another one now.
    pub least: Option<u128>,
    /// Whether the page is one short.
    pub short: bool,
}

// Whether a page of so much is short.
fn is_short(size: usize, few: usize) -> bool
    ensures { result ≡ false → few ≤ size }
{
    size < few
}

// The least key of a leaf, where its first entry was taken.
fn first_left(page: &Page, count: usize, at: usize) -> Option<u128>
    requires { count ≤ 127 }
    ensures first { IsLeafOf page.now count → 1 ≤ count → at ≡ 0 → result ≡ Some (first_key (entries_of (node_of page.now))) }
    ensures behind { 1 ≤ at → result ≡ None }
{
    if at > 0 {
        return None;
    }
    if count == 0 {
        return None;
    }
    Some(entry_key_at(page, 0))
}

// A key is taken from a leaf.
fn remove_leaf<D: Disk>(pool: &mut Pool<D>, n: u64, key: u128) -> Result<Shrunk, PageFault>
    requires opened { IsOpen pool.old }
    requires tree { IsTold pool.old → Subtree (pages_in pool.old) 0 n }
    ensures value { IfOk result (λ shrunk. IsTold pool.old → RemovesUnder (pages_in pool.old) (pages_in pool.new) 0 n key shrunk) }
    ensures within { InCommand pool.old pool.new }
    ensures cause { HasPageCause pool.old pool.new result }
{
    let mut page = [0; 4096];
    read(pool, n, &mut page)?;
    let Some(count) = leaf_count(&page) else {
        return Err(PageFault::Memory);
    };
    let at = rank(&page, count, key);
    let Some(was) = value_found(&page, count, at, key) else {
        let short = is_short(count, 63);
        return Ok(Shrunk {
            was: None,
            least: None,
            short,
        });
    };
    splice_entries(&mut page, count, at, at + 1, &[]);
    write(pool, n, &page)?;
    let short = is_short(count - 1, 63);
    let least = first_left(&page, count - 1, at);
    Ok(Shrunk {
        was: Some(was),
        least,
        short,
    })
}

// A key is written anew.
fn set_key(page: &mut Page, count: usize, at: usize, key: u128)
    requires inner { IsInnerOf page.old count }
    requires place { at + 1 ≤ count }
    ensures value { node_of page.new ≡ inner (take at (keys_of (node_of page.old)) ++ ((key ∷ []) ++ drop (at + 1) (keys_of (node_of page.old)))) (child_pages (node_of page.old)) }
    ensures is { IsInnerOf page.new count }
{
    splice_inner(page, count, at, at + 1, &key_bytes(key), 0, 0, &[]);
}

// The key in front of child `at` is written, where the least key under the child is another one now. Tells whether
// it was.
fn note(page: &mut Page, count: usize, at: usize, least: Option<u128>) -> bool
    requires inner { IsInnerOf page.old count }
    requires place { at ≤ count }
    ensures value { node_of page.new ≡ inner (noted_keys at least (keys_of (node_of page.old))) (child_pages (node_of page.old)) }
    ensures is { IsInnerOf page.new count }
    ensures same { result ≡ false → page.new ≡ page.old }
{
    let Some(key) = least else {
        return false;
    };
    if at == 0 {
        return false;
    }
    set_key(page, count, at - 1, key);
    true
}

// The least key under a page is that under its first child.
fn passed(at: usize, least: Option<u128>) -> Option<u128>
    ensures first { at ≡ 0 → result ≡ least }
    ensures behind { 1 ≤ at → result ≡ None }
{
    if at > 0 {
        return None;
    }
    least
}

/// The children `j` and `j + 1` of page `n` are balanced, and the page is written. Gives the number of its keys.
pub fn mend<D: Disk>(
    pool: &mut Pool<D>,
    level: u32,
    n: u64,
    page: &mut Page,
    count: usize,
    j: usize,
) -> Result<usize, PageFault>
    requires opened { IsOpen pool.old }
    requires inner { IsInnerOf page.old count }
    ensures value { IfOk result (λ size. IsTold pool.old → Mends (pages_in pool.old) (pages_in pool.new) level n j (keys_of (node_of page.old)) (child_pages (node_of page.old)) size) }
    ensures within { InCommand pool.old pool.new }
    ensures cause { HasPageCause pool.old pool.new result }
{
    if j >= count {
        return Err(PageFault::Memory);
    }
    let left = child_at(page, j);
    let right = child_at(page, j + 1);
    let Some(up) = balance(pool, level, left, key_at(page, j), right)? else {
        splice_inner(page, count, j, j + 1, &[], j + 1, j + 2, &[]);
        write(pool, n, page)?;
        return Ok(count - 1);
    };
    set_key(page, count, j, up);
    write(pool, n, page)?;
    Ok(count)
}

/// Takes a key from the tree under page `n`, which stands `level` above the leaves.
pub fn remove_under<D: Disk>(
    pool: &mut Pool<D>,
    level: u32,
    n: u64,
    key: u128,
) -> Result<Shrunk, PageFault>
    requires opened { IsOpen pool.old }
    requires tree { IsTold pool.old → Subtree (pages_in pool.old) level n }
    ensures value { IfOk result (λ shrunk. IsTold pool.old → RemovesUnder (pages_in pool.old) (pages_in pool.new) level n key shrunk) }
    ensures within { InCommand pool.old pool.new }
    ensures cause { HasPageCause pool.old pool.new result }
{
    if level == 0 {
        let shrunk = remove_leaf(pool, n, key)?;
        return Ok(shrunk);
    }
    let mut page = [0; 4096];
    read(pool, n, &mut page)?;
    let Some(count) = inner_count(&page) else {
        return Err(PageFault::Memory);
    };
    let at = place_of(&page, count, key);
    let child = child_at(&page, at);
    let below = remove_under(pool, level - 1, child, key)?;
    let noted = note(&mut page, count, at, below.least);
    let least = passed(at, below.least);
    if below.short {
        let size = mend(pool, level - 1, n, &mut page, count, at.saturating_sub(1))?;
        let short = is_short(size, 84);
        return Ok(Shrunk {
            was: below.was,
            least,
            short,
        });
    }
    let short = is_short(count, 84);
    if noted {
        write(pool, n, &page)?;
        return Ok(Shrunk {
            was: below.was,
            least,
            short,
        });
    }
    Ok(Shrunk {
        was: below.was,
        least,
        short,
    })
}

/// The number of entries after a key was taken, where it can be told.
pub fn uncounted(entries: u64, was: Option<u128>) -> Option<u64>
    ensures { IfSome result (λ count. entries ≡ count_before count was) }
{
    match was {
        Some(_) => entries.checked_sub(1),
        None => Some(entries),
    }
}

/// The only child of a root that has no key left, for a tree of this height whose root is short or isn't.
pub fn fallen<D: Disk>(
    pool: &mut Pool<D>,
    height: u32,
    root: u64,
    short: bool,
) -> Result<Option<u64>, PageFault>
    ensures value { IfOk result (λ child. IsTold pool.old → FallsTo (pages_in pool.old) height root short child) }
    ensures same { pool.new.pages ≡ pool.old.pages }
    ensures within { InCommand pool.old pool.new }
    ensures cause { HasPageCause pool.old pool.new result }
{
    if !short {
        return Ok(None);
    }
    if height < 2 {
        return Ok(None);
    }
    let mut page = [0; 4096];
    read(pool, root, &mut page)?;
    let Some(count) = inner_count(&page) else {
        return Err(PageFault::Memory);
    };
    if count > 0 {
        return Ok(None);
    }
    Ok(Some(child_at(&page, 0)))
}
