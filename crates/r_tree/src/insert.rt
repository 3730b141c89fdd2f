ghost use Rattle.std.specs.Prelude.{◌≡◌, ◌+◌, ◌≤◌, ◌++◌, ◌∷◌, [], length, vec_len, IfOk, OnOk};
ghost use Rattle.page_pool.specs.Pool.{IsOpen, IsTold};
ghost use Rattle.page_pool.specs.Causes.{HasPageCause};
ghost use Rattle.page_pool.specs.Steps.{InCommand};
ghost use Rattle.code_btree.specs.Tree.{pages_in};
ghost use Rattle.r_tree.specs.Entry.{member_of};
ghost use Rattle.r_tree.specs.Steps.{Lays, IsFilledIfSplit, raised, NodeTree, EntersUnder};

use crate::cut::cut;
use crate::entry::{NodeEntry, box_of, branch};
use crate::hull::bound_of;
use crate::nearest::nearest;
use crate::store::{gain_node, read_node, write_node};
use page_pool::{Disk, PageFault, Pool};
use sand_base::{NoMemory, Rect};
use std::alloc::Global;

/// What became of a page under which something was entered: the rectangle round it.
#[derive(Clone, Copy)]
pub enum Grown {
    /// It is whole.
    Kept(Rect),
    /// It was split: the rectangle round it, that round the new page, and the new page's number.
    Split(Rect, Rect, u64),
}

// One entry more.
pub fn add(entries: &mut Vec<NodeEntry>, entry: NodeEntry) -> Result<(), NoMemory>
    ensures { OnOk result (entries.new.items ≡ entries.old.items ++ entry ∷ []) }
{
    entries.push(entry)?;
    Ok(())
}

// The entries that lead to page `n` after it grew.
pub fn raise(entries: &mut Vec<NodeEntry>, n: u64, grown: Grown) -> Result<(), NoMemory>
    ensures { OnOk result (entries.new.items ≡ entries.old.items ++ raised n grown) }
{
    match grown {
        Grown::Kept(bound) => add(entries, branch(bound, n)),
        Grown::Split(bound, right_bound, right) => {
            add(entries, branch(bound, n))?;
            add(entries, branch(right_bound, right))
        }
    }
}

// Too many entries for one node, in page `n` and a new one.
fn split<D: Disk>(
    pool: &mut Pool<D>,
    n: u64,
    inner: bool,
    entries: &mut [NodeEntry],
) -> Result<Grown, PageFault>
    requires opened { IsOpen pool.old }
    requires many { 100 ≤ length entries.old }
    requires few { length entries.old ≤ 252 }
    ensures value { IfOk result (λ grown. Lays (pages_in pool.old) (pages_in pool.new) (n ∷ []) (raised n grown) entries.old inner) }
    ensures full { IfOk result (λ grown. IsFilledIfSplit (pages_in pool.new) n grown) }
    ensures within { InCommand pool.old pool.new }
    ensures gets { pool.new.gets ≡ pool.old.gets }
    ensures cause { HasPageCause pool.old pool.new result }
{
    let at = cut(entries);
    let (left, right) = entries.split_at(at);
    let Some(bound) = bound_of(left) else {
        return Err(PageFault::Memory);
    };
    let Some(right_bound) = bound_of(right) else {
        return Err(PageFault::Memory);
    };
    write_node(pool, n, inner, left)?;
    let r = gain_node(pool, inner, right)?;
    Ok(Grown::Split(bound, right_bound, r))
}

// The entries of page `n`, which is split where they are too many for one node.
fn place<D: Disk>(
    pool: &mut Pool<D>,
    n: u64,
    inner: bool,
    entries: &mut [NodeEntry],
) -> Result<Grown, PageFault>
    requires opened { IsOpen pool.old }
    requires few { length entries.old ≤ 252 }
    ensures value { IfOk result (λ grown. Lays (pages_in pool.old) (pages_in pool.new) (n ∷ []) (raised n grown) entries.old inner) }
    ensures full { IfOk result (λ grown. IsFilledIfSplit (pages_in pool.new) n grown) }
    ensures within { InCommand pool.old pool.new }
    ensures gets { pool.new.gets ≡ pool.old.gets }
    ensures cause { HasPageCause pool.old pool.new result }
{
    if entries.len() > 126 {
        return split(pool, n, inner, entries);
    }
    let Some(bound) = bound_of(entries) else {
        return Err(PageFault::Memory);
    };
    write_node(pool, n, inner, entries)?;
    Ok(Grown::Kept(bound))
}

// A member is entered into a leaf.
fn insert_leaf<D: Disk>(
    alloc: Global,
    pool: &mut Pool<D>,
    n: u64,
    entry: NodeEntry,
) -> Result<Grown, PageFault>
    requires opened { IsOpen pool.old }
    requires tree { IsTold pool.old → NodeTree (pages_in pool.old) 0 n }
    ensures value { IfOk result (λ grown. IsTold pool.old → EntersUnder (pages_in pool.old) (pages_in pool.new) 0 n (member_of entry) grown) }
    ensures within { InCommand pool.old pool.new }
    ensures gets { pool.new.gets ≤ pool.old.gets + 1 }
    ensures cause { HasPageCause pool.old pool.new result }
{
    let mut entries = read_node(alloc, pool, n, false)?;
    add(&mut entries, entry)?;
    let grown = place(pool, n, false, &mut entries)?;
    Ok(grown)
}

/// Enters a member into the tree under page `n`, which stands `level` above the leaves.
pub fn insert_under<D: Disk>(
    alloc: Global,
    pool: &mut Pool<D>,
    level: u32,
    n: u64,
    entry: NodeEntry,
) -> Result<Grown, PageFault>
    requires opened { IsOpen pool.old }
    requires tree { IsTold pool.old → NodeTree (pages_in pool.old) level n }
    ensures value { IfOk result (λ grown. IsTold pool.old → EntersUnder (pages_in pool.old) (pages_in pool.new) level n (member_of entry) grown) }
    ensures within { InCommand pool.old pool.new }
    ensures gets { pool.new.gets ≤ pool.old.gets + (level + 1) }
    ensures cause { HasPageCause pool.old pool.new result }
{
    if level == 0 {
        let grown = insert_leaf(alloc, pool, n, entry)?;
        return Ok(grown);
    }
    let mut entries = read_node(alloc, pool, n, true)?;
    if entries.is_empty() {
        return Err(PageFault::Memory);
    }
    let at = nearest(&entries, box_of(entry.rough));
    let child = entries.swap_remove(at);
    let below = insert_under(alloc, pool, level - 1, child.child, entry)?;
    raise(&mut entries, child.child, below)?;
    let grown = place(pool, n, true, &mut entries)?;
    Ok(grown)
}
