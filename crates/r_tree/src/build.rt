ghost use Rattle.std.specs.Prelude.{◌≡◌, ◌+◌, ◌≤◌, [], length, IfOk, OnOk};
ghost use Rattle.page_pool.specs.Pool.{IsOpen};
ghost use Rattle.page_pool.specs.Causes.{HasPageCause};
ghost use Rattle.page_pool.specs.Steps.{InCommand};
ghost use Rattle.code_btree.specs.Tree.{pages_in};
ghost use Rattle.r_tree.specs.Entry.{members_of};
ghost use Rattle.r_tree.specs.Steps.{LaysNodes, IsTop};

use crate::cut::order;
use crate::entry::{NodeEntry, branch};
use crate::hull::bound_of;
use crate::insert::add;
use crate::store::gain_node;
use page_pool::{Disk, PageFault, Pool};
use sand_base::{NoMemory, Rough};
use std::alloc::Global;

/// What the root of a new tree is to have: the entries, and how high above the leaves it stands.
#[derive(Drop)]
pub struct Top {
    pub level: u32,
    pub entries: Vec<NodeEntry>,
}

// The entries of a leaf for members.
fn leaf_entries(alloc: Global, list: &[(u32, Rough)]) -> Result<Vec<NodeEntry>, NoMemory>
    ensures { IfOk result (λ es. members_of es.items ≡ list.now) }
{
    let mut entries = Vec::with_capacity(alloc, list.len())?;
    'members: for member in list {
        entries.push_reserved(NodeEntry {
            rough: member.1,
            id: member.0,
            child: 0,
        });
    }
    Ok(entries)
}

// Where a part of 100 entries or more is cut in two: a whole number of nodes of 64 entries lies before the place, but for
// the last few nodes of a level. A search measures every entry of a node that it opens, so half filled nodes cost it
// less than full ones, and they leave room for what is entered later.
fn tile_place(count: usize) -> usize
    requires { 100 ≤ count }
    ensures left { 50 ≤ result }
    ensures right { result + 50 ≤ count }
{
    if count < 128 {
        return count / 2;
    }
    count / 128 * 64
}

// Lays entries into new nodes, and adds the entries that lead to these. A part of which two nodes can be made is cut in
// two, across the longer side of its rectangle.
fn tile<D: Disk>(
    pool: &mut Pool<D>,
    inner: bool,
    entries: &mut [NodeEntry],
    row: &mut Vec<NodeEntry>,
) -> Result<(), PageFault>
    requires opened { IsOpen pool.old }
    ensures value { OnOk result (LaysNodes (pages_in pool.old) (pages_in pool.new) inner entries.old row.old.items row.new.items) }
    ensures within { InCommand pool.old pool.new }
    ensures gets { pool.new.gets ≡ pool.old.gets }
    ensures cause { HasPageCause pool.old pool.new result }
{
    if entries.len() < 100 {
        let Some(bound) = bound_of(entries) else {
            return Err(PageFault::Memory);
        };
        let n = gain_node(pool, inner, entries)?;
        add(row, branch(bound, n))?;
        return Ok(());
    }
    order(entries);
    let at = tile_place(entries.len());
    let (left, right) = entries.split_at_mut(at);
    tile(pool, inner, left, row)?;
    tile(pool, inner, right, row)?;
    Ok(())
}

// The entries that lead to new nodes, which have these entries.
fn tile_level<D: Disk>(
    alloc: Global,
    pool: &mut Pool<D>,
    inner: bool,
    entries: &mut [NodeEntry],
) -> Result<Vec<NodeEntry>, PageFault>
    requires { IsOpen pool.old }
    ensures value { IfOk result (λ row. LaysNodes (pages_in pool.old) (pages_in pool.new) inner entries.old [] row.items) }
    ensures within { InCommand pool.old pool.new }
    ensures gets { pool.new.gets ≡ pool.old.gets }
    ensures cause { HasPageCause pool.old pool.new result }
{
    let mut row = Vec::new(alloc);
    tile(pool, inner, entries, &mut row)?;
    Ok(row)
}

/// The members of a list in new nodes, level by level, until one node has room for the entries that lead to them.
pub fn tile_all<D: Disk>(
    alloc: Global,
    pool: &mut Pool<D>,
    list: &[(u32, Rough)],
) -> Result<Top, PageFault>
    requires { IsOpen pool.old }
    ensures value { IfOk result (λ top. IsTop (pages_in pool.old) (pages_in pool.new) top.level top.entries.items list.now) }
    ensures fits { IfOk result (λ top. length top.entries.items ≤ 126) }
    ensures within { InCommand pool.old pool.new }
    ensures gets { pool.new.gets ≡ pool.old.gets }
    ensures cause { HasPageCause pool.old pool.new result }
{
    let mut entries = leaf_entries(alloc, list)?;
    let mut level: u32 = 0;
    'levels: while entries.len() > 126 {
        entries = tile_level(alloc, pool, level > 0, &mut entries)?;
        let Some(above) = level.checked_add(1) else {
            return Err(PageFault::Memory);
        };
        level = above;
    }
    Ok(Top { level, entries })
}
