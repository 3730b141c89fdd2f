ghost use Rattle.std.specs.Prelude.{◌≡◌, ◌≢◌, ◌+◌, ◌*◌, ◌≤◌, ◌<◌, suc, length, slice_index_or, IfOk, IfSome, IfNone};
ghost use Rattle.page_pool.specs.Pool.{IsOpen, IsTold};
ghost use Rattle.page_pool.specs.Causes.{HasPageCause};
ghost use Rattle.page_pool.specs.Steps.{InCommand};
ghost use Rattle.code_btree.specs.Items.{Each};
ghost use Rattle.code_btree.specs.Tree.{Store, pages_in};
ghost use Rattle.r_tree.specs.declared.entry.NodeEntry.{NodeEntry};
ghost use Rattle.r_tree.specs.Entry.{Member, member_of, box_of, bound_of};
ghost use Rattle.r_tree.specs.Page.{node};
ghost use Rattle.r_tree.specs.Tree.{node_at};
ghost use Rattle.r_tree.specs.Ways.{ways_under};
ghost use Rattle.r_tree.specs.Steps.{WritesNode, NodeTree, TakesUnder, IsTakenFromUnder};

use crate::entry::{NodeEntry, box_of, branch, covers};
use crate::hull::bound_of;
use crate::insert::{add, raise};
use crate::join::balance;
use crate::nearest::nearest;
use crate::store::{read_node, write_node};
use page_pool::{Disk, PageFault, Pool};
use sand_base::{Rect, Rough};
use std::alloc::Global;

/// What became of a page from under which a member was taken: the rectangle round it, and how many entries it has.
#[derive(Clone, Copy)]
pub struct Shrunk {
    pub bound: Option<Rect>,
    pub size: usize,
}

// Page `n` has these entries.
fn lay<D: Disk>(
    pool: &mut Pool<D>,
    n: u64,
    inner: bool,
    entries: &[NodeEntry],
) -> Result<Shrunk, PageFault>
    requires { IsOpen pool.old }
    ensures value { IfOk result (λ _. WritesNode (pages_in pool.old) (pages_in pool.new) n inner entries.now) }
    ensures least { IfOk result (λ shrunk. bound_of entries.now ≡ shrunk.bound) }
    ensures counted { IfOk result (λ shrunk. shrunk.size ≡ length entries.now) }
    ensures fits { IfOk result (λ shrunk. shrunk.size ≤ 126) }
    ensures within { InCommand pool.old pool.new }
    ensures gets { pool.new.gets ≡ pool.old.gets }
    ensures cause { HasPageCause pool.old pool.new result }
{
    if entries.len() > 126 {
        return Err(PageFault::Memory);
    }
    write_node(pool, n, inner, entries)?;
    Ok(Shrunk {
        bound: bound_of(entries),
        size: entries.len(),
    })
}

// The place of a member among the entries of a leaf.
fn place_of(entries: &[NodeEntry], id: u32, rough: Rough) -> Option<usize>
    ensures found { IfSome result (λ at. at < length entries.now) }
    ensures is { IfSome result (λ at. (e : NodeEntry) → e ≡ slice_index_or entries.now at e → member_of e ≡ (id, rough)) }
    ensures none { IfNone result (Each (λ e. member_of e ≢ (id, rough)) entries.now) }
{
    'members: for at in 0..entries.len() {
        if entries[at].id == id && entries[at].rough == rough {
            return Some(at);
        }
    }
    None
}

// A member is taken from a leaf.
fn remove_leaf<D: Disk>(
    alloc: Global,
    pool: &mut Pool<D>,
    n: u64,
    id: u32,
    rough: Rough,
) -> Result<Option<Shrunk>, PageFault>
    requires opened { IsOpen pool.old }
    requires tree { IsTold pool.old → NodeTree (pages_in pool.old) 0 n }
    ensures value { IfOk result (λ taken. IsTold pool.old → TakesUnder (pages_in pool.old) (pages_in pool.new) 0 n (id, rough) taken) }
    ensures same { IfOk result (λ taken. IfNone taken (pool.new.pages ≡ pool.old.pages)) }
    ensures within { InCommand pool.old pool.new }
    ensures gets { pool.new.gets ≤ pool.old.gets + 1 }
    ensures cause { HasPageCause pool.old pool.new result }
{
    let mut entries = read_node(alloc, pool, n, false)?;
    let Some(at) = place_of(&entries, id, rough) else {
        return Ok(None);
    };
    entries.swap_remove(at);
    let shrunk = lay(pool, n, false, &entries)?;
    Ok(Some(shrunk))
}

// The child of an entry of page `n`, `level` above the leaves, lost a member: it stands beside the other entries as it is
// now. A child that is short joins the nearest other one, or shares with it.
fn settle<D: Disk>(
    alloc: Global,
    pool: &mut Pool<D>,
    level: u32,
    n: u64,
    entries: &mut Vec<NodeEntry>,
    child: u64,
    below: Shrunk,
) -> Result<Shrunk, PageFault>
    requires { IsOpen pool.old }
    ensures value { IfOk result (λ shrunk. IsTold pool.old → IsTakenFromUnder (pages_in pool.old) (pages_in pool.new) level n child entries.old.items below shrunk) }
    ensures within { InCommand pool.old pool.new }
    ensures gets { pool.new.gets ≤ pool.old.gets + 2 }
    ensures cause { HasPageCause pool.old pool.new result }
{
    let Some(bound) = below.bound else {
        return Err(PageFault::Memory);
    };
    if below.size >= 50 {
        add(entries, branch(bound, child))?;
        let shrunk = lay(pool, n, true, entries)?;
        return Ok(shrunk);
    }
    if entries.is_empty() {
        return Err(PageFault::Memory);
    }
    let at = nearest(entries, bound);
    let sibling = entries.swap_remove(at);
    let grown = balance(alloc, pool, child, sibling.child, level > 0)?;
    raise(entries, child, grown)?;
    let shrunk = lay(pool, n, true, entries)?;
    Ok(shrunk)
}

/// Takes a member from the tree under page `n`, which stands `level` above the leaves, if it is there. The ways down are
/// those whose rectangles hold it; each node on them is read once, and two more for each level on the way up.
pub fn remove_under<D: Disk>(
    alloc: Global,
    pool: &mut Pool<D>,
    level: u32,
    n: u64,
    id: u32,
    rough: Rough,
) -> Result<Option<Shrunk>, PageFault>
    requires opened { IsOpen pool.old }
    requires tree { IsTold pool.old → NodeTree (pages_in pool.old) level n }
    ensures value { IfOk result (λ taken. IsTold pool.old → TakesUnder (pages_in pool.old) (pages_in pool.new) level n (id, rough) taken) }
    ensures same { IfOk result (λ taken. IfNone taken (pool.new.pages ≡ pool.old.pages)) }
    ensures within { InCommand pool.old pool.new }
    ensures gets { IsTold pool.old → pool.new.gets ≤ pool.old.gets + (ways_under (pages_in pool.old) level n (box_of rough) + 2 * level) }
    ensures passed { IfOk result (λ taken. IfNone taken (IsTold pool.old → pool.new.gets ≤ pool.old.gets + ways_under (pages_in pool.old) level n (box_of rough))) }
    ensures cause { HasPageCause pool.old pool.new result }
{
    if level == 0 {
        let taken = remove_leaf(alloc, pool, n, id, rough)?;
        return Ok(taken);
    }
    let mut entries = read_node(alloc, pool, n, true)?;
    let place = box_of(rough);
    'entries: for at in 0..entries.len() {
        let entry = entries[at];
        if !covers(box_of(entry.rough), place) {
            continue;
        }
        if let Some(below) = remove_under(alloc, pool, level - 1, entry.child, id, rough)? {
            entries.swap_remove(at);
            let shrunk = settle(alloc, pool, level - 1, n, &mut entries, entry.child, below)?;
            return Ok(Some(shrunk));
        }
    }
    Ok(None)
}
