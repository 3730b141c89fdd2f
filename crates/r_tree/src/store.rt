ghost use Rattle.std.specs.Prelude.{◌≡◌, ◌+◌, ◌≤◌, length, IfOk, OnOk};
ghost use Rattle.page_pool.specs.Pool.{IsOpen, IsTold};
ghost use Rattle.page_pool.specs.Causes.{HasPageCause};
ghost use Rattle.page_pool.specs.Steps.{InCommand};
ghost use Rattle.code_btree.specs.Tree.{pages_in};
ghost use Rattle.code_btree.specs.Steps.{Wrote, Gained, Freed};
ghost use Rattle.r_tree.specs.Page.{node};
ghost use Rattle.r_tree.specs.Tree.{node_at};
ghost use Rattle.r_tree.specs.Steps.{WritesNode, GainsNode};

use crate::entry::NodeEntry;
use crate::page::{Page, entries_of, node_count, node_page};
use page_pool::{Disk, PageFault, Pages, Pool};
use std::alloc::Global;

// The entries of a node. A page that isn't live, or no such node, is refused as out of memory: no tree over a disk that
// tells leads there.
pub fn read_node<D: Disk>(
    alloc: Global,
    pool: &mut Pool<D>,
    n: u64,
    inner: bool,
) -> Result<Vec<NodeEntry>, PageFault>
    ensures value { IfOk result (λ es. IsTold pool.old → node_at (pages_in pool.old) n ≡ node inner es.items) }
    ensures few { IfOk result (λ es. length es.items ≤ 126) }
    ensures same { pool.new.pages ≡ pool.old.pages }
    ensures within { InCommand pool.old pool.new }
    ensures gets { pool.new.gets ≤ pool.old.gets + 1 }
    ensures cause { HasPageCause pool.old pool.new result }
{
    let page = pool.live_page(n)?;
    let Some(count) = node_count(page, inner) else {
        return Err(PageFault::Memory);
    };
    let entries = entries_of(alloc, page, count)?;
    Ok(entries)
}

// Page `n` has these bytes.
fn write<D: Disk>(pool: &mut Pool<D>, n: u64, page: &Page) -> Result<(), PageFault>
    requires { IsOpen pool.old }
    ensures value { OnOk result (Wrote (pages_in pool.old) (pages_in pool.new) n page.now) }
    ensures within { InCommand pool.old pool.new }
    ensures gets { pool.new.gets ≡ pool.old.gets }
    ensures cause { HasPageCause pool.old pool.new result }
{
    if !pool.is_live(n) {
        return Err(PageFault::Memory);
    }
    pool.put(n, page)?;
    Ok(())
}

// A new page of these bytes.
fn gain<D: Disk>(pool: &mut Pool<D>, page: &Page) -> Result<u64, PageFault>
    requires { IsOpen pool.old }
    ensures value { IfOk result (λ n. Gained (pages_in pool.old) (pages_in pool.new) n page.now) }
    ensures within { InCommand pool.old pool.new }
    ensures gets { pool.new.gets ≡ pool.old.gets }
    ensures cause { HasPageCause pool.old pool.new result }
{
    let n = pool.allocate()?;
    write(pool, n, page)?;
    Ok(n)
}

// Page `n` is a node of these entries.
pub fn write_node<D: Disk>(
    pool: &mut Pool<D>,
    n: u64,
    inner: bool,
    entries: &[NodeEntry],
) -> Result<(), PageFault>
    requires opened { IsOpen pool.old }
    requires few { length entries.now ≤ 126 }
    ensures value { OnOk result (WritesNode (pages_in pool.old) (pages_in pool.new) n inner entries.now) }
    ensures within { InCommand pool.old pool.new }
    ensures gets { pool.new.gets ≡ pool.old.gets }
    ensures cause { HasPageCause pool.old pool.new result }
{
    write(pool, n, &node_page(inner, entries))?;
    Ok(())
}

// A new page of these entries.
pub fn gain_node<D: Disk>(
    pool: &mut Pool<D>,
    inner: bool,
    entries: &[NodeEntry],
) -> Result<u64, PageFault>
    requires opened { IsOpen pool.old }
    requires few { length entries.now ≤ 126 }
    ensures value { IfOk result (λ n. GainsNode (pages_in pool.old) (pages_in pool.new) n inner entries.now) }
    ensures within { InCommand pool.old pool.new }
    ensures gets { pool.new.gets ≡ pool.old.gets }
    ensures cause { HasPageCause pool.old pool.new result }
{
    let n = gain(pool, &node_page(inner, entries))?;
    Ok(n)
}

// Page `n` is no more.
pub fn release<D: Disk>(pool: &mut Pool<D>, n: u64) -> Result<(), PageFault>
    requires { IsOpen pool.old }
    ensures value { OnOk result (Freed (pages_in pool.old) (pages_in pool.new) n) }
    ensures within { InCommand pool.old pool.new }
    ensures gets { pool.new.gets ≡ pool.old.gets }
    ensures cause { HasPageCause pool.old pool.new result }
{
    if !pool.is_live(n) {
        return Err(PageFault::Memory);
    }
    pool.free(n)?;
    Ok(())
}
