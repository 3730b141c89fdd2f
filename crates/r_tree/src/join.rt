ghost use Rattle.std.specs.Prelude.{◌≡◌, ◌+◌, ◌≤◌, ◌++◌, ◌∷◌, [], length, IfOk, OnOk};
ghost use Rattle.page_pool.specs.Pool.{IsOpen, IsTold};
ghost use Rattle.page_pool.specs.Causes.{HasPageCause};
ghost use Rattle.page_pool.specs.Steps.{InCommand};
ghost use Rattle.code_btree.specs.Tree.{pages_in, same};
ghost use Rattle.r_tree.specs.Entry.{branch};
ghost use Rattle.r_tree.specs.Steps.{Lays, AllFilled, raised, BalancesNodes};

use crate::cut::cut;
use crate::entry::NodeEntry;
use crate::hull::bound_of;
use crate::insert::Grown;
use crate::store::{read_node, release, write_node};
use page_pool::{Disk, PageFault, Pool};
use sand_base::{NoMemory, Rect};
use std::alloc::Global;

// The entries of both lists.
fn append(entries: &mut Vec<NodeEntry>, more: &[NodeEntry]) -> Result<(), NoMemory>
    ensures { OnOk result (entries.new.items ≡ entries.old.items ++ more.now) }
{
    entries.extend_from_slice(more)?;
    Ok(())
}

// Page `a` has these entries, and page `b` is no more.
fn merge<D: Disk>(
    pool: &mut Pool<D>,
    a: u64,
    b: u64,
    inner: bool,
    entries: &[NodeEntry],
) -> Result<Rect, PageFault>
    requires opened { IsOpen pool.old }
    requires few { length entries.now ≤ 126 }
    ensures value { IfOk result (λ bound. same b a ≡ 0 → Lays (pages_in pool.old) (pages_in pool.new) (a ∷ (b ∷ [])) (branch bound a ∷ []) entries.now inner) }
    ensures within { InCommand pool.old pool.new }
    ensures gets { pool.new.gets ≡ pool.old.gets }
    ensures cause { HasPageCause pool.old pool.new result }
{
    let Some(bound) = bound_of(entries) else {
        return Err(PageFault::Memory);
    };
    write_node(pool, a, inner, entries)?;
    release(pool, b)?;
    Ok(bound)
}

// Pages `a` and `b` share these entries.
fn share<D: Disk>(
    pool: &mut Pool<D>,
    a: u64,
    b: u64,
    inner: bool,
    entries: &mut [NodeEntry],
) -> Result<Grown, PageFault>
    requires opened { IsOpen pool.old }
    requires many { 100 ≤ length entries.old }
    requires few { length entries.old ≤ 252 }
    ensures value { IfOk result (λ grown. same b a ≡ 0 → Lays (pages_in pool.old) (pages_in pool.new) (a ∷ (b ∷ [])) (raised a grown) entries.old inner) }
    ensures full { IfOk result (λ grown. same b a ≡ 0 → AllFilled (pages_in pool.new) (raised a grown)) }
    ensures within { InCommand pool.old pool.new }
    ensures gets { pool.new.gets ≡ pool.old.gets }
    ensures cause { HasPageCause pool.old pool.new result }
{
    let at = cut(entries);
    let (left, right) = entries.split_at(at);
    let Some(bound) = bound_of(left) else {
        return Err(PageFault::Memory);
    };
    let Some(right_bound) = bound_of(right) else {
        return Err(PageFault::Memory);
    };
    write_node(pool, a, inner, left)?;
    write_node(pool, b, inner, right)?;
    Ok(Grown::Split(bound, right_bound, b))
}

/// Two nodes become one where they have room in one, and else share their entries.
pub fn balance<D: Disk>(
    alloc: Global,
    pool: &mut Pool<D>,
    a: u64,
    b: u64,
    inner: bool,
) -> Result<Grown, PageFault>
    requires { IsOpen pool.old }
    ensures value { IfOk result (λ grown. IsTold pool.old → same b a ≡ 0 → BalancesNodes (pages_in pool.old) (pages_in pool.new) inner a b grown) }
    ensures within { InCommand pool.old pool.new }
    ensures gets { pool.new.gets ≤ pool.old.gets + 2 }
    ensures cause { HasPageCause pool.old pool.new result }
{
    let mut entries = read_node(alloc, pool, a, inner)?;
    let more = read_node(alloc, pool, b, inner)?;
    append(&mut entries, &more)?;
    if entries.len() <= 126 {
        let bound = merge(pool, a, b, inner, &entries)?;
        return Ok(Grown::Kept(bound));
    }
    let grown = share(pool, a, b, inner, &mut entries)?;
    Ok(grown)
}
