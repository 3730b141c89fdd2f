ghost use Rattle.std.specs.Prelude.{◌≡◌, ◌+◌, ◌-◌, ◌*◌, ◌≤◌, true, false, [], IfOk, OnOk, OnErr};
ghost use Rattle.page_pool.specs.Pool.{IsOpen, IsTold};
ghost use Rattle.page_pool.specs.Causes.{HasPageCause};
ghost use Rattle.page_pool.specs.Steps.{InCommand};
ghost use Rattle.code_btree.specs.Tree.{Store, pages_in};
ghost use Rattle.r_tree.specs.Entry.{box_of, bound_of_members};
ghost use Rattle.r_tree.specs.Tree.{IsRTree, tree_members};
ghost use Rattle.r_tree.specs.Ways.{ways_under};
ghost use Rattle.r_tree.specs.Calls.{IsUnlisted, IsListedMember, HasEachIdOnce, PlantsTree, InsertsMember, RemovesMember};
ghost use Rattle.r_tree.specs.Steps.{LoneChild};

use crate::build::tile_all;
use crate::entry::NodeEntry;
use crate::hull::bound_of;
use crate::insert::{Grown, insert_under, raise};
use crate::remove::remove_under;
use crate::store::{gain_node, read_node, release};
use page_pool::{Disk, PageFault, Pool};
use sand_base::{Rect, Rough};
use std::alloc::Global;

/// A tree in pages: its root's page, its height, which is 1 for a lone leaf, the least rectangle round all its shapes, and
/// the number that it was given.
#[derive(Clone, Copy, Debug, PartialEq, Eq)]
pub struct RTree {
    root: u64,
    height: u32,
    bound: Option<Rect>,
    number: u32,
}

// The only child of an inner root that has one entry.
fn lone_child<D: Disk>(alloc: Global, pool: &mut Pool<D>, root: u64) -> Result<u64, PageFault>
    ensures value { IfOk result (λ child. IsTold pool.old → LoneChild (pages_in pool.old) root child) }
    ensures same { pool.new.pages ≡ pool.old.pages }
    ensures within { InCommand pool.old pool.new }
    ensures gets { pool.new.gets ≤ pool.old.gets + 1 }
    ensures cause { HasPageCause pool.old pool.new result }
{
    let entries = read_node(alloc, pool, root, true)?;
    if entries.len() != 1 {
        return Err(PageFault::Memory);
    }
    Ok(entries[0].child)
}

// Whether a root of so many entries gives way to its child.
fn falls(height: u32, size: usize) -> bool
    ensures high { result ≡ true → 2 ≤ height }
    ensures low { result ≡ false → 1 ≤ height - 1 → size ≡ 1 → ⊥ }
{
    height > 1 && size == 1
}

impl RTree {
    /// The empty list, on one new page.
    pub fn plant<D: Disk>(pool: &mut Pool<D>, number: u32) -> Result<RTree, PageFault>
        requires { IsOpen pool.old }
        ensures value { IfOk result (λ tree. IsTold pool.old → PlantsTree (pages_in pool.old) (pages_in pool.new) tree number []) }
        ensures within { InCommand pool.old pool.new }
        ensures cause { HasPageCause pool.old pool.new result }
    {
        let root = gain_node(pool, false, &[])?;
        Ok(RTree {
            root,
            height: 1,
            bound: None,
            number,
        })
    }

    /// The tree of a list of ids with their rough shapes, on new pages, most of them nodes of 64 entries: no page get. After
    /// a refusal the command is to be aborted.
    pub fn build<D: Disk>(
        alloc: Global,
        pool: &mut Pool<D>,
        number: u32,
        list: &[(u32, Rough)],
    ) -> Result<RTree, PageFault>
        requires opened { IsOpen pool.old }
        requires once { IsTold pool.old → HasEachIdOnce list.now }
        ensures value { IfOk result (λ tree. IsTold pool.old → PlantsTree (pages_in pool.old) (pages_in pool.new) tree number list.now) }
        ensures within { InCommand pool.old pool.new }
        ensures gets { pool.new.gets ≡ pool.old.gets }
        ensures cause { HasPageCause pool.old pool.new result }
    {
        let top = tile_all(alloc, pool, list)?;
        let Some(height) = top.level.checked_add(1) else {
            return Err(PageFault::Memory);
        };
        let bound = bound_of(&top.entries);
        let root = gain_node(pool, top.level > 0, &top.entries)?;
        Ok(RTree {
            root,
            height,
            bound,
            number,
        })
    }

    /// Enters an id with its rough shape: a get for each level at most. After a refusal the command is to be aborted; the tree is the one of before.
    pub fn insert<D: Disk>(
        &mut self,
        alloc: Global,
        pool: &mut Pool<D>,
        id: u32,
        rough: Rough,
    ) -> Result<(), PageFault>
        requires opened { IsOpen pool.old }
        requires tree { IsTold pool.old → IsRTree (pages_in pool.old) self.old }
        requires unlisted { IsTold pool.old → IsUnlisted id (tree_members (pages_in pool.old) self.old) }
        ensures value { OnOk result (IsTold pool.old → InsertsMember (pages_in pool.old) (pages_in pool.new) self.old self.new id rough) }
        ensures unchanged { OnErr result (self.new ≡ self.old) }
        ensures within { InCommand pool.old pool.new }
        ensures gets { pool.new.gets ≤ pool.old.gets + self.old.height }
        ensures cause { HasPageCause pool.old pool.new result }
    {
        if self.height == 0 {
            return Err(PageFault::Memory);
        }
        let entry = NodeEntry {
            rough,
            id,
            child: 0,
        };
        let grown = insert_under(alloc, pool, self.height - 1, self.root, entry)?;
        match grown {
            Grown::Kept(bound) => {
                self.bound = Some(bound);
                Ok(())
            }
            Grown::Split(_, _, _) => {
                let Some(height) = self.height.checked_add(1) else {
                    return Err(PageFault::Memory);
                };
                let mut entries = Vec::new(alloc);
                raise(&mut entries, self.root, grown)?;
                let bound = bound_of(&entries);
                let root = gain_node(pool, true, &entries)?;
                *self = RTree {
                    root,
                    height,
                    bound,
                    number: self.number,
                };
                Ok(())
            }
        }
    }

    /// Takes an id with its rough shape out: a get for each node on the ways down under rectangles that hold it, and two more
    /// for each level at most. After a refusal the command is to be aborted; the tree is the one of before.
    pub fn remove<D: Disk>(
        &mut self,
        alloc: Global,
        pool: &mut Pool<D>,
        id: u32,
        rough: Rough,
    ) -> Result<(), PageFault>
        requires opened { IsOpen pool.old }
        requires tree { IsTold pool.old → IsRTree (pages_in pool.old) self.old }
        requires listed { IsTold pool.old → IsListedMember id rough (tree_members (pages_in pool.old) self.old) }
        ensures value { OnOk result (IsTold pool.old → RemovesMember (pages_in pool.old) (pages_in pool.new) self.old self.new id rough) }
        ensures unchanged { OnErr result (self.new ≡ self.old) }
        ensures within { InCommand pool.old pool.new }
        ensures gets { IsTold pool.old → pool.new.gets ≤ pool.old.gets + (ways_under (pages_in pool.old) (self.old.height - 1) self.old.root (box_of rough) + 2 * self.old.height) }
        ensures cause { HasPageCause pool.old pool.new result }
    {
        if self.height == 0 {
            return Err(PageFault::Memory);
        }
        let Some(shrunk) = remove_under(alloc, pool, self.height - 1, self.root, id, rough)? else {
            return Ok(());
        };
        if !falls(self.height, shrunk.size) {
            self.bound = shrunk.bound;
            return Ok(());
        }
        let child = lone_child(alloc, pool, self.root)?;
        release(pool, self.root)?;
        *self = RTree {
            root: child,
            height: self.height - 1,
            bound: shrunk.bound,
            number: self.number,
        };
        Ok(())
    }

    /// The root's rectangle, which is missing exactly where the list is empty, and the root's page.
    pub fn root(&self) -> (Option<Rect>, u64)
        ensures page { result.1 ≡ self.now.root }
        ensures value { result.0 ≡ self.now.bound }
        ensures bound { (m : Store) → IsRTree m self.now → result.0 ≡ bound_of_members (tree_members m self.now) }
    {
        (self.bound, self.root)
    }

    /// The height, 1 for a lone leaf.
    pub fn height(&self) -> u32
        ensures { result ≡ self.now.height }
    {
        self.height
    }

    /// The number that the tree was given.
    pub fn number(&self) -> u32
        ensures { result ≡ self.now.number }
    {
        self.number
    }
}
