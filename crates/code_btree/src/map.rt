ghost use Rattle.std.specs.Prelude.{◌≡◌, ◌+◌, IfOk, OnErr};
ghost use Rattle.page_pool.specs.Pool.{IsOpen, IsTold};
ghost use Rattle.page_pool.specs.Causes.{HasPageCause};
ghost use Rattle.page_pool.specs.Steps.{InCommand};
ghost use Rattle.code_btree.specs.Tree.{IsTree, pages_in, tree_items};
ghost use Rattle.code_btree.specs.Items.{find_item, floor_item, ceiling_item};
ghost use Rattle.code_btree.specs.Calls.{Planted, Inserted, Removed, Looks};

use crate::insert::{Grown, counted, insert_under};
use crate::leaf::empty_leaf;
use crate::look::{find_under, floor_under};
use crate::remove::{fallen, remove_under, uncounted};
use crate::split::new_root;
use crate::store::{gain, release};
use page_pool::{Disk, PageFault, Pages, Pool};

/// A tree in pages: its root's number, its height, which is 1 for a lone leaf, and the number of its entries.
#[derive(Clone, Copy, Debug, PartialEq, Eq)]
pub struct Tree {
    pub root: u64,
    pub height: u32,
    pub entries: u64,
}

impl Tree {
    /// The empty map, on one new page.
    pub fn plant<D: Disk>(pool: &mut Pool<D>) -> Result<Tree, PageFault>
        requires { IsOpen pool.old }
        ensures value { IfOk result (λ tree. IsTold pool.old → Planted (pages_in pool.old) (pages_in pool.new) tree) }
        ensures within { InCommand pool.old pool.new }
        ensures cause { HasPageCause pool.old pool.new result }
    {
        let root = gain(pool, &empty_leaf())?;
        Ok(Tree {
            root,
            height: 1,
            entries: 0,
        })
    }

    /// Puts a pair into the map, and gives the value that its key had. After a refusal the command is to be
    /// aborted; the tree is the one of before.
    pub fn insert<D: Disk>(
        &mut self,
        pool: &mut Pool<D>,
        key: u128,
        value: u128,
    ) -> Result<Option<u128>, PageFault>
        requires opened { IsOpen pool.old }
        requires tree { IsTold pool.old → IsTree (pages_in pool.old) self.old }
        ensures value { IfOk result (λ found. IsTold pool.old → Inserted (pages_in pool.old) (pages_in pool.new) self.old self.new key value found) }
        ensures unchanged { OnErr result (self.new ≡ self.old) }
        ensures within { InCommand pool.old pool.new }
        ensures cause { HasPageCause pool.old pool.new result }
    {
        if self.height == 0 {
            return Err(PageFault::Memory);
        }
        let (was, grown) = insert_under(pool, self.height - 1, self.root, key, value)?;
        let Some(entries) = counted(self.entries, was) else {
            return Err(PageFault::Memory);
        };
        match grown {
            Grown::Kept => {
                self.entries = entries;
                Ok(was)
            }
            Grown::Split(up, right) => {
                let Some(height) = self.height.checked_add(1) else {
                    return Err(PageFault::Memory);
                };
                let root = gain(pool, &new_root(self.root, up, right))?;
                *self = Tree {
                    root,
                    height,
                    entries,
                };
                Ok(was)
            }
        }
    }

    /// Takes a key out of the map, and gives the value that it had. After a refusal the command is to be
    /// aborted; the tree is the one of before.
    pub fn remove<D: Disk>(
        &mut self,
        pool: &mut Pool<D>,
        key: u128,
    ) -> Result<Option<u128>, PageFault>
        requires opened { IsOpen pool.old }
        requires tree { IsTold pool.old → IsTree (pages_in pool.old) self.old }
        ensures value { IfOk result (λ found. IsTold pool.old → Removed (pages_in pool.old) (pages_in pool.new) self.old self.new key found) }
        ensures unchanged { OnErr result (self.new ≡ self.old) }
        ensures within { InCommand pool.old pool.new }
        ensures cause { HasPageCause pool.old pool.new result }
    {
        if self.height == 0 {
            return Err(PageFault::Memory);
        }
        let gone = remove_under(pool, self.height - 1, self.root, key)?;
        let Some(entries) = uncounted(self.entries, gone.was) else {
            return Err(PageFault::Memory);
        };
        let Some(child) = fallen(pool, self.height, self.root, gone.short)? else {
            self.entries = entries;
            return Ok(gone.was);
        };
        release(pool, self.root)?;
        *self = Tree {
            root: child,
            height: self.height - 1,
            entries,
        };
        Ok(gone.was)
    }

    /// The value of a key.
    pub fn get<P: Pages>(&self, pages: &mut P, key: u128) -> Result<Option<u128>, PageFault>
        requires { IsTold (P.shown pages.old) → IsTree (pages_in (P.shown pages.old)) self.now }
        ensures value { IfOk result (λ found. IsTold (P.shown pages.old) → found ≡ find_item key (tree_items (pages_in (P.shown pages.old)) self.now)) }
        ensures looks { Looks (P.shown pages.old) (P.shown pages.new) self.now.height result }
    {
        if self.height == 0 {
            return Err(PageFault::Memory);
        }
        return find_under(pages, self.height - 1, self.root, 1, key);
    }

    /// The pair of the greatest key not above this one.
    pub fn floor<P: Pages>(
        &self,
        pages: &mut P,
        key: u128,
    ) -> Result<Option<(u128, u128)>, PageFault>
        requires { IsTold (P.shown pages.old) → IsTree (pages_in (P.shown pages.old)) self.now }
        ensures value { IfOk result (λ found. IsTold (P.shown pages.old) → found ≡ floor_item key (tree_items (pages_in (P.shown pages.old)) self.now)) }
        ensures looks { Looks (P.shown pages.old) (P.shown pages.new) self.now.height result }
    {
        if self.height == 0 {
            return Err(PageFault::Memory);
        }
        floor_under(pages, self.height - 1, self.root, key)
    }

    /// The pair of the least key not below this one. It makes one get more than the height at most.
    pub fn ceiling<P: Pages>(
        &self,
        pages: &mut P,
        key: u128,
    ) -> Result<Option<(u128, u128)>, PageFault>
        requires { IsTold (P.shown pages.old) → IsTree (pages_in (P.shown pages.old)) self.now }
        ensures value { IfOk result (λ found. IsTold (P.shown pages.old) → found ≡ ceiling_item key (tree_items (pages_in (P.shown pages.old)) self.now)) }
        ensures looks { Looks (P.shown pages.old) (P.shown pages.new) (self.now.height + 1) result }
    {
        let mut run = self.run(pages, key);
        if let Some(pair) = run.next() {
            return Ok(Some(pair));
        }
        let _ended = run.outcome()?;
        Ok(None)
    }
}
