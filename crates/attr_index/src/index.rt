ghost use Rattle.std.specs.Prelude.{◌≡◌, ◌+◌, ◌<◌, ◌≤ℤ◌, IsTrue, IfOk, IfSome, OnOk, OnErr};
ghost use Rattle.page_pool.specs.Pool.{IsOpen, IsTold};
ghost use Rattle.page_pool.specs.Causes.{HasPageCause};
ghost use Rattle.page_pool.specs.Steps.{InCommand};
ghost use Rattle.code_btree.specs.Tree.{pages_in};
ghost use Rattle.code_btree.specs.Calls.{Peeks};
ghost use Rattle.attr_index.specs.Key.{key_number, IsAttribute};
ghost use Rattle.attr_index.specs.Entries.{equal_id, int_entries, is_after, between_entry};
ghost use Rattle.attr_index.specs.Index.{IsAttrIndex, IsIntIndex, index_entries};
ghost use Rattle.attr_index.specs.Calls.{IndexPlanted, EntryAdded, Dropped};

use crate::key::{AttrKey, key_of, length_of, number_of};
use crate::place::{IDS, comes_after, first_place, int_entry, place_of};
use code_btree::Tree;
use page_pool::{Disk, PageFault, Pages, Pool};
use sand_base::Value;

/// A list of (key, id) in order, in pages: the tree of the entries.
#[derive(Clone, Copy, Debug, PartialEq, Eq)]
pub struct AttrIndex {
    pub tree: Tree,
}

impl AttrIndex {
    /// The empty list.
    pub fn plant<D: Disk>(pool: &mut Pool<D>) -> Result<AttrIndex, PageFault>
        requires { IsOpen pool.old }
        ensures value { IfOk result (λ index. IsTold pool.old → IndexPlanted (pages_in pool.old) (pages_in pool.new) index) }
        ensures within { InCommand pool.old pool.new }
        ensures cause { HasPageCause pool.old pool.new result }
    {
        let tree = Tree::plant(pool)?;
        Ok(AttrIndex { tree })
    }

    /// The list with the entry of an int or a text and an id. After a refusal the command is to be aborted; the
    /// index is the one of before.
    pub fn add<D: Disk>(
        &mut self,
        pool: &mut Pool<D>,
        value: &Value,
        id: u32,
    ) -> Result<(), PageFault>
        requires opened { IsOpen pool.old }
        requires attribute { IsAttribute value.now }
        requires index { IsTold pool.old → IsAttrIndex (pages_in pool.old) self.old }
        ensures value { OnOk result (IsTold pool.old → EntryAdded (pages_in pool.old) (pages_in pool.new) self.old self.new value.now id) }
        ensures unchanged { OnErr result (self.new ≡ self.old) }
        ensures within { InCommand pool.old pool.new }
        ensures cause { HasPageCause pool.old pool.new result }
    {
        let mut tree = self.tree;
        let place = place_of(key_of(value), id);
        let _was = tree.insert(pool, place, length_of(value))?;
        *self = AttrIndex { tree };
        Ok(())
    }

    /// The list without the entry of an int or a text and an id. After a refusal the command is to be aborted;
    /// the index is the one of before.
    pub fn drop_entry<D: Disk>(
        &mut self,
        pool: &mut Pool<D>,
        value: &Value,
        id: u32,
    ) -> Result<(), PageFault>
        requires opened { IsOpen pool.old }
        requires attribute { IsAttribute value.now }
        requires index { IsTold pool.old → IsAttrIndex (pages_in pool.old) self.old }
        ensures value { OnOk result (IsTold pool.old → Dropped (pages_in pool.old) (pages_in pool.new) self.old self.new value.now id) }
        ensures unchanged { OnErr result (self.new ≡ self.old) }
        ensures within { InCommand pool.old pool.new }
        ensures cause { HasPageCause pool.old pool.new result }
    {
        let mut tree = self.tree;
        let _was = tree.remove(pool, place_of(key_of(value), id))?;
        *self = AttrIndex { tree };
        Ok(())
    }

    /// The least id above `after` with the key. It makes one get more than the tree's height at most.
    pub fn equal<P: Pages>(
        &self,
        pages: &mut P,
        key: AttrKey,
        after: u32,
    ) -> Result<Option<u32>, PageFault>
        requires { IsTold (P.shown pages.old) → IsAttrIndex (pages_in (P.shown pages.old)) self.now }
        ensures value { IfOk result (λ id. IsTold (P.shown pages.old) → id ≡ equal_id (key_number key.0) after (index_entries (pages_in (P.shown pages.old)) self.now)) }
        ensures rises { IfOk result (λ id. IfSome id (λ id. after < id)) }
        ensures peeks { Peeks (P.shown pages.old) (P.shown pages.new) (self.now.tree.height + 1) result }
    {
        let Some(from) = place_of(key, after).checked_add(1) else {
            return Ok(None);
        };
        let Some((place, _)) = self.tree.ceiling(pages, from)? else {
            return Ok(None);
        };
        if place / IDS != number_of(key) {
            return Ok(None);
        }
        let id = (place % IDS) as u32;
        if id <= after {
            return Err(PageFault::Memory);
        }
        Ok(Some(id))
    }

    /// The least entry (int, id) after another one, or from the beginning on, whose int is within the bounds,
    /// both included. It makes one get more than the tree's height at most.
    pub fn between<P: Pages>(
        &self,
        pages: &mut P,
        low: i64,
        high: i64,
        after: Option<(i64, u32)>,
    ) -> Result<Option<(i64, u32)>, PageFault>
        requires { IsTold (P.shown pages.old) → IsIntIndex (pages_in (P.shown pages.old)) self.now }
        ensures value { IfOk result (λ entry. IsTold (P.shown pages.old) → entry ≡ between_entry low high after (int_entries (index_entries (pages_in (P.shown pages.old)) self.now))) }
        ensures bounded { IfOk result (λ entry. IfSome entry (λ entry. (low ≤ℤ entry.0) × (entry.0 ≤ℤ high))) }
        ensures rises { IfOk result (λ entry. IfSome entry (λ entry. IsTrue (is_after after entry))) }
        ensures peeks { Peeks (P.shown pages.old) (P.shown pages.new) (self.now.tree.height + 1) result }
    {
        let from = first_place(low, after);
        let Some((found, _)) = self.tree.ceiling(pages, from)? else {
            return Ok(None);
        };
        let entry = int_entry(found);
        if entry.0 > high {
            return Ok(None);
        }
        if entry.0 < low || !comes_after(after, entry) {
            return Err(PageFault::Memory);
        }
        Ok(Some(entry))
    }
}
