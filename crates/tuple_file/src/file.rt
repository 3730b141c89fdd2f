ghost use Rattle.std.specs.Prelude.{◌≡◌, ◌+◌, ◌≤◌, ◌≢◌, length, true, Some, None, IfOk, IfSome, OnOk, OnErr};
ghost use Rattle.sand_base.specs.InRange.{IsValueInRange};
ghost use Rattle.page_pool.specs.Pool.{IsOpen, IsTold};
ghost use Rattle.page_pool.specs.Causes.{HasPageCause};
ghost use Rattle.page_pool.specs.Steps.{InCommand};
ghost use Rattle.code_btree.specs.Tree.{pages_in};
ghost use Rattle.code_btree.specs.Calls.{Looks};
ghost use Rattle.tuple_file.specs.Rows.{of_id, least_id_from};
ghost use Rattle.tuple_file.specs.File.{IsFile, tuples_of};
ghost use Rattle.tuple_file.specs.Calls.{FilePlanted, Put, TupleTaken, IsRowAt, IsValueAt};
ghost use Rattle.tuple_file.specs.Spans.{AreKnown, Lies};

use crate::place::{place_of, spot_of};
use crate::row::{row_at, value_at, value_within};
use crate::span::Span;
use crate::spans::Spans;
use crate::steps::{empty, settle};
use code_btree::Tree;
use page_pool::{Disk, PageFault, Pages, Pool};
use sand_base::{Row, Schema, Value};
use std::alloc::Global;

/// A list of (id, bytes) by id in pages: the tree from the ids to the places of the tuples, and the page into
/// which tuples go, until it is full or freed.
#[derive(Clone, Copy, Debug, PartialEq, Eq)]
pub struct TupleFile {
    pub tree: Tree,
    pub newest: Option<u64>,
}

impl TupleFile {
    /// The empty list.
    pub fn plant<D: Disk>(pool: &mut Pool<D>) -> Result<TupleFile, PageFault>
        requires { IsOpen pool.old }
        ensures value { IfOk result (λ file. IsTold pool.old → FilePlanted (pages_in pool.old) (pages_in pool.new) file) }
        ensures within { InCommand pool.old pool.new }
        ensures cause { HasPageCause pool.old pool.new result }
    {
        let tree = Tree::plant(pool)?;
        Ok(TupleFile { tree, newest: None })
    }

    /// Puts the bytes of a new id into the list, 1 to 3,900 of them. After a refusal the command is to be
    /// aborted; the file is the one of before.
    pub fn put<D: Disk>(
        &mut self,
        pool: &mut Pool<D>,
        id: u32,
        bytes: &[u8],
    ) -> Result<(), PageFault>
        requires opened { IsOpen pool.old }
        requires some { 1 ≤ length bytes.now }
        requires short { length bytes.now ≤ 3900 }
        requires file { IsTold pool.old → IsFile (pages_in pool.old) self.old }
        requires fresh { IsTold pool.old → of_id id (tuples_of (pages_in pool.old) self.old) ≡ None }
        ensures value { OnOk result (IsTold pool.old → Put (pages_in pool.old) (pages_in pool.new) self.old self.new id bytes.now) }
        ensures unchanged { OnErr result (self.new ≡ self.old) }
        ensures within { InCommand pool.old pool.new }
        ensures cause { HasPageCause pool.old pool.new result }
    {
        let _span = self.put_placed(pool, id, bytes)?;
        Ok(())
    }

    /// `put`, which tells where the tuple lies then.
    pub fn put_placed<D: Disk>(
        &mut self,
        pool: &mut Pool<D>,
        id: u32,
        bytes: &[u8],
    ) -> Result<Span, PageFault>
        requires opened { IsOpen pool.old }
        requires some { 1 ≤ length bytes.now }
        requires short { length bytes.now ≤ 3900 }
        requires file { IsTold pool.old → IsFile (pages_in pool.old) self.old }
        requires fresh { IsTold pool.old → of_id id (tuples_of (pages_in pool.old) self.old) ≡ None }
        ensures value { OnOk result (IsTold pool.old → Put (pages_in pool.old) (pages_in pool.new) self.old self.new id bytes.now) }
        ensures placed { IfOk result (λ span. IsTold pool.old → Lies (pages_in pool.new) self.new id span) }
        ensures unchanged { OnErr result (self.new ≡ self.old) }
        ensures within { InCommand pool.old pool.new }
        ensures cause { HasPageCause pool.old pool.new result }
    {
        let mut tree = self.tree;
        let spot = settle(pool, self.newest, bytes)?;
        let _was = tree.insert(pool, u128::from(id), place_of(spot.page, spot.slot))?;
        *self = TupleFile {
            tree,
            newest: Some(spot.page),
        };
        Ok(Span {
            page: spot.page,
            start: spot.start,
            length: bytes.len() as u16,
        })
    }

    /// Takes an id out of the list, and says whether it was there. A page whose last tuple goes is freed. After a
    /// refusal the command is to be aborted; the file is the one of before.
    pub fn take<D: Disk>(&mut self, pool: &mut Pool<D>, id: u32) -> Result<bool, PageFault>
        requires opened { IsOpen pool.old }
        requires file { IsTold pool.old → IsFile (pages_in pool.old) self.old }
        ensures value { IfOk result (λ was. IsTold pool.old → TupleTaken (pages_in pool.old) (pages_in pool.new) self.old self.new id was) }
        ensures unchanged { OnErr result (self.new ≡ self.old) }
        ensures within { InCommand pool.old pool.new }
        ensures cause { HasPageCause pool.old pool.new result }
    {
        let mut tree = self.tree;
        let Some(place) = tree.remove(pool, u128::from(id))? else {
            *self = TupleFile {
                tree,
                newest: self.newest,
            };
            return Ok(false);
        };
        let Some((page, slot)) = spot_of(place) else {
            return Err(PageFault::Memory);
        };
        let freed = empty(pool, page, slot)?;
        *self = TupleFile {
            tree,
            newest: unless_freed(self.newest, page, freed),
        };
        Ok(true)
    }

    /// The row of the schema of which the bytes of the id are the encoding. `None` comes where the id isn't
    /// there, or its bytes are the encoding of no row.
    pub fn fetch<P: Pages>(
        &self,
        alloc: Global,
        pages: &mut P,
        schema: &Schema,
        id: u32,
    ) -> Result<Option<Row>, PageFault>
        requires { IsTold (P.shown pages.old) → IsFile (pages_in (P.shown pages.old)) self.now }
        ensures value { IfOk result (λ row. IsTold (P.shown pages.old) → IsRowAt schema.now (tuples_of (pages_in (P.shown pages.old)) self.now) id row) }
        ensures looks { Looks (P.shown pages.old) (P.shown pages.new) (self.now.tree.height + 1) result }
    {
        let Some(place) = self.tree.get(pages, u128::from(id))? else {
            return Ok(None);
        };
        let Some((page, slot)) = spot_of(place) else {
            return Err(PageFault::Memory);
        };
        let row = row_at(alloc, pages, schema, page, slot)?;
        Ok(row)
    }

    /// The value in a column of the row of the schema of which the bytes of the id are the encoding, without the
    /// rest of the row. `None` comes where the id isn't there, or the schema has no such column.
    pub fn fetch_value<P: Pages>(
        &self,
        alloc: Global,
        pages: &mut P,
        schema: &Schema,
        id: u32,
        column: usize,
    ) -> Result<Option<Value>, PageFault>
        requires { IsTold (P.shown pages.old) → IsFile (pages_in (P.shown pages.old)) self.now }
        ensures value { IfOk result (λ value. IsTold (P.shown pages.old) → IsValueAt schema.now (tuples_of (pages_in (P.shown pages.old)) self.now) id column value) }
        ensures in_range { IfOk result (λ value. IfSome value IsValueInRange) }
        ensures looks { Looks (P.shown pages.old) (P.shown pages.new) (self.now.tree.height + 1) result }
    {
        let Some(place) = self.tree.get(pages, u128::from(id))? else {
            return Ok(None);
        };
        let Some((page, slot)) = spot_of(place) else {
            return Err(PageFault::Memory);
        };
        return value_at(alloc, pages, schema, page, slot, column);
    }

    /// `fetch_value` with what is known of where the file's tuples lie: where it is known of that of the id, one page is
    /// read, and the tree isn't asked.
    pub fn fetch_placed_value<P: Pages>(
        &self,
        alloc: Global,
        pages: &mut P,
        spans: &Spans,
        schema: &Schema,
        id: u32,
        column: usize,
    ) -> Result<Option<Value>, PageFault>
        requires file { IsTold (P.shown pages.old) → IsFile (pages_in (P.shown pages.old)) self.now }
        requires known { IsTold (P.shown pages.old) → AreKnown (pages_in (P.shown pages.old)) self.now spans.now }
        ensures value { IfOk result (λ value. IsTold (P.shown pages.old) → IsValueAt schema.now (tuples_of (pages_in (P.shown pages.old)) self.now) id column value) }
        ensures in_range { IfOk result (λ value. IfSome value IsValueInRange) }
        ensures looks { Looks (P.shown pages.old) (P.shown pages.new) (self.now.tree.height + 1) result }
    {
        match spans.of(id) {
            Some(span) => return value_within(alloc, pages, schema, span, column),
            None => return self.fetch_value(alloc, pages, schema, id, column),
        }
    }

    /// The least id not below this one.
    pub fn scan<P: Pages>(&self, pages: &mut P, from: u32) -> Result<Option<u32>, PageFault>
        requires { IsTold (P.shown pages.old) → IsFile (pages_in (P.shown pages.old)) self.now }
        ensures value { IfOk result (λ id. IsTold (P.shown pages.old) → id ≡ least_id_from from (tuples_of (pages_in (P.shown pages.old)) self.now)) }
        ensures rises { IfOk result (λ id. IfSome id (λ id. from ≤ id)) }
        ensures looks { Looks (P.shown pages.old) (P.shown pages.new) (self.now.tree.height + 1) result }
    {
        let Some((key, _)) = self.tree.ceiling(pages, u128::from(from))? else {
            return Ok(None);
        };
        let Ok(id) = u32::try_from(key) else {
            return Err(PageFault::Memory);
        };
        if id < from {
            return Err(PageFault::Memory);
        }
        Ok(Some(id))
    }
}

// The newest page, unless it is this one, which was freed.
fn unless_freed(newest: Option<u64>, page: u64, freed: bool) -> Option<u64>
    ensures same { IfSome result (λ n. newest ≡ Some n) }
    ensures live { freed ≡ true → IfSome result (λ n. n ≢ page) }
    ensures kept { IfSome newest (λ n. (freed ≡ true → n ≢ page) → result ≡ Some n) }
{
    let n = newest?;
    if freed && n == page {
        return None;
    }
    Some(n)
}
