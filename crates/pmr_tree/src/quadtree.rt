ghost use Rattle.std.specs.Prelude.{◌≡◌, ℕ, ◌+◌, ◌≤◌, ◌<◌, ◌*◌, ◌^◌, [], ◌∷◌, map, length, All, IfOk, IfErr, OnOk, OnErr, Some};
ghost use Rattle.sand_base.specs.Plane.{IsShapeInPlane};
ghost use Rattle.sand_base.specs.declared.TheConstants.{COORDINATE_BITS};
ghost use Rattle.sand_base.specs.declared.shape.Shape.{Shape};
ghost use Rattle.sand_base.specs.declared.visit.Visit.TheVariants as visit;
ghost use Rattle.z_code.specs.Block.{IsBlock, HasCode};
ghost use Rattle.sand_model.specs.Measure.{Measure, IsMeasure};
ghost use Rattle.sand_model.specs.Database.{tree_with};
ghost use Rattle.sand_model.specs.Tree.{Leaf, listings, IsPlace};
ghost use Rattle.page_pool.specs.Disk.{PageMap};
ghost use Rattle.page_pool.specs.Pool.{IsOpen, IsLive, IsTold};
ghost use Rattle.page_pool.specs.Reads.{IsRead};
ghost use Rattle.page_pool.specs.Causes.{HasPageCause};
ghost use Rattle.page_pool.specs.Steps.{InCommand};
ghost use Rattle.code_btree.specs.Tree.{times};
ghost use Rattle.pmr_tree.specs.Quadtree.{pages_at, tree_at, IsPmr, FitsOthers, IsListedWhereMet, HasPlace, IsNearIn};
ghost use Rattle.pmr_tree.specs.Calls.{HasPmrCause, Plants, Grows, Shrinks, FindsPlace, HasRoughs, IsFoundInRange, IsWithinPrice, GetsSome, NotesVisit};
ghost use Rattle.pmr_tree.specs.declared.fault.PmrFault.TheVariants.{IndexFull};
ghost use Rattle.pmr_tree.specs.declared.listed.Node.TheVariants as node;

use crate::change::{grown, of_pages, shrunk};
use crate::code_leaf::{block_with, last_key, level_in};
use crate::listed::{ids_at, node_in};
use crate::range::own_entries;
use crate::{Node, PmrFault, ShapeOf};
use code_btree::{Near, Tree};
use page_pool::{Desk, Disk, PageFault, Pages, Pool};
use sand_base::{Ids, Shape, Visit};
use std::alloc::Global;
use z_code::Block;

/// A PMR quadtree in pages of a pool, as plain numbers: the map of its entries, its splitting threshold, and the
/// number by which visits name it. Each entry is an id of a leaf with its rough shape.
#[derive(Clone, Copy, Debug, PartialEq, Eq)]
pub struct Pmr {
    pub map: Tree,
    pub threshold: u8,
    pub number: u32,
}

impl Pmr {
    /// One empty leaf, with a threshold of 1 to 64 ids.
    pub fn plant<D: Disk>(pool: &mut Pool<D>, threshold: u8, number: u32) -> Result<Pmr, PageFault>
        requires opened { IsOpen pool.old }
        requires least { 1 ≤ threshold }
        requires most { threshold ≤ 64 }
        ensures planted { IfOk result (λ tree. IsTold pool.old → Plants pool.old.pages pool.new.pages tree) }
        ensures threshold { IfOk result (λ tree. tree.threshold ≡ threshold) }
        ensures number { IfOk result (λ tree. tree.number ≡ number) }
        ensures within { InCommand pool.old pool.new }
        ensures cause { HasPageCause pool.old pool.new result }
    {
        let mut map = Tree::plant(pool)?;
        map.insert(pool, 0, 0)?;
        Ok(Pmr {
            map,
            threshold,
            number,
        })
    }

    /// Brings an id into each leaf whose square the shape meets; a leaf that then has more ids than the threshold
    /// splits once, for which the shapes of its other ids are read. `IndexFull` comes exactly where the tree would
    /// have more listings than the limit. After a refusal the command is to be aborted; the tree is the one of before.
    pub fn insert<D: Disk, G: ShapeOf>(
        &mut self,
        alloc: Global,
        pool: &mut Pool<D>,
        shapes: &G,
        id: u32,
        shape: &Shape,
        limit: u64,
    ) -> Result<(), PmrFault>
        requires opened { IsOpen pool.old }
        requires id { 1 ≤ id }
        requires plane { IsShapeInPlane shape.now }
        requires tree { IsTold pool.old → IsPmr pool.old.pages self.old }
        requires shapes { IsTold pool.old → G.Stands shapes.now pool.old.pages }
        requires apart { IsTold pool.old → (n : ℕ) → G.Owns shapes.now pool.old.pages n → IsLive pool.old n × (times n (pages_at pool.old.pages self.old) ≡ 0) }
        requires fits { IsTold pool.old → (gap : Measure) → IsMeasure gap → FitsOthers gap (G.rows shapes.now pool.old.pages) id (tree_at pool.old.pages self.old) }
        ensures grown { OnOk result (IsTold pool.old → Grows pool.old.pages pool.new.pages self.old self.new (G.rows shapes.now pool.old.pages) id shape.now) }
        ensures few { OnOk result (IsTold pool.old → listings (tree_at pool.new.pages self.new) ≤ limit) }
        ensures full { IfErr result (λ e. e ≡ IndexFull → IsTold pool.old → (gap : Measure) → IsMeasure gap
            → limit < listings (tree_with gap ((id, shape.now) ∷ G.rows shapes.now pool.old.pages) self.old.threshold id (tree_at pool.old.pages self.old))) }
        ensures unchanged { OnErr result (self.new ≡ self.old) }
        ensures within { InCommand pool.old pool.new }
        ensures cause { HasPmrCause pool.old pool.new result }
    {
        let tree = grown(alloc, pool, *self, shapes, id, shape)?;
        if tree.map.entries > limit {
            return Err(PmrFault::IndexFull);
        }
        *self = tree;
        Ok(())
    }

    /// Takes an id out of every leaf; from the bottom up, four leaves with fewer ids together than the threshold
    /// become one. The shape is that with which the id is listed. After a refusal the command is to be aborted; the
    /// tree is the one of before.
    pub fn delete<D: Disk>(
        &mut self,
        alloc: Global,
        pool: &mut Pool<D>,
        id: u32,
        shape: &Shape,
    ) -> Result<(), PageFault>
        requires opened { IsOpen pool.old }
        requires id { 1 ≤ id }
        requires plane { IsShapeInPlane shape.now }
        requires tree { IsTold pool.old → IsPmr pool.old.pages self.old }
        requires listed { IsTold pool.old → IsListedWhereMet (tree_at pool.old.pages self.old) id shape.now }
        ensures shrunk { OnOk result (IsTold pool.old → Shrinks pool.old.pages pool.new.pages self.old self.new id) }
        ensures unchanged { OnErr result (self.new ≡ self.old) }
        ensures within { InCommand pool.old pool.new }
        ensures cause { HasPageCause pool.old pool.new result }
    {
        match shrunk(alloc, pool, *self, id, shape) {
            Ok(tree) => {
                *self = tree;
                Ok(())
            }
            Err(fault) => Err(of_pages(fault)),
        }
    }

    /// The place of the block: an inner one, or a leaf with its ids in ascending order, each with its rough shape.
    /// It makes at most as many page gets as the map's height times two more than the ids.
    pub fn look<P: Pages>(
        &self,
        alloc: Global,
        pages: &mut P,
        block: Block,
    ) -> Result<Node, PageFault>
        requires block { IsBlock block }
        requires tree { IsTold (P.shown pages.old) → IsPmr (P.shown pages.old).pages self.now }
        requires place { IsTold (P.shown pages.old) → HasPlace (tree_at (P.shown pages.old).pages self.now) block }
        ensures place { IfOk result (λ found. IsTold (P.shown pages.old) → FindsPlace (tree_at (P.shown pages.old).pages self.now) block found) }
        ensures roughs { IfOk result (λ found. IsTold (P.shown pages.old) → HasRoughs (P.shown pages.old).pages self.now found) }
        ensures plane { IfOk result IsFoundInRange }
        ensures above_points { IfOk result (λ found. found ≡ node.Inner → block.level < COORDINATE_BITS) }
        ensures read { IsRead (P.shown pages.old) (P.shown pages.new) }
        ensures cause { HasPageCause (P.shown pages.old) (P.shown pages.new) result }
        ensures up { (P.shown pages.old).gets ≤ (P.shown pages.new).gets }
        ensures some { GetsSome (P.shown pages.old) (P.shown pages.new) result }
        ensures price { IsTold (P.shown pages.old) → IsWithinPrice (P.shown pages.old).pages self.now block (P.shown pages.old) (P.shown pages.new) }
    {
        let mut near = Near::nowhere();
        let node = self.look_near(alloc, pages, block, &mut near)?;
        Ok(node)
    }

    /// The same place, with the page of the look before held in `near`, which has the page of this one afterwards. Where
    /// they are one, the look takes no descent, as for most places that lie near each other.
    pub fn look_near<P: Pages>(
        &self,
        alloc: Global,
        pages: &mut P,
        block: Block,
        near: &mut Near,
    ) -> Result<Node, PageFault>
        requires block { IsBlock block }
        requires tree { IsTold (P.shown pages.old) → IsPmr (P.shown pages.old).pages self.now }
        requires place { IsTold (P.shown pages.old) → HasPlace (tree_at (P.shown pages.old).pages self.now) block }
        requires near { IsTold (P.shown pages.old) → IsNearIn (P.shown pages.old).pages self.now near.old }
        ensures place { IfOk result (λ found. IsTold (P.shown pages.old) → FindsPlace (tree_at (P.shown pages.old).pages self.now) block found) }
        ensures roughs { IfOk result (λ found. IsTold (P.shown pages.old) → HasRoughs (P.shown pages.old).pages self.now found) }
        ensures plane { IfOk result IsFoundInRange }
        ensures above_points { IfOk result (λ found. found ≡ node.Inner → block.level < COORDINATE_BITS) }
        ensures near { IsTold (P.shown pages.old) → IsNearIn (P.shown pages.old).pages self.now near.new }
        ensures read { IsRead (P.shown pages.old) (P.shown pages.new) }
        ensures cause { HasPageCause (P.shown pages.old) (P.shown pages.new) result }
        ensures up { (P.shown pages.old).gets ≤ (P.shown pages.new).gets }
        ensures some { GetsSome (P.shown pages.old) (P.shown pages.new) result }
        ensures price { IsTold (P.shown pages.old) → IsWithinPrice (P.shown pages.old).pages self.now block (P.shown pages.old) (P.shown pages.new) }
    {
        // For the proof alone: a count of gets is at most the greatest u64, so it doesn't fall.
        let _before = pages.gets();
        let pairs = own_entries(alloc, self.map, pages, block, near)?;
        Ok(node_in(block, pairs))
    }

    /// Notes the block in the log, then looks at it. A visit that was noted stays so where the look is refused.
    pub fn visit<D: Disk>(
        &self,
        alloc: Global,
        desk: &mut Desk<D>,
        block: Block,
    ) -> Result<Node, PageFault>
        requires block { IsBlock block }
        requires tree { IsTold desk.old.pool → IsPmr desk.old.pool.pages self.now }
        requires place { IsTold desk.old.pool → HasPlace (tree_at desk.old.pool.pages self.now) block }
        ensures noted { NotesVisit (visit.Block self.now.number block.z block.level) desk.old desk.new result }
        ensures place { IfOk result (λ found. IsTold desk.old.pool → FindsPlace (tree_at desk.old.pool.pages self.now) block found) }
        ensures roughs { IfOk result (λ found. IsTold desk.old.pool → HasRoughs desk.old.pool.pages self.now found) }
        ensures plane { IfOk result IsFoundInRange }
        ensures above_points { IfOk result (λ found. found ≡ node.Inner → block.level < COORDINATE_BITS) }
        ensures read { IsRead desk.old.pool desk.new.pool }
        ensures cause { HasPageCause desk.old.pool desk.new.pool result }
        ensures up { desk.old.pool.gets ≤ desk.new.pool.gets }
        ensures some { GetsSome desk.old.pool desk.new.pool result }
        ensures price { IsTold desk.old.pool → IsWithinPrice desk.old.pool.pages self.now block desk.old.pool desk.new.pool }
    {
        let mut near = Near::nowhere();
        let node = self.visit_near(alloc, desk, block, &mut near)?;
        Ok(node)
    }

    /// Notes the block, then looks at it as `look_near` does.
    pub fn visit_near<D: Disk>(
        &self,
        alloc: Global,
        desk: &mut Desk<D>,
        block: Block,
        near: &mut Near,
    ) -> Result<Node, PageFault>
        requires block { IsBlock block }
        requires tree { IsTold desk.old.pool → IsPmr desk.old.pool.pages self.now }
        requires place { IsTold desk.old.pool → HasPlace (tree_at desk.old.pool.pages self.now) block }
        requires near { IsTold desk.old.pool → IsNearIn desk.old.pool.pages self.now near.old }
        ensures noted { NotesVisit (visit.Block self.now.number block.z block.level) desk.old desk.new result }
        ensures place { IfOk result (λ found. IsTold desk.old.pool → FindsPlace (tree_at desk.old.pool.pages self.now) block found) }
        ensures roughs { IfOk result (λ found. IsTold desk.old.pool → HasRoughs desk.old.pool.pages self.now found) }
        ensures plane { IfOk result IsFoundInRange }
        ensures above_points { IfOk result (λ found. found ≡ node.Inner → block.level < COORDINATE_BITS) }
        ensures near { IsTold desk.old.pool → IsNearIn desk.old.pool.pages self.now near.new }
        ensures read { IsRead desk.old.pool desk.new.pool }
        ensures cause { HasPageCause desk.old.pool desk.new.pool result }
        ensures up { desk.old.pool.gets ≤ desk.new.pool.gets }
        ensures some { GetsSome desk.old.pool desk.new.pool result }
        ensures price { IsTold desk.old.pool → IsWithinPrice desk.old.pool.pages self.now block desk.old.pool desk.new.pool }
    {
        desk.note(Visit::Block {
            tree: self.number,
            z: block.z,
            level: block.level,
        })?;
        let node = self.look_near(alloc, desk.pages(), block, near)?;
        Ok(node)
    }

    /// The leaf that has the code in its range, with its ids in ascending order. It makes page gets of one descent
    /// more than looking at that leaf.
    pub fn leaf_at<P: Pages>(
        &self,
        alloc: Global,
        pages: &mut P,
        z: u64,
    ) -> Result<(Block, Ids), PageFault>
        requires code { z < 2 ^ (2 * COORDINATE_BITS) }
        requires tree { IsTold (P.shown pages.old) → IsPmr (P.shown pages.old).pages self.now }
        ensures leaf { IfOk result (λ found. IsTold (P.shown pages.old) → IsPlace (tree_at (P.shown pages.old).pages self.now) found.0 (Leaf found.1)) }
        ensures block { IfOk result (λ found. IsBlock found.0) }
        ensures code { IfOk result (λ found. HasCode found.0 z) }
        ensures read { IsRead (P.shown pages.old) (P.shown pages.new) }
        ensures cause { HasPageCause (P.shown pages.old) (P.shown pages.new) result }
        ensures up { (P.shown pages.old).gets ≤ (P.shown pages.new).gets }
        ensures some { GetsSome (P.shown pages.old) (P.shown pages.new) result }
    {
        // For the proof alone: a count of gets is at most the greatest u64, so it doesn't fall.
        let _before = pages.gets();
        let found = self.map.floor(pages, last_key(z))?;
        let block = block_with(z, level_in(found));
        let mut near = Near::nowhere();
        let pairs = own_entries(alloc, self.map, pages, block, &mut near)?;
        let ids = ids_at(alloc, &pairs)?;
        Ok((block, Ids::new(ids)))
    }

    /// The greatest number of ids that a leaf takes without a split.
    pub fn threshold(&self) -> u8
        ensures { result ≡ self.now.threshold }
    {
        self.threshold
    }

    /// The number by which visits name the tree.
    pub fn number(&self) -> u32
        ensures { result ≡ self.now.number }
    {
        self.number
    }

    /// The number of ids of all leaves together, an empty leaf counting 1.
    pub fn listings(&self) -> u64
        ensures entries { result ≡ self.now.map.entries }
        ensures listings { (pages : PageMap) → IsPmr pages self.now → result ≡ listings (tree_at pages self.now) }
    {
        self.map.entries
    }
}
