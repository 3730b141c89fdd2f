// A pool with a command open, over a disk that doesn't tell its pages, and what is kept in its pages.
ghost use Rattle.std.specs.Prelude.{◌≤◌, ◌<◌, ◌*◌, ◌^◌, length};
ghost use Rattle.sand_base.specs.declared.TheConstants.{COORDINATE_BITS};
ghost use Rattle.attr_index.specs.Key.{IsAttribute};

use crate::filled_pool::untold_pool;
use crate::readers::Readers;
use crate::shapes::Shapes;
use crate::shy_disk::ShyDisk;
use attr_index::{AttrIndex, key_of};
use page_pool::{Desk, PageFault, Pages, Pool};
use pmr_tree::{Pmr, PmrFault};
use sand_base::{Ids, NoMemory, Row, Schema, Value};
use std::alloc::Global;
use std::marker::Model;
use tuple_file::TupleFile;
use z_code::Block;

/// The pages of trees, files and indexes while they change.
#[derive(Drop)]
pub struct OpenPool {
    pool: Pool<ShyDisk>,
}

impl Model for OpenPool {
    ghost use Rattle.std.specs.Prelude.{◌≡◌, false};
    ghost use Rattle.std.specs.Coded.{codes};
    ghost use Rattle.page_pool.specs.Inside.{pool_code};
    ghost use Rattle.page_pool.specs.Pool.{PoolState, IsOpen};

    ghost Value = { PoolState };

    ghost coded = { Prim.hlevel (codes, pool_code) };

    ghost view = { λ a. a.pool };

    ghost invariant = { λ a. IsOpen a.pool × (a.pool.disk.told ≡ false) };
}

// Memory, for each fault of a tree but the pages'.
fn of_pages(fault: PmrFault) -> PageFault {
    match fault {
        PmrFault::Device => PageFault::Device,
        PmrFault::Damaged { page, kept, read } => PageFault::Damaged { page, kept, read },
        PmrFault::Memory | PmrFault::IndexFull => PageFault::Memory,
    }
}

impl OpenPool {
    /// A pool of so many frames.
    pub fn start(alloc: Global, frames: u32) -> Result<OpenPool, PageFault>
        requires least { 16 ≤ frames }
        requires most { frames ≤ 4096 }
    {
        let mut pool = untold_pool(alloc, frames, 0)?;
        pool.begin()?;
        Ok(OpenPool { pool })
    }

    /// Ends the command, and lends the pages for reading.
    pub fn close(self, alloc: Global) -> Readers {
        let OpenPool { mut pool } = self;
        pool.commit();
        Readers::over(Desk::over(alloc, pool))
    }

    /// A quadtree of this threshold.
    pub fn plant_tree(&mut self, threshold: u8, number: u32) -> Result<Pmr, PageFault>
        requires least { 1 ≤ threshold }
        requires most { threshold ≤ 64 }
    {
        Pmr::plant(&mut self.pool, threshold, number)
    }

    /// Brings an id into a quadtree.
    pub fn insert(
        &mut self,
        alloc: Global,
        tree: &mut Pmr,
        shapes: Shapes,
        id: u32,
    ) -> Result<(), PageFault>
        requires { 1 ≤ id }
    {
        let shape = match shapes.shape(alloc, id) {
            Ok(shape) => shape,
            Err(NoMemory {}) => return Err(PageFault::Memory),
        };
        match tree.insert(alloc, &mut self.pool, &shapes, id, &shape, u64::MAX) {
            Ok(()) => Ok(()),
            Err(fault) => Err(of_pages(fault)),
        }
    }

    /// Takes an id out of a quadtree.
    pub fn delete(
        &mut self,
        alloc: Global,
        tree: &mut Pmr,
        shapes: Shapes,
        id: u32,
    ) -> Result<(), PageFault>
        requires { 1 ≤ id }
    {
        let shape = match shapes.shape(alloc, id) {
            Ok(shape) => shape,
            Err(NoMemory {}) => return Err(PageFault::Memory),
        };
        tree.delete(alloc, &mut self.pool, id, &shape)
    }

    /// The leaf of a code, with its ids.
    pub fn leaf(&mut self, alloc: Global, tree: &Pmr, z: u64) -> Result<(Block, Ids), PageFault>
        requires { z < 2 ^ (2 * COORDINATE_BITS) }
    {
        tree.leaf_at(alloc, &mut self.pool, z)
    }

    /// A file of no rows.
    pub fn plant_file(&mut self) -> Result<TupleFile, PageFault> {
        TupleFile::plant(&mut self.pool)
    }

    /// Puts the bytes of a row into a file.
    pub fn put(&mut self, file: &mut TupleFile, id: u32, bytes: &[u8]) -> Result<(), PageFault>
        requires some { 1 ≤ length bytes.now }
        requires short { length bytes.now ≤ 3900 }
    {
        file.put(&mut self.pool, id, bytes)
    }

    /// Takes a row out of a file.
    pub fn take(&mut self, file: &mut TupleFile, id: u32) -> Result<bool, PageFault> {
        file.take(&mut self.pool, id)
    }

    /// Fetches a row of a file.
    pub fn fetch(
        &mut self,
        alloc: Global,
        file: &TupleFile,
        schema: &Schema,
        id: u32,
    ) -> Result<Option<Row>, PageFault> {
        file.fetch(alloc, &mut self.pool, schema, id)
    }

    /// The least id of a file that isn't below this one.
    pub fn scan(&mut self, file: &TupleFile, from: u32) -> Result<Option<u32>, PageFault> {
        file.scan(&mut self.pool, from)
    }

    /// An index of no entries.
    pub fn plant_index(&mut self) -> Result<AttrIndex, PageFault> {
        AttrIndex::plant(&mut self.pool)
    }

    /// Adds an entry to an index.
    pub fn add(&mut self, index: &mut AttrIndex, number: i64, id: u32) -> Result<(), PageFault> {
        index.add(&mut self.pool, &Value::Int(number), id)
    }

    /// Takes an entry out of an index.
    pub fn drop_entry(
        &mut self,
        index: &mut AttrIndex,
        number: i64,
        id: u32,
    ) -> Result<(), PageFault> {
        index.drop_entry(&mut self.pool, &Value::Int(number), id)
    }

    /// The least id above `after` with the number.
    pub fn equal(
        &mut self,
        index: &AttrIndex,
        number: i64,
        after: u32,
    ) -> Result<Option<u32>, PageFault> {
        index.equal(&mut self.pool, key_of(&Value::Int(number)), after)
    }

    /// The least entry after another one whose number is within the bounds.
    pub fn between(
        &mut self,
        index: &AttrIndex,
        low: i64,
        high: i64,
        after: Option<(i64, u32)>,
    ) -> Result<Option<(i64, u32)>, PageFault> {
        index.between(&mut self.pool, low, high, after)
    }
}
