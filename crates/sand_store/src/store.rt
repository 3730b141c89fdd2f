ghost use Rattle.std.specs.Prelude.{◌≡◌, ◌≤◌, [], IsTrue, Some, IfOk, IfErr, OnOk, OnErr, IfSome, option_map};
ghost use Rattle.std.specs.FinMap as map;
ghost use Rattle.sand_base.specs.InRange.{IsRowInRange, IsSchemaInRange};
ghost use Rattle.std.specs.List.{All};
ghost use Rattle.page_pool.specs.Pool.{Shown, new_pool, showing, back};
ghost use Rattle.page_pool.specs.Stamps.{KeepsMap, LetsMapGo};
ghost use Rattle.page_pool.specs.Causes.{IsNoDamage, faults_at};
ghost use Rattle.page_pool.specs.Desk.{DeskState};
ghost use Rattle.sand_model.specs.Kept.{IsDatabase};
ghost use Rattle.sand_model.specs.Measure.{Measure, IsMeasure};
ghost use Rattle.statements.specs.Statement.{Create, Insert, Delete, Index, Rtree};
ghost use Rattle.sand_store.specs.Catalog.{IsLimits, new_catalog};
ghost use Rattle.sand_store.specs.Contents.{database};
ghost use Rattle.sand_store.specs.Standing.{IsStore};
ghost use Rattle.sand_store.specs.Calls.{Carries, IsUnchanged, HasStoreCause, Created, RowInserted, Deleted, Indexed, Treed, Loaded, IsStatementRefused, LoadIsRefusedBy};
ghost use Rattle.sand_store.specs.Calls.{IsRefusedPlainly, is_none, is_index_full, is_missing};

use crate::Catalog;
use crate::create::create;
use crate::delete::delete;
use crate::index::index;
use crate::insert::insert;
use crate::load::load_rows;
use crate::rtree::rtree;
use page_pool::{Desk, Disk, PageFault, Pool, Stamp};
use sand_base::{Limits, NoMemory, Refusal, Row, Schema};
use std::alloc::Global;
use std::marker::Model;

/// Relations with their rows and indexes in the pages of a pool. Each writing call is one command of the pool: it is
/// carried out, or refused and all is as it was.
#[derive(Drop)]
pub struct Store<D: Disk> {
    catalog: Catalog,
    pool: Pool<D>,
    alloc: Global,
}

impl<D: Disk> Model for Store<D> {
    ghost use Rattle.sand_store.specs.Catalog.{StoreState, CatalogView};
    ghost use Rattle.sand_store.specs.Standing.{IsStore};
    ghost use Rattle.std.specs.Coded.{codes};
    ghost use Rattle.page_pool.specs.Inside.{pool_code};

    ghost Value = { StoreState };

    ghost coded = { Prim.hlevel (codes, pool_code) };

    ghost view = { λ s. record { catalog = s.catalog; pool = s.pool } };

    ghost invariant = { λ s. IsStore s.catalog s.pool };
}

impl<D: Disk> Store<D> {
    /// A store of no relations over the disk, which it starts with the name. After a refusal the disk comes back.
    pub fn start(
        alloc: Global,
        disk: D,
        name: Option<&str>,
        frames: u32,
        limits: Limits,
    ) -> Result<Store<D>, (PageFault, D)>
        requires least { 16 ≤ frames }
        requires most { frames ≤ 4096 }
        requires limits { IsLimits limits }
        ensures begun { IfOk result (λ store. store ≡ record { catalog = new_catalog limits; pool = new_pool store.pool.disk frames }) }
        ensures counted { IfOk result (λ store. store.pool.disk.faults ≡ (D.seen disk).faults) }
        ensures refused { IfErr result (λ e. (D.seen e.1).faults ≡ faults_at (D.seen disk).faults e.0) }
        ensures undamaged { IfErr result (λ e. IsNoDamage e.0) }
    {
        match Pool::start(alloc, disk, name, frames) {
            Ok(pool) => Ok(Store {
                catalog: Catalog {
                    relations: Vec::new(alloc),
                    limits,
                },
                pool,
                alloc,
            }),
            Err(refused) => Err(refused),
        }
    }

    /// A new relation of these columns, the last one.
    pub fn create(&mut self, name: &str, schema: Schema) -> Result<(), Refusal>
        requires { IsSchemaInRange schema }
        ensures created { OnOk result (Created self.old self.new name.now schema) }
        ensures unchanged { OnErr result (IsUnchanged self.old self.new) }
        ensures refused { IfErr result (IsStatementRefused is_none self.old (Create name.now schema)) }
        ensures carries { Carries self.old self.new }
        ensures cause { HasStoreCause self.old.pool self.new.pool result }
    {
        create(
            self.alloc,
            &mut self.pool,
            &mut self.catalog.relations,
            self.catalog.limits,
            name,
            schema,
        )
    }

    /// Adds a row to the relation and to each of its indexes and R-trees, and gives its id.
    pub fn insert(&mut self, relation: &str, row: Row) -> Result<u32, Refusal>
        requires { IsRowInRange row }
        ensures inserted { IfOk result (λ id. RowInserted self.old self.new relation.now row id) }
        ensures unchanged { OnErr result (IsUnchanged self.old self.new) }
        ensures refused { IfErr result (IsStatementRefused is_index_full self.old (Insert relation.now row)) }
        ensures carries { Carries self.old self.new }
        ensures cause { HasStoreCause self.old.pool self.new.pool result }
    {
        insert(
            self.alloc,
            &mut self.pool,
            &mut self.catalog.relations,
            self.catalog.limits,
            relation,
            &row,
        )
    }

    /// Removes the row of the id from the relation and from each of its indexes and R-trees.
    pub fn delete(&mut self, relation: &str, id: u32) -> Result<(), Refusal>
        ensures deleted { OnOk result (Deleted self.old self.new relation.now id) }
        ensures unchanged { OnErr result (IsUnchanged self.old self.new) }
        ensures refused { IfErr result (IsStatementRefused is_missing self.old (Delete relation.now id)) }
        ensures carries { Carries self.old self.new }
        ensures cause { HasStoreCause self.old.pool self.new.pool result }
    {
        delete(
            self.alloc,
            &mut self.pool,
            &mut self.catalog.relations,
            self.catalog.limits,
            relation,
            id,
        )
    }

    /// Gives a column an index, with the rows that are there: a quadtree of this threshold (8 where none is given) for
    /// a column of shapes, and else an attribute index.
    pub fn index(
        &mut self,
        relation: &str,
        column: &str,
        threshold: Option<u8>,
    ) -> Result<(), Refusal>
        requires { IfSome threshold (λ t. (1 ≤ t) × (t ≤ 64)) }
        ensures indexed { OnOk result (Indexed self.old self.new (record { relation = relation.now; column = column.now }) threshold) }
        ensures unchanged { OnErr result (IsUnchanged self.old self.new) }
        ensures refused { IfErr result (IsStatementRefused is_index_full self.old (Index (record { relation = relation.now; column = column.now }) threshold)) }
        ensures carries { Carries self.old self.new }
        ensures cause { HasStoreCause self.old.pool self.new.pool result }
    {
        index(
            self.alloc,
            &mut self.pool,
            &mut self.catalog.relations,
            self.catalog.limits,
            relation,
            column,
            threshold,
        )
    }

    /// Gives a column of shapes an R-tree, with the rows that are there.
    pub fn rtree(&mut self, relation: &str, column: &str) -> Result<(), Refusal>
        ensures treed { OnOk result (Treed self.old self.new (record { relation = relation.now; column = column.now })) }
        ensures unchanged { OnErr result (IsUnchanged self.old self.new) }
        ensures refused { IfErr result (IsStatementRefused is_none self.old (Rtree (record { relation = relation.now; column = column.now }))) }
        ensures carries { Carries self.old self.new }
        ensures cause { HasStoreCause self.old.pool self.new.pool result }
    {
        rtree(
            self.alloc,
            &mut self.pool,
            &mut self.catalog.relations,
            self.catalog.limits,
            relation,
            column,
        )
    }

    /// Adds rows in their order, all or none, and gives their number. The first row that is refused decides.
    pub fn load_rows(&mut self, relation: &str, rows: Vec<Row>) -> Result<u32, Refusal>
        requires { All IsRowInRange rows.items }
        ensures loaded { IfOk result (λ count. Loaded self.old self.new relation.now rows.items count) }
        ensures unchanged { OnErr result (IsUnchanged self.old self.new) }
        ensures refused { IfErr result (LoadIsRefusedBy self.old relation.now rows.items) }
        ensures plain { IfErr result (IsRefusedPlainly self.old relation.now rows.items) }
        ensures carries { Carries self.old self.new }
        ensures cause { HasStoreCause self.old.pool self.new.pool result }
    {
        load_rows(
            self.alloc,
            &mut self.pool,
            &mut self.catalog.relations,
            self.catalog.limits,
            relation,
            &rows,
        )
    }

    /// The catalog and the pages, for reading. It takes no memory.
    pub fn part(self) -> (Catalog, Desk<D>)
        ensures catalog { result.0 ≡ self.catalog }
        ensures desk { result.1 ≡ record { pool = self.pool; visits = [] } }
        ensures whole { IsStore self.catalog self.pool }
    {
        let Store {
            catalog,
            pool,
            alloc,
        } = self;
        (catalog, Desk::over(alloc, pool))
    }

    /// The catalog as it is now, and the pages as they were when the stamp was taken, for reading. It takes no memory.
    pub fn part_at(self, stamp: &Stamp) -> (Catalog, Desk<D>)
        requires held { IsTrue (map.contains_key self.pool.stamps stamp.now) }
        ensures catalog { result.0 ≡ self.catalog }
        ensures desk { (shown : Shown) → map.get self.pool.stamps stamp.now ≡ Some shown → result.1 ≡ record { pool = showing self.pool shown; visits = [] } }
        ensures whole { IsStore self.catalog self.pool }
    {
        let Store {
            catalog,
            pool,
            alloc,
        } = self;
        (catalog, Desk::at(alloc, pool, stamp))
    }

    /// The store of a catalog and a desk that one `part` or one `part_at` gave. Visits that were noted are gone. It takes
    /// no memory.
    pub fn rejoin(alloc: Global, catalog: Catalog, desk: Desk<D>) -> Store<D>
        requires { IsStore catalog (back desk.pool) }
        ensures { result ≡ record { catalog = catalog; pool = back desk.pool } }
    {
        Store {
            catalog,
            pool: desk.close(),
            alloc,
        }
    }

    /// A stamp of the store as it is: its pages are kept, whatever is written later, until the stamp is released. After a
    /// refusal all is as it was.
    pub fn keep(&mut self) -> Result<Stamp, NoMemory>
        ensures catalog { self.new.catalog ≡ self.old.catalog }
        ensures kept { IfOk result (KeepsMap self.old.pool self.new.pool) }
        ensures unchanged { OnErr result (self.new ≡ self.old) }
    {
        let stamp = self.pool.keep()?;
        Ok(stamp)
    }

    /// The stamp is held no more, and its pages are kept no longer than others need them. It takes no memory.
    pub fn release(&mut self, stamp: Stamp)
        requires held { IsTrue (map.contains_key self.old.pool.stamps stamp) }
        ensures catalog { self.new.catalog ≡ self.old.catalog }
        ensures let_go { LetsMapGo self.old.pool self.new.pool stamp }
    {
        self.pool.release(stamp);
    }

    /// The disk. It takes no memory.
    pub fn into_disk(self) -> D
        ensures { D.seen result ≡ self.pool.disk }
    {
        let Store {
            catalog: _,
            pool,
            alloc: _,
        } = self;
        pool.into_disk()
    }

    /// The catalog. It takes no memory.
    pub fn catalog(&self) -> &Catalog
        ensures catalog { result.now ≡ self.now.catalog }
        ensures whole { IsStore self.now.catalog self.now.pool }
    {
        &self.catalog
    }
}
