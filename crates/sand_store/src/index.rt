// A relation gets an index of a column.
ghost use Rattle.std.specs.Prelude.{◌≡◌, ℕ, ◌≤◌, ◌<◌, ◌∷◌, true, Some, length, find, nat_le, IfOk, IfErr, OnOk, OnErr, IfSome};
ghost use Rattle.code_btree.specs.Tree.{times, live};
ghost use Rattle.page_pool.specs.Commands.{SettlesStamps};
ghost use Rattle.page_pool.specs.Pool.{IsOpen, IsClosed, IsTold};
ghost use Rattle.page_pool.specs.Reads.{IsRead};
ghost use Rattle.page_pool.specs.Steps.{InCommand};
ghost use Rattle.pmr_tree.specs.Quadtree.{store_of};
ghost use Rattle.attr_index.specs.Key.{IsAttribute};
ghost use Rattle.sand_base.specs.declared.refusal.Refusal.TheVariants as why;
ghost use Rattle.sand_base.specs.Shape.{is_spatial};
ghost use Rattle.sand_model.specs.Database.{with_index, new_index};
ghost use Rattle.sand_model.specs.Measure.{Measure, IsMeasure};
ghost use Rattle.statements.specs.Statement.{Index};
ghost use Rattle.sand_model.specs.StatementChecks.{is_overfull, is_there, check_listings};
ghost use Rattle.tuple_file.specs.File.{file_pages};
ghost use Rattle.sand_store.specs.declared.path.AccessPath.TheVariants as path;
ghost use Rattle.sand_store.specs.Building.{index_check, IsWanted, IsThreshold, HasPath, index_after, IsOfKind, PlantsPath, CanTake, PathTook, CanFill, Fills, Builds};
ghost use Rattle.sand_store.specs.Calls.{HasStoreCause, Indexed, IsUnchanged, IsStatementRefused, is_index_full};
ghost use Rattle.sand_store.specs.Catalog.{IsDescribed, IsColumnAt, IsPathOf};
ghost use Rattle.sand_store.specs.Contents.{rows_at, rows_in, index_in, relation_in};
ghost use Rattle.sand_store.specs.Ownership.{relation_pages};
ghost use Rattle.sand_store.specs.Standing.{IsStore, RelationStands, TableStands};
ghost use Rattle.sand_store.specs.Steps.{store_from, Became, IsOutside, IsOutsideOrFull};

use crate::refusal::{refusal_of, refusal_of_tree};
use crate::relation::place_of;
use crate::shapes::{RowShapes, is_shape_in_plane, shape_at, value_at};
use crate::whole_tree::quadtree_of;
use crate::{AccessPath, Relation};
use attr_index::AttrIndex;
use page_pool::{Disk, Pool};
use pmr_tree::Pmr;
use pmr_tree::laws::growth_laws;
use ring_geom::measure_laws;
use sand_base::{Kind, Limits, Refusal, Row, Value};
use std::alloc::Global;

/// The threshold of a quadtree where none is given.
const PLAIN_THRESHOLD: u8 = 8;

/// The most columns that a relation has.
pub const MOST_COLUMNS: usize = 12;

/// Whether a column of the kind has shapes.
pub fn has_shapes(kind: Kind) -> bool
    ensures { result ≡ is_spatial kind }
{
    match kind {
        Kind::Point | Kind::Segment | Kind::Polygon => true,
        Kind::Int | Kind::Text => false,
    }
}

// The column of which an index is wanted, with its threshold, none for an attribute index; or the first check that fails.
fn wanted(
    relation: &Relation,
    name: &str,
    given: Option<u8>,
) -> Result<(usize, Option<u8>), Refusal>
    ensures found { IfOk result (λ found. IsWanted relation.now name.now given found.0 found.1) }
    ensures inside { IfOk result (λ found. found.0 < length relation.now.schema) }
    ensures refused { IfErr result (λ refusal. index_check relation.now name.now given ≡ Some refusal) }
{
    let Some(at) = relation.column(name) else {
        return Err(Refusal::UnknownColumn);
    };
    let spatial = has_shapes(relation.schema.columns()[at].1);
    if given.is_some() && !spatial {
        return Err(Refusal::WrongKind);
    }
    if relation.path(at).is_some() {
        return Err(Refusal::IndexThere);
    }
    if spatial {
        Ok((at, Some(given.unwrap_or(PLAIN_THRESHOLD))))
    } else {
        Ok((at, None))
    }
}

// An index of no rows, in an open command: a quadtree where there is a threshold, else an attribute index.
fn planted<D: Disk>(
    pool: &mut Pool<D>,
    threshold: Option<u8>,
    number: u32,
) -> Result<AccessPath, Refusal>
    requires opened { IsOpen pool.old }
    requires threshold { IsThreshold threshold }
    ensures planted { IfOk result (λ planted. IsTold pool.old → PlantsPath pool.old.pages pool.new.pages threshold planted) }
    ensures of { IfOk result (λ planted. IsOfKind threshold planted) }
    ensures outside { IfErr result IsOutside }
    ensures within { InCommand pool.old pool.new }
    ensures cause { HasStoreCause pool.old pool.new result }
{
    match threshold {
        Some(threshold) => match Pmr::plant(pool, threshold, number) {
            Ok(tree) => Ok(AccessPath::Quadtree(tree)),
            Err(why) => Err(refusal_of(why)),
        },
        None => match AttrIndex::plant(pool) {
            Ok(index) => Ok(AccessPath::Attribute(index)),
            Err(why) => Err(refusal_of(why)),
        },
    }
}

// A quadtree with the row of an id, the first that it doesn't have.
fn tree_with<D: Disk>(
    alloc: Global,
    pool: &mut Pool<D>,
    tree: Pmr,
    shapes: &RowShapes,
    id: u32,
    row: &Row,
    limits: Limits,
) -> Result<Pmr, Refusal>
    requires opened { IsOpen pool.old }
    requires id { 1 ≤ id }
    requires can { IsTold pool.old → CanTake pool.old.pages limits shapes.now.schema.now shapes.now.file id row.now (shapes.now.column, path.Quadtree tree) }
    ensures took { IfOk result (λ grown. IsTold pool.old → (h : CanTake pool.old.pages limits shapes.now.schema.now shapes.now.file id row.now (shapes.now.column, path.Quadtree tree))
        → PathTook pool.old.pages pool.new.pages limits shapes.now.schema.now (rows_at pool.old.pages shapes.now.schema.now shapes.now.file) h.before id row.now shapes.now.column
        (path.Quadtree tree) (path.Quadtree grown)) }
    ensures full { IfErr result (λ e. e ≡ why.IndexFull → IsTold pool.old → (h : CanTake pool.old.pages limits shapes.now.schema.now shapes.now.file id row.now (shapes.now.column, path.Quadtree tree))
        → (gap : Measure) → IsMeasure gap → is_overfull limits (
          shapes.now.column,
          index_after gap (rows_at pool.old.pages shapes.now.schema.now shapes.now.file) shapes.now.column ((id, row.now) ∷ h.rest)
              (index_in pool.old.pages (path.Quadtree tree)),
        ) ≡ true) }
    ensures outside { IfErr result IsOutsideOrFull }
    ensures within { InCommand pool.old pool.new }
    ensures cause { HasStoreCause pool.old pool.new result }
{
    growth_laws();
    measure_laws();
    let Some(shape) = shape_at(row, shapes.column) else {
        return Err(Refusal::Memory);
    };
    // No row of a store over a disk that tells has a shape outside the plane.
    if !is_shape_in_plane(shape) {
        return Err(Refusal::Memory);
    }
    let mut grown = tree;
    match grown.insert(alloc, pool, shapes, id, shape, limits.listings) {
        Ok(()) => Ok(grown),
        Err(why) => Err(refusal_of_tree(why)),
    }
}

// Whether a value is an int or a text.
fn is_attribute(value: &Value) -> bool
    ensures { result ≡ true → IsAttribute value.now }
{
    match value {
        Value::Int(_) | Value::Text(_) => true,
        Value::Shape(_) => false,
    }
}

// An attribute index with the row of an id, the first that it doesn't have.
fn index_with_row<D: Disk>(
    pool: &mut Pool<D>,
    index: AttrIndex,
    shapes: &RowShapes,
    id: u32,
    row: &Row,
    limits: Limits,
) -> Result<AttrIndex, Refusal>
    requires opened { IsOpen pool.old }
    requires can { IsTold pool.old → CanTake pool.old.pages limits shapes.now.schema.now shapes.now.file id row.now (shapes.now.column, path.Attribute index) }
    ensures took { IfOk result (λ grown. IsTold pool.old → (h : CanTake pool.old.pages limits shapes.now.schema.now shapes.now.file id row.now (shapes.now.column, path.Attribute index))
        → PathTook pool.old.pages pool.new.pages limits shapes.now.schema.now (rows_at pool.old.pages shapes.now.schema.now shapes.now.file) h.before id row.now shapes.now.column
        (path.Attribute index) (path.Attribute grown)) }
    ensures outside { IfErr result IsOutside }
    ensures within { InCommand pool.old pool.new }
    ensures cause { HasStoreCause pool.old pool.new result }
{
    let _limits = limits;
    let Some(value) = value_at(row, shapes.column) else {
        return Err(Refusal::Memory);
    };
    // No row of a store over a disk that tells has a shape in such a column.
    if !is_attribute(value) {
        return Err(Refusal::Memory);
    }
    let mut grown = index;
    match grown.add(pool, value, id) {
        Ok(()) => Ok(grown),
        Err(why) => Err(refusal_of(why)),
    }
}

impl AccessPath {
    // The access path of a column with the row of an id, the first that it doesn't have. `IndexFull` comes exactly where
    // a quadtree would have too many listings.
    fn with_row_of<D: Disk>(
        &self,
        alloc: Global,
        pool: &mut Pool<D>,
        shapes: &RowShapes,
        id: u32,
        row: &Row,
        limits: Limits,
    ) -> Result<AccessPath, Refusal>
        requires opened { IsOpen pool.old }
        requires id { 1 ≤ id }
        requires can { IsTold pool.old → CanTake pool.old.pages limits shapes.now.schema.now shapes.now.file id row.now (shapes.now.column, self.now) }
        ensures took { IfOk result (λ grown. IsTold pool.old → (h : CanTake pool.old.pages limits shapes.now.schema.now shapes.now.file id row.now (shapes.now.column, self.now))
            → PathTook pool.old.pages pool.new.pages limits shapes.now.schema.now
            (rows_at pool.old.pages shapes.now.schema.now shapes.now.file) h.before id row.now shapes.now.column self.now grown) }
        ensures of { IfOk result (λ grown. IsPathOf shapes.now.schema.now (shapes.now.column, self.now) → IsPathOf shapes.now.schema.now (shapes.now.column, grown)) }
        ensures full { IfErr result (λ e. e ≡ why.IndexFull → IsTold pool.old → (h : CanTake pool.old.pages limits shapes.now.schema.now shapes.now.file id row.now (shapes.now.column, self.now))
            → (gap : Measure) → IsMeasure gap → is_overfull limits
            (shapes.now.column, index_after gap (rows_at pool.old.pages shapes.now.schema.now shapes.now.file) shapes.now.column ((id, row.now) ∷ h.rest) (index_in pool.old.pages self.now))
            ≡ true) }
        ensures outside { IfErr result IsOutsideOrFull }
        ensures within { InCommand pool.old pool.new }
        ensures cause { HasStoreCause pool.old pool.new result }
    {
        match self {
            AccessPath::Quadtree(tree) => {
                match tree_with(alloc, pool, *tree, shapes, id, row, limits) {
                    Ok(grown) => Ok(AccessPath::Quadtree(grown)),
                    Err(why) => Err(why),
                }
            }
            AccessPath::Attribute(index) => {
                match index_with_row(pool, *index, shapes, id, row, limits) {
                    Ok(grown) => Ok(AccessPath::Attribute(grown)),
                    Err(why) => Err(why),
                }
            }
        }
    }
}

/// The first row of a file from an id on.
pub fn row_from<D: Disk>(
    alloc: Global,
    pool: &mut Pool<D>,
    shapes: &RowShapes,
    from: u32,
) -> Result<Option<(u32, Row)>, Refusal>
    requires { IsTold pool.old → TableStands pool.old.pages shapes.now.schema.now shapes.now.file }
    ensures found { IfOk result (λ found. IsTold pool.old → found ≡ find (λ row. nat_le from row.0) (rows_at pool.old.pages shapes.now.schema.now shapes.now.file)) }
    ensures rises { IfOk result (λ found. IfSome found (λ row. from ≤ row.0)) }
    ensures read { IsRead pool.old pool.new }
    ensures outside { IfErr result IsOutside }
    ensures cause { HasStoreCause pool.old pool.new result }
{
    let id = match shapes.file.scan(pool, from) {
        Ok(Some(id)) => id,
        Ok(None) => return Ok(None),
        Err(why) => return Err(refusal_of(why)),
    };
    match shapes.file.fetch(alloc, pool, shapes.schema, id) {
        Ok(Some(row)) => Ok(Some((id, row))),
        // Each id of a store's file over a disk that tells has a row.
        Ok(None) => Err(Refusal::Memory),
        Err(why) => Err(refusal_of(why)),
    }
}

// An access path of no rows with all rows of a file, by ascending id.
fn filled<D: Disk>(
    alloc: Global,
    pool: &mut Pool<D>,
    path: AccessPath,
    shapes: &RowShapes,
    limits: Limits,
) -> Result<AccessPath, Refusal>
    requires opened { IsOpen pool.old }
    requires can { IsTold pool.old → CanFill pool.old.pages limits shapes.now.schema.now shapes.now.file (shapes.now.column, path) }
    ensures fills { IfOk result (λ filled. IsTold pool.old → Fills pool.old.pages pool.new.pages limits shapes.now.schema.now
        (rows_at pool.old.pages shapes.now.schema.now shapes.now.file) shapes.now.column path filled) }
    ensures of { IfOk result (λ filled. IsPathOf shapes.now.schema.now (shapes.now.column, path) → IsPathOf shapes.now.schema.now (shapes.now.column, filled)) }
    ensures full { IfErr result (λ e. e ≡ why.IndexFull → IsTold pool.old → (gap : Measure) → IsMeasure gap
        → is_overfull limits (
          shapes.now.column,
          index_after gap (rows_at pool.old.pages shapes.now.schema.now shapes.now.file) shapes.now.column
              (rows_at pool.old.pages shapes.now.schema.now shapes.now.file) (index_in pool.old.pages path),
        ) ≡ true) }
    ensures outside { IfErr result IsOutsideOrFull }
    ensures within { InCommand pool.old pool.new }
    ensures cause { HasStoreCause pool.old pool.new result }
{
    let mut filled = path;
    let mut from: u32 = 1;
    'rows: loop {
        let (id, row) = match row_from(alloc, pool, shapes, from) {
            Ok(Some(found)) => found,
            Ok(None) => return Ok(filled),
            Err(why) => return Err(why),
        };
        match filled.with_row_of(alloc, pool, shapes, id, &row, limits) {
            Ok(grown) => filled = grown,
            Err(why) => return Err(why),
        }
        // Ids of a store are far below the greatest number.
        let Some(next) = id.checked_add(1) else {
            return Err(Refusal::Memory);
        };
        from = next;
    }
}

// An index of a column to which all rows of the relation come one after another, in an open command.
fn filled_index<D: Disk>(
    alloc: Global,
    pool: &mut Pool<D>,
    relation: &Relation,
    column: usize,
    threshold: Option<u8>,
    number: u32,
    limits: Limits,
) -> Result<AccessPath, Refusal>
    requires opened { IsOpen pool.old }
    requires threshold { IsThreshold threshold }
    requires column { IsColumnAt relation.now.schema column (is_there threshold) }
    requires some { 1 ≤ limits.listings }
    requires stands { IsTold pool.old → RelationStands pool.old.pages limits relation.now }
    ensures builds { IfOk result (λ path. IsTold pool.old → Builds pool.old.pages pool.new.pages limits relation.now.schema (rows_in pool.old.pages relation.now) column threshold path) }
    ensures of { IfOk result (λ path. IsPathOf relation.now.schema (column, path)) }
    ensures full { IfErr result (λ e. e ≡ why.IndexFull → IsTold pool.old → (gap : Measure) → IsMeasure gap
        → is_overfull limits (column, new_index gap (rows_in pool.old.pages relation.now) column threshold) ≡ true) }
    ensures outside { IfErr result IsOutsideOrFull }
    ensures within { InCommand pool.old pool.new }
    ensures cause { HasStoreCause pool.old pool.new result }
{
    let path = match planted(pool, threshold, number) {
        Ok(path) => path,
        Err(why) => return Err(why),
    };
    let shapes = RowShapes {
        file: relation.file,
        schema: &relation.schema,
        column,
    };
    match filled(alloc, pool, path, &shapes, limits) {
        Ok(path) => Ok(path),
        Err(why) => Err(why),
    }
}

// An index of a column with all rows of the relation, in an open command.
fn built<D: Disk>(
    alloc: Global,
    pool: &mut Pool<D>,
    relation: &Relation,
    column: usize,
    threshold: Option<u8>,
    number: u32,
    limits: Limits,
) -> Result<AccessPath, Refusal>
    requires opened { IsOpen pool.old }
    requires threshold { IsThreshold threshold }
    requires column { IsColumnAt relation.now.schema column (is_there threshold) }
    requires some { 1 ≤ limits.listings }
    requires stands { IsTold pool.old → RelationStands pool.old.pages limits relation.now }
    ensures builds { IfOk result (λ path. IsTold pool.old → Builds pool.old.pages pool.new.pages limits relation.now.schema (rows_in pool.old.pages relation.now) column threshold path) }
    ensures of { IfOk result (λ path. IsPathOf relation.now.schema (column, path)) }
    ensures full { IfErr result (λ e. e ≡ why.IndexFull → IsTold pool.old → (gap : Measure) → IsMeasure gap
        → is_overfull limits (column, new_index gap (rows_in pool.old.pages relation.now) column threshold) ≡ true) }
    ensures outside { IfErr result IsOutsideOrFull }
    ensures within { InCommand pool.old pool.new }
    ensures cause { HasStoreCause pool.old pool.new result }
{
    match threshold {
        Some(threshold) => {
            match quadtree_of(alloc, pool, relation, column, threshold, number, limits) {
                Ok(tree) => Ok(AccessPath::Quadtree(tree)),
                Err(why) => Err(why),
            }
        }
        None => match filled_index(alloc, pool, relation, column, None, number, limits) {
            Ok(path) => Ok(path),
            Err(why) => Err(why),
        },
    }
}

// Makes an index of a column with all rows of the relation, in one command, and puts it behind the others.
fn add<D: Disk>(
    alloc: Global,
    pool: &mut Pool<D>,
    relation: &mut Relation,
    column: usize,
    threshold: Option<u8>,
    number: u32,
    limits: Limits,
) -> Result<(), Refusal>
    requires closed { IsClosed pool.old }
    requires threshold { IsThreshold threshold }
    requires column { IsColumnAt relation.old.schema column (is_there threshold) }
    requires some { 1 ≤ limits.listings }
    requires stands { IsTold pool.old → RelationStands pool.old.pages limits relation.old }
    requires owns { IsTold pool.old → (q : ℕ) → times q (relation_pages pool.old.pages relation.old) ≤ live (store_of pool.old.pages) q }
    ensures closed { IsClosed pool.new }
    ensures told { pool.new.disk.told ≡ pool.old.disk.told }
    ensures stamps { SettlesStamps pool.old pool.new }
    ensures became { OnOk result (IsTold pool.old → Became pool.old.pages pool.new.pages limits relation.old relation.new (λ gap. with_index gap column threshold)) }
    ensures added { OnOk result (HasPath relation.old relation.new column) }
    ensures unchanged { OnErr result (relation.new ≡ relation.old) }
    ensures reverted { OnErr result (IsTold pool.old → pool.new.pages ≡ pool.old.pages) }
    ensures full { IfErr result (λ e. e ≡ why.IndexFull → IsTold pool.old → (gap : Measure) → IsMeasure gap
        → check_listings limits (with_index gap column threshold (relation_in pool.old.pages relation.old)) ≡ Some why.IndexFull) }
    ensures outside { IfErr result IsOutsideOrFull }
    ensures cause { HasStoreCause pool.old pool.new result }
{
    match pool.begin() {
        Ok(()) => {}
        Err(why) => return Err(refusal_of(why)),
    }
    match built(alloc, pool, relation, column, threshold, number, limits) {
        Ok(path) => match relation.take_path(column, path) {
            Ok(()) => {
                pool.commit();
                Ok(())
            }
            Err(why) => {
                pool.abort();
                Err(why)
            }
        },
        Err(why) => {
            pool.abort();
            Err(why)
        }
    }
}

/// `index`: an index of a column, with the rows that are there. A quadtree is named in visits by the places of its
/// relation and column.
pub fn index<D: Disk>(
    alloc: Global,
    pool: &mut Pool<D>,
    relations: &mut Vec<Relation>,
    limits: Limits,
    name: &str,
    column: &str,
    threshold: Option<u8>,
) -> Result<(), Refusal>
    requires store { IsStore (record { relations = relations.old.items; limits = limits }) pool.old }
    requires threshold { IsThreshold threshold }
    ensures store { IsStore (record { relations = relations.new.items; limits = limits }) pool.new }
    ensures told { pool.new.disk.told ≡ pool.old.disk.told }
    ensures stamps { SettlesStamps pool.old pool.new }
    ensures indexed { OnOk result (Indexed (store_from relations.old.items limits pool.old) (store_from relations.new.items limits pool.new)
        (record { relation = name.now; column = column.now }) threshold) }
    ensures unchanged { OnErr result (IsUnchanged (store_from relations.old.items limits pool.old) (store_from relations.new.items limits pool.new)) }
    ensures refused { IfErr result (IsStatementRefused is_index_full (store_from relations.old.items limits pool.old) (Index (record { relation = name.now; column = column.now }) threshold)) }
    ensures cause { HasStoreCause pool.old pool.new result }
{
    let Some(at) = place_of(relations, name) else {
        return Err(Refusal::UnknownRelation);
    };
    let relation = &relations[at];
    let (place, kept) = match wanted(relation, column, threshold) {
        Ok(found) => found,
        Err(why) => return Err(why),
    };
    let number = (at * MOST_COLUMNS + place) as u32;
    let changed = &mut relations[at];
    match add(alloc, pool, changed, place, kept, number, limits) {
        Ok(()) => Ok(()),
        Err(why) => Err(why),
    }
}
