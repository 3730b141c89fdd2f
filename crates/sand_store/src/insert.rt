// A relation gets a row.
ghost use Rattle.std.specs.Prelude.{◌≡◌, ℕ, ◌≤◌, length, Some, IfOk, IfErr, OnErr};
ghost use Rattle.page_pool.specs.Commands.{SettlesStamps};
ghost use Rattle.page_pool.specs.Pool.{IsOpen, IsClosed, IsTold};
ghost use Rattle.page_pool.specs.Steps.{InCommand};
ghost use Rattle.code_btree.specs.Tree.{times, live};
ghost use Rattle.pmr_tree.specs.Quadtree.{store_of};
ghost use Rattle.sand_model.specs.Database.{with_row};
ghost use Rattle.sand_model.specs.Kept.{longest_row};
ghost use Rattle.sand_model.specs.RowSize.{row_size};
ghost use Rattle.tuple_codec.specs.Encoding.{encoding};
ghost use Rattle.tuple_codec.specs.Decoding.{IsRowFor};
ghost use Rattle.sand_base.specs.declared.refusal.Refusal.TheVariants as why;
ghost use Rattle.sand_model.specs.Measure.{Measure, IsMeasure};
ghost use Rattle.sand_model.specs.StatementChecks.{check_listings};
ghost use Rattle.sand_store.specs.Contents.{relation_in};
ghost use Rattle.sand_base.specs.InRange.{IsRowInRange};
ghost use Rattle.statements.specs.Statement.{Insert};
ghost use Rattle.sand_store.specs.Calls.{HasStoreCause, RowInserted, IsUnchanged, IsStatementRefused, is_index_full};
ghost use Rattle.sand_store.specs.Catalog.{IsDescribed};
ghost use Rattle.sand_store.specs.Ownership.{relation_pages};
ghost use Rattle.sand_store.specs.Standing.{RelationStands, IsStore};
ghost use Rattle.sand_store.specs.Steps.{SamePlaces, SameColumns, IsOutsideOrFull, Grew, store_from};

use crate::admit::admitted;
use crate::grow::grown_paths;
use crate::refusal::refusal_of;
use crate::relation::{Growth, Relation, place_of};
use crate::trees::{RowChange, changed_trees};
use page_pool::{Disk, Pool};
use sand_base::{Limits, Refusal, Row};
use std::alloc::Global;

/// Puts the row into the relation's file and into each of its indexes and R-trees, in an open command, and gives the numbers that
/// lead to them then. After a refusal the command is to be aborted.
pub fn with_row<D: Disk>(
    alloc: Global,
    pool: &mut Pool<D>,
    relation: &Relation,
    row: &Row,
    bytes: &[u8],
    limits: Limits,
) -> Result<Growth, Refusal>
    requires opened { IsOpen pool.old }
    requires row { IsRowFor relation.now.schema row.now }
    requires bytes { bytes.now ≡ encoding row.now }
    requires some { 1 ≤ length bytes.now }
    requires short { length bytes.now ≤ 3900 }
    requires size { row_size row.now ≤ longest_row }
    requires described { IsDescribed limits relation.now }
    requires stands { IsTold pool.old → RelationStands pool.old.pages limits relation.now }
    requires owns { IsTold pool.old → (q : ℕ) → times q (relation_pages pool.old.pages relation.now) ≤ live (store_of pool.old.pages) q }
    ensures grew { IfOk result (λ growth. IsTold pool.old → Grew pool.old.pages pool.new.pages limits relation.now growth.file growth.paths.items growth.trees.items growth.span row.now) }
    ensures places { IfOk result (λ growth. SamePlaces relation.now.schema relation.now.paths growth.paths.items) }
    ensures columns { IfOk result (λ growth. SameColumns relation.now.trees growth.trees.items) }
    ensures full { IfErr result (λ e. e ≡ why.IndexFull → IsTold pool.old → (gap : Measure) → IsMeasure gap
        → check_listings limits (with_row gap row.now (relation_in pool.old.pages relation.now)) ≡ Some why.IndexFull) }
    ensures outside { IfErr result IsOutsideOrFull }
    ensures within { InCommand pool.old pool.new }
    ensures cause { HasStoreCause pool.old pool.new result }
{
    let id = relation.next;
    let mut file = relation.file;
    let span = match file.put_placed(pool, id, bytes) {
        Ok(span) => span,
        Err(why) => return Err(refusal_of(why)),
    };
    let paths = match grown_paths(
        alloc,
        pool,
        &relation.paths,
        file,
        &relation.schema,
        id,
        row,
        limits,
    ) {
        Ok(paths) => paths,
        Err(why) => return Err(why),
    };
    match changed_trees(alloc, pool, &relation.trees, RowChange::Enters, id, row) {
        Ok(trees) => Ok(Growth {
            file,
            span,
            paths,
            trees,
        }),
        Err(why) => Err(why),
    }
}

// Puts the row into the relation's file, indexes and R-trees, in one command, and gives the numbers that lead to them then.
fn add<D: Disk>(
    alloc: Global,
    pool: &mut Pool<D>,
    relation: &Relation,
    row: &Row,
    bytes: &[u8],
    limits: Limits,
) -> Result<Growth, Refusal>
    requires closed { IsClosed pool.old }
    requires row { IsRowFor relation.now.schema row.now }
    requires bytes { bytes.now ≡ encoding row.now }
    requires some { 1 ≤ length bytes.now }
    requires short { length bytes.now ≤ 3900 }
    requires size { row_size row.now ≤ longest_row }
    requires described { IsDescribed limits relation.now }
    requires stands { IsTold pool.old → RelationStands pool.old.pages limits relation.now }
    requires owns { IsTold pool.old → (q : ℕ) → times q (relation_pages pool.old.pages relation.now) ≤ live (store_of pool.old.pages) q }
    ensures closed { IsClosed pool.new }
    ensures told { pool.new.disk.told ≡ pool.old.disk.told }
    ensures stamps { SettlesStamps pool.old pool.new }
    ensures grew { IfOk result (λ growth. IsTold pool.old → Grew pool.old.pages pool.new.pages limits relation.now growth.file growth.paths.items growth.trees.items growth.span row.now) }
    ensures places { IfOk result (λ growth. SamePlaces relation.now.schema relation.now.paths growth.paths.items) }
    ensures columns { IfOk result (λ growth. SameColumns relation.now.trees growth.trees.items) }
    ensures reverted { OnErr result (IsTold pool.old → pool.new.pages ≡ pool.old.pages) }
    ensures full { IfErr result (λ e. e ≡ why.IndexFull → IsTold pool.old → (gap : Measure) → IsMeasure gap
        → check_listings limits (with_row gap row.now (relation_in pool.old.pages relation.now)) ≡ Some why.IndexFull) }
    ensures outside { IfErr result IsOutsideOrFull }
    ensures cause { HasStoreCause pool.old pool.new result }
{
    match pool.begin() {
        Ok(()) => {}
        Err(why) => return Err(refusal_of(why)),
    }
    match with_row(alloc, pool, relation, row, bytes, limits) {
        Ok(growth) => {
            pool.commit();
            Ok(growth)
        }
        Err(why) => {
            pool.abort();
            Err(why)
        }
    }
}

/// `insert`: one row more of the relation, under its next id.
pub fn insert<D: Disk>(
    alloc: Global,
    pool: &mut Pool<D>,
    relations: &mut Vec<Relation>,
    limits: Limits,
    name: &str,
    row: &Row,
) -> Result<u32, Refusal>
    requires store { IsStore (record { relations = relations.old.items; limits = limits }) pool.old }
    requires row { IsRowInRange row.now }
    ensures store { IsStore (record { relations = relations.new.items; limits = limits }) pool.new }
    ensures told { pool.new.disk.told ≡ pool.old.disk.told }
    ensures stamps { SettlesStamps pool.old pool.new }
    ensures inserted { IfOk result (λ id. RowInserted (store_from relations.old.items limits pool.old) (store_from relations.new.items limits pool.new) name.now row.now id) }
    ensures unchanged { OnErr result (IsUnchanged (store_from relations.old.items limits pool.old) (store_from relations.new.items limits pool.new)) }
    ensures refused { IfErr result (IsStatementRefused is_index_full (store_from relations.old.items limits pool.old) (Insert name.now row.now)) }
    ensures cause { HasStoreCause pool.old pool.new result }
{
    let Some(at) = place_of(relations, name) else {
        return Err(Refusal::UnknownRelation);
    };
    let relation = &relations[at];
    let id = relation.next;
    let bytes = match admitted(alloc, relation, row, limits) {
        Ok(bytes) => bytes,
        Err(why) => return Err(why),
    };
    let growth = match add(alloc, pool, relation, row, &bytes, limits) {
        Ok(growth) => growth,
        Err(why) => return Err(why),
    };
    relations[at].take_over(growth);
    Ok(id)
}
