// A relation gets an R-tree of a column.
ghost use Rattle.std.specs.Prelude.{◌≡◌, ℕ, ◌≤◌, ◌<◌, Some, length, IfOk, IfErr, OnOk, OnErr};
ghost use Rattle.code_btree.specs.Tree.{times, live};
ghost use Rattle.page_pool.specs.Commands.{SettlesStamps};
ghost use Rattle.page_pool.specs.Pool.{IsOpen, IsClosed, IsTold};
ghost use Rattle.page_pool.specs.Reads.{IsRead};
ghost use Rattle.page_pool.specs.Steps.{InCommand};
ghost use Rattle.pmr_tree.specs.Quadtree.{store_of};
ghost use Rattle.r_tree.specs.Listing.{AreMembersOf, PlantsRows};
ghost use Rattle.sand_model.specs.Database.{shapes_of, with_rectangles};
ghost use Rattle.sand_base.specs.declared.limits.Limits.{Limits as Bounds};
ghost use Rattle.statements.specs.Statement.{Rtree};
ghost use Rattle.sand_store.specs.Calls.{HasStoreCause, Treed, IsUnchanged, IsStatementRefused, is_none};
ghost use Rattle.sand_store.specs.Contents.{rows_at, rows_in};
ghost use Rattle.sand_store.specs.Ownership.{relation_pages};
ghost use Rattle.sand_store.specs.Standing.{IsStore, RelationStands, TableStands};
ghost use Rattle.sand_store.specs.Steps.{store_from, Became, IsOutside};
ghost use Rattle.sand_store.specs.Treeing.{rtree_check, IsTreeWanted, HasTree};

use crate::Relation;
use crate::index::{MOST_COLUMNS, has_shapes, row_from};
use crate::refusal::refusal_of;
use crate::relation::place_of;
use crate::shapes::{RowShapes, plane_shape_at};
use page_pool::{Disk, Pool};
use r_tree::{RTree, rough_shape, tree_of_rows};
use sand_base::{Limits, Refusal, Rough};
use std::alloc::Global;

// The column of which an R-tree is wanted; or the first check that fails.
fn wanted(relation: &Relation, name: &str) -> Result<usize, Refusal>
    ensures found { IfOk result (λ at. IsTreeWanted relation.now name.now at) }
    ensures inside { IfOk result (λ at. at < length relation.now.schema) }
    ensures refused { IfErr result (λ refusal. rtree_check relation.now name.now ≡ Some refusal) }
{
    let Some(at) = relation.column(name) else {
        return Err(Refusal::UnknownColumn);
    };
    if !has_shapes(relation.schema.columns()[at].1) {
        return Err(Refusal::WrongKind);
    }
    if relation.rtree(at).is_some() {
        return Err(Refusal::IndexThere);
    }
    Ok(at)
}

/// The ids of a file's rows with the rough shapes that they have in a column, by ascending id.
pub fn members<D: Disk>(
    alloc: Global,
    pool: &mut Pool<D>,
    shapes: &RowShapes,
) -> Result<Vec<(u32, Rough)>, Refusal>
    requires { IsTold pool.old → TableStands pool.old.pages shapes.now.schema.now shapes.now.file }
    ensures members { IfOk result (λ members. IsTold pool.old → AreMembersOf members.items (shapes_of shapes.now.column (rows_at pool.old.pages shapes.now.schema.now shapes.now.file))) }
    ensures outside { IfErr result IsOutside }
    ensures read { IsRead pool.old pool.new }
    ensures cause { HasStoreCause pool.old pool.new result }
{
    let mut members = Vec::new(alloc);
    let mut from: u32 = 0;
    'rows: loop {
        let (id, row) = match row_from(alloc, pool, shapes, from) {
            Ok(Some(found)) => found,
            Ok(None) => return Ok(members),
            Err(why) => return Err(why),
        };
        // No row of a store over a disk that tells lacks a shape in such a column.
        let Some(shape) = plane_shape_at(&row, shapes.column) else {
            return Err(Refusal::Memory);
        };
        members.push((id, rough_shape(shape)))?;
        // Ids of a store are far below the greatest number.
        let Some(next) = id.checked_add(1) else {
            return Err(Refusal::Memory);
        };
        from = next;
    }
}

// An R-tree of a column with all rows of the relation, in an open command.
fn built<D: Disk>(
    alloc: Global,
    pool: &mut Pool<D>,
    relation: &Relation,
    column: usize,
    number: u32,
) -> Result<RTree, Refusal>
    requires opened { IsOpen pool.old }
    requires stands { IsTold pool.old → (limits : Bounds) × RelationStands pool.old.pages limits relation.now }
    ensures plants { IfOk result (λ tree. IsTold pool.old → PlantsRows pool.old.pages pool.new.pages tree number (shapes_of column (rows_in pool.old.pages relation.now))) }
    ensures outside { IfErr result IsOutside }
    ensures within { InCommand pool.old pool.new }
    ensures cause { HasStoreCause pool.old pool.new result }
{
    let shapes = RowShapes {
        file: relation.file,
        schema: &relation.schema,
        column,
    };
    let members = match members(alloc, pool, &shapes) {
        Ok(members) => members,
        Err(why) => return Err(why),
    };
    match tree_of_rows(alloc, pool, number, &members) {
        Ok(tree) => Ok(tree),
        Err(why) => Err(refusal_of(why)),
    }
}

// Makes an R-tree of a column with all rows of the relation, in one command, and puts it behind the others.
fn add<D: Disk>(
    alloc: Global,
    pool: &mut Pool<D>,
    relation: &mut Relation,
    column: usize,
    number: u32,
    limits: Limits,
) -> Result<(), Refusal>
    requires closed { IsClosed pool.old }
    requires stands { IsTold pool.old → RelationStands pool.old.pages limits relation.old }
    requires owns { IsTold pool.old → (q : ℕ) → times q (relation_pages pool.old.pages relation.old) ≤ live (store_of pool.old.pages) q }
    ensures closed { IsClosed pool.new }
    ensures told { pool.new.disk.told ≡ pool.old.disk.told }
    ensures stamps { SettlesStamps pool.old pool.new }
    ensures became { OnOk result (IsTold pool.old → Became pool.old.pages pool.new.pages limits relation.old relation.new (λ gap. with_rectangles column)) }
    ensures added { OnOk result (HasTree relation.old relation.new column) }
    ensures unchanged { OnErr result (relation.new ≡ relation.old) }
    ensures reverted { OnErr result (IsTold pool.old → pool.new.pages ≡ pool.old.pages) }
    ensures outside { IfErr result IsOutside }
    ensures cause { HasStoreCause pool.old pool.new result }
{
    let _limits = limits;
    match pool.begin() {
        Ok(()) => {}
        Err(why) => return Err(refusal_of(why)),
    }
    match built(alloc, pool, relation, column, number) {
        Ok(tree) => match relation.take_tree(column, tree) {
            Ok(()) => {
                pool.commit();
                Ok(())
            }
            Err(why) => {
                pool.abort();
                Err(why)
            }
        },
        Err(why) => {
            pool.abort();
            Err(why)
        }
    }
}

/// `rtree`: an R-tree of a column of shapes, with the rows that are there. It is named in visits by the places of its
/// relation and column.
pub fn rtree<D: Disk>(
    alloc: Global,
    pool: &mut Pool<D>,
    relations: &mut Vec<Relation>,
    limits: Limits,
    name: &str,
    column: &str,
) -> Result<(), Refusal>
    requires store { IsStore (record { relations = relations.old.items; limits = limits }) pool.old }
    ensures store { IsStore (record { relations = relations.new.items; limits = limits }) pool.new }
    ensures told { pool.new.disk.told ≡ pool.old.disk.told }
    ensures stamps { SettlesStamps pool.old pool.new }
    ensures treed { OnOk result (Treed (store_from relations.old.items limits pool.old) (store_from relations.new.items limits pool.new) (record { relation = name.now; column = column.now })) }
    ensures unchanged { OnErr result (IsUnchanged (store_from relations.old.items limits pool.old) (store_from relations.new.items limits pool.new)) }
    ensures refused { IfErr result (IsStatementRefused is_none (store_from relations.old.items limits pool.old) (Rtree (record { relation = name.now; column = column.now }))) }
    ensures cause { HasStoreCause pool.old pool.new result }
{
    let Some(at) = place_of(relations, name) else {
        return Err(Refusal::UnknownRelation);
    };
    let relation = &relations[at];
    let place = match wanted(relation, column) {
        Ok(place) => place,
        Err(why) => return Err(why),
    };
    let number = (at * MOST_COLUMNS + place) as u32;
    let changed = &mut relations[at];
    match add(alloc, pool, changed, place, number, limits) {
        Ok(()) => Ok(()),
        Err(why) => Err(why),
    }
}
