// Rows of a list enter a relation, all or none.
ghost use Rattle.std.specs.Prelude.{◌≡◌, ℕ, ◌≤◌, [], length, None, All, IfOk, IfErr, OnOk, OnErr};
ghost use Rattle.page_pool.specs.Commands.{SettlesStamps};
ghost use Rattle.page_pool.specs.Pool.{IsOpen, IsClosed, IsTold};
ghost use Rattle.page_pool.specs.Steps.{InCommand};
ghost use Rattle.code_btree.specs.Tree.{times, live};
ghost use Rattle.pmr_tree.specs.Quadtree.{store_of};
ghost use Rattle.sand_base.specs.InRange.{IsRowInRange};
ghost use Rattle.sand_model.specs.Database.{with_row};
ghost use Rattle.sand_store.specs.Calls.{HasStoreCause, IsUnchanged, Loaded, LoadIsRefusedBy, IsRefusedPlainly, RefusesRows, OnePasses, loaded};
ghost use Rattle.sand_store.specs.Catalog.{IsLimits, IsDescribed};
ghost use Rattle.sand_store.specs.Contents.{relation_in};
ghost use Rattle.sand_store.specs.Loads.{row_refusal, plain_of, StopsAt, CountsRows, Enters};
ghost use Rattle.sand_store.specs.Ownership.{relation_pages};
ghost use Rattle.sand_store.specs.Standing.{RelationStands, IsStore};
ghost use Rattle.sand_store.specs.Steps.{Became, row_check, store_from};

use crate::admit::admitted;
use crate::insert::with_row;
use crate::refusal::refusal_of;
use crate::relation::{Relation, place_of};
use page_pool::{Disk, Pool};
use sand_base::{Limits, NoMemory, Refusal, Row};
use std::alloc::Global;

// Checks a row and puts it into the relation's file and indexes, in an open command. After a refusal the command is to
// be aborted.
fn enter<D: Disk>(
    alloc: Global,
    pool: &mut Pool<D>,
    relation: &mut Relation,
    row: &Row,
    limits: Limits,
) -> Result<(), Refusal>
    requires opened { IsOpen pool.old }
    requires range { IsRowInRange row.now }
    requires limits { IsLimits limits }
    requires described { IsDescribed limits relation.old }
    requires stands { IsTold pool.old → RelationStands pool.old.pages limits relation.old }
    requires owns { IsTold pool.old → (q : ℕ) → times q (relation_pages pool.old.pages relation.old) ≤ live (store_of pool.old.pages) q }
    ensures counts { OnOk result (CountsRows limits relation.old relation.new 1) }
    ensures passes { OnOk result (row_check limits relation.old row.now ≡ None) }
    ensures became { OnOk result (IsTold pool.old → Became pool.old.pages pool.new.pages limits relation.old relation.new (λ gap. with_row gap row.now)) }
    ensures stops { IfErr result (StopsAt (IsTold pool.old) limits (λ setting. row_refusal setting row.now (relation_in pool.old.pages relation.old))) }
    ensures plain { IfErr result (RefusesRows (row_check limits relation.old row.now) (row_check limits relation.old row.now ≡ None)) }
    ensures within { InCommand pool.old pool.new }
    ensures cause { HasStoreCause pool.old pool.new result }
{
    let bytes = match admitted(alloc, relation, row, limits) {
        Ok(bytes) => bytes,
        Err(why) => return Err(why),
    };
    match with_row(alloc, pool, relation, row, &bytes, limits) {
        Ok(growth) => {
            relation.take_over(growth);
            Ok(())
        }
        Err(why) => Err(why),
    }
}

// Rows enter the relation in their order, in an open command. After a refusal the command is to be aborted.
fn enter_all<D: Disk>(
    alloc: Global,
    pool: &mut Pool<D>,
    relation: &mut Relation,
    rows: &[Row],
    limits: Limits,
) -> Result<(), Refusal>
    requires opened { IsOpen pool.old }
    requires range { All IsRowInRange rows.now }
    requires limits { IsLimits limits }
    requires described { IsDescribed limits relation.old }
    requires stands { IsTold pool.old → RelationStands pool.old.pages limits relation.old }
    requires owns { IsTold pool.old → (q : ℕ) → times q (relation_pages pool.old.pages relation.old) ≤ live (store_of pool.old.pages) q }
    ensures counts { OnOk result (CountsRows limits relation.old relation.new (length rows.now)) }
    ensures enters { OnOk result (IsTold pool.old → Enters pool.old.pages pool.new.pages limits relation.old relation.new rows.now []) }
    ensures passes { OnOk result (plain_of limits relation.old rows.now ≡ None) }
    ensures stops { IfErr result (StopsAt (IsTold pool.old) limits (λ setting. (loaded setting rows.now (relation_in pool.old.pages relation.old)).0)) }
    ensures plain { IfErr result (RefusesRows (plain_of limits relation.old rows.now) (OnePasses rows.now (plain_of limits relation.old))) }
    ensures within { InCommand pool.old pool.new }
    ensures cause { HasStoreCause pool.old pool.new result }
{
    'rows: for row in rows {
        match enter(alloc, pool, relation, row, limits) {
            Ok(()) => {}
            Err(why) => return Err(why),
        }
    }
    Ok(())
}

// Rows enter a copy of the relation in their order, in one command, and the copy is given.
fn add_all<D: Disk>(
    alloc: Global,
    pool: &mut Pool<D>,
    relation: &Relation,
    rows: &[Row],
    limits: Limits,
) -> Result<Relation, Refusal>
    requires closed { IsClosed pool.old }
    requires range { All IsRowInRange rows.now }
    requires limits { IsLimits limits }
    requires described { IsDescribed limits relation.now }
    requires stands { IsTold pool.old → RelationStands pool.old.pages limits relation.now }
    requires owns { IsTold pool.old → (q : ℕ) → times q (relation_pages pool.old.pages relation.now) ≤ live (store_of pool.old.pages) q }
    ensures closed { IsClosed pool.new }
    ensures told { pool.new.disk.told ≡ pool.old.disk.told }
    ensures stamps { SettlesStamps pool.old pool.new }
    ensures counts { IfOk result (λ grown. CountsRows limits relation.now grown (length rows.now)) }
    ensures enters { IfOk result (λ grown. IsTold pool.old → Enters pool.old.pages pool.new.pages limits relation.now grown rows.now []) }
    ensures passes { IfOk result (λ grown. plain_of limits relation.now rows.now ≡ None) }
    ensures reverted { OnErr result (IsTold pool.old → pool.new.pages ≡ pool.old.pages) }
    ensures stops { IfErr result (StopsAt (IsTold pool.old) limits (λ setting. (loaded setting rows.now (relation_in pool.old.pages relation.now)).0)) }
    ensures plain { IfErr result (RefusesRows (plain_of limits relation.now rows.now) (OnePasses rows.now (plain_of limits relation.now))) }
    ensures cause { HasStoreCause pool.old pool.new result }
{
    let Ok(mut grown) = relation.copy(alloc) else {
        return Err(Refusal::Memory);
    };
    match pool.begin() {
        Ok(()) => {}
        Err(why) => return Err(refusal_of(why)),
    }
    match enter_all(alloc, pool, &mut grown, rows, limits) {
        Ok(()) => {
            pool.commit();
            Ok(grown)
        }
        Err(why) => {
            pool.abort();
            Err(why)
        }
    }
}

/// `load_rows`: rows more of the relation, in their order and under its next ids, all or none. It gives their number.
pub fn load_rows<D: Disk>(
    alloc: Global,
    pool: &mut Pool<D>,
    relations: &mut Vec<Relation>,
    limits: Limits,
    name: &str,
    rows: &[Row],
) -> Result<u32, Refusal>
    requires store { IsStore (record { relations = relations.old.items; limits = limits }) pool.old }
    requires rows { All IsRowInRange rows.now }
    ensures store { IsStore (record { relations = relations.new.items; limits = limits }) pool.new }
    ensures told { pool.new.disk.told ≡ pool.old.disk.told }
    ensures stamps { SettlesStamps pool.old pool.new }
    ensures loaded { IfOk result (λ count. Loaded (store_from relations.old.items limits pool.old) (store_from relations.new.items limits pool.new) name.now rows.now count) }
    ensures unchanged { OnErr result (IsUnchanged (store_from relations.old.items limits pool.old) (store_from relations.new.items limits pool.new)) }
    ensures refused { IfErr result (LoadIsRefusedBy (store_from relations.old.items limits pool.old) name.now rows.now) }
    ensures plain { IfErr result (IsRefusedPlainly (store_from relations.old.items limits pool.old) name.now rows.now) }
    ensures cause { HasStoreCause pool.old pool.new result }
{
    let Some(at) = place_of(relations, name) else {
        return Err(Refusal::UnknownRelation);
    };
    let relation = &relations[at];
    let first = relation.next;
    let grown = match add_all(alloc, pool, relation, rows, limits) {
        Ok(grown) => grown,
        Err(why) => return Err(why),
    };
    let count = grown.next - first;
    relations[at] = grown;
    Ok(count)
}
