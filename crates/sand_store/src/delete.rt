// A relation loses a row.
ghost use Rattle.std.specs.Prelude.{◌≡◌, ℕ, ◌≤◌, Some, None, IfOk, IfErr, OnOk, OnErr};
ghost use Rattle.page_pool.specs.Commands.{SettlesStamps};
ghost use Rattle.page_pool.specs.Pool.{IsOpen, IsClosed, IsTold};
ghost use Rattle.page_pool.specs.Reads.{IsRead};
ghost use Rattle.page_pool.specs.Steps.{InCommand};
ghost use Rattle.tuple_file.specs.Rows.{of_id};
ghost use Rattle.sand_base.specs.declared.limits.Limits.{Limits as Bounds};
ghost use Rattle.sand_base.specs.declared.refusal.Refusal.TheVariants as why;
ghost use Rattle.statements.specs.Statement.{Delete};
ghost use Rattle.sand_store.specs.Calls.{HasStoreCause, Deleted, IsUnchanged, IsStatementRefused, is_missing};
ghost use Rattle.sand_store.specs.Catalog.{IsPathOf};
ghost use Rattle.sand_store.specs.Contents.{rows_in};
ghost use Rattle.sand_store.specs.Leaving.{RelationCanLose, Shrank, IsOutsideOrMissing};
ghost use Rattle.sand_store.specs.Standing.{RelationStands, IsStore};
ghost use Rattle.sand_store.specs.Steps.{SamePlaces, SameColumns, IsOutside, store_from};
ghost use Rattle.std.specs.List.{All};

use crate::refusal::refusal_of;
use crate::relation::{Relation, Roots, place_of};
use crate::shrink::shrunk_paths;
use crate::trees::{RowChange, changed_trees};
use page_pool::{Disk, Pool};
use sand_base::{Limits, Refusal, Row};
use std::alloc::Global;

// The row of the id. No relation has a row of the id 0.
fn found<D: Disk>(
    alloc: Global,
    pool: &mut Pool<D>,
    relation: &Relation,
    id: u32,
) -> Result<Row, Refusal>
    requires stands { IsTold pool.old → (bounds : Bounds) × RelationStands pool.old.pages bounds relation.now }
    ensures id { IfOk result (λ row. 1 ≤ id) }
    ensures there { IfOk result (λ row. IsTold pool.old → of_id id (rows_in pool.old.pages relation.now) ≡ Some row) }
    ensures missing { IfErr result (λ e. e ≡ why.NoSuchId → IsTold pool.old → of_id id (rows_in pool.old.pages relation.now) ≡ None) }
    ensures outside { IfErr result IsOutsideOrMissing }
    ensures read { IsRead pool.old pool.new }
    ensures cause { HasStoreCause pool.old pool.new result }
{
    if id == 0 {
        return Err(Refusal::NoSuchId);
    }
    match relation.file.fetch(alloc, pool, &relation.schema, id) {
        Ok(Some(row)) => Ok(row),
        Ok(None) => Err(Refusal::NoSuchId),
        Err(why) => Err(refusal_of(why)),
    }
}

// Takes the row of an id out of the relation's file and out of each of its indexes and R-trees, in an open command, and gives the
// numbers that lead to them then. After a refusal the command is to be aborted.
fn without_row<D: Disk>(
    alloc: Global,
    pool: &mut Pool<D>,
    relation: &Relation,
    id: u32,
    row: &Row,
) -> Result<Roots, Refusal>
    requires opened { IsOpen pool.old }
    requires id { 1 ≤ id }
    requires can { IsTold pool.old → (bounds : Bounds) × RelationCanLose pool.old.pages bounds relation.now id row.now }
    ensures shrank { IfOk result (λ roots. IsTold pool.old → (bounds : Bounds) → RelationCanLose pool.old.pages bounds relation.now id row.now
        → Shrank pool.old.pages pool.new.pages bounds relation.now id roots.file roots.paths.items roots.trees.items) }
    ensures places { IfOk result (λ roots. All (IsPathOf relation.now.schema) relation.now.paths → SamePlaces relation.now.schema relation.now.paths roots.paths.items) }
    ensures columns { IfOk result (λ roots. SameColumns relation.now.trees roots.trees.items) }
    ensures outside { IfErr result IsOutside }
    ensures within { InCommand pool.old pool.new }
    ensures cause { HasStoreCause pool.old pool.new result }
{
    let mut file = relation.file;
    match file.take(pool, id) {
        Ok(_there) => {}
        Err(why) => return Err(refusal_of(why)),
    }
    let paths = match shrunk_paths(alloc, pool, &relation.paths, id, row) {
        Ok(paths) => paths,
        Err(why) => return Err(why),
    };
    match changed_trees(alloc, pool, &relation.trees, RowChange::Leaves, id, row) {
        Ok(trees) => Ok(Roots { file, paths, trees }),
        Err(why) => Err(why),
    }
}

// Takes the row of an id out of the relation's file, indexes and R-trees, in one command, and gives the numbers that lead to
// them then.
fn remove<D: Disk>(
    alloc: Global,
    pool: &mut Pool<D>,
    relation: &Relation,
    id: u32,
    row: &Row,
) -> Result<Roots, Refusal>
    requires closed { IsClosed pool.old }
    requires id { 1 ≤ id }
    requires can { IsTold pool.old → (bounds : Bounds) × RelationCanLose pool.old.pages bounds relation.now id row.now }
    ensures closed { IsClosed pool.new }
    ensures told { pool.new.disk.told ≡ pool.old.disk.told }
    ensures stamps { SettlesStamps pool.old pool.new }
    ensures shrank { IfOk result (λ roots. IsTold pool.old → (bounds : Bounds) → RelationCanLose pool.old.pages bounds relation.now id row.now
        → Shrank pool.old.pages pool.new.pages bounds relation.now id roots.file roots.paths.items roots.trees.items) }
    ensures places { IfOk result (λ roots. All (IsPathOf relation.now.schema) relation.now.paths → SamePlaces relation.now.schema relation.now.paths roots.paths.items) }
    ensures columns { IfOk result (λ roots. SameColumns relation.now.trees roots.trees.items) }
    ensures reverted { OnErr result (IsTold pool.old → pool.new.pages ≡ pool.old.pages) }
    ensures outside { IfErr result IsOutside }
    ensures cause { HasStoreCause pool.old pool.new result }
{
    match pool.begin() {
        Ok(()) => {}
        Err(why) => return Err(refusal_of(why)),
    }
    match without_row(alloc, pool, relation, id, row) {
        Ok(roots) => {
            pool.commit();
            Ok(roots)
        }
        Err(why) => {
            pool.abort();
            Err(why)
        }
    }
}

/// `delete`: the relation without the row of the id.
pub fn delete<D: Disk>(
    alloc: Global,
    pool: &mut Pool<D>,
    relations: &mut Vec<Relation>,
    limits: Limits,
    name: &str,
    id: u32,
) -> Result<(), Refusal>
    requires store { IsStore (record { relations = relations.old.items; limits = limits }) pool.old }
    ensures store { IsStore (record { relations = relations.new.items; limits = limits }) pool.new }
    ensures told { pool.new.disk.told ≡ pool.old.disk.told }
    ensures stamps { SettlesStamps pool.old pool.new }
    ensures deleted { OnOk result (Deleted (store_from relations.old.items limits pool.old) (store_from relations.new.items limits pool.new) name.now id) }
    ensures unchanged { OnErr result (IsUnchanged (store_from relations.old.items limits pool.old) (store_from relations.new.items limits pool.new)) }
    ensures refused { IfErr result (IsStatementRefused is_missing (store_from relations.old.items limits pool.old) (Delete name.now id)) }
    ensures cause { HasStoreCause pool.old pool.new result }
{
    let Some(at) = place_of(relations, name) else {
        return Err(Refusal::UnknownRelation);
    };
    let relation = &relations[at];
    let row = match found(alloc, pool, relation, id) {
        Ok(row) => row,
        Err(why) => return Err(why),
    };
    let roots = match remove(alloc, pool, relation, id, &row) {
        Ok(roots) => roots,
        Err(why) => return Err(why),
    };
    relations[at].lead_to(id, roots);
    Ok(())
}
