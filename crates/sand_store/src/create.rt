// A new relation.
ghost use Rattle.std.specs.Prelude.{◌≡◌, map, IfErr, OnOk, OnErr};
ghost use Rattle.page_pool.specs.Commands.{SettlesStamps};
ghost use Rattle.page_pool.specs.Pool.{IsClosed};
ghost use Rattle.sand_base.specs.InRange.{IsSchemaInRange};
ghost use Rattle.std.specs.List.{list_any};
ghost use Rattle.sand_model.specs.Database.{same_name};
ghost use Rattle.sand_model.specs.Kept.{has_twice};
ghost use Rattle.statements.specs.Statement.{Create};
ghost use Rattle.sand_store.specs.Calls.{Created, IsUnchanged, IsStatementRefused, HasStoreCause, is_none};
ghost use Rattle.sand_store.specs.Standing.{IsStore};
ghost use Rattle.sand_store.specs.Steps.{store_from, create_check, AddsRelation, Reverts, IsOutside};

use crate::Relation;
use crate::refusal::refusal_of;
use crate::relation::named;
use page_pool::{Disk, Pool};
use sand_base::{Kind, Label, Limits, Refusal, Schema};
use std::alloc::Global;
use tuple_file::TupleFile;

/// The most relations that a store has.
const MOST_RELATIONS: usize = 64;

// Whether a column has the name.
fn has_name(columns: &[(Label, Kind)], name: &str) -> bool
    ensures { result ≡ list_any (λ column. same_name column.0 name.now) columns.now }
{
    columns.iter().any(|column| column.0.as_str() == name)
}

// Whether two columns have one name.
fn has_name_twice(columns: &[(Label, Kind)]) -> bool
    ensures { result ≡ has_twice (map (λ column. column.0) columns.now) }
{
    let mut rest = columns;
    'columns: while let [first, others @ ..] = rest {
        if has_name(others, first.0.as_str()) {
            return true;
        }
        rest = others;
    }
    false
}

// The first check of a new relation that fails.
fn refused(relations: &[Relation], name: &str, schema: &Schema) -> Option<Refusal>
    ensures { result ≡ create_check relations.now name.now schema.now }
{
    if named(relations, name).is_some() || has_name_twice(schema.columns()) {
        return Some(Refusal::NameTaken);
    }
    if relations.len() >= MOST_RELATIONS {
        return Some(Refusal::TooManyRelations);
    }
    None
}

// Plants a file and puts its relation behind the others, in one command.
fn add<D: Disk>(
    alloc: Global,
    pool: &mut Pool<D>,
    relations: &mut Vec<Relation>,
    name: Label,
    schema: Schema,
) -> Result<(), Refusal>
    requires { IsClosed pool.old }
    ensures closed { IsClosed pool.new }
    ensures told { pool.new.disk.told ≡ pool.old.disk.told }
    ensures stamps { SettlesStamps pool.old pool.new }
    ensures added { OnOk result (AddsRelation pool.old pool.new relations.old.items relations.new.items name schema) }
    ensures reverted { OnErr result (Reverts pool.old pool.new relations.old.items relations.new.items) }
    ensures outside { IfErr result IsOutside }
    ensures cause { HasStoreCause pool.old pool.new result }
{
    match pool.begin() {
        Ok(()) => {}
        Err(why) => return Err(refusal_of(why)),
    }
    match TupleFile::plant(pool) {
        Ok(file) => match relations.push(Relation::new(alloc, name, schema, file)) {
            Ok(()) => {
                pool.commit();
                Ok(())
            }
            Err(_full) => {
                pool.abort();
                Err(Refusal::Memory)
            }
        },
        Err(why) => {
            pool.abort();
            Err(refusal_of(why))
        }
    }
}

/// `create`: a new relation of these columns, the last one.
pub fn create<D: Disk>(
    alloc: Global,
    pool: &mut Pool<D>,
    relations: &mut Vec<Relation>,
    limits: Limits,
    name: &str,
    schema: Schema,
) -> Result<(), Refusal>
    requires store { IsStore (record { relations = relations.old.items; limits = limits }) pool.old }
    requires schema { IsSchemaInRange schema }
    ensures store { IsStore (record { relations = relations.new.items; limits = limits }) pool.new }
    ensures told { pool.new.disk.told ≡ pool.old.disk.told }
    ensures stamps { SettlesStamps pool.old pool.new }
    ensures created { OnOk result (Created (store_from relations.old.items limits pool.old) (store_from relations.new.items limits pool.new) name.now schema) }
    ensures unchanged { OnErr result (IsUnchanged (store_from relations.old.items limits pool.old) (store_from relations.new.items limits pool.new)) }
    ensures refused { IfErr result (IsStatementRefused is_none (store_from relations.old.items limits pool.old) (Create name.now schema)) }
    ensures cause { HasStoreCause pool.old pool.new result }
{
    match refused(relations, name, &schema) {
        Some(why) => return Err(why),
        None => {}
    }
    let Ok(label) = Label::new(alloc, name) else {
        return Err(Refusal::Memory);
    };
    match add(alloc, pool, relations, label, schema) {
        Ok(()) => Ok(()),
        Err(why) => Err(why),
    }
}
