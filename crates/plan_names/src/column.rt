ghost use Rattle.std.specs.Prelude.{◌≡◌, Some};
ghost use Rattle.std.specs.Result.{result_err};
ghost use Rattle.page_pool.specs.Disk.{PageMap};
ghost use Rattle.sand_base.specs.declared.limits.Limits.{Limits};
ghost use Rattle.sand_model.specs.Checks.{kind_named, is_indexed, has_rectangles, check_search, check_relation};
ghost use Rattle.sand_store.specs.Catalog.{IsCatalog, IsDescribed};
ghost use Rattle.sand_store.specs.Contents.{relation_in, database_in};
ghost use Rattle.plan_names.specs.Asked.{is_asked};
ghost use Rattle.plan_names.specs.ColumnCheck.{check_in, has_search};

use crate::asked::{Asked, SearchedBy, is_spatial};
use sand_base::{Kind, Refusal};
use sand_store::{Catalog, Relation};
use script_text::Column;

/// The kind of the column of the name.
pub fn kind_named(relation: &Relation, name: &str) -> Option<Kind>
    ensures { (pages : PageMap) → result ≡ kind_named (relation_in pages relation.now) name.now }
{
    let at = relation.column(name)?;
    let column = relation.schema().columns().get(at)?;
    Some(column.1)
}

// Whether the column of the name, which is of the kind, has an index.
fn is_indexed(relation: &Relation, name: &str, kind: Kind) -> bool
    ensures { (limits : Limits) → IsDescribed limits relation.now → (pages : PageMap) → kind_named (relation_in pages relation.now) name.now ≡ Some kind
        → is_indexed (relation_in pages relation.now) name.now ≡ result }
{
    let Some(at) = relation.column(name) else {
        return false;
    };
    if is_spatial(kind) {
        relation.quadtree(at).is_some()
    } else {
        relation.attribute(at).is_some()
    }
}

// Whether the column of the name has an R-tree.
fn has_rectangles(relation: &Relation, name: &str) -> bool
    ensures { (pages : PageMap) → has_rectangles (relation_in pages relation.now) name.now ≡ result }
{
    let Some(at) = relation.column(name) else {
        return false;
    };
    relation.rtree(at).is_some()
}

// Whether the column of the name, which is of the kind, has what it is searched by.
fn has_search(relation: &Relation, name: &str, kind: Kind, way: SearchedBy) -> bool
    ensures { (limits : Limits) → IsDescribed limits relation.now → (pages : PageMap) → kind_named (relation_in pages relation.now) name.now ≡ Some kind
        → has_search way (relation_in pages relation.now) name.now ≡ result }
{
    match way {
        SearchedBy::Index => is_indexed(relation, name, kind),
        SearchedBy::Rtree => has_rectangles(relation, name),
    }
}

// The checks of a column in a relation that is there.
fn check_in(relation: &Relation, name: &str, asked: Asked, way: SearchedBy) -> Result<(), Refusal>
    ensures { (limits : Limits) → IsDescribed limits relation.now → (pages : PageMap) → result_err result ≡ check_in (has_search way) (relation_in pages relation.now) name.now (is_asked asked) }
{
    let Some(kind) = kind_named(relation, name) else {
        return Err(Refusal::UnknownColumn);
    };
    if !asked.includes(kind) {
        return Err(Refusal::WrongKind);
    }
    if !has_search(relation, name, kind, way) {
        return Err(Refusal::NoIndex);
    }
    Ok(())
}

/// The checks of a column: its relation is there, it is there, its kind is one that is asked, it has what it is searched
/// by.
pub fn check_column(
    catalog: &Catalog,
    column: &Column,
    asked: Asked,
    way: SearchedBy,
) -> Result<(), Refusal>
    ensures { IsCatalog catalog.now → (pages : PageMap) → result_err result ≡ check_search (has_search way) (database_in pages catalog.now.relations) column.now (is_asked asked) }
{
    let Some(relation) = catalog.relation(column.relation.as_str()) else {
        return Err(Refusal::UnknownRelation);
    };
    check_in(relation, column.column.as_str(), asked, way)
}

/// The check of a relation that is scanned: it is there.
pub fn check_relation(catalog: &Catalog, name: &str) -> Result<(), Refusal>
    ensures { (pages : PageMap) → result_err result ≡ check_relation (database_in pages catalog.now.relations) name.now }
{
    match catalog.relation(name) {
        Some(_) => Ok(()),
        None => Err(Refusal::UnknownRelation),
    }
}
