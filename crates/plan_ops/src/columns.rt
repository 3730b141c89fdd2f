// Columns that passed their checks.
ghost use Rattle.std.specs.Prelude.{◌≡◌, true, false, IfOk};
ghost use Rattle.page_pool.specs.Disk.{PageMap};
ghost use Rattle.sand_store.specs.Catalog.{IsCatalog, IsDescribed, IsColumnAt};
ghost use Rattle.sand_store.specs.Contents.{database_in};
ghost use Rattle.sand_store.specs.Paths.{IsTreeOf};
ghost use Rattle.plan_sources.specs.NearPlans.{IsRtreeOf};
ghost use Rattle.sand_store.specs.Standing.{CatalogStands, RelationStands};
ghost use Rattle.plan_names.specs.Indexed.{IsLookUp};
ghost use Rattle.plan_sources.specs.Rankings.{IsColumnOf};
ghost use Rattle.plan_ops.specs.Checked.{IsChecked, IsNearChecked};

use plan_names::LookUp;
use plan_sources::{RtreeColumn, TreeColumn};
use sand_base::NoMemory;
use sand_store::Catalog;
use script_text::Column;
use std::alloc::Global;

/// The column of shapes of these names with its quadtree.
pub(crate) fn tree_column<'s>(catalog: &'s Catalog, column: &Column) -> TreeColumn<'s>
    requires described { IsCatalog catalog.now }
    requires checked { (pages : PageMap) → IsChecked (database_in pages catalog.now.relations) column.now true }
    ensures named { (pages : PageMap) → IsColumnOf pages result.relation.now result.column (database_in pages catalog.now.relations) column.now }
    ensures spatial { IsColumnAt result.relation.now.schema result.column true }
    ensures tree { IsTreeOf result.relation.now result.column result.tree.now }
    ensures stands { (pages : PageMap) → CatalogStands pages catalog.now → RelationStands pages catalog.now.limits result.relation.now }
{
    let Some(relation) = catalog.relation(column.relation.as_str()) else {
        unreachable!()
    };
    let Some(at) = relation.column(column.column.as_str()) else {
        unreachable!()
    };
    let Some(tree) = relation.quadtree(at) else {
        unreachable!()
    };
    TreeColumn {
        relation,
        column: at,
        tree,
    }
}

/// The column of shapes of these names with its R-tree.
pub(crate) fn rtree_column<'s>(catalog: &'s Catalog, column: &Column) -> RtreeColumn<'s>
    requires described { IsCatalog catalog.now }
    requires checked { (pages : PageMap) → IsNearChecked (database_in pages catalog.now.relations) column.now }
    ensures named { (pages : PageMap) → IsColumnOf pages result.relation.now result.column (database_in pages catalog.now.relations) column.now }
    ensures tree { IsRtreeOf result.relation.now result.column result.tree }
    ensures described { IsDescribed catalog.now.limits result.relation.now }
    ensures stands { (pages : PageMap) → CatalogStands pages catalog.now → RelationStands pages catalog.now.limits result.relation.now }
{
    let Some(relation) = catalog.relation(column.relation.as_str()) else {
        unreachable!()
    };
    let Some(at) = relation.column(column.column.as_str()) else {
        unreachable!()
    };
    let Some(tree) = relation.rtree(at) else {
        unreachable!()
    };
    RtreeColumn {
        relation,
        column: at,
        tree,
    }
}

/// The column of ints or texts of these names with its index.
pub(crate) fn look_up(alloc: Global, catalog: &Catalog, column: &Column) -> Result<LookUp, NoMemory>
    requires described { IsCatalog catalog.now }
    requires checked { (pages : PageMap) → IsChecked (database_in pages catalog.now.relations) column.now false }
    ensures { IfOk result (λ found. (pages : PageMap) → CatalogStands pages catalog.now → IsLookUp (database_in pages catalog.now.relations) column.now found pages) }
{
    let relation = column.relation.as_str();
    match LookUp::named(alloc, catalog, relation, column.column.as_str())? {
        Some(found) => Ok(found),
        None => unreachable!(),
    }
}
