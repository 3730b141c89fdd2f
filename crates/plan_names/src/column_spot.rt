ghost use Rattle.std.specs.Prelude.{◌≡◌, ◌<◌, length, None, Ok};
ghost use Rattle.page_pool.specs.Disk.{PageMap};
ghost use Rattle.sand_store.specs.Catalog.{IsCatalog, IsDescribed};
ghost use Rattle.sand_store.specs.Contents.{database_in};
ghost use Rattle.sand_store.specs.Standing.{CatalogStands};
ghost use Rattle.plan_names.specs.Spots.{LeadsToColumn, IsColumnSpot, HasNoColumn, IfFound, names_of};

use sand_base::NoMemory;
use sand_store::{Catalog, Relation};
use std::alloc::Global;
use std::rc::Rc;

/// A column of a relation of the catalog.
#[derive(Drop)]
pub struct ColumnSpot {
    pub relation: Rc<Relation>,
    pub column: usize,
}

impl ColumnSpot {
    /// The column of these names, `None` exactly where there is none.
    pub fn named(
        alloc: Global,
        catalog: &Catalog,
        relation: &str,
        column: &str,
    ) -> Result<Option<ColumnSpot>, NoMemory>
        ensures leads { IfFound result (λ spot. (pages : PageMap) → LeadsToColumn (database_in pages catalog.now.relations) (names_of relation.now column.now) spot pages) }
        ensures described { IfFound result (λ spot. IsCatalog catalog.now → IsDescribed catalog.now.limits spot.relation.value) }
        ensures found { IfFound result (λ spot. (pages : PageMap) → CatalogStands pages catalog.now
            → IsColumnSpot (database_in pages catalog.now.relations) (names_of relation.now column.now) spot pages) }
        ensures inside { IfFound result (λ spot. spot.column < length spot.relation.value.schema) }
        ensures none { result ≡ Ok None → (pages : PageMap) → HasNoColumn (database_in pages catalog.now.relations) (names_of relation.now column.now) }
    {
        let Some(relation) = catalog.relation(relation) else {
            return Ok(None);
        };
        let Some(column) = relation.column(column) else {
            return Ok(None);
        };
        let relation = relation.shared(alloc)?;
        Ok(Some(ColumnSpot { relation, column }))
    }
}
