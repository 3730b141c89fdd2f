ghost use Rattle.std.specs.Prelude.{◌≡◌, ℕ, ◌+◌, List, Some, None, Ok, IfOk, IfSome};
ghost use Rattle.sand_base.specs.InRange.{IsValueInRange};
ghost use Rattle.page_pool.specs.Disk.{PageMap};
ghost use Rattle.page_pool.specs.Pool.{IsTold};
ghost use Rattle.code_btree.specs.Calls.{Peeks};
ghost use Rattle.sand_model.specs.Database.{Database};
ghost use Rattle.sand_model.specs.Operators.{PlanRow, kth, value_at};
ghost use Rattle.statements.specs.declared.column.Place.{Place};
ghost use Rattle.sand_store.specs.Contents.{database_in};
ghost use Rattle.sand_store.specs.Standing.{CatalogStands};
ghost use Rattle.plan_names.specs.Spots.{Stands, IsSpot, HasNoColumn, IfFound, names_of};

use crate::ColumnSpot;
use crate::row::{kth as kth_id, value_of};
use page_pool::{PageFault, Pages};
use sand_base::{NoMemory, Value};
use sand_store::{Catalog, Relation};
use std::alloc::Global;
use std::rc::Rc;

/// A place k.c of a plan's rows: a column of the relation of the k-th id, counted from 1.
#[derive(Drop)]
pub struct Spot {
    pub k: u32,
    pub relation: Rc<Relation>,
    pub column: usize,
}

impl Spot {
    /// The column of the name in the relation of the k-th id, which is the relation of this name. `None` comes exactly
    /// where there is no such column.
    pub fn named(
        alloc: Global,
        catalog: &Catalog,
        relation: &str,
        column: &str,
        k: u32,
    ) -> Result<Option<Spot>, NoMemory>
        ensures found { IfFound result (λ spot. (pages : PageMap) → CatalogStands pages catalog.now → (names : List (List ℕ)) (place : Place) → kth names place.k ≡ Some relation.now
            → place.k ≡ k → place.column ≡ column.now → IsSpot (database_in pages catalog.now.relations) names place spot pages) }
        ensures none { result ≡ Ok None → (pages : PageMap) → HasNoColumn (database_in pages catalog.now.relations) (names_of relation.now column.now) }
    {
        match ColumnSpot::named(alloc, catalog, relation, column)? {
            Some(ColumnSpot { relation, column }) => Ok(Some(Spot {
                k,
                relation,
                column,
            })),
            None => Ok(None),
        }
    }

    /// The value at the place of a row with these ids. It is read in place of the row of the k-th id, in one get more
    /// than the height of the relation's tree at most. `None` comes where there is no k-th id, or no row of it.
    pub fn value<P: Pages>(
        &self,
        alloc: Global,
        pages: &mut P,
        ids: &[u32],
    ) -> Result<Option<Value>, PageFault>
        requires { IsTold (P.shown pages.old) → Stands (P.shown pages.old).pages self.now.relation.value }
        ensures value { IfOk result (λ value. IsTold (P.shown pages.old) → (d : Database) (names : List (List ℕ)) (place : Place) (row : PlanRow)
            → IsSpot d names place self.now (P.shown pages.old).pages → row.ids ≡ ids.now → value ≡ value_at d names row place) }
        ensures in_range { IfOk result (λ value. IfSome value IsValueInRange) }
        ensures peeks { Peeks (P.shown pages.old) (P.shown pages.new) (self.now.relation.value.file.tree.height + 1) result }
    {
        let Some(id) = kth_id(ids, self.k) else {
            return Ok(None);
        };
        return value_of(alloc, pages, &self.relation, id, self.column);
    }
}
