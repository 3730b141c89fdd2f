ghost use Rattle.std.specs.Prelude.{◌≡◌, ◌<◌, ◌≤◌, min, true, false, None, Ok, IfOk, IfSome};
ghost use Rattle.sand_base.specs.Faults.{last_count};
ghost use Rattle.page_pool.specs.Disk.{PageMap};
ghost use Rattle.page_pool.specs.Pool.{IsTold};
ghost use Rattle.page_pool.specs.Reads.{IsRead};
ghost use Rattle.page_pool.specs.Causes.{HasPageCause};
ghost use Rattle.sand_model.specs.Database.{Database};
ghost use Rattle.statements.specs.declared.column.Column.{Column};
ghost use Rattle.plan_names.specs.Equals.{equals, GivesFirst};
ghost use Rattle.sand_store.specs.Catalog.{IsCatalog};
ghost use Rattle.sand_store.specs.Contents.{database_in};
ghost use Rattle.sand_store.specs.Standing.{CatalogStands};
ghost use Rattle.sand_store.specs.Standing.{kind_at};
ghost use Rattle.plan_names.specs.LookUpCosts.{is_int_kind, tells, LooksUp};
ghost use Rattle.plan_names.specs.Spots.{LeadsToColumn, IfFound, names_of};
ghost use Rattle.plan_names.specs.Indexed.{Holds, HasInts, IsLookUp, LacksIndex};
ghost use Rattle.attr_index.specs.Key.{IsAttribute};
ghost use Rattle.plan_names.specs.Steps.{IsInt, is_equal, found_in, id_of, GivesCandidate};

use crate::ColumnSpot;
use crate::row::{is_same, value_of};
use attr_index::{AttrIndex, key_of};
use page_pool::{PageFault, Pages};
use sand_base::{Kind, NoMemory, Value};
use sand_store::Catalog;
use std::alloc::Global;

/// A column of ints or texts with its index, in which rows are looked up by their value.
#[derive(Drop)]
pub struct LookUp {
    pub spot: ColumnSpot,
    pub index: AttrIndex,
}

// A row to which an entry leads, and whether it has the value.
#[derive(Clone, Copy)]
struct Candidate {
    id: u32,
    is_equal: bool,
}

// Whether the value that was found, where there is one, equals the given one.
fn has_equal(found: &Option<Value>, value: &Value) -> bool
    ensures { result ≡ is_equal value.now found.now }
{
    match found {
        Some(found) => is_same(found, value),
        None => false,
    }
}

impl LookUp {
    /// The column of these names with its attribute index. `None` comes where there is no such column, or it has no
    /// such index.
    pub fn named(
        alloc: Global,
        catalog: &Catalog,
        relation: &str,
        column: &str,
    ) -> Result<Option<LookUp>, NoMemory>
        ensures leads { IfFound result (λ l. (pages : PageMap) → LeadsToColumn (database_in pages catalog.now.relations) (names_of relation.now column.now) l.spot pages) }
        ensures found { IfFound result (λ l. (pages : PageMap) → CatalogStands pages catalog.now → IsLookUp (database_in pages catalog.now.relations) (names_of relation.now column.now) l pages) }
        ensures none { result ≡ Ok None → IsCatalog catalog.now → (pages : PageMap) → LacksIndex (database_in pages catalog.now.relations) (names_of relation.now column.now) false }
    {
        let Some(spot) = ColumnSpot::named(alloc, catalog, relation, column)? else {
            return Ok(None);
        };
        let Some(index) = spot.relation.attribute(spot.column) else {
            return Ok(None);
        };
        let index = *index;
        Ok(Some(LookUp { spot, index }))
    }

    /// Whether the column is one of ints.
    pub fn has_ints(&self) -> bool
        ensures ints { result ≡ true → HasInts self.now }
        ensures other { result ≡ false → HasInts self.now → ⊥ }
        ensures kind { result ≡ is_int_kind (kind_at self.now.spot.relation.value.schema self.now.spot.column) }
    {
        let spot = &self.spot;
        match spot.relation.schema().columns().get(spot.column) {
            Some((_, Kind::Int)) => true,
            _ => false,
        }
    }

    // Whether an entry tells the value: an int is known by its key, in a column of ints.
    fn is_told(&self, value: &Value) -> bool
        ensures told { result ≡ true → HasInts self.now × IsInt value.now }
        ensures tells { result ≡ tells self.now value.now }
    {
        match value {
            Value::Int(_) => self.has_ints(),
            _ => false,
        }
    }

    // The next entry above an id, and whether its row has an equal value.
    fn candidate<P: Pages>(
        &self,
        alloc: Global,
        pages: &mut P,
        value: &Value,
        last: u32,
    ) -> Result<Option<Candidate>, PageFault>
        requires attribute { IsAttribute value.now }
        requires small { self.now.spot.relation.value.next ≤ 4294967296 }
        requires holds { IsTold (P.shown pages.old) → Holds (P.shown pages.old).pages self.now }
        ensures candidate { IfOk result (λ found. IsTold (P.shown pages.old) → GivesCandidate last (found_in (P.shown pages.old).pages self.now value.now) found) }
        ensures rises { IfOk result (λ found. IfSome found (λ c. last < c.id)) }
        ensures read { IsRead (P.shown pages.old) (P.shown pages.new) }
        ensures up { min (P.shown pages.old).gets last_count ≤ (P.shown pages.new).gets }
        ensures cause { HasPageCause (P.shown pages.old) (P.shown pages.new) result }
        ensures costs { IsTold (P.shown pages.old) → LooksUp (P.shown pages.old).pages self.now value.now last (id_of result) (P.shown pages.old) (P.shown pages.new) }
    {
        let Some(id) = self.index.equal(pages, key_of(value), last)? else {
            return Ok(None);
        };
        if self.is_told(value) {
            return Ok(Some(Candidate { id, is_equal: true }));
        }
        match value_of(alloc, pages, &self.spot.relation, id, self.spot.column) {
            Ok(found) => Ok(Some(Candidate {
                id,
                is_equal: has_equal(&found, value),
            })),
            Err(fault) => Err(fault),
        }
    }

    /// The least id above `after` of a row whose value in the column equals this one, `None` where there is none. The
    /// index knows an int, but of a text the first 12 bytes alone: there the row of each id that it gives is read, until
    /// one has the value.
    pub fn next<P: Pages>(
        &self,
        alloc: Global,
        pages: &mut P,
        value: &Value,
        after: u32,
    ) -> Result<Option<u32>, PageFault>
        requires { IsTold (P.shown pages.old) → Holds (P.shown pages.old).pages self.now }
        ensures first { IfOk result (λ found. IsTold (P.shown pages.old) → (d : Database) (column : Column) → IsLookUp d column self.now (P.shown pages.old).pages
            → GivesFirst after (equals d column value.now) found) }
        ensures rises { IfOk result (λ found. IfSome found (λ id. after < id)) }
        ensures read { IsRead (P.shown pages.old) (P.shown pages.new) }
        ensures up { min (P.shown pages.old).gets last_count ≤ (P.shown pages.new).gets }
        ensures cause { HasPageCause (P.shown pages.old) (P.shown pages.new) result }
        ensures costs { IsTold (P.shown pages.old) → LooksUp (P.shown pages.old).pages self.now value.now after result (P.shown pages.old) (P.shown pages.new) }
    {
        if let Value::Shape(_) = value {
            return Ok(None);
        }
        let greatest = self.spot.relation.greatest();
        let mut last = after;
        'entries: while last < greatest {
            match self.candidate(alloc, pages, value, last) {
                Ok(Some(found)) => {
                    if found.is_equal {
                        return Ok(Some(found.id));
                    }
                    last = found.id;
                }
                Ok(None) => return Ok(None),
                Err(fault) => return Err(fault),
            }
        }
        Ok(None)
    }
}
