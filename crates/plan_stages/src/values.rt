// Values at places of rows.
ghost use Rattle.std.specs.Prelude.{◌≡◌, ◌+◌, ◌≤◌, [], ◌∷◌, ◌++◌, ℕ, List, min, option_to_list, true, IfOk, OnOk};
ghost use Rattle.std.specs.List.{list_all};
ghost use Rattle.sand_base.specs.Faults.{last_count};
ghost use Rattle.page_pool.specs.Causes.{HasPageCause};
ghost use Rattle.page_pool.specs.Pool.{IsTold};
ghost use Rattle.page_pool.specs.Reads.{IsRead};
ghost use Rattle.sand_model.specs.Database.{Database};
ghost use Rattle.sand_model.specs.Operators.{PlanRow, value_at, fetched_values};
ghost use Rattle.sand_model.specs.PlainLines.{fits_line};
ghost use Rattle.statements.specs.declared.column.Place.{Place};
ghost use Rattle.plan_iterator.specs.Rows.{row_of};
ghost use Rattle.plan_names.specs.Spots.{Stands, IsSpot};
ghost use Rattle.plan_stages.specs.Prices.{spot_price, spots_price};
ghost use Rattle.plan_stages.specs.Fetches.{AreSpots, SpotsStand};

use page_pool::{PageFault, Pages};
use plan_iterator::Answer;
use plan_names::Spot;
use sand_base::{NoMemory, Row, Value};
use std::alloc::Global;

// A copy of the values of a row.
pub(crate) fn copied(alloc: Global, row: &Row) -> Result<Vec<Value>, NoMemory>
    ensures { IfOk result (λ values. values.items ≡ row.now) }
{
    let all = row.values();
    let mut values = Vec::with_capacity(alloc, all.len())?;
    'values: for value in all {
        values.push(value.copy(alloc)?)?;
    }
    Ok(values)
}

// Adds a value.
fn push(values: &mut Vec<Value>, value: Value) -> Result<(), NoMemory>
    ensures { OnOk result (values.new.items ≡ values.old.items ++ value ∷ []) }
{
    values.push(value)?;
    Ok(())
}

// Adds the value at a place of a row with these ids, where there is one.
fn add_value<P: Pages>(
    alloc: Global,
    pages: &mut P,
    spot: &Spot,
    ids: &[u32],
    values: &mut Vec<Value>,
) -> Result<(), PageFault>
    requires stands { IsTold (P.shown pages.old) → Stands (P.shown pages.old).pages spot.now.relation.value }
    ensures value { OnOk result (IsTold (P.shown pages.old) → (d : Database) (names : List (List ℕ)) (place : Place) (row : PlanRow)
        → IsSpot d names place spot.now (P.shown pages.old).pages → row.ids ≡ ids.now → values.new.items ≡ values.old.items ++ option_to_list (value_at d names row place)) }
    ensures fits { OnOk result (list_all fits_line values.old.items ≡ true → list_all fits_line values.new.items ≡ true) }
    ensures read { IsRead (P.shown pages.old) (P.shown pages.new) }
    ensures up { min (P.shown pages.old).gets last_count ≤ (P.shown pages.new).gets }
    ensures cause { HasPageCause (P.shown pages.old) (P.shown pages.new) result }
    ensures most { (P.shown pages.new).gets ≤ (P.shown pages.old).gets + spot_price spot.now }
{
    match spot.value(alloc, pages, ids) {
        Ok(Some(value)) => match push(values, value) {
            Ok(()) => Ok(()),
            Err(NoMemory {}) => Err(PageFault::Memory),
        },
        Ok(None) => Ok(()),
        Err(fault) => Err(fault),
    }
}

// Adds the values at the places of a row with these ids.
fn add_values<P: Pages>(
    alloc: Global,
    pages: &mut P,
    spots: &[Spot],
    ids: &[u32],
    values: &mut Vec<Value>,
) -> Result<(), PageFault>
    requires stands { SpotsStand (P.shown pages.old) spots.now }
    ensures value { OnOk result (IsTold (P.shown pages.old) → (d : Database) (names : List (List ℕ)) (places : List Place) (row : PlanRow)
        → AreSpots d names (P.shown pages.old).pages spots.now places → row.ids ≡ ids.now → values.new.items ≡ values.old.items ++ fetched_values d names row places) }
    ensures fits { OnOk result (list_all fits_line values.old.items ≡ true → list_all fits_line values.new.items ≡ true) }
    ensures read { IsRead (P.shown pages.old) (P.shown pages.new) }
    ensures up { min (P.shown pages.old).gets last_count ≤ (P.shown pages.new).gets }
    ensures cause { HasPageCause (P.shown pages.old) (P.shown pages.new) result }
    ensures most { (P.shown pages.new).gets ≤ (P.shown pages.old).gets + spots_price spots.now }
{
    match spots {
        [] => Ok(()),
        [spot, rest @ ..] => match add_value(alloc, pages, spot, ids, values) {
            Ok(()) => add_values(alloc, pages, rest, ids, values),
            Err(fault) => Err(fault),
        },
    }
}

/// The values of a row, and behind them those at the places.
pub(crate) fn with_values<P: Pages>(
    alloc: Global,
    pages: &mut P,
    spots: &[Spot],
    row: &Answer,
) -> Result<Row, PageFault>
    requires stands { SpotsStand (P.shown pages.old) spots.now }
    ensures value { IfOk result (λ values. IsTold (P.shown pages.old) → (d : Database) (names : List (List ℕ)) (places : List Place)
        → AreSpots d names (P.shown pages.old).pages spots.now places → values ≡ row.now.values ++ fetched_values d names (row_of row.now) places) }
    ensures fits { IfOk result (λ values. list_all fits_line values ≡ true) }
    ensures read { IsRead (P.shown pages.old) (P.shown pages.new) }
    ensures up { min (P.shown pages.old).gets last_count ≤ (P.shown pages.new).gets }
    ensures cause { HasPageCause (P.shown pages.old) (P.shown pages.new) result }
    ensures most { (P.shown pages.new).gets ≤ (P.shown pages.old).gets + spots_price spots.now }
{
    match copied(alloc, &row.values) {
        Ok(mut values) => match add_values(alloc, pages, spots, row.ids.as_slice(), &mut values) {
            Ok(()) => Ok(Row::new(values)),
            Err(fault) => Err(fault),
        },
        Err(NoMemory {}) => Err(PageFault::Memory),
    }
}
