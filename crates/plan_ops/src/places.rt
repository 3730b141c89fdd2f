// Places of a plan's rows that passed their checks.
ghost use Rattle.std.specs.Prelude.{◌≡◌, ◌++◌, List, map, None, OnOk, IfOk};
ghost use Rattle.page_pool.specs.Disk.{PageMap};
ghost use Rattle.sand_model.specs.Checks.{check_tests, check_places};
ghost use Rattle.sand_model.specs.Operators.{relations_of};
ghost use Rattle.sand_store.specs.Contents.{database_in};
ghost use Rattle.sand_store.specs.Standing.{CatalogStands};
ghost use Rattle.statements.specs.Plan.{plan_value};
ghost use Rattle.plan_names.specs.Spots.{IsSpot};
ghost use Rattle.plan_names.specs.declared.spot.Spot.{Spot as Place'};
ghost use Rattle.plan_stages.specs.Fetches.{AreSpots};
ghost use Rattle.plan_stages.specs.Tests.{IsTest, AreTests};
ghost use Rattle.plan_stages.specs.declared.tests.SpotTest.{SpotTest as Test'};
ghost use Rattle.plan_ops.specs.Checked.{IsPlaceChecked};

use plan_names::{Spot, relation_name};
use plan_stages::SpotTest;
use sand_base::NoMemory;
use sand_store::Catalog;
use script_text::{Place, Plan, Test};
use std::alloc::Global;

/// The place of the rows of a plan.
pub(crate) fn spot(
    alloc: Global,
    catalog: &Catalog,
    plan: &Plan,
    place: &Place,
) -> Result<Spot, NoMemory>
    requires { (pages : PageMap) → IsPlaceChecked (database_in pages catalog.now.relations) (relations_of (plan_value plan.now)) place.now }
    ensures { IfOk result (λ found. (pages : PageMap) → CatalogStands pages catalog.now → IsSpot (database_in pages catalog.now.relations) (relations_of (plan_value plan.now)) place.now found pages) }
{
    let Some(name) = relation_name(plan, place.k) else {
        unreachable!()
    };
    let column = place.column.as_str();
    match Spot::named(alloc, catalog, name.as_str(), column, place.k)? {
        Some(spot) => Ok(spot),
        None => unreachable!(),
    }
}

// A test of the rows of a plan.
fn spot_test(
    alloc: Global,
    catalog: &Catalog,
    plan: &Plan,
    test: &Test,
) -> Result<SpotTest, NoMemory>
    requires { (pages : PageMap) → IsPlaceChecked (database_in pages catalog.now.relations) (relations_of (plan_value plan.now)) test.now.place }
    ensures { IfOk result (λ found. (pages : PageMap) → CatalogStands pages catalog.now → IsTest (database_in pages catalog.now.relations) (relations_of (plan_value plan.now)) pages found test.now) }
{
    let value = test.value.copy(alloc)?;
    let spot = spot(alloc, catalog, plan, &test.place)?;
    Ok(SpotTest {
        spot,
        op: test.op,
        value,
    })
}

/// Adds the tests of the rows of a plan, in their order.
pub(crate) fn add_tests(
    alloc: Global,
    catalog: &Catalog,
    plan: &Plan,
    tests: &[Test],
    found: &mut Vec<SpotTest>,
) -> Result<(), NoMemory>
    requires { (pages : PageMap) → check_tests (database_in pages catalog.now.relations) (relations_of (plan_value plan.now)) tests.now ≡ None }
    ensures { OnOk result ((pages : PageMap) → CatalogStands pages catalog.now → (added : List Test')
        × ((found.new.items ≡ found.old.items ++ added) × AreTests (database_in pages catalog.now.relations) (relations_of (plan_value plan.now)) pages added tests.now)) }
{
    match tests {
        [] => Ok(()),
        [test, rest @ ..] => {
            found.push(spot_test(alloc, catalog, plan, test)?)?;
            add_tests(alloc, catalog, plan, rest, found)?;
            Ok(())
        }
    }
}

/// Adds the places of the rows of a plan, in their order.
pub(crate) fn add_spots(
    alloc: Global,
    catalog: &Catalog,
    plan: &Plan,
    places: &[Place],
    found: &mut Vec<Spot>,
) -> Result<(), NoMemory>
    requires { (pages : PageMap) → check_places (database_in pages catalog.now.relations) (relations_of (plan_value plan.now)) places.now ≡ None }
    ensures { OnOk result ((pages : PageMap) → CatalogStands pages catalog.now → (added : List Place')
        × ((found.new.items ≡ found.old.items ++ added) × AreSpots (database_in pages catalog.now.relations) (relations_of (plan_value plan.now)) pages added places.now)) }
{
    match places {
        [] => Ok(()),
        [place, rest @ ..] => {
            found.push(spot(alloc, catalog, plan, place)?)?;
            add_spots(alloc, catalog, plan, rest, found)?;
            Ok(())
        }
    }
}
