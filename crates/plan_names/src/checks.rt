ghost use Rattle.std.specs.Prelude.{◌≡◌, map, None};
ghost use Rattle.std.specs.Result.{result_err};
ghost use Rattle.page_pool.specs.Disk.{PageMap};
ghost use Rattle.sand_model.specs.Checks.{first_refusal, check, check_operators, check_tests, check_places};
ghost use Rattle.sand_model.specs.Operators.{relations_of};
ghost use Rattle.statements.specs.Plan.{Join, Match, plan_value};
ghost use Rattle.sand_model.specs.StatementChecks.{check_depth};
ghost use Rattle.sand_store.specs.Catalog.{IsCatalog};
ghost use Rattle.sand_store.specs.Contents.{database_in};
ghost use Rattle.plan_names.specs.OperatorCheck.{check_operator};

use crate::MOST_OPERATORS;
use crate::asked::{Asked, SearchedBy};
use crate::column::{check_column, check_relation};
use crate::place::{check_place, place_kind};
use sand_base::Refusal;
use sand_store::Catalog;
use script_text::{Column, Place, Plan, Test};

// The checks of the tests of a filter, from left to right.
fn check_tests(catalog: &Catalog, plan: &Plan, tests: &[Test]) -> Result<(), Refusal>
    ensures { (pages : PageMap) → result_err result ≡ check_tests (database_in pages catalog.now.relations) (relations_of (plan_value plan.now)) tests.now }
{
    'tests: for test in tests {
        let asked = Asked::ComparedWith(test.op, test.value.kind());
        check_place(catalog, plan, &test.place, asked)?;
    }
    Ok(())
}

// The checks of the places of a fetch, from left to right.
fn check_places(catalog: &Catalog, plan: &Plan, places: &[Place]) -> Result<(), Refusal>
    ensures { (pages : PageMap) → result_err result ≡ check_places (database_in pages catalog.now.relations) (relations_of (plan_value plan.now)) places.now }
{
    'places: for place in places {
        check_place(catalog, plan, place, Asked::Any)?;
    }
    Ok(())
}

// The checks of two columns of shapes, from left to right.
fn check_both(catalog: &Catalog, left: &Column, right: &Column) -> Result<(), Refusal>
    ensures { IsCatalog catalog.now → (pages : PageMap) → result_err result ≡ check_operator (database_in pages catalog.now.relations) (Join left.now right.now None) }
{
    check_column(catalog, left, Asked::Spatial, SearchedBy::Index)?;
    check_column(catalog, right, Asked::Spatial, SearchedBy::Index)
}

// The checks of a match: its place, and the column in which the value there is looked up.
fn check_match(
    catalog: &Catalog,
    plan: &Plan,
    place: &Place,
    column: &Column,
) -> Result<(), Refusal>
    ensures { IsCatalog catalog.now → (pages : PageMap) → result_err result ≡ check_operator (database_in pages catalog.now.relations) (Match (plan_value plan.now) place.now column.now) }
{
    check_place(catalog, plan, place, Asked::Any)?;
    let asked = Asked::MatchOf(place_kind(catalog, plan, place));
    check_column(catalog, column, asked, SearchedBy::Index)
}

// The checks of the outermost operator of a plan, where those beneath it pass.
fn check_operator(catalog: &Catalog, plan: &Plan) -> Result<(), Refusal>
    ensures { IsCatalog catalog.now → (pages : PageMap) → result_err result ≡ check_operator (database_in pages catalog.now.relations) (plan_value plan.now) }
{
    match plan {
        Plan::Scan { relation } => check_relation(catalog, relation.as_str()),
        Plan::Rank { column, .. } | Plan::Window { column, .. } => {
            check_column(catalog, column, Asked::Spatial, SearchedBy::Index)
        }
        Plan::Near { column, .. } => {
            check_column(catalog, column, Asked::Spatial, SearchedBy::Rtree)
        }
        Plan::PickEqual { column, value } => {
            check_column(
                catalog,
                column,
                Asked::EqualTo(value.kind()),
                SearchedBy::Index,
            )
        }
        Plan::PickBetween { column, .. } => {
            check_column(catalog, column, Asked::Int, SearchedBy::Index)
        }
        Plan::Join { left, right, .. }
        | Plan::Semi { left, right, .. }
        | Plan::Knn { left, right, .. } => check_both(catalog, left, right),
        Plan::Filter { plan, tests } => check_tests(catalog, plan, tests.as_slice()),
        Plan::Match {
            plan,
            place,
            column,
        } => check_match(catalog, plan, place, column),
        Plan::Fetch { plan, places } => check_places(catalog, plan, places.as_slice()),
        Plan::First { .. } => Ok(()),
        Plan::SortBy { plan, place } => check_place(catalog, plan, place, Asked::Int),
        Plan::SortNear { plan, place, .. } => check_place(catalog, plan, place, Asked::Spatial),
    }
}

/// The checks of a plan's operators, the innermost first. It reads no page and takes no memory.
#[cycle(check)]
pub fn check_operators(catalog: &Catalog, plan: &Plan) -> Result<(), Refusal>
    ensures { IsCatalog catalog.now → (pages : PageMap) → result_err result ≡ check_operators (database_in pages catalog.now.relations) (plan_value plan.now) }
{
    match plan {
        Plan::Filter { plan: inner, .. }
        | Plan::Match { plan: inner, .. }
        | Plan::Fetch { plan: inner, .. }
        | Plan::First { plan: inner, .. }
        | Plan::SortBy { plan: inner, .. }
        | Plan::SortNear { plan: inner, .. } => {
            check_operators(catalog, inner)?;
            check_operator(catalog, plan)
        }
        Plan::Scan { .. }
        | Plan::Rank { .. }
        | Plan::Near { .. }
        | Plan::Window { .. }
        | Plan::PickEqual { .. }
        | Plan::PickBetween { .. }
        | Plan::Join { .. }
        | Plan::Semi { .. }
        | Plan::Knn { .. } => check_operator(catalog, plan),
    }
}

/// The check of how many operators a plan has.
pub fn check_depth(plan: &Plan) -> Result<(), Refusal>
    ensures { result_err result ≡ check_depth (plan_value plan.now) }
{
    if plan.depth() > MOST_OPERATORS {
        return Err(Refusal::PlanTooDeep);
    }
    Ok(())
}

/// The checks of a plan: those of its operators, and then how many they are. The first that fails is the refusal.
/// It reads no page and takes no memory.
pub fn check(catalog: &Catalog, plan: &Plan) -> Result<(), Refusal>
    ensures { IsCatalog catalog.now → (pages : PageMap) → result_err result ≡ check (database_in pages catalog.now.relations) (plan_value plan.now) }
{
    check_operators(catalog, plan)?;
    check_depth(plan)
}
