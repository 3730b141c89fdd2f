ghost use Rattle.std.specs.Prelude.{◌≡◌, ℕ, List, [], ◌∷◌, ◌++◌, option_map};
ghost use Rattle.std.specs.Result.{result_err};
ghost use Rattle.page_pool.specs.Disk.{PageMap};
ghost use Rattle.sand_model.specs.Checks.{place_kind, check_place};
ghost use Rattle.sand_model.specs.Operators.{relations_of, kth};
ghost use Rattle.sand_store.specs.Contents.{database_in};
ghost use Rattle.plan_names.specs.Asked.{is_asked};
ghost use Rattle.statements.specs.Plan.{plan_value};
ghost use Rattle.plan_names.specs.Search.{IsNamePlace};

use crate::asked::Asked;
use crate::column::kind_named;
use sand_base::{Kind, Label, Refusal};
use sand_store::Catalog;
use script_text::{Place, Plan};

// A search goes on with one name more behind the others, where it has not found its name.
fn or_next<'p>(looked: Result<&'p Label, u32>, name: &'p Label) -> Result<&'p Label, u32>
    ensures { (names : List (List ℕ)) (at : ℕ) → IsNamePlace names at looked.entry → IsNamePlace (names ++ name.now ∷ []) at result }
{
    match looked {
        Ok(found) => Ok(found),
        Err(0) => Ok(name),
        Err(behind) => Err(behind - 1),
    }
}

// The search for a place, counted from 0, among the relations of a plan's rows.
#[cycle(name)]
fn name_at(plan: &Plan, at: u32) -> Result<&Label, u32>
    ensures { IsNamePlace (relations_of (plan_value plan.now)) at result }
{
    match plan {
        Plan::Scan { relation } => or_next(Err(at), relation),
        Plan::Rank { column, .. }
        | Plan::Near { column, .. }
        | Plan::Window { column, .. }
        | Plan::PickEqual { column, .. }
        | Plan::PickBetween { column, .. } => or_next(Err(at), &column.relation),
        Plan::Join { left, right, .. }
        | Plan::Semi { left, right, .. }
        | Plan::Knn { left, right, .. } => {
            or_next(or_next(Err(at), &left.relation), &right.relation)
        }
        Plan::Match { plan, column, .. } => or_next(name_at(plan, at), &column.relation),
        Plan::Filter { plan, .. }
        | Plan::Fetch { plan, .. }
        | Plan::First { plan, .. }
        | Plan::SortBy { plan, .. }
        | Plan::SortNear { plan, .. } => name_at(plan, at),
    }
}

/// The name of the relation of the `k`th id, counted from 1, of a plan's rows; None where they have fewer ids.
pub fn relation_name(plan: &Plan, k: u32) -> Option<&Label>
    ensures { option_map (λ name. name.now) result ≡ kth (relations_of (plan_value plan.now)) k }
{
    if k == 0 {
        return None;
    }
    match name_at(plan, k - 1) {
        Ok(name) => Some(name),
        Err(_) => None,
    }
}

/// The kind of the values at a place of a plan's rows.
pub fn place_kind(catalog: &Catalog, plan: &Plan, place: &Place) -> Option<Kind>
    ensures { (pages : PageMap) → result ≡ place_kind (database_in pages catalog.now.relations) (relations_of (plan_value plan.now)) place.now }
{
    let name = relation_name(plan, place.k)?;
    let relation = catalog.relation(name.as_str())?;
    kind_named(relation, place.column.as_str())
}

/// The checks of a place: it is there, and its kind is one that is asked.
pub fn check_place(
    catalog: &Catalog,
    plan: &Plan,
    place: &Place,
    asked: Asked,
) -> Result<(), Refusal>
    ensures { (pages : PageMap) → result_err result ≡ check_place (database_in pages catalog.now.relations) (relations_of (plan_value plan.now)) place.now (is_asked asked) }
{
    let Some(kind) = place_kind(catalog, plan, place) else {
        return Err(Refusal::UnknownColumn);
    };
    if asked.includes(kind) {
        Ok(())
    } else {
        Err(Refusal::WrongKind)
    }
}
