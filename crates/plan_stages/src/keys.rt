// The keys of rows: what stands at a place, or how far it is from a goal.
ghost use Rattle.std.specs.Prelude.{◌≡◌, ◌+◌, ◌≤◌, ◌↔◌, ℕ, List, Some, true, min, IfOk, option_map};
ghost use Rattle.sand_base.specs.Faults.{last_count};
ghost use Rattle.sand_base.specs.Grid.{IsInPlane};
ghost use Rattle.sand_base.specs.Plane.{IsShapeInPlane};
ghost use Rattle.sand_base.specs.declared.goal.Goal.TheVariants as figure;
ghost use Rattle.page_pool.specs.Causes.{HasPageCause};
ghost use Rattle.page_pool.specs.Pool.{IsTold};
ghost use Rattle.page_pool.specs.Reads.{IsRead};
ghost use Rattle.sand_model.specs.Database.{Database};
ghost use Rattle.sand_model.specs.Operators.{PlanRow, number_at, with_gap};
ghost use Rattle.statements.specs.declared.column.Place.{Place};
ghost use Rattle.plan_names.specs.Spots.{Stands, IsSpot};
ghost use Rattle.plan_iterator.specs.Lowest.{lowest_of};
ghost use Rattle.plan_iterator.specs.Rows.{plan_measure};
ghost use Rattle.plan_stages.specs.SortPrices.{key_price};

use exact_frac::Frac;
use page_pool::{PageFault, Pages};
use plan_names::Spot;
use ring_geom::gap_shapes;
use sand_base::{COORDINATE_BITS, Point, Shape, Value};
use std::alloc::Global;

// Whether the point is a grid point of the plane.
fn is_in_plane(at: Point) -> bool
    ensures { (result ≡ true) ↔ IsInPlane at }
{
    at.x < 1 << COORDINATE_BITS && at.y < 1 << COORDINATE_BITS
}

// Whether the shape lies in the plane. A ring does.
fn is_shape_in_plane(shape: &Shape) -> bool
    ensures inside { result ≡ true → IsShapeInPlane shape.now }
    ensures all { IsShapeInPlane shape.now → result ≡ true }
{
    match shape {
        Shape::Point(at) => is_in_plane(*at),
        Shape::Segment(way) => is_in_plane(way.a) && is_in_plane(way.b),
        Shape::Polygon(ring) => ring.corners().len() >= 3,
    }
}

// The gap of two shapes of the plane; None where one of them lies outside it, as no shape of a row does.
fn gap_between(goal: &Shape, shape: &Shape) -> Option<Frac>
    ensures { IsShapeInPlane goal.now → IsShapeInPlane shape.now → option_map lowest_of result ≡ Some (plan_measure (figure.Shape goal.now) (figure.Shape shape.now)) }
{
    if !is_shape_in_plane(goal) || !is_shape_in_plane(shape) {
        return None;
    }
    Some(gap_shapes(goal, shape))
}

/// The int at the place of a row with these ids, 0 where there is none.
pub(crate) fn number<P: Pages>(
    alloc: Global,
    pages: &mut P,
    spot: &Spot,
    ids: &[u32],
) -> Result<i64, PageFault>
    requires stands { IsTold (P.shown pages.old) → Stands (P.shown pages.old).pages spot.now.relation.value }
    ensures number { IfOk result (λ key. IsTold (P.shown pages.old) → (d : Database) (names : List (List ℕ)) (place : Place) (row : PlanRow)
        → IsSpot d names place spot.now (P.shown pages.old).pages → row.ids ≡ ids.now → key ≡ number_at d names place row) }
    ensures read { IsRead (P.shown pages.old) (P.shown pages.new) }
    ensures up { min (P.shown pages.old).gets last_count ≤ (P.shown pages.new).gets }
    ensures cause { HasPageCause (P.shown pages.old) (P.shown pages.new) result }
    ensures most { (P.shown pages.new).gets ≤ (P.shown pages.old).gets + key_price spot.now }
{
    match spot.value(alloc, pages, ids) {
        Ok(Some(Value::Int(number))) => Ok(number),
        Ok(_) => Ok(0),
        Err(fault) => Err(fault),
    }
}

/// The gap of the shape at the place of a row with these ids from a goal in the plane, None where there is no shape.
pub(crate) fn gap<P: Pages>(
    alloc: Global,
    pages: &mut P,
    spot: &Spot,
    goal: &Shape,
    ids: &[u32],
) -> Result<Option<Frac>, PageFault>
    requires stands { IsTold (P.shown pages.old) → Stands (P.shown pages.old).pages spot.now.relation.value }
    ensures gap { IfOk result (λ key. IsTold (P.shown pages.old) → IsShapeInPlane goal.now → (d : Database) (names : List (List ℕ)) (place : Place) (row : PlanRow)
        → IsSpot d names place spot.now (P.shown pages.old).pages → row.ids ≡ ids.now → record row { gap = option_map lowest_of key } ≡ with_gap plan_measure d names place goal.now row) }
    ensures read { IsRead (P.shown pages.old) (P.shown pages.new) }
    ensures up { min (P.shown pages.old).gets last_count ≤ (P.shown pages.new).gets }
    ensures cause { HasPageCause (P.shown pages.old) (P.shown pages.new) result }
    ensures most { (P.shown pages.new).gets ≤ (P.shown pages.old).gets + key_price spot.now }
{
    match spot.value(alloc, pages, ids) {
        Ok(Some(Value::Shape(shape))) => Ok(gap_between(goal, &shape)),
        Ok(_) => Ok(None),
        Err(fault) => Err(fault),
    }
}
