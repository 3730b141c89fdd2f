ghost use Rattle.std.specs.Prelude.{◌≡◌, ◌↔◌, IsTrue};
ghost use Rattle.sand_base.specs.Plane.{IsGoalInClosedPlane, IsInClosedPlane, IsRectInClosedPlane, IsSegmentInClosedPlane, IsShapeInClosedPlane};
ghost use Rattle.sand_base.specs.declared.goal.Goal.TheVariants as figure;
ghost use Rattle.sand_base.specs.declared.shape.Shape.TheVariants as shape;
ghost use Rattle.pmr_tree.specs.Entries.{figure_of};
ghost use Rattle.best_first.specs.Reach.{IsSameGap};
ghost use Rattle.rank_cursor.specs.Cursor.{goal_gap};
ghost use Rattle.near_cursor.specs.NearRanking.{is_rect_in_plane, bound_gap};

use exact_frac::Frac;
use plane_geom::gap_point_segment;
use ring_geom::{gap_goal, gap_goal_rect, gap_shapes};
use sand_base::{COORDINATE_BITS, Goal, Point, Rect, Rough, Segment, Shape};

// The length of a side of the plane.
const SIDE: u32 = 1 << COORDINATE_BITS;

// The gap of a rectangle from the goal.
pub fn rect_gap(goal: &Goal, r: Rect) -> Frac
    requires goal { IsGoalInClosedPlane goal.now }
    requires rect { IsRectInClosedPlane r }
    ensures { IsSameGap result (goal_gap goal.now (figure.Rect r)) }
{
    gap_goal_rect(goal, r)
}

// The gap of a shape from the goal.
pub fn shape_gap(goal: &Goal, shape: &Shape) -> Frac
    requires goal { IsGoalInClosedPlane goal.now }
    requires shape { IsShapeInClosedPlane shape.now }
    ensures { IsSameGap result (goal_gap goal.now (figure.Shape shape.now)) }
{
    gap_goal(goal, shape)
}

// The gap of a segment from a shape. From a point, the most usual goal, no inside is to be looked at.
fn segment_gap_from(from: &Shape, s: Segment) -> Frac
    requires from { IsShapeInClosedPlane from.now }
    requires segment { IsSegmentInClosedPlane s }
    ensures { IsSameGap result (goal_gap (figure.Shape from.now) (figure.Shape (shape.Segment s))) }
{
    if let Shape::Point(p) = from {
        return gap_point_segment(*p, s);
    }
    gap_shapes(from, &Shape::Segment(s))
}

// The gap of a segment from the goal.
pub fn segment_gap(goal: &Goal, s: Segment) -> Frac
    requires goal { IsGoalInClosedPlane goal.now }
    requires segment { IsSegmentInClosedPlane s }
    ensures { IsSameGap result (goal_gap goal.now (figure.Shape (shape.Segment s))) }
{
    match goal {
        Goal::Shape(from) => segment_gap_from(from, s),
        Goal::Rect(_) => shape_gap(goal, &Shape::Segment(s)),
    }
}

// Whether a point lies in the closed square round the plane.
fn is_point_in_plane(p: Point) -> bool
    ensures { IsTrue result ↔ IsInClosedPlane p }
{
    p.x <= SIDE && p.y <= SIDE
}

// Whether a rectangle lies in the closed square, its low corner at most its high one.
pub fn is_rect_in_plane(r: Rect) -> bool
    ensures { result ≡ is_rect_in_plane r }
{
    let is_ordered = r.low.x <= r.high.x && r.low.y <= r.high.y;
    let is_inside = r.high.x <= SIDE && r.high.y <= SIDE;
    is_ordered && is_inside
}

// Whether a rough shape lies in the closed square.
pub fn is_rough_in_plane(rough: Rough) -> bool
    ensures { IsTrue result ↔ IsGoalInClosedPlane (figure_of rough) }
{
    match rough {
        Rough::Point(p) => is_point_in_plane(p),
        Rough::Segment(s) => is_point_in_plane(s.a) && is_point_in_plane(s.b),
        Rough::Bound(r) => is_rect_in_plane(r),
    }
}

// The gap of a node's rectangle from the goal, 0 where it has none or one outside the closed square.
pub fn bound_gap(goal: &Goal, bound: Option<Rect>) -> Frac
    requires { IsGoalInClosedPlane goal.now }
    ensures { IsSameGap result (bound_gap goal.now bound) }
{
    match bound {
        Some(r) => {
            if is_rect_in_plane(r) {
                rect_gap(goal, r)
            } else {
                Frac::new(0, 1)
            }
        }
        None => Frac::new(0, 1),
    }
}
