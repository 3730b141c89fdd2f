// The gap of any two figures, points, segments, polygons and rectangles, as a fraction.
ghost use Rattle.std.specs.Prelude.{◌≡◌};
ghost use Rattle.sand_base.specs.Plane.{IsGoalInClosedPlane, IsRectInClosedPlane, IsShapeInClosedPlane};
ghost use Rattle.sand_base.specs.declared.goal.Goal.TheVariants as goal;
ghost use Rattle.sand_base.specs.declared.shape.Shape.TheVariants as shape;
ghost use Rattle.sand_model.specs.FigureGap.{IsFigureGap};
ghost use Rattle.sand_model.specs.Figures.{IsPointOf};
ghost use Rattle.sand_model.specs.Gap.{IsLeast};

use crate::corners_inside::has_corner_in;
use crate::point_in_ring::inside;
use crate::ring_gaps::{ring_to_point, ring_to_rect, ring_to_ring, ring_to_segment};
use exact_frac::Frac;
use plane_geom::{
    gap_point_rect, gap_point_segment, gap_points, gap_rects, gap_segment_rect, gap_segments,
};
use sand_base::{Goal, Rect, Ring, Shape};

/// The gap of two shapes: 0 where a vertex of one lies inside the other's ring, else the squared distance of
/// their nearest points. It isn't in lowest terms.
#[inline]
pub fn gap_shapes(a: &Shape, b: &Shape) -> Frac
    requires a { IsShapeInClosedPlane a.now }
    requires b { IsShapeInClosedPlane b.now }
    ensures { IsFigureGap (goal.Shape a.now) (goal.Shape b.now) result }
{
    // Two points are the most usual, and neither has an inside.
    if let (Shape::Point(p), Shape::Point(q)) = (a, b) {
        return gap_points(*p, *q);
    }
    gap_others(a, b)
}

// The gap of two shapes, whatever they are: a call of its own, so that only the way of two points goes into the callers.
#[inline(never)]
fn gap_others(a: &Shape, b: &Shape) -> Frac
    requires a { IsShapeInClosedPlane a.now }
    requires b { IsShapeInClosedPlane b.now }
    ensures { IsFigureGap (goal.Shape a.now) (goal.Shape b.now) result }
{
    if has_corner_in(a, b) || has_corner_in(b, a) {
        Frac::new(0, 1)
    } else {
        nearest(a, b)
    }
}

// The squared distance of the nearest points of two shapes, where those of a polygon lie on its edges.
fn nearest(a: &Shape, b: &Shape) -> Frac
    requires a { IsShapeInClosedPlane a.now }
    requires b { IsShapeInClosedPlane b.now }
    ensures { IsLeast (IsPointOf a.now) (IsPointOf b.now) result.num result.den }
{
    match (a, b) {
        (Shape::Point(p), Shape::Point(q)) => gap_points(*p, *q),
        (Shape::Point(p), Shape::Segment(s)) => gap_point_segment(*p, *s),
        (Shape::Point(p), Shape::Polygon(ring)) => ring_to_point(ring.corners(), *p),
        (Shape::Segment(s), Shape::Point(p)) => gap_point_segment(*p, *s),
        (Shape::Segment(s), Shape::Segment(t)) => gap_segments(*s, *t),
        (Shape::Segment(s), Shape::Polygon(ring)) => ring_to_segment(ring.corners(), *s),
        (Shape::Polygon(ring), Shape::Point(p)) => ring_to_point(ring.corners(), *p),
        (Shape::Polygon(ring), Shape::Segment(s)) => ring_to_segment(ring.corners(), *s),
        (Shape::Polygon(ring), Shape::Polygon(other)) => ring_to_ring(
            ring.corners(),
            other.corners(),
        ),
    }
}

/// The gap of a shape and a closed rectangle.
pub fn gap_shape_rect(a: &Shape, r: Rect) -> Frac
    requires a { IsShapeInClosedPlane a.now }
    requires r { IsRectInClosedPlane r }
    ensures { IsFigureGap (goal.Shape a.now) (goal.Rect r) result }
{
    match a {
        Shape::Point(p) => gap_point_rect(*p, r),
        Shape::Segment(s) => gap_segment_rect(*s, r),
        Shape::Polygon(ring) => gap_polygon_rect(ring, r),
    }
}

// The gap of a polygon and a closed rectangle. One corner stands for all four: where no edge meets the rectangle,
// all are inside the ring or none is.
fn gap_polygon_rect(ring: &Ring, r: Rect) -> Frac
    requires { IsRectInClosedPlane r }
    ensures { IsFigureGap (goal.Shape (shape.Polygon ring.now)) (goal.Rect r) result }
{
    if inside(r.low, ring) {
        Frac::new(0, 1)
    } else {
        ring_to_rect(ring.corners(), r)
    }
}

/// The gap of a goal and a shape.
pub fn gap_goal(g: &Goal, s: &Shape) -> Frac
    requires g { IsGoalInClosedPlane g.now }
    requires s { IsShapeInClosedPlane s.now }
    ensures { IsFigureGap g.now (goal.Shape s.now) result }
{
    match g {
        Goal::Shape(from) => gap_shapes(from, s),
        Goal::Rect(window) => gap_shape_rect(s, *window),
    }
}

/// The gap of a goal and a closed rectangle.
pub fn gap_goal_rect(g: &Goal, r: Rect) -> Frac
    requires g { IsGoalInClosedPlane g.now }
    requires r { IsRectInClosedPlane r }
    ensures { IsFigureGap g.now (goal.Rect r) result }
{
    match g {
        Goal::Shape(from) => gap_shape_rect(from, r),
        Goal::Rect(window) => gap_rects(*window, r),
    }
}
