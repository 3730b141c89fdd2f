// The least distances of a ring's edges, each in one pass over them.
ghost use Rattle.sand_base.specs.Plane.{IsInClosedPlane, IsRectInClosedPlane, IsRing, IsSegmentInClosedPlane};
ghost use Rattle.sand_model.specs.Points.{IsInRect, IsOnSegment, IsPoint};
ghost use Rattle.sand_model.specs.Gap.{IsLeast};
ghost use Rattle.sand_model.specs.Rings.{IsOnRing};

use crate::edges::edge;
use exact_frac::Frac;
use plane_geom::{gap_point_segment, gap_segment_rect, gap_segments, nearer};
use sand_base::{Point, Rect, Segment};

/// The squared distance of the nearest edge from a point.
pub fn ring_to_point(corners: &[Point], p: Point) -> Frac
    requires corners { IsRing corners.now }
    requires p { IsInClosedPlane p }
    ensures { IsLeast (IsOnRing corners.now) (IsPoint p) result.num result.den }
{
    let mut best = gap_point_segment(p, edge(corners, 0));
    'edges: for i in 1..corners.len() {
        best = nearer(best, gap_point_segment(p, edge(corners, i)));
    }
    best
}

/// The squared distance of the nearest edge from a segment.
pub fn ring_to_segment(corners: &[Point], s: Segment) -> Frac
    requires corners { IsRing corners.now }
    requires s { IsSegmentInClosedPlane s }
    ensures { IsLeast (IsOnRing corners.now) (IsOnSegment s) result.num result.den }
{
    let mut best = gap_segments(edge(corners, 0), s);
    'edges: for i in 1..corners.len() {
        best = nearer(best, gap_segments(edge(corners, i), s));
    }
    best
}

/// The squared distance of the nearest edge from a closed rectangle.
pub fn ring_to_rect(corners: &[Point], r: Rect) -> Frac
    requires corners { IsRing corners.now }
    requires r { IsRectInClosedPlane r }
    ensures { IsLeast (IsOnRing corners.now) (IsInRect r) result.num result.den }
{
    let mut best = gap_segment_rect(edge(corners, 0), r);
    'edges: for i in 1..corners.len() {
        best = nearer(best, gap_segment_rect(edge(corners, i), r));
    }
    best
}

/// The squared distance of the nearest edges of two rings: a pass over the pairs of them.
pub fn ring_to_ring(corners: &[Point], others: &[Point]) -> Frac
    requires corners { IsRing corners.now }
    requires others { IsRing others.now }
    ensures { IsLeast (IsOnRing corners.now) (IsOnRing others.now) result.num result.den }
{
    let mut best = ring_to_segment(others, edge(corners, 0));
    'edges: for i in 1..corners.len() {
        best = nearer(best, ring_to_segment(others, edge(corners, i)));
    }
    best
}
