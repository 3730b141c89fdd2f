ghost use Rattle.std.specs.Prelude.{◌≡◌, ◌↔◌, ◌⊎◌, IsTrue};
ghost use Rattle.sand_base.specs.Plane.{IsRectInClosedPlane, IsSegmentInClosedPlane};
ghost use Rattle.sand_model.specs.Points.{IsInRect, IsOnSegment};
ghost use Rattle.sand_model.specs.Gap.{IsLeast};
ghost use Rattle.plane_geom.specs.Crossing.{Cross};
ghost use Rattle.plane_geom.specs.Rectangles.{EntersRect, IsCovered, left_side, right_side, bottom_side, top_side};

use crate::point_segment::gap_point_segment;
use crate::rects::gap_point_rect;
use crate::segments::{crosses, nearer};
use exact_frac::Frac;
use sand_base::{Point, Rect, Segment};

/// The squared distance of a segment with both its ends and a closed rectangle: 0 where they share a point.
pub fn gap_segment_rect(s: Segment, r: Rect) -> Frac
    requires s { IsSegmentInClosedPlane s }
    requires r { IsRectInClosedPlane r }
    ensures { IsLeast (IsOnSegment s) (IsInRect r) result.num result.den }
{
    if enters(s, r) {
        Frac::new(0, 1)
    } else {
        nearest_end_or_corner(s, r)
    }
}

/// The least squared distance of an end of the segment from the rectangle, or of a corner of it from the segment.
fn nearest_end_or_corner(s: Segment, r: Rect) -> Frac
    requires s { IsSegmentInClosedPlane s }
    requires r { IsRectInClosedPlane r }
    ensures { ¬ EntersRect s r → IsLeast (IsOnSegment s) (IsInRect r) result.num result.den }
{
    let (left, right) = vertical_sides(r);
    let of_ends = nearer(gap_point_rect(s.a, r), gap_point_rect(s.b, r));
    let of_left = nearer(gap_point_segment(left.a, s), gap_point_segment(left.b, s));
    let of_right = nearer(gap_point_segment(right.a, s), gap_point_segment(right.b, s));
    nearer(of_ends, nearer(of_left, of_right))
}

/// Whether the segment begins in the rectangle, or properly crosses a side of it.
fn enters(s: Segment, r: Rect) -> bool
    requires s { IsSegmentInClosedPlane s }
    requires r { IsRectInClosedPlane r }
    ensures { IsTrue result ↔ EntersRect s r }
{
    let (left, right) = vertical_sides(r);
    let (bottom, top) = horizontal_sides(r);
    is_covered(s.a, r) || crosses_either(s, left, right) || crosses_either(s, bottom, top)
}

/// Whether the segment crosses one of two others.
fn crosses_either(s: Segment, t: Segment, u: Segment) -> bool
    requires s { IsSegmentInClosedPlane s }
    requires t { IsSegmentInClosedPlane t }
    requires u { IsSegmentInClosedPlane u }
    ensures { IsTrue result ↔ (Cross s t ⊎ Cross s u) }
{
    crosses(s, t) || crosses(s, u)
}

/// The left side and the right one. Their ends are the four corners.
fn vertical_sides(r: Rect) -> (Segment, Segment)
    requires { IsRectInClosedPlane r }
    ensures left { result.0 ≡ left_side r }
    ensures right { result.1 ≡ right_side r }
    ensures left_in_closed_plane { IsSegmentInClosedPlane result.0 }
    ensures right_in_closed_plane { IsSegmentInClosedPlane result.1 }
{
    let left = Segment {
        a: r.low,
        b: Point {
            x: r.low.x,
            y: r.high.y,
        },
    };
    let right = Segment {
        a: Point {
            x: r.high.x,
            y: r.low.y,
        },
        b: r.high,
    };
    (left, right)
}

/// The bottom side and the top one.
fn horizontal_sides(r: Rect) -> (Segment, Segment)
    requires { IsRectInClosedPlane r }
    ensures bottom { result.0 ≡ bottom_side r }
    ensures top { result.1 ≡ top_side r }
    ensures bottom_in_closed_plane { IsSegmentInClosedPlane result.0 }
    ensures top_in_closed_plane { IsSegmentInClosedPlane result.1 }
{
    let bottom = Segment {
        a: r.low,
        b: Point {
            x: r.high.x,
            y: r.low.y,
        },
    };
    let top = Segment {
        a: Point {
            x: r.low.x,
            y: r.high.y,
        },
        b: r.high,
    };
    (bottom, top)
}

/// Whether the point lies in the closed rectangle.
fn is_covered(p: Point, r: Rect) -> bool
    ensures { IsTrue result ↔ IsCovered p r }
{
    r.low.x <= p.x && p.x <= r.high.x && r.low.y <= p.y && p.y <= r.high.y
}
