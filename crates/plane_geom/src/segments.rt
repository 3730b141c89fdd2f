ghost use Rattle.std.specs.Prelude.{◌↔◌, IsTrue};
ghost use Rattle.sand_base.specs.Plane.{IsSegmentInClosedPlane};
ghost use Rattle.sand_model.specs.Points.{IsOnSegment};
ghost use Rattle.sand_model.specs.Gap.{IsLeast};
ghost use Rattle.plane_geom.specs.Crossing.{AreOpposed, Cross, SplitsSides};
ghost use Rattle.exact_frac.specs.Lesser.{IsLesser};

use crate::point_segment::gap_point_segment;
use crate::vectors::cross;
use exact_frac::Frac;
use sand_base::Segment;

/// The squared distance of two segments with all their ends: 0 where they share a point.
pub fn gap_segments(s: Segment, t: Segment) -> Frac
    requires s { IsSegmentInClosedPlane s }
    requires t { IsSegmentInClosedPlane t }
    ensures { IsLeast (IsOnSegment s) (IsOnSegment t) result.num result.den }
{
    if crosses(s, t) {
        Frac::new(0, 1)
    } else {
        nearest_end(s, t)
    }
}

/// The least squared distance of an end of either segment from the other segment.
fn nearest_end(s: Segment, t: Segment) -> Frac
    requires s { IsSegmentInClosedPlane s }
    requires t { IsSegmentInClosedPlane t }
    ensures { ¬ Cross s t → IsLeast (IsOnSegment s) (IsOnSegment t) result.num result.den }
{
    let of_s = nearer(gap_point_segment(s.a, t), gap_point_segment(s.b, t));
    let of_t = nearer(gap_point_segment(t.a, s), gap_point_segment(t.b, s));
    nearer(of_s, of_t)
}

/// The lesser of two fractions, the first of equals.
pub fn nearer(a: Frac, b: Frac) -> Frac
    ensures { IsLesser a b result }
{
    if a.compare(&b).is_le() { a } else { b }
}

/// Whether the segments cross properly: neither has an end on the other.
pub fn crosses(s: Segment, t: Segment) -> bool
    requires s { IsSegmentInClosedPlane s }
    requires t { IsSegmentInClosedPlane t }
    ensures { IsTrue result ↔ Cross s t }
{
    splits(s, t) && splits(t, s)
}

/// Whether the ends of t lie on the two sides of the line of s, and neither on the line.
fn splits(s: Segment, t: Segment) -> bool
    requires s { IsSegmentInClosedPlane s }
    requires t { IsSegmentInClosedPlane t }
    ensures { IsTrue result ↔ SplitsSides s t }
{
    are_opposed(cross(s.a, s.b, t.a), cross(s.a, s.b, t.b))
}

/// Whether one of two integers is below 0 and the other above.
fn are_opposed(x: i64, y: i64) -> bool
    ensures { IsTrue result ↔ AreOpposed x y }
{
    if x < 0 { 0 < y } else { 0 < x && y < 0 }
}
