ghost use Rattle.std.specs.Prelude.{◌≡◌, ◌≤◌, ◌↔◌, IsTrue, pos, ◌*ℤ◌, ◌<ℤ◌};
ghost use Rattle.std.specs.Int.RustNames.{unsigned_abs};
ghost use Rattle.exact_frac.specs.declared.TheConstants.{MAX_DEN};
ghost use Rattle.sand_base.specs.Plane.{IsInClosedPlane, IsSegmentInClosedPlane};
ghost use Rattle.sand_model.specs.Points.{IsPoint, IsOnSegment};
ghost use Rattle.sand_model.specs.Gap.{IsLeast};
ghost use Rattle.plane_geom.specs.Incidence.{IsBetween, IsInBox, LiesOn};

use crate::points::gap_points;
use crate::vectors::{cross, dot};
use exact_frac::Frac;
use sand_base::{Point, Segment};

/// The squared distance of a point and a segment with both its ends, which may be one point.
pub fn gap_point_segment(p: Point, s: Segment) -> Frac
    requires p { IsInClosedPlane p }
    requires s { IsSegmentInClosedPlane s }
    ensures { IsLeast (IsPoint p) (IsOnSegment s) result.num result.den }
{
    let along = dot(s.a, s.b, p);
    let length = dot(s.a, s.b, s.b);
    if along <= 0 {
        gap_points(p, s.a)
    } else if along >= length {
        gap_points(p, s.b)
    } else {
        height_square(cross(s.a, s.b, p), length)
    }
}

/// The square of a cross product over that of the length of its first step: the square of a height.
fn height_square(cross: i64, length: i64) -> Frac
    requires cross { unsigned_abs cross ≤ MAX_DEN }
    requires length { unsigned_abs length ≤ MAX_DEN }
    requires long { pos 0 <ℤ length }
    ensures num { pos result.num ≡ cross *ℤ cross }
    ensures den { pos result.den ≡ length }
{
    let cross = u128::from(cross.unsigned_abs());
    Frac::new(cross * cross, u128::from(length.unsigned_abs()))
}

/// Whether the point lies on the segment; both ends do.
pub fn on_segment(p: Point, s: Segment) -> bool
    requires p { IsInClosedPlane p }
    requires s { IsSegmentInClosedPlane s }
    ensures { IsTrue result ↔ LiesOn p s }
{
    cross(s.a, s.b, p) == 0 && in_box(p, s)
}

/// Whether the point lies in the rectangle whose corners are the ends of the segment.
fn in_box(p: Point, s: Segment) -> bool
    ensures { IsTrue result ↔ IsInBox p s }
{
    between(p.x, s.a.x, s.b.x) && between(p.y, s.a.y, s.b.y)
}

/// Whether v is at least the lesser and at most the greater of two bounds.
fn between(v: u32, a: u32, b: u32) -> bool
    ensures { IsTrue result ↔ IsBetween a b v }
{
    a.min(b) <= v && v <= a.max(b)
}
