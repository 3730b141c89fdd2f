ghost use Rattle.std.specs.Prelude.{◌≡◌, ◌+◌, ◌*◌, ◌^◌, ◌≤◌, ◌↔◌, IsTrue};
ghost use Rattle.sand_base.specs.declared.TheConstants.{COORDINATE_BITS};
ghost use Rattle.sand_base.specs.Plane.{IsInClosedPlane, IsRectInClosedPlane};
ghost use Rattle.sand_model.specs.Points.{IsInRect, IsPoint};
ghost use Rattle.sand_model.specs.Gap.{IsLeast};
ghost use Rattle.plane_geom.specs.Rectangles.{range_gap};

use exact_frac::Frac;
use sand_base::{Point, Rect};

/// The squared distance of two closed rectangles, a whole number: 0 where they share a point.
pub fn gap_rects(a: Rect, b: Rect) -> Frac
    requires a { IsRectInClosedPlane a }
    requires b { IsRectInClosedPlane b }
    ensures { IsLeast (IsInRect a) (IsInRect b) result.num result.den }
{
    let across = u128::from(between_ranges(a.low.x, a.high.x, b.low.x, b.high.x));
    let up = u128::from(between_ranges(a.low.y, a.high.y, b.low.y, b.high.y));
    Frac::new(across * across + up * up, 1)
}

/// The squared distance of a point and a closed rectangle, a whole number: 0 where the point lies in it.
pub fn gap_point_rect(p: Point, r: Rect) -> Frac
    requires p { IsInClosedPlane p }
    requires r { IsRectInClosedPlane r }
    ensures { IsLeast (IsPoint p) (IsInRect r) result.num result.den }
{
    gap_rects(Rect { low: p, high: p }, r)
}

/// How far two closed ranges of one axis are apart.
fn between_ranges(low: u32, high: u32, other_low: u32, other_high: u32) -> u32
    requires order { low ≤ high }
    requires other_order { other_low ≤ other_high }
    requires in_closed_plane { high ≤ 2 ^ COORDINATE_BITS }
    requires other_in_closed_plane { other_high ≤ 2 ^ COORDINATE_BITS }
    ensures value { result ≡ range_gap low high other_low other_high }
    ensures short { result ≤ 2 ^ COORDINATE_BITS }
{
    other_low.saturating_sub(high) + low.saturating_sub(other_high)
}
