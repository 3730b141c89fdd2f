ghost use Rattle.std.specs.Prelude.{◌≡◌, ◌*◌, ◌-◌, ◌≤◌};
ghost use Rattle.sand_base.specs.Plane.{IsInClosedPlane, IsRectInClosedPlane, IsShapeInClosedPlane};
ghost use Rattle.sand_base.specs.declared.goal.Goal.TheVariants as figure;
ghost use Rattle.best_first.specs.Reach.{IsSameGap};
ghost use Rattle.far_cursor.specs.Farthest.{diagonal, end_gap, farthest};
ghost use Rattle.far_cursor.specs.FarRanking.{key_from};

use exact_frac::Frac;
use ring_geom::gap_shapes;
use sand_base::{COORDINATE_BITS, Point, Rect, Shape};

// The squared length of the diagonal of the plane.
const DIAGONAL: u128 = 1 << (2 * COORDINATE_BITS + 1);

// The greater distance of a coordinate from the two ends of a range.
fn farther_end(at: u32, low: u32, high: u32) -> u64
    ensures { result ≡ end_gap at low high }
{
    u64::from(at.abs_diff(low).max(at.abs_diff(high)))
}

/// The greatest squared distance of a point from a corner of a rectangle. It takes no memory.
pub fn greatest(p: Point, r: Rect) -> Frac
    requires point { IsInClosedPlane p }
    requires rect { IsRectInClosedPlane r }
    ensures num { result.num ≡ farthest p r }
    ensures den { result.den ≡ 1 }
{
    let across = farther_end(p.x, r.low.x, r.high.x);
    let up = farther_end(p.y, r.low.y, r.high.y);
    Frac::new(u128::from(across * across + up * up), 1)
}

/// The distance of which this is the key: what the key lacks to the diagonal, and so 0 of a key above it, which no
/// distance has. It is its own inverse, and takes no memory.
pub fn gap_of(key: Frac) -> Frac
    ensures num { result.num ≡ diagonal * key.den - key.num }
    ensures den { result.den ≡ key.den }
{
    Frac::new((DIAGONAL * key.den()).saturating_sub(key.num()), key.den())
}

/// The key of a rectangle from a point: that of the greatest distance from it.
pub(crate) fn rect_key(p: Point, r: Rect) -> Frac
    requires point { IsInClosedPlane p }
    requires rect { IsRectInClosedPlane r }
    ensures { IsSameGap result (key_from p (figure.Rect r)) }
{
    let far = greatest(p, r);
    gap_of(far)
}

/// The key of a shape from a point: that of its distance.
pub(crate) fn shape_key(p: Point, shape: &Shape) -> Frac
    requires point { IsInClosedPlane p }
    requires shape { IsShapeInClosedPlane shape.now }
    ensures { IsSameGap result (key_from p (figure.Shape shape.now)) }
{
    let gap = gap_shapes(&Shape::Point(p), shape);
    gap_of(gap)
}
