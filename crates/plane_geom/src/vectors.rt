ghost use Rattle.std.specs.Prelude.{◌≡◌, ◌*◌, ◌^◌, ◌≤◌, pos, ◌-ℤ◌, ◌*ℤ◌};
ghost use Rattle.std.specs.Int.RustNames.{unsigned_abs};
ghost use Rattle.exact_frac.specs.declared.TheConstants.{MAX_DEN};
ghost use Rattle.sand_base.specs.declared.TheConstants.{COORDINATE_BITS};
ghost use Rattle.sand_base.specs.Plane.{IsInClosedPlane};
ghost use Rattle.plane_geom.specs.Vectors.{dot_of, cross_of};

use sand_base::Point;

/// How far it is from one coordinate to another, with its sign.
fn step(from: u32, to: u32) -> i64
    requires from { from ≤ 2 ^ COORDINATE_BITS }
    requires to { to ≤ 2 ^ COORDINATE_BITS }
    ensures value { result ≡ pos to -ℤ pos from }
    ensures short { unsigned_abs result ≤ 2 ^ COORDINATE_BITS }
{
    i64::from(to) - i64::from(from)
}

/// The product of two steps.
fn product(a: i64, b: i64) -> i64
    requires a { unsigned_abs a ≤ 2 ^ COORDINATE_BITS }
    requires b { unsigned_abs b ≤ 2 ^ COORDINATE_BITS }
    ensures value { result ≡ a *ℤ b }
    ensures short { unsigned_abs result ≤ 2 ^ COORDINATE_BITS * 2 ^ COORDINATE_BITS }
{
    a * b
}

/// The dot product of the steps from o to a and from o to b.
pub fn dot(o: Point, a: Point, b: Point) -> i64
    requires o { IsInClosedPlane o }
    requires a { IsInClosedPlane a }
    requires b { IsInClosedPlane b }
    ensures value { result ≡ dot_of o a b }
    ensures short { unsigned_abs result ≤ MAX_DEN }
{
    product(step(o.x, a.x), step(o.x, b.x)) + product(step(o.y, a.y), step(o.y, b.y))
}

/// The cross product of the steps from o to a and from o to b: above 0 where b lies to the left of the way from o to a.
pub fn cross(o: Point, a: Point, b: Point) -> i64
    requires o { IsInClosedPlane o }
    requires a { IsInClosedPlane a }
    requires b { IsInClosedPlane b }
    ensures value { result ≡ cross_of o a b }
    ensures short { unsigned_abs result ≤ MAX_DEN }
{
    product(step(o.x, a.x), step(o.y, b.y)) - product(step(o.y, a.y), step(o.x, b.x))
}
