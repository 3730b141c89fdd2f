ghost use Rattle.std.specs.Prelude.{◌≡◌, ◌≤◌, pos};
ghost use Rattle.exact_frac.specs.declared.TheConstants.{MAX_DEN};
ghost use Rattle.sand_base.specs.Plane.{IsInClosedPlane};
ghost use Rattle.sand_model.specs.Points.{IsPoint};
ghost use Rattle.sand_model.specs.Gap.{IsLeast};
ghost use Rattle.plane_geom.specs.Vectors.{dot_of};

use exact_frac::Frac;
use sand_base::Point;

/// The square of the length of the step from a to b.
pub fn square_length(a: Point, b: Point) -> u128
    requires a { IsInClosedPlane a }
    requires b { IsInClosedPlane b }
    ensures value { pos result ≡ dot_of a b b }
    ensures small { result ≤ MAX_DEN }
{
    let across = u128::from(a.x.abs_diff(b.x));
    let up = u128::from(a.y.abs_diff(b.y));
    across * across + up * up
}

/// The squared distance of two points, a whole number.
pub fn gap_points(a: Point, b: Point) -> Frac
    requires a { IsInClosedPlane a }
    requires b { IsInClosedPlane b }
    ensures least { IsLeast (IsPoint a) (IsPoint b) result.num result.den }
    ensures whole { result.den ≡ 1 }
{
    Frac::new(square_length(a, b), 1)
}
