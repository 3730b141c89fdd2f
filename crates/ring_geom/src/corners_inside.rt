// Which shapes have a vertex inside another's ring.
ghost use Rattle.std.specs.Prelude.{◌↔◌, IsTrue};
ghost use Rattle.sand_base.specs.Plane.{IsRing, IsShapeInClosedPlane};
ghost use Rattle.sand_model.specs.Figures.{Holds, corners_of};
ghost use Rattle.sand_model.specs.Rings.{SomeOf, IsInside};

use crate::point_in_ring::inside;
use sand_base::{Point, Ring, Shape};

/// Whether a vertex of the first shape lies inside the second one's ring; only a polygon has one.
pub fn has_corner_in(a: &Shape, b: &Shape) -> bool
    requires a { IsShapeInClosedPlane a.now }
    requires b { IsShapeInClosedPlane b.now }
    ensures { IsTrue result ↔ SomeOf (Holds b.now) (corners_of a.now) }
{
    match b {
        Shape::Point(_) => false,
        Shape::Segment(_) => false,
        Shape::Polygon(ring) => has_corner_inside(a, ring),
    }
}

// Whether a vertex of the shape lies inside the ring.
fn has_corner_inside(a: &Shape, ring: &Ring) -> bool
    requires { IsShapeInClosedPlane a.now }
    ensures { IsTrue result ↔ SomeOf (IsInside ring.now) (corners_of a.now) }
{
    match a {
        Shape::Point(p) => inside(*p, ring),
        Shape::Segment(s) => inside(s.a, ring) || inside(s.b, ring),
        Shape::Polygon(other) => holds_any(other.corners(), ring),
    }
}

// Whether some vertex of a ring lies inside another.
fn holds_any(corners: &[Point], ring: &Ring) -> bool
    requires { IsRing corners.now }
    ensures { IsTrue result ↔ SomeOf (IsInside ring.now) corners.now }
{
    'corners: for i in 0..corners.len() {
        if inside(corners[i], ring) {
            return true;
        }
    }
    false
}
