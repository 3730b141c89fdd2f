// The least closed rectangle that holds a shape.
ghost use Rattle.std.specs.Prelude.{◌≡◌};
ghost use Rattle.sand_base.specs.Plane.{IsInClosedPlane, IsRectInClosedPlane, IsRing, IsShapeInClosedPlane};
ghost use Rattle.sand_model.specs.Figures.{corners_of};
ghost use Rattle.ring_geom.specs.Bounding.{IsBounding, IsWidened};

use sand_base::{Point, Rect, Shape};

/// The least closed rectangle that holds all vertices of the shape, and so all of its points.
pub fn bounding(a: &Shape) -> Rect
    requires { IsShapeInClosedPlane a.now }
    ensures bound { IsBounding (corners_of a.now) result }
    ensures reach { IsRectInClosedPlane result }
{
    match a {
        Shape::Point(p) => Rect { low: *p, high: *p },
        Shape::Segment(s) => widened(
            Rect {
                low: s.a,
                high: s.a,
            },
            s.b,
        ),
        Shape::Polygon(ring) => around(ring.corners()),
    }
}

// The least closed rectangle that holds all vertices of a ring.
fn around(corners: &[Point]) -> Rect
    requires { IsRing corners.now }
    ensures bound { IsBounding corners.now result }
    ensures reach { IsRectInClosedPlane result }
{
    let mut bound = Rect {
        low: corners[0],
        high: corners[0],
    };
    'corners: for i in 1..corners.len() {
        bound = widened(bound, corners[i]);
    }
    bound
}

// The least closed rectangle that holds another and a point.
fn widened(r: Rect, p: Point) -> Rect
    requires r { IsRectInClosedPlane r }
    requires p { IsInClosedPlane p }
    ensures wide { IsWidened r p result }
    ensures reach { IsRectInClosedPlane result }
{
    let low = Point {
        x: r.low.x.min(p.x),
        y: r.low.y.min(p.y),
    };
    let high = Point {
        x: r.high.x.max(p.x),
        y: r.high.y.max(p.y),
    };
    Rect { low, high }
}
