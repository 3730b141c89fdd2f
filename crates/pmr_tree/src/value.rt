ghost use Rattle.std.specs.Prelude.{◌≡◌, ◌<◌, ◌≤◌, ◌^◌};
ghost use Rattle.sand_base.specs.Plane.{IsShapeInPlane};
ghost use Rattle.sand_model.specs.Nodes.{rough_figure};
ghost use Rattle.pmr_tree.specs.Entries.{packed, value_of, IsPolygon};
ghost use Rattle.pmr_tree.specs.Listing.{coordinate_in, point_in, rect_round, rough_in};

use ring_geom::{bounding, measure_laws};
use sand_base::{COORDINATE_BITS, Point, Rect, Rough, Segment, Shape};
use std::cmp::{max, min};

// A tag and two points, each coordinate in 31 bits.
fn packed(tag: u128, low: Point, high: Point) -> u128
    requires tag { tag ≤ 3 }
    requires low_x { low.x < 2 ^ 31 }
    requires low_y { low.y < 2 ^ 31 }
    requires high_x { high.x < 2 ^ 31 }
    requires high_y { high.y < 2 ^ 31 }
    ensures { result ≡ packed tag low.x low.y high.x high.y }
{
    (tag << 124)
        + ((u128::from(low.x) << 93)
            + ((u128::from(low.y) << 62) + ((u128::from(high.x) << 31) + u128::from(high.y))))
}

// What the entries of an id keep of its shape.
pub fn value_of(shape: &Shape) -> u128
    requires { IsShapeInPlane shape.now }
    ensures { result ≡ value_of (rough_figure shape.now) }
{
    match shape {
        Shape::Point(p) => packed(1, *p, Point { x: 0, y: 0 }),
        Shape::Segment(s) => packed(2, s.a, s.b),
        Shape::Polygon(_) => bound_value(shape),
    }
}

// The value of the bounding rectangle of a polygon.
fn bound_value(shape: &Shape) -> u128
    requires plane { IsShapeInPlane shape.now }
    requires polygon { IsPolygon shape.now }
    ensures { result ≡ value_of (rough_figure shape.now) }
{
    measure_laws();
    let bound = bounding(shape);
    packed(3, bound.low, bound.high)
}

// A coordinate of the plane, from a bit of a value on.
fn coordinate_at(value: u128, bit: u32) -> u32
    requires { bit ≤ 93 }
    ensures { result ≡ coordinate_in value bit }
{
    ((value >> bit) % (1 << COORDINATE_BITS)) as u32
}

// A point, from a bit of a value on.
fn point_at(value: u128, bit: u32) -> Point
    requires { bit ≤ 62 }
    ensures { result ≡ point_in value bit }
{
    Point {
        x: coordinate_at(value, bit + 31),
        y: coordinate_at(value, bit),
    }
}

// The least closed rectangle that has both points.
fn rect_round(p: Point, q: Point) -> Rect
    ensures { result ≡ rect_round p q }
{
    Rect {
        low: Point {
            x: min(p.x, q.x),
            y: min(p.y, q.y),
        },
        high: Point {
            x: max(p.x, q.x),
            y: max(p.y, q.y),
        },
    }
}

// The rough shape of a value. A value that no shape has gives some rough shape in the plane.
pub fn rough_of(value: u128) -> Rough
    ensures { result ≡ rough_in value }
{
    let tag = value >> 124;
    let low = point_at(value, 62);
    let high = point_at(value, 0);
    if tag == 2 {
        return Rough::Segment(Segment { a: low, b: high });
    }
    if tag == 3 {
        return Rough::Bound(rect_round(low, high));
    }
    Rough::Point(low)
}
