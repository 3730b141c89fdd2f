// Shapes for trials of quadtrees: they lie on the edges and corners of blocks, or one grid point beside.
ghost use Rattle.std.specs.Prelude.{IfOk, [], ⊤, refl};
ghost use Rattle.sand_base.specs.Grid.{IsInPlane};
ghost use Rattle.sand_base.specs.Plane.{IsShapeInPlane};

use crate::draws::Draws;
use page_pool::{PageFault, Pages};
use pmr_tree::ShapeOf;
use sand_base::{COORDINATE_BITS, NoMemory, Point, Ring, Segment, Shape};
use std::alloc::Global;

/// Shapes on the edges and corners of blocks, and one grid point beside them, by their ids.
#[derive(Clone, Copy)]
pub struct EdgeShapes {}

const LAST: u32 = (1 << COORDINATE_BITS) - 1;

// The length of a side of a large block.
const LARGE: u32 = 1 << (COORDINATE_BITS - 3);

// The length of a side of a small block.
const SMALL: u32 = 1 << (COORDINATE_BITS - 8);

// A coordinate on an edge of large blocks, or beside it.
fn coordinate(draws: &mut Draws) -> u32 {
    let edge = (draws.word() % 9) as u32 * LARGE;
    edge.saturating_sub((draws.word() % 2) as u32)
}

// The point with these coordinates, or the last of the plane.
fn point(x: u32, y: u32) -> Point
    ensures { IsInPlane result }
{
    Point {
        x: x.min(LAST),
        y: y.min(LAST),
    }
}

// How far a shape reaches from its first point along an axis: to an edge of small blocks, or to one beside.
fn reach(draws: &mut Draws) -> u32 {
    match draws.word() % 5 {
        0 => 0,
        1 => 1,
        2 => SMALL - 1,
        3 => SMALL,
        _ => 2 * SMALL,
    }
}

// A point that is so far from another one.
fn beyond(draws: &mut Draws, from: Point) -> Point
    ensures { IsInPlane result }
{
    let right = from.x.saturating_add(reach(draws));
    let up = from.y.saturating_add(reach(draws));
    point(right, up)
}

// The triangle of three points.
fn triangle(alloc: Global, a: Point, b: Point, c: Point) -> Result<Shape, NoMemory>
    requires a { IsInPlane a }
    requires b { IsInPlane b }
    requires c { IsInPlane c }
    ensures { IfOk result IsShapeInPlane }
{
    let mut corners = Vec::new(alloc);
    corners.push(a)?;
    corners.push(b)?;
    corners.push(c)?;
    match Ring::new(corners) {
        Ok(ring) => Ok(Shape::Polygon(ring)),
        Err(_flat) => Ok(Shape::Point(a)),
    }
}

/// The ids from this one on have all the same point, a corner of large blocks.
pub const ONE_PLACE: u32 = 1_000_000;

/// The ids from this one on have triangles over almost half of the plane.
pub const COVERING: u32 = 2_000_000;

/// The ids from this one on have shapes as those below `ONE_PLACE`.
pub const AGAIN: u32 = 3_000_000;

/// The shape of an id: of eight four points, three segments and a triangle, but for those that have one place or cover much.
pub fn shape_of_id(alloc: Global, id: u32) -> Result<Shape, NoMemory>
    ensures { IfOk result IsShapeInPlane }
{
    if id >= ONE_PLACE && id < COVERING {
        return Ok(Shape::Point(point(LARGE, LARGE)));
    }
    if id >= COVERING && id < AGAIN {
        let shape = triangle(alloc, point(id % 7, 0), point(LAST, id % 5), point(0, LAST))?;
        return Ok(shape);
    }
    let mut draws = Draws::begin(id.into());
    let kind = draws.word() % 8;
    let x = coordinate(&mut draws);
    let y = coordinate(&mut draws);
    let a = point(x, y);
    let b = beyond(&mut draws, a);
    let c = beyond(&mut draws, a);
    if kind < 4 {
        return Ok(Shape::Point(a));
    }
    if kind < 7 {
        return Ok(Shape::Segment(Segment { a, b }));
    }
    let shape = triangle(alloc, a, b, c)?;
    Ok(shape)
}

impl ShapeOf for EdgeShapes {
    ghost rows = { λ a pages. [] };

    ghost Stands = { λ a pages. ⊤ };

    ghost Owns = { λ a pages n. ⊥ };

    ghost price = { λ a. 0 };

    fn shape_of<P: Pages>(
        &self,
        alloc: Global,
        _pages: &mut P,
        id: u32,
    ) -> Result<Shape, PageFault> {
        match shape_of_id(alloc, id) {
            Ok(shape) => Ok(shape),
            Err(NoMemory {}) => Err(PageFault::Memory),
        }
    }

    ghost in_plane = { λ a pages h. tt };

    ghost own_stands = { λ a m w h same. tt };

    ghost own_rows = { λ a m w h same. refl };

    ghost own_pages = { λ a m w h same n own. own };
}
