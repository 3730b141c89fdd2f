ghost use Rattle.std.specs.Prelude.{[], ⊤, refl, ◌≤◌, IfOk};
ghost use Rattle.sand_base.specs.Plane.{IsShapeInPlane};
ghost use Rattle.sand_base.specs.Grid.{IsInPlane};

use crate::draws::Draws;
use page_pool::{PageFault, Pages};
use pmr_tree::ShapeOf;
use sand_base::{COORDINATE_BITS, NoMemory, Point, Ring, Segment, Shape};
use std::alloc::Global;

/// The shapes of a relation by their ids, from 1 on.
#[derive(Clone, Copy)]
pub enum Shapes {
    /// Drawn points.
    Points,
    /// Drawn points, segments and triangles.
    Mixed,
    /// Listed points.
    Listed(&'static [[u32; 2]]),
    /// Listed polygons, each by its corners.
    Polygons(&'static [&'static [[u32; 2]]]),
}

const LAST: u32 = (1 << COORDINATE_BITS) - 1;

// The point of the plane that is nearest to these coordinates.
fn point(at: [u32; 2]) -> Point
    ensures { IsInPlane result }
{
    let [x, y] = at;
    Point {
        x: x.min(LAST),
        y: y.min(LAST),
    }
}

// The polygon of these corners; without enough of them its first one.
fn polygon(alloc: Global, corners: &[[u32; 2]]) -> Result<Shape, NoMemory>
    ensures { IfOk result IsShapeInPlane }
{
    let mut ring = Vec::new(alloc);
    for corner in corners {
        ring.push(point(*corner))?;
    }
    match Ring::new(ring) {
        Ok(ring) => Ok(Shape::Polygon(ring)),
        Err(_few) => Ok(Shape::Point(point([0, 0]))),
    }
}

// A length that is drawn, below a thirty-second of the plane's side.
fn length(draws: &mut Draws) -> u32 {
    (draws.word() % (1 << (COORDINATE_BITS - 5))) as u32
}

// A drawn point, segment or triangle.
fn drawn(alloc: Global, id: u32, kinds: u64) -> Result<Shape, NoMemory>
    requires { 1 ≤ kinds }
    ensures { IfOk result IsShapeInPlane }
{
    let mut draws = Draws::begin(id.into());
    let kind = draws.word() % kinds;
    let x = draws.coordinate();
    let y = draws.coordinate();
    let right = x.saturating_add(length(&mut draws));
    let up = y.saturating_add(length(&mut draws));
    match kind {
        0 => Ok(Shape::Point(point([x, y]))),
        1 => Ok(Shape::Segment(Segment {
            a: point([x, y]),
            b: point([right, up]),
        })),
        _ => polygon(alloc, &[[x, y], [right, y], [x, up]]),
    }
}

// The element of an id.
fn listed<T>(all: &[T], id: u32) -> Option<&T> {
    let at = id.checked_sub(1)?;
    all.get(at as usize)
}

impl Shapes {
    /// The shape of an id; of one that isn't listed the point at the origin.
    pub fn shape(self, alloc: Global, id: u32) -> Result<Shape, NoMemory>
        ensures { IfOk result IsShapeInPlane }
    {
        match self {
            Shapes::Points => drawn(alloc, id, 1),
            Shapes::Mixed => drawn(alloc, id, 3),
            Shapes::Listed(points) => match listed(points, id) {
                Some(spot) => Ok(Shape::Point(point(*spot))),
                None => Ok(Shape::Point(point([0, 0]))),
            },
            Shapes::Polygons(all) => match listed(all, id) {
                Some(corners) => polygon(alloc, corners),
                None => Ok(Shape::Point(point([0, 0]))),
            },
        }
    }
}

impl ShapeOf for Shapes {
    ghost rows = { λ a pages. [] };

    ghost Stands = { λ a pages. ⊤ };

    ghost Owns = { λ a pages n. ⊥ };

    ghost price = { λ a. 0 };

    fn shape_of<P: Pages>(
        &self,
        alloc: Global,
        _pages: &mut P,
        id: u32,
    ) -> Result<Shape, PageFault> {
        match self.shape(alloc, id) {
            Ok(shape) => Ok(shape),
            Err(NoMemory {}) => Err(PageFault::Memory),
        }
    }

    ghost in_plane = { λ a pages h. tt };

    ghost own_stands = { λ a m w h same. tt };

    ghost own_rows = { λ a m w h same. refl };

    ghost own_pages = { λ a m w h same n own. own };
}
