ghost use Rattle.std.specs.Prelude.{◌≡◌, IfOk};
ghost use Rattle.sand_base.specs.Shape.{kind_of};

use crate::{Kind, NoMemory, Point, Ring, Segment};
use std::alloc::Global;

/// What a spatial column holds, and what a ranking starts from.
#[derive(Drop)]
pub enum Shape {
    Point(Point),
    Segment(Segment),
    /// The region that a ring bounds: a point is in it where it lies on an edge, or where a ray from it
    /// crosses an odd number of edges.
    Polygon(Ring),
}

impl Shape {
    /// An equal shape.
    pub fn copy(&self, alloc: Global) -> Result<Shape, NoMemory>
        ensures { IfOk result (λ shape. shape ≡ self.now) }
    {
        match self {
            Shape::Point(at) => Ok(Shape::Point(*at)),
            Shape::Segment(way) => Ok(Shape::Segment(*way)),
            Shape::Polygon(ring) => Ok(Shape::Polygon(ring.copy(alloc)?)),
        }
    }

    /// The kind of the columns that hold such a shape.
    pub fn kind(&self) -> Kind
        ensures { result ≡ kind_of self.now }
    {
        match self {
            Shape::Point(_) => Kind::Point,
            Shape::Segment(_) => Kind::Segment,
            Shape::Polygon(_) => Kind::Polygon,
        }
    }
}
