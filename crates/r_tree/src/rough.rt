ghost use Rattle.std.specs.Prelude.{◌≡◌};
ghost use Rattle.sand_base.specs.Plane.{IsShapeInPlane};
ghost use Rattle.sand_model.specs.Roughs.{rough_figure};
ghost use Rattle.pmr_tree.specs.Entries.{figure_of, IsPolygon};

use ring_geom::{bounding, measure_laws};
use sand_base::{Rough, Shape};

// The rectangle round a polygon.
fn rough_polygon(shape: &Shape) -> Rough
    requires plane { IsShapeInPlane shape.now }
    requires polygon { IsPolygon shape.now }
    ensures { figure_of result ≡ rough_figure shape.now }
{
    measure_laws();
    Rough::Bound(bounding(shape))
}

/// What an index keeps of a shape: a point or a segment whole, a polygon by its bounding rectangle.
pub fn rough_shape(shape: &Shape) -> Rough
    requires { IsShapeInPlane shape.now }
    ensures { figure_of result ≡ rough_figure shape.now }
{
    match shape {
        Shape::Point(p) => Rough::Point(*p),
        Shape::Segment(s) => Rough::Segment(*s),
        Shape::Polygon(_) => rough_polygon(shape),
    }
}
