// Whether a shape meets a closed rectangle.
ghost use Rattle.std.specs.Prelude.{◌↔◌, IsTrue};
ghost use Rattle.sand_base.specs.Plane.{IsRectInClosedPlane, IsShapeInClosedPlane};
ghost use Rattle.sand_base.specs.declared.goal.Goal.TheVariants as goal;
ghost use Rattle.sand_model.specs.FigureGap.{IsMeeting};
ghost use Rattle.ring_geom.specs.Bounding.{Overlap};

use crate::bounds::bounding;
use crate::figure_gaps::gap_shape_rect;
use sand_base::{Rect, Shape};

/// Whether the gap of the shape and the closed rectangle is 0. An edge is measured only where the bounding
/// rectangle of the shape has a point in the rectangle.
pub fn meets_rect(a: &Shape, r: Rect) -> bool
    requires a { IsShapeInClosedPlane a.now }
    requires r { IsRectInClosedPlane r }
    ensures { IsTrue result ↔ IsMeeting (goal.Shape a.now) (goal.Rect r) }
{
    overlap(bounding(a), r) && gap_shape_rect(a, r).num() == 0
}

// Whether two closed rectangles have a point in common.
fn overlap(a: Rect, b: Rect) -> bool
    ensures { IsTrue result ↔ Overlap a b }
{
    a.low.x <= b.high.x && b.low.x <= a.high.x && a.low.y <= b.high.y && b.low.y <= a.high.y
}
