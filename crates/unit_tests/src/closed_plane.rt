// Points of the closed plane, as cases write them.
ghost use Rattle.std.specs.Prelude.{IsTrue};
ghost use Rattle.sand_base.specs.Plane.{IsInClosedPlane};

use sand_base::{COORDINATE_BITS, Point};

/// The greatest coordinate of the closed plane.
pub const REACH: u32 = 1 << COORDINATE_BITS;

/// The point with these coordinates.
pub fn at([x, y]: [u32; 2]) -> Point {
    Point { x, y }
}

/// Whether the point lies in the closed plane.
pub fn in_closed_plane(p: Point) -> bool
    ensures { IsTrue result → IsInClosedPlane p }
{
    p.x <= REACH && p.y <= REACH
}
