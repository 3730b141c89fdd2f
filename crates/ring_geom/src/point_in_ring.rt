// Which grid points are inside a ring: those on an edge, and those from which a ray crosses an odd number of edges.
ghost use Rattle.std.specs.Prelude.{◌≡◌, ◌↔◌, IsTrue};
ghost use Rattle.sand_base.specs.Plane.{IsInClosedPlane, IsSegmentInClosedPlane};
ghost use Rattle.sand_model.specs.Rings.{rises_over, is_crossed, IsInside};

use crate::edges::edge;
use plane_geom::{cross, on_segment};
use sand_base::{Point, Ring, Segment};

/// Whether the grid point lies inside the ring or on an edge of it, even-odd: it does where a ray from it to the
/// right crosses an odd number of edges. One pass over the edges, which ends at an edge that the point lies on.
pub fn inside(v: Point, ring: &Ring) -> bool
    requires { IsInClosedPlane v }
    ensures { IsTrue result ↔ IsInside ring.now v }
{
    let corners = ring.corners();
    let mut odd = false;
    'edges: for i in 0..corners.len() {
        let side = edge(corners, i);
        if on_segment(v, side) {
            return true;
        }
        odd = odd != is_crossed(v, side);
    }
    odd
}

// Whether the ray from v to the right crosses the edge: of its ends the lower one counts, and the upper one not.
fn is_crossed(v: Point, side: Segment) -> bool
    requires v { IsInClosedPlane v }
    requires side { IsSegmentInClosedPlane side }
    ensures { result ≡ is_crossed v side }
{
    rises_over(v, side.a, side.b) || rises_over(v, side.b, side.a)
}

// Whether the way from a to b rises over the height of v, and there lies to the right of v.
fn rises_over(v: Point, a: Point, b: Point) -> bool
    requires v { IsInClosedPlane v }
    requires a { IsInClosedPlane a }
    requires b { IsInClosedPlane b }
    ensures { result ≡ rises_over v a b }
{
    a.y <= v.y && v.y < b.y && 0 < cross(a, b, v)
}
