// The edges of a ring, one by one.
ghost use Rattle.std.specs.Prelude.{◌≡◌, ◌<◌, ◌+◌, length, drop, ◌∷◌};
ghost use Rattle.sand_base.specs.Plane.{IsRing, IsSegmentInClosedPlane};
ghost use Rattle.sand_model.specs.Rings.{edges};

use sand_base::{Point, Segment};

/// The edge that ends at vertex `i`: it comes from the vertex before, and for the first vertex from the last.
pub fn edge(corners: &[Point], i: usize) -> Segment
    requires ring { IsRing corners.now }
    requires there { i < length corners.now }
    ensures at { drop i (edges corners.now) ≡ result ∷ drop (i + 1) (edges corners.now) }
    ensures reach { IsSegmentInClosedPlane result }
{
    if i == 0 {
        Segment {
            a: corners[corners.len() - 1],
            b: corners[i],
        }
    } else {
        Segment {
            a: corners[i - 1],
            b: corners[i],
        }
    }
}
