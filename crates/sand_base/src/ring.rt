ghost use Rattle.std.specs.Prelude.{◌≡◌, ◌↔◌, true, IfOk, MatchResult};
ghost use Rattle.sand_base.specs.Grid.{IsInPlane, IsRing};

use crate::{COORDINATE_BITS, NoMemory, Point};
use std::alloc::Global;
use std::marker::Model;

/// The fewest and the most vertices of a ring.
pub const FEWEST_CORNERS: usize = 3;

pub const MOST_CORNERS: usize = 64;

/// The border of a polygon: 3 to 64 grid points, each joined to the next and the last to the first. It may
/// cross itself, and its edges may have length zero. Contracts see the list of its vertices.
#[derive(Drop)]
pub struct Ring {
    corners: Vec<Point>,
}

impl Model for Ring {
    ghost use Rattle.std.specs.Prelude.{List};
    ghost use Rattle.sand_base.specs.declared.point.Point.{Point};
    ghost use Rattle.sand_base.specs.Grid.{IsRing};

    ghost Value = { List Point };

    ghost view = { λ ring. ring.corners.items };

    ghost invariant = { λ ring. IsRing ring.corners.items };
}

// Whether the point is a grid point of the plane.
fn is_in_plane(at: &Point) -> bool
    ensures { (result ≡ true) ↔ IsInPlane at.now }
{
    at.x < 1 << COORDINATE_BITS && at.y < 1 << COORDINATE_BITS
}

impl Ring {
    /// The ring with these vertices. They are given back exactly where they are fewer than 3, more than 64,
    /// or one of them is no grid point of the plane.
    pub fn new(corners: Vec<Point>) -> Result<Ring, Vec<Point>>
        ensures ring { MatchResult result (λ ring. (ring ≡ corners.items) × IsRing corners.items)
            (λ list. (list.items ≡ corners.items) × ¬ (IsRing corners.items)) }
    {
        if FEWEST_CORNERS <= corners.len()
            && corners.len() <= MOST_CORNERS
            && corners.iter().all(|at| is_in_plane(at))
        {
            return Ok(Ring { corners });
        }
        Err(corners)
    }

    /// The vertices, in their order.
    pub fn corners(&self) -> &[Point]
        ensures all { result.now ≡ self.now }
        ensures ring { IsRing self.now }
    {
        &self.corners
    }

    /// An equal ring.
    pub fn copy(&self, alloc: Global) -> Result<Ring, NoMemory>
        ensures { IfOk result (λ ring. ring ≡ self.now) }
    {
        let mut corners = Vec::with_capacity(alloc, self.corners.len())?;
        'corners: for at in &self.corners {
            corners.push(*at)?;
        }
        Ok(Ring { corners })
    }
}
