// Shapes at the front of some bytes.
ghost use Rattle.std.specs.Prelude.{◌≡◌, ◌<◌, ◌^◌, ◌↔◌, true, IfOk};
ghost use Rattle.sand_base.specs.Plane.{IsInPlane, IsSegmentInPlane, IsRing};
ghost use Rattle.tuple_codec.specs.Encoding.{point_bytes, segment_bytes, ring_bytes};
ghost use Rattle.tuple_codec.specs.Front.{Takes};

use crate::reader::Reader;
use sand_base::{COORDINATE_BITS, NoMemory, Point, Ring, Segment};
use std::alloc::Global;

// Whether the point is a grid point of the plane.
fn is_in_plane(point: Point) -> bool
    ensures { (result ≡ true) ↔ IsInPlane point }
{
    point.x < 1 << COORDINATE_BITS && point.y < 1 << COORDINATE_BITS
}

// A grid point of the plane.
pub(crate) fn read_point(reader: &mut Reader) -> Option<Point>
    ensures { Takes IsInPlane point_bytes reader.old.left.now result reader.new.left.now }
{
    let Some(x) = reader.coordinate() else {
        return None;
    };
    let Some(y) = reader.coordinate() else {
        return None;
    };
    let point = Point { x, y };
    if is_in_plane(point) {
        Some(point)
    } else {
        None
    }
}

// A segment of the plane.
pub(crate) fn read_segment(reader: &mut Reader) -> Option<Segment>
    ensures { Takes IsSegmentInPlane segment_bytes reader.old.left.now result reader.new.left.now }
{
    let Some(a) = read_point(reader) else {
        return None;
    };
    let Some(b) = read_point(reader) else {
        return None;
    };
    Some(Segment { a, b })
}

// A ring: 3 to 64 grid points of the plane.
pub(crate) fn read_ring(alloc: Global, reader: &mut Reader) -> Result<Option<Ring>, NoMemory>
    ensures { IfOk result (λ found. Takes IsRing ring_bytes reader.old.left.now found reader.new.left.now) }
{
    let Some(count) = reader.byte() else {
        return Ok(None);
    };
    let mut corners = Vec::with_capacity(alloc, usize::from(count))?;
    'corners: for _ in 0..count {
        let Some(corner) = read_point(reader) else {
            return Ok(None);
        };
        corners.push(corner)?;
    }
    match Ring::new(corners) {
        Ok(ring) => Ok(Some(ring)),
        Err(_) => Ok(None),
    }
}
