// Morton codes of grid points: the bits of x at the even places, those of y at the odd ones.
ghost use Rattle.std.specs.Prelude.{◌≡◌, ◌*◌, ◌^◌, ◌<◌};
ghost use Rattle.sand_base.specs.Plane.{IsInPlane};
ghost use Rattle.z_code.specs.Code.{spread_bits, even_bits, code_of, point_of, Interleaves};

use sand_base::{COORDINATE_BITS, Point};

// The code of a grid point.
pub(crate) fn code_of(p: Point) -> u64
    requires { IsInPlane p }
    ensures value { result ≡ code_of p }
    ensures bits { Interleaves result p }
{
    spread_bits(p.x) + 2 * spread_bits(p.y)
}

// The grid point that has the code.
pub(crate) fn point_of(z: u64) -> Point
    ensures value { result ≡ point_of z }
    ensures in_plane { IsInPlane result }
    ensures bits { Interleaves z result }
{
    Point {
        x: even_bits(z),
        y: even_bits(z / 2),
    }
}

// The bits of a coordinate set apart, from the highest down.
fn spread_bits(coordinate: u32) -> u64
    ensures value { result ≡ spread_bits COORDINATE_BITS coordinate }
    ensures small { result < 2 ^ (2 * COORDINATE_BITS) }
{
    let mut code = 0;
    'places: for place in (0..COORDINATE_BITS).rev() {
        code = 4 * code + u64::from((coordinate >> place) % 2);
    }
    code
}

// The bits at even places closed up, from the highest down.
fn even_bits(z: u64) -> u32
    ensures value { result ≡ even_bits COORDINATE_BITS z }
    ensures small { result < 2 ^ COORDINATE_BITS }
{
    let mut coordinate = 0;
    'places: for place in (0..COORDINATE_BITS).rev() {
        coordinate = 2 * coordinate + ((z >> (2 * place)) % 2) as u32;
    }
    coordinate
}
