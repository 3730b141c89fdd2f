// What no clause says: that the definitions give the codes and the squares that were worked out by hand.
ghost use Rattle.sand_base.specs.Plane.{IsInPlane};
ghost use Rattle.z_code.specs.Block.{IsBlock};

use sand_base::{COORDINATE_BITS, Point, Rect};
use std::process::Abort;
use z_code::Block;

const POINT_LEVEL: u8 = COORDINATE_BITS as u8;

fn point(rt: &impl Abort, corner: (u32, u32)) -> Point
    ensures { IsInPlane result }
{
    let (x, y) = corner;
    assert!(rt;
        x < 1 << COORDINATE_BITS && y < 1 << COORDINATE_BITS,
        "({x}, {y})"
    );
    Point { x, y }
}

// The block of the point, so many levels above those of points alone.
fn block_of(rt: &impl Abort, corner: (u32, u32), height: u8) -> Block
    ensures { IsBlock result }
{
    assert!(rt; height <= POINT_LEVEL, "height {height}");
    Block::of_point(point(rt, corner), POINT_LEVEL - height)
}

static CODES: [((u32, u32), u64); 18] = [
    ((0, 0), 0),
    ((1, 0), 0b01),
    ((0, 1), 0b10),
    ((1, 1), 0b11),
    ((2, 0), 0b01_00),
    ((3, 5), 0b10_01_11),
    ((5, 3), 0b01_10_11),
    ((7, 0), 0b01_01_01),
    ((0, 7), 0b10_10_10),
    ((6, 6), 0b11_11_00),
    ((255, 0), 0x5555),
    ((32768, 0), 0x4000_0000),
    ((0, 32768), 0x8000_0000),
    ((40000, 12345), 0x4b50_1a82),
    ((65535, 65535), 0xffff_ffff),
    ((524_288, 0), 0x40_0000_0000),
    ((0, 524_288), 0x80_0000_0000),
    ((1_048_575, 1_048_575), 0xff_ffff_ffff),
];

// The block of each point alone has this code.
fn have_codes(rt: &impl Abort, cases: &[((u32, u32), u64)]) {
    for &(corner, code) in cases {
        let p = point(rt, corner);
        let block = Block::of_point(p, POINT_LEVEL);
        let found = (block.z, block.rect().low, block.range());
        assert_eq!(rt; found, (code, p, (code, code)), "{p:?}");
    }
}

#[test]
fn codes_interleave_the_bits_of_x_and_y(rt: HostRuntime) {
    have_codes(&rt, &CODES);
}

static SQUARES: [((u32, u32), u8, u64, (u32, u32), (u32, u32), u64); 9] = [
    ((5, 3), 0, 27, (5, 3), (6, 4), 27),
    ((5, 3), 1, 24, (4, 2), (6, 4), 27),
    ((5, 3), 2, 16, (4, 0), (8, 4), 31),
    ((5, 3), 3, 0, (0, 0), (8, 8), 63),
    ((4, 4), 2, 48, (4, 4), (8, 8), 63),
    ((3, 4), 2, 32, (0, 4), (4, 8), 47),
    ((4, 3), 2, 16, (4, 0), (8, 4), 31),
    (
        (1_048_575, 0),
        19,
        0x40_0000_0000,
        (524_288, 0),
        (1_048_576, 524_288),
        0x7f_ffff_ffff,
    ),
    (
        (0, 1_048_575),
        19,
        0x80_0000_0000,
        (0, 524_288),
        (524_288, 1_048_576),
        0xbf_ffff_ffff,
    ),
];

// The block of each point at the height has this first code, this square and this last code.
fn have_squares_and_ranges(
    rt: &impl Abort,
    cases: &[((u32, u32), u8, u64, (u32, u32), (u32, u32), u64)],
) {
    for &(corner, height, z, low, high, last) in cases {
        let block = block_of(rt, corner, height);
        let square = Rect {
            low: Point { x: low.0, y: low.1 },
            high: Point {
                x: high.0,
                y: high.1,
            },
        };
        let found = (block.rect(), block.range());
        assert_eq!(rt; found, (square, (z, last)), "{corner:?} at {height}");
    }
}

#[test]
fn blocks_have_the_squares_and_the_ranges_of_their_heights(rt: HostRuntime) {
    have_squares_and_ranges(&rt, &SQUARES);
}

static HELD: [((u32, u32), u8, (u32, u32), u8, bool); 8] = [
    ((5, 3), 2, (5, 3), 2, true),
    ((5, 3), 2, (7, 0), 1, true),
    ((5, 3), 2, (4, 3), 0, true),
    ((5, 3), 2, (5, 3), 3, false),
    ((5, 3), 2, (3, 3), 0, false),
    ((5, 3), 2, (4, 4), 0, false),
    ((0, 0), 1, (0, 0), 2, false),
    ((0, 0), 1, (0, 2), 1, false),
];

// The block of the first point holds that of the second, or does not.
fn are_held(rt: &impl Abort, cases: &[((u32, u32), u8, (u32, u32), u8, bool)]) {
    for &(outer, height, inner, inner_height, want) in cases {
        let block = block_of(rt, outer, height);
        let other = block_of(rt, inner, inner_height);
        assert_eq!(rt; block.holds(other), want, "{block:?} and {other:?}");
    }
}

#[test]
fn a_block_holds_what_lies_inside_it(rt: HostRuntime) {
    are_held(&rt, &HELD);
}
