// A million calls of the exact gaps over drawn points, segments and rectangles.
ghost use Rattle.std.specs.Prelude.{◌^◌, ◌<◌, ◌≤◌};
ghost use Rattle.sand_base.specs.Plane.{IsInClosedPlane, IsSegmentInClosedPlane, IsRectInClosedPlane};

use exact_frac::Frac;
use plane_geom::{
    gap_point_rect, gap_point_segment, gap_points, gap_rects, gap_segment_rect, gap_segments,
};
use sand_base::{COORDINATE_BITS, Point, Rect, Segment};
use std::io;

/// How many rounds of six calls are made, with four more to a million.
const ROUNDS: u32 = 166_667;

// Draws coordinates, one after the other.
#[derive(Drop)]
struct Draws {
    seed: u64,
    ghost small: { seed < 2 ^ 31 },
}

impl Draws {
    fn next(&mut self) -> u32
        ensures { result < 2 ^ COORDINATE_BITS }
    {
        self.seed = (1_103_515_245 * self.seed + 12_345) % (1 << 31);
        (self.seed >> 15) as u32
    }

    fn point(&mut self) -> Point
        ensures { IsInClosedPlane result }
    {
        let x = self.next();
        let y = self.next();
        Point { x, y }
    }

    fn segment(&mut self) -> Segment
        ensures { IsSegmentInClosedPlane result }
    {
        let a = self.point();
        let b = self.point();
        Segment { a, b }
    }

    fn rect(&mut self) -> Rect
        ensures { IsRectInClosedPlane result }
    {
        let a = self.point();
        let b = self.point();
        Rect {
            low: Point {
                x: a.x.min(b.x),
                y: a.y.min(b.y),
            },
            high: Point {
                x: a.x.max(b.x),
                y: a.y.max(b.y),
            },
        }
    }
}

// The whole part of a gap, in 64 bits.
fn whole(gap: Frac) -> u64 {
    (gap.num() / gap.den() % (1 << 64)) as u64
}

// One call of each kind, with their gaps added up.
fn round(draws: &mut Draws) -> u64 {
    let p = draws.point();
    let q = draws.point();
    let s = draws.segment();
    let t = draws.segment();
    let r = draws.rect();
    let u = draws.rect();
    whole(gap_points(p, q))
        .wrapping_add(whole(gap_point_segment(p, s)))
        .wrapping_add(whole(gap_segments(s, t)))
        .wrapping_add(whole(gap_point_rect(q, r)))
        .wrapping_add(whole(gap_segment_rect(t, u)))
        .wrapping_add(whole(gap_rects(r, u)))
}

/// Prints how many calls were made, and the sum of the gaps, rounded down, so that no call can be left out.
pub fn tell(rt: &impl Print) -> io::Result<()> {
    let mut draws = Draws { seed: 1 };
    let mut total = 0u64;
    for _ in 0..ROUNDS {
        total = total.wrapping_add(round(&mut draws));
    }
    rt.println(format_args!("calls {}", 6 * ROUNDS))?;
    rt.println(format_args!("sum {total}"))
}
