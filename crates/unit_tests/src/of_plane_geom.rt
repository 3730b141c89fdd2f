// Gaps of points, segments and rectangles, worked out by hand.
ghost use Rattle.std.specs.Prelude.{IsTrue};
ghost use Rattle.sand_base.specs.Plane.{IsRectInClosedPlane, IsSegmentInClosedPlane};

use crate::closed_plane::{REACH, at, in_closed_plane};
use exact_frac::Frac;
use plane_geom::{
    gap_point_rect, gap_point_segment, gap_points, gap_rects, gap_segment_rect, gap_segments,
    on_segment,
};
use sand_base::{Point, Rect, Segment};
use std::process::Abort;

fn way([ax, ay, bx, by]: [u32; 4]) -> Segment {
    Segment {
        a: at([ax, ay]),
        b: at([bx, by]),
    }
}

fn area([low_x, low_y, high_x, high_y]: [u32; 4]) -> Rect {
    Rect {
        low: at([low_x, low_y]),
        high: at([high_x, high_y]),
    }
}

fn segment_in_closed_plane(s: Segment) -> bool
    ensures { IsTrue result → IsSegmentInClosedPlane s }
{
    in_closed_plane(s.a) && in_closed_plane(s.b)
}

fn rect_in_closed_plane(r: Rect) -> bool
    ensures { IsTrue result → IsRectInClosedPlane r }
{
    in_closed_plane(r.low) && in_closed_plane(r.high) && r.low.x <= r.high.x && r.low.y <= r.high.y
}

/// The parts in lowest terms.
fn parts(gap: Frac) -> (u128, u128) {
    let gap = gap.lowest();
    (gap.num(), gap.den())
}

fn of_points(a: Point, b: Point) -> Option<(u128, u128)> {
    if in_closed_plane(a) && in_closed_plane(b) {
        Some(parts(gap_points(a, b)))
    } else {
        None
    }
}

fn of_point_and_segment(p: Point, s: Segment) -> Option<((u128, u128), bool)> {
    if in_closed_plane(p) && segment_in_closed_plane(s) {
        Some((parts(gap_point_segment(p, s)), on_segment(p, s)))
    } else {
        None
    }
}

fn of_segments(s: Segment, t: Segment) -> Option<(u128, u128)> {
    if segment_in_closed_plane(s) && segment_in_closed_plane(t) {
        Some(parts(gap_segments(s, t)))
    } else {
        None
    }
}

fn of_point_and_rect(p: Point, r: Rect) -> Option<(u128, u128)> {
    if in_closed_plane(p) && rect_in_closed_plane(r) {
        Some(parts(gap_point_rect(p, r)))
    } else {
        None
    }
}

fn of_segment_and_rect(s: Segment, r: Rect) -> Option<(u128, u128)> {
    if segment_in_closed_plane(s) && rect_in_closed_plane(r) {
        Some(parts(gap_segment_rect(s, r)))
    } else {
        None
    }
}

fn of_rects(a: Rect, b: Rect) -> Option<(u128, u128)> {
    if rect_in_closed_plane(a) && rect_in_closed_plane(b) {
        Some(parts(gap_rects(a, b)))
    } else {
        None
    }
}

static POINTS: [(&str, [u32; 2], [u32; 2], u128); 7] = [
    ("the origin", [0, 0], [0, 0], 0),
    ("one point", [5, 7], [5, 7], 0),
    ("three and four", [0, 0], [3, 4], 25),
    ("the same way back", [3, 4], [0, 0], 25),
    ("down to the right", [0, 4], [3, 0], 25),
    ("one border", [0, 0], [REACH, 0], 1_099_511_627_776),
    ("across", [0, REACH], [REACH, 0], 2_199_023_255_552),
];

// The points of each case have this squared distance.
fn are_points_apart(rt: &impl Abort, cases: &[(&str, [u32; 2], [u32; 2], u128)]) {
    for (name, a, b, gap) in cases {
        assert_eq!(rt; of_points(at(*a), at(*b)), Some((*gap, 1)), "{name}");
    }
}

#[test]
fn gaps_of_points(rt: HostRuntime) {
    are_points_apart(&rt, &POINTS);
}

static POINTS_AND_SEGMENTS: [(&str, [u32; 2], [u32; 4], (u128, u128), bool); 13] = [
    ("length zero", [1, 2], [4, 6, 4, 6], (25, 1), false),
    ("its one point", [4, 6], [4, 6, 4, 6], (0, 1), true),
    ("behind", [0, 0], [1, 1, 5, 1], (2, 1), false),
    ("under the first", [1, 0], [1, 1, 5, 1], (1, 1), false),
    ("under the midst", [3, 0], [1, 1, 5, 1], (1, 1), false),
    ("beyond", [9, 4], [1, 1, 5, 1], (25, 1), false),
    ("on the second end", [5, 1], [1, 1, 5, 1], (0, 1), true),
    ("in the midst", [3, 1], [1, 1, 5, 1], (0, 1), true),
    ("on the line", [6, 1], [1, 1, 5, 1], (1, 1), false),
    ("over a slope", [0, 2], [0, 0, 2, 2], (2, 1), false),
    ("a fifth away", [0, 1], [0, 0, 1, 2], (1, 5), false),
    ("a diagonal", [1, 1], [0, 0, REACH, REACH], (0, 1), true),
    (
        "the far corner",
        [0, REACH],
        [0, 0, REACH, REACH],
        (549_755_813_888, 1),
        false,
    ),
];

// The point of each case has this gap to the segment, and lies on it or not.
fn is_point_apart_from_segment(
    rt: &impl Abort,
    cases: &[(&str, [u32; 2], [u32; 4], (u128, u128), bool)],
) {
    for (name, p, s, gap, on) in cases {
        assert_eq!(rt;
            of_point_and_segment(at(*p), way(*s)),
            Some((*gap, *on)),
            "{name}"
        );
    }
}

#[test]
fn gaps_of_a_point_and_a_segment(rt: HostRuntime) {
    is_point_apart_from_segment(&rt, &POINTS_AND_SEGMENTS);
}

static SEGMENTS: [(&str, [u32; 4], [u32; 4], (u128, u128)); 16] = [
    ("crossing", [0, 0, 4, 4], [0, 4, 4, 0], (0, 1)),
    ("turned round", [4, 0, 0, 4], [4, 4, 0, 0], (0, 1)),
    (
        "diagonals",
        [0, 0, REACH, REACH],
        [0, REACH, REACH, 0],
        (0, 1),
    ),
    ("end on end", [0, 0, 2, 2], [2, 2, 5, 1], (0, 1)),
    ("end in the midst", [0, 0, 4, 0], [2, 0, 2, 5], (0, 1)),
    ("one line, shared", [0, 0, 4, 0], [2, 0, 6, 0], (0, 1)),
    ("one line, apart", [0, 0, 2, 0], [5, 0, 9, 0], (9, 1)),
    ("parallel", [0, 0, 4, 0], [1, 3, 3, 3], (9, 1)),
    ("a tie of both ends", [0, 0, 2, 0], [0, 2, 2, 2], (4, 1)),
    ("both length zero", [3, 4, 3, 4], [0, 0, 0, 0], (25, 1)),
    ("one length zero", [0, 1, 0, 1], [0, 0, 1, 2], (1, 5)),
    ("two ends", [0, 0, 3, 0], [5, 1, 5, 4], (5, 1)),
    ("over the midst", [0, 0, 10, 0], [5, 1, 5, 4], (1, 1)),
    ("beside a slope", [0, 0, 4, 4], [3, 2, 6, 0], (1, 2)),
    (
        "two borders",
        [0, 0, 0, REACH],
        [REACH, 0, REACH, REACH],
        (1_099_511_627_776, 1),
    ),
    (
        "nearly met",
        [0, 0, REACH, REACH - 1],
        [1, 1, 1, 1],
        (1, 2_199_021_158_401),
    ),
];

// The segments of each case have this gap.
fn are_segments_apart(rt: &impl Abort, cases: &[(&str, [u32; 4], [u32; 4], (u128, u128))]) {
    for (name, s, t, gap) in cases {
        assert_eq!(rt; of_segments(way(*s), way(*t)), Some(*gap), "{name}");
    }
}

#[test]
fn gaps_of_segments(rt: HostRuntime) {
    are_segments_apart(&rt, &SEGMENTS);
}

static POINTS_AND_RECTANGLES: [(&str, [u32; 2], [u32; 4], u128); 8] = [
    ("to a corner", [0, 0], [2, 2, 5, 4], 8),
    ("inside", [3, 3], [2, 2, 5, 4], 0),
    ("on a corner", [2, 4], [2, 2, 5, 4], 0),
    ("to the right", [6, 3], [2, 2, 5, 4], 1),
    ("above", [3, 9], [2, 2, 5, 4], 25),
    ("above to the right", [7, 7], [2, 2, 5, 4], 13),
    ("a point as rectangle", [0, 7], [3, 3, 3, 3], 25),
    (
        "across",
        [0, 0],
        [REACH, REACH, REACH, REACH],
        2_199_023_255_552,
    ),
];

// The point of each case has this gap to the rectangle.
fn is_point_apart_from_rectangle(rt: &impl Abort, cases: &[(&str, [u32; 2], [u32; 4], u128)]) {
    for (name, p, r, gap) in cases {
        assert_eq!(rt;
            of_point_and_rect(at(*p), area(*r)),
            Some((*gap, 1)),
            "{name}"
        );
    }
}

#[test]
fn gaps_of_a_point_and_a_rectangle(rt: HostRuntime) {
    is_point_apart_from_rectangle(&rt, &POINTS_AND_RECTANGLES);
}

static SEGMENTS_AND_RECTANGLES: [(&str, [u32; 4], [u32; 4], (u128, u128)); 10] = [
    ("inside", [3, 3, 4, 3], [2, 2, 6, 4], (0, 1)),
    ("right through", [0, 3, 9, 3], [2, 2, 6, 4], (0, 1)),
    ("from above", [4, 9, 4, 3], [2, 2, 6, 4], (0, 1)),
    ("through a corner", [0, 4, 4, 0], [2, 2, 6, 4], (0, 1)),
    ("past a corner", [0, 3, 3, 0], [2, 2, 6, 4], (1, 2)),
    ("an end below", [3, 0, 5, 1], [2, 2, 6, 4], (1, 1)),
    ("corner to corner", [2, 4, 6, 2], [2, 2, 6, 4], (0, 1)),
    ("through a point", [0, 0, 6, 6], [3, 3, 3, 3], (0, 1)),
    ("through a line", [4, 0, 4, 5], [0, 2, 8, 2], (0, 1)),
    ("beside a line", [4, 3, 4, 5], [0, 2, 8, 2], (1, 1)),
];

// The segment of each case has this gap to the rectangle.
fn is_segment_apart_from_rectangle(
    rt: &impl Abort,
    cases: &[(&str, [u32; 4], [u32; 4], (u128, u128))],
) {
    for (name, s, r, gap) in cases {
        assert_eq!(rt;
            of_segment_and_rect(way(*s), area(*r)),
            Some(*gap),
            "{name}"
        );
    }
}

#[test]
fn gaps_of_a_segment_and_a_rectangle(rt: HostRuntime) {
    is_segment_apart_from_rectangle(&rt, &SEGMENTS_AND_RECTANGLES);
}

static RECTANGLES: [(&str, [u32; 4], [u32; 4], u128); 6] = [
    ("corner to corner", [0, 0, 2, 2], [5, 6, 9, 9], 25),
    ("overlapping", [0, 0, 4, 4], [2, 2, 9, 9], 0),
    ("one shared corner", [0, 0, 2, 2], [2, 2, 3, 3], 0),
    ("inside", [0, 0, 9, 9], [3, 3, 4, 4], 0),
    ("two lines", [0, 0, 4, 0], [2, 3, 2, 8], 9),
    (
        "borders",
        [0, 0, 0, 9],
        [REACH, 0, REACH, 9],
        1_099_511_627_776,
    ),
];

// The rectangles of each case have this gap.
fn are_rectangles_apart(rt: &impl Abort, cases: &[(&str, [u32; 4], [u32; 4], u128)]) {
    for (name, a, b, gap) in cases {
        assert_eq!(rt; of_rects(area(*a), area(*b)), Some((*gap, 1)), "{name}");
    }
}

#[test]
fn gaps_of_rectangles(rt: HostRuntime) {
    are_rectangles_apart(&rt, &RECTANGLES);
}
