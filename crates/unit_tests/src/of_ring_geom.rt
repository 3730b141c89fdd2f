// Gaps worked out by hand or by exact fractions, of rings that cross or touch themselves and of the plane's ends.
ghost use Rattle.std.specs.Prelude.{IsTrue, IfSome};
ghost use Rattle.sand_base.specs.Plane.{IsRectInClosedPlane, IsShapeInClosedPlane};

use crate::closed_plane::{at, in_closed_plane};
use crate::ring_cases::{POINTS, POLYGONS, RECTANGLES, SEGMENTS};
use crate::ring_figures::{FAR, PLANE};
use exact_frac::Frac;
use ring_geom::{bounding, gap_goal, gap_goal_rect, gap_shape_rect, gap_shapes, meets_rect};
use sand_base::{Goal, Point, Rect, Ring, Segment, Shape};
use std::alloc::Global;
use std::process::Abort;

fn area(bounds: [u32; 4]) -> Option<Rect>
    ensures { IfSome result (λ area. IsRectInClosedPlane area) }
{
    let [low_x, low_y, high_x, high_y] = bounds;
    let low = at([low_x, low_y]);
    let high = at([high_x, high_y]);
    if in_closed_plane(low) && in_closed_plane(high) && low.x <= high.x && low.y <= high.y {
        Some(Rect { low, high })
    } else {
        None
    }
}

// The polygon with these vertices, gone round so many times, and after that with this one vertex so many times.
fn polygon(alloc: Global, corners: &[[u32; 2]], rounds: u8, last: &[[u32; 2]]) -> Option<Shape>
    ensures { IfSome result (λ shape. IsShapeInClosedPlane shape) }
{
    let mut points = Vec::new(alloc);
    'rounds: for _ in 0..rounds {
        'corners: for corner in corners {
            if points.push(at(*corner)).is_err() {
                return None;
            }
        }
    }
    'last: for corner in last {
        if points.push(at(*corner)).is_err() {
            return None;
        }
    }
    match Ring::new(points) {
        Ok(ring) => Some(Shape::Polygon(ring)),
        Err(_) => None,
    }
}

fn figure(alloc: Global, vertices: &[[u32; 2]]) -> Option<Shape>
    ensures { IfSome result (λ shape. IsShapeInClosedPlane shape) }
{
    match vertices {
        [p] => {
            let p = at(*p);
            if in_closed_plane(p) {
                Some(Shape::Point(p))
            } else {
                None
            }
        }
        [a, b] => {
            let (a, b) = (at(*a), at(*b));
            if in_closed_plane(a) && in_closed_plane(b) {
                Some(Shape::Segment(Segment { a, b }))
            } else {
                None
            }
        }
        corners => polygon(alloc, corners, 1, &[]),
    }
}

// The gap in lowest terms.
fn parts(gap: Frac) -> (u128, u128) {
    let gap = gap.lowest();
    (gap.num(), gap.den())
}

fn of_figures(alloc: Global, a: &[[u32; 2]], b: &[[u32; 2]]) -> Option<(u128, u128)> {
    let a = figure(alloc, a)?;
    let b = figure(alloc, b)?;
    Some(parts(gap_shapes(&a, &b)))
}

// The gap of a polygon and a rectangle, whether they meet, and that either as the goal has the same gap.
fn of_rectangle(alloc: Global, corners: &[[u32; 2]], r: [u32; 4]) -> Option<((u128, u128), bool)> {
    let ring = figure(alloc, corners)?;
    let r = area(r)?;
    let gap = gap_shape_rect(&ring, r);
    let meets = meets_rect(&ring, r);
    if gap_goal(&Goal::Rect(r), &ring) == gap && gap_goal_rect(&Goal::Shape(ring), r) == gap {
        Some((parts(gap), meets))
    } else {
        None
    }
}

// The figures of each case have its gap, and so have they turned round.
fn have_their_gaps(
    rt: &impl Abort,
    alloc: Global,
    cases: &[(&str, &[[u32; 2]], &[[u32; 2]], (u128, u128))],
) {
    for (name, a, b, gap) in cases {
        let found = [of_figures(alloc, a, b), of_figures(alloc, b, a)];
        assert_eq!(rt; found, [Some(*gap); 2], "{name}, and turned round");
    }
}

#[test]
fn gaps_of_a_point_and_a_polygon(rt: HostRuntime) {
    have_their_gaps(&rt, rt.alloc(), &POINTS);
}

#[test]
fn gaps_of_a_segment_and_a_polygon(rt: HostRuntime) {
    have_their_gaps(&rt, rt.alloc(), &SEGMENTS);
}

#[test]
fn gaps_of_two_polygons(rt: HostRuntime) {
    have_their_gaps(&rt, rt.alloc(), &POLYGONS);
}

#[test]
fn a_figure_has_a_vertex(rt: HostRuntime) {
    assert_eq!(rt; of_figures(rt.alloc(), &[[0, 0]], &[]), None);
}

// The polygon and the rectangle of each case have its gap, and meet where it is 0.
fn meet_or_have_their_gaps(
    rt: &impl Abort,
    alloc: Global,
    cases: &[(&str, &[[u32; 2]], [u32; 4], (u128, u128))],
) {
    for (name, ring, r, gap) in cases {
        assert_eq!(rt;
            of_rectangle(alloc, ring, *r),
            Some((*gap, *gap == (0, 1))),
            "{name}"
        );
    }
}

#[test]
fn gaps_of_a_polygon_and_a_rectangle(rt: HostRuntime) {
    meet_or_have_their_gaps(&rt, rt.alloc(), &RECTANGLES);
}

// The gap of the middle of the plane and a ring that goes round the plane, with more vertices at the last corner.
fn of_middle(alloc: Global, rounds: u8, last: &[[u32; 2]]) -> Option<(u128, u128)> {
    let middle = figure(alloc, &[[524_288, 524_288]])?;
    let ring = polygon(alloc, PLANE, rounds, last)?;
    Some(parts(gap_shapes(&middle, &ring)))
}

#[test]
fn rings_of_64_vertices_at_the_corners_of_the_plane(rt: HostRuntime) {
    let alloc = rt.alloc();
    let last = [0, FAR];
    let found = [
        of_middle(alloc, 15, &[last; 4]),
        of_middle(alloc, 16, &[]),
        of_middle(alloc, 16, &[last]),
    ];
    assert_eq!(rt;
        found,
        [Some((0, 1)), Some((274_876_858_369, 1)), None],
        "15 rounds hold the middle, 16 rounds do not, and 65 vertices are no ring"
    );
}

#[test]
fn a_bounding_rectangle_reaches_to_the_last_vertex(rt: HostRuntime) {
    let bound = figure(rt.alloc(), &[[4, 1], [8, 4], [4, 8], [2, 4]]).map(|ring| bounding(&ring));
    assert_eq!(rt; bound, area([2, 1, 8, 8]));
}
