// Small searches that were worked out by hand.
ghost use Rattle.std.specs.Prelude.{◌≤◌, ◌<◌};
ghost use Rattle.sand_base.specs.InRange.{IsCeilingInRange};
ghost use Rattle.sand_base.specs.Grid.{IsInClosedPlane};

use crate::open_pool::OpenPool;
use crate::readers::{Found, Readers};
use crate::shapes::Shapes;
use crate::trees::{planted, planted_both};
use page_pool::PageFault;
use pmr_tree::Pmr;
use sand_base::{Goal, Point, Rect, Shape};
use std::alloc::Global;

const TIE: Shapes = Shapes::Listed(&[[524288, 524292], [524288, 524288]]);

const TWO: Shapes = Shapes::Listed(&[[0, 0], [3, 4]]);

const ONE: Shapes = Shapes::Listed(&[[10, 10]]);

const ABOVE_AND_BELOW: Shapes = Shapes::Listed(&[[10, 12], [10, 8]]);

const SPREAD: Shapes = Shapes::Listed(&[[0, 0], [960000, 960000], [1600, 0]]);

const THREE: Shapes = Shapes::Listed(&[[0, 0], [10, 10], [11, 10]]);

const REGIONS: Shapes = Shapes::Polygons(&[
    &[[0, 0], [960000, 0], [960000, 960000], [0, 960000]],
    &[[640000, 640000], [800000, 640000], [800000, 800000]],
    &[[16000, 16000], [32000, 16000], [32000, 32000]],
]);

/// A search that is looked at.
#[derive(Clone, Copy, PartialEq, Eq)]
pub enum Search {
    TieFromBetween,
    PolygonsFromInside,
    TwoWithThemselves,
    OneToTwo,
    SpreadFromTheOrigin,
    SpreadFirst,
    InWindow,
    Within14,
    Within15,
}

// A tree of the shapes, and the pages with it.
fn grown(
    alloc: Global,
    threshold: u8,
    shapes: Shapes,
    ids: u32,
) -> Result<(Readers, Pmr), PageFault>
    requires least { 1 ≤ threshold }
    requires most { threshold ≤ 64 }
{
    let mut pool = OpenPool::start(alloc, 64)?;
    let tree = planted(alloc, &mut pool, threshold, shapes, ids)?;
    Ok((pool.close(alloc), tree))
}

// The first rows of a ranking from a point.
fn from_point(
    alloc: Global,
    threshold: u8,
    shapes: Shapes,
    ids: u32,
    goal: Point,
    ceiling: Option<u32>,
    most: u32,
) -> Result<Found, PageFault>
    requires least { 1 ≤ threshold }
    requires all { threshold ≤ 64 }
    requires plane { IsInClosedPlane goal }
    requires small { IsCeilingInRange ceiling }
{
    let (mut pages, tree) = grown(alloc, threshold, shapes, ids)?;
    let goal = Goal::Shape(Shape::Point(goal));
    pages.rank(alloc, &tree, shapes, goal, ceiling, most)
}

// The first rows of a ranking from a rectangle.
fn in_window(alloc: Global, low: Point, high: Point) -> Result<Found, PageFault>
    requires low { IsInClosedPlane low }
    requires high { IsInClosedPlane high }
    requires x { low.x ≤ high.x }
    requires y { low.y ≤ high.y }
{
    let (mut pages, tree) = grown(alloc, 8, THREE, 3)?;
    let goal = Goal::Rect(Rect { low, high });
    pages.rank(alloc, &tree, THREE, goal, Some(0), 5)
}

// All pairs of two points with themselves.
fn joined(alloc: Global) -> Result<Found, PageFault> {
    let (mut pages, tree) = grown(alloc, 8, TWO, 2)?;
    pages.join(alloc, (&tree, TWO), (&tree, TWO), 5)
}

// The first pair of the rows of two trees.
fn first_pair_of(
    alloc: Global,
    pages: &mut Readers,
    left: &Pmr,
    right: &Pmr,
) -> Result<Found, PageFault> {
    pages.semi(alloc, (left, ONE), (right, ABOVE_AND_BELOW), 1, 3)
}

// The first pair of one point with two others.
fn first_pair(alloc: Global) -> Result<Found, PageFault> {
    let mut pool = OpenPool::start(alloc, 64)?;
    let (left, right) = planted_both(alloc, &mut pool, (ONE, 1), (ABOVE_AND_BELOW, 2))?;
    first_pair_of(alloc, &mut pool.close(alloc), &left, &right)
}

const ORIGIN: Point = Point { x: 0, y: 0 };

/// What a search finds.
pub fn found(alloc: Global, search: Search) -> Result<Found, PageFault> {
    match search {
        Search::TieFromBetween => {
            from_point(
                alloc,
                1,
                TIE,
                2,
                Point {
                    x: 524288,
                    y: 524290,
                },
                None,
                3,
            )
        }
        Search::PolygonsFromInside => {
            from_point(
                alloc,
                1,
                REGIONS,
                3,
                Point {
                    x: 320000,
                    y: 320000,
                },
                None,
                4,
            )
        }
        Search::TwoWithThemselves => joined(alloc),
        Search::OneToTwo => first_pair(alloc),
        Search::SpreadFirst => from_point(alloc, 1, SPREAD, 3, ORIGIN, None, 2),
        Search::SpreadFromTheOrigin => from_point(alloc, 1, SPREAD, 3, ORIGIN, None, 4),
        Search::InWindow => in_window(alloc, ORIGIN, Point { x: 10, y: 10 }),
        Search::Within14 => from_point(alloc, 8, THREE, 3, ORIGIN, Some(14), 5),
        Search::Within15 => from_point(alloc, 8, THREE, 3, ORIGIN, Some(15), 5),
    }
}

/// Each search with its name.
pub static SEARCHES: [(&str, Search); 9] = [
    (
        "two points at the corner of four blocks, from between them",
        Search::TieFromBetween,
    ),
    (
        "polygons, from a point inside the first",
        Search::PolygonsFromInside,
    ),
    (
        "two points joined with themselves",
        Search::TwoWithThemselves,
    ),
    ("the nearest of two to one", Search::OneToTwo),
    (
        "spread points from the origin, two of them",
        Search::SpreadFirst,
    ),
    (
        "spread points from the origin, all of them",
        Search::SpreadFromTheOrigin,
    ),
    ("three points within a window", Search::InWindow),
    ("three points within 14", Search::Within14),
    ("three points within 15", Search::Within15),
];
