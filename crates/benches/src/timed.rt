// What `bench/pages.py` times: trees, files and searches of so many rows, in 4,096 frames.
ghost use Rattle.std.specs.Prelude.{◌<◌, ◌*◌, ◌^◌};
ghost use Rattle.sand_base.specs.declared.TheConstants.{COORDINATE_BITS};
ghost use Rattle.sand_base.specs.Grid.{IsInPlane};

use crate::draws::Draws;
use crate::open_pool::OpenPool;
use crate::readers::Readers;
use crate::shapes::Shapes;
use crate::trees::{planted, planted_both};
use crate::tuples;
use page_pool::PageFault;
use pmr_tree::Pmr;
use sand_base::{Goal, Point, Shape};
use std::alloc::Global;

/// What is made.
#[derive(Clone, Copy)]
pub enum Part {
    /// A quadtree of points.
    Tree,
    /// The leaf of each of so many drawn codes.
    Look,
    /// The first ten rows from each of 1,000 goals.
    Rank,
    /// The first 100 pairs of so many points with as many others, ten times.
    Join,
    /// The nearest of the others to each point.
    Semi,
    /// Rows put into a file.
    Put,
    /// And fetched.
    Fetch,
}

const FRAMES: u32 = 4_096;

// A tree of points in a pool.
fn grown(alloc: Global, rows: u32) -> Result<(OpenPool, Pmr), PageFault> {
    let mut pool = OpenPool::start(alloc, FRAMES)?;
    let tree = planted(alloc, &mut pool, 8, Shapes::Points, rows)?;
    Ok((pool, tree))
}

// How many ids the leaf of a code lists.
fn ids_of(alloc: Global, pool: &mut OpenPool, tree: &Pmr, z: u64) -> Result<u64, PageFault>
    requires { z < 2 ^ (2 * COORDINATE_BITS) }
{
    let (_block, list) = pool.leaf(alloc, tree, z)?;
    Ok(list.as_slice().len() as u64)
}

// The leaves of drawn codes; gives how many ids they list.
fn look(alloc: Global, pool: &mut OpenPool, tree: &Pmr, codes: u32) -> Result<u64, PageFault> {
    let mut draws = Draws::begin(1);
    let mut ids = 0u64;
    'leaves: for _ in 0..codes {
        ids = ids.wrapping_add(ids_of(alloc, pool, tree, draws.code())?);
    }
    Ok(ids)
}

// As many leaves as the tree has rows.
fn looked(alloc: Global, rows: u32) -> Result<u64, PageFault> {
    let (mut pool, tree) = grown(alloc, rows)?;
    look(alloc, &mut pool, &tree, rows)
}

// A drawn goal.
fn goal(draws: &mut Draws) -> Point
    ensures { IsInPlane result }
{
    let x = draws.coordinate();
    let y = draws.coordinate();
    Point { x, y }
}

// The first ten rows from a goal; gives how many nodes they visit.
fn visited_from(
    alloc: Global,
    pages: &mut Readers,
    tree: &Pmr,
    goal: Point,
) -> Result<u64, PageFault>
    requires { IsInPlane goal }
{
    let goal = Goal::Shape(Shape::Point(goal));
    let found = pages.rank(alloc, tree, Shapes::Points, goal, None, 10)?;
    Ok(found.visited)
}

// Rankings from drawn goals; gives how many nodes they visit.
fn rank(alloc: Global, pages: &mut Readers, tree: &Pmr) -> Result<u64, PageFault> {
    let mut draws = Draws::begin(2);
    let mut visited = 0u64;
    'goals: for _ in 0..1_000u32 {
        let goal = goal(&mut draws);
        visited = visited.wrapping_add(visited_from(alloc, pages, tree, goal)?);
    }
    Ok(visited)
}

// Rankings over a tree of so many rows.
fn ranked(alloc: Global, rows: u32) -> Result<u64, PageFault> {
    let (pool, tree) = grown(alloc, rows)?;
    rank(alloc, &mut pool.close(alloc), &tree)
}

// Two trees in one pool, the second of points, segments and triangles.
fn sides(alloc: Global, rows: u32) -> Result<(Readers, Pmr, Pmr), PageFault> {
    let mut pool = OpenPool::start(alloc, FRAMES)?;
    let points = (Shapes::Points, rows);
    let (left, right) = planted_both(alloc, &mut pool, points, (Shapes::Mixed, rows))?;
    Ok((pool.close(alloc), left, right))
}

// The nearest pairs; gives how many pairs of nodes are visited.
fn visited_by(
    alloc: Global,
    pages: &mut Readers,
    left: &Pmr,
    right: &Pmr,
) -> Result<u64, PageFault> {
    let found = pages.join(alloc, (left, Shapes::Points), (right, Shapes::Mixed), 100)?;
    Ok(found.visited)
}

// The nearest pairs, some times; gives how many pairs of nodes are visited.
fn join(alloc: Global, pages: &mut Readers, left: &Pmr, right: &Pmr) -> Result<u64, PageFault> {
    let mut visited = 0u64;
    'times: for _ in 0..10u8 {
        visited = visited.wrapping_add(visited_by(alloc, pages, left, right)?);
    }
    Ok(visited)
}

// Joins of two trees of so many rows.
fn joined(alloc: Global, rows: u32) -> Result<u64, PageFault> {
    let (mut pages, left, right) = sides(alloc, rows)?;
    join(alloc, &mut pages, &left, &right)
}

// A whole semi-join; gives how many pairs of nodes are visited.
fn semi(
    alloc: Global,
    pages: &mut Readers,
    left: &Pmr,
    right: &Pmr,
    rows: u32,
) -> Result<u64, PageFault> {
    let left = (left, Shapes::Points);
    let right = (right, Shapes::Mixed);
    let found = pages.semi(alloc, left, right, rows, rows)?;
    Ok(found.visited)
}

// A semi-join of two trees of so many rows.
fn first_pairs(alloc: Global, rows: u32) -> Result<u64, PageFault> {
    let (mut pages, left, right) = sides(alloc, rows)?;
    semi(alloc, &mut pages, &left, &right, rows)
}

/// Makes a part with so many rows; gives what it counts.
pub fn made(alloc: Global, part: Part, rows: u32) -> Result<u64, PageFault> {
    match part {
        Part::Tree => {
            let (_pool, tree) = grown(alloc, rows)?;
            Ok(tree.listings())
        }
        Part::Look => looked(alloc, rows),
        Part::Rank => ranked(alloc, rows),
        Part::Join => joined(alloc, rows),
        Part::Semi => first_pairs(alloc, rows),
        Part::Put => tuples::put_and_fetched(alloc, rows, 0),
        Part::Fetch => tuples::put_and_fetched(alloc, rows, rows),
    }
}

/// The part that a word names.
pub fn part_named(word: &str) -> Option<Part> {
    match word {
        "tree" => Some(Part::Tree),
        "look" => Some(Part::Look),
        "rank" => Some(Part::Rank),
        "join" => Some(Part::Join),
        "semi" => Some(Part::Semi),
        "put" => Some(Part::Put),
        "fetch" => Some(Part::Fetch),
        _ => None,
    }
}
