// Which quarters of a block the shape of a row meets.
ghost use Rattle.std.specs.Prelude.{◌≡◌, ℕ, ◌<◌, Bool, true, IsTrue, IfOk};
ghost use Rattle.sand_base.specs.Grid.{IsInPlane};
ghost use Rattle.sand_base.specs.Plane.{IsShapeInPlane};
ghost use Rattle.sand_base.specs.declared.TheConstants.{COORDINATE_BITS};
ghost use Rattle.page_pool.specs.Pool.{IsTold};
ghost use Rattle.page_pool.specs.Reads.{IsRead};
ghost use Rattle.page_pool.specs.Causes.{HasPageCause};
ghost use Rattle.z_code.specs.Block.{IsBlock};
ghost use Rattle.z_code.specs.declared.block.Block.{Block};
ghost use Rattle.pmr_build.specs.Members.{IsMemberOf, TellsRows};
ghost use Rattle.ring_geom.specs.Bounding.{Overlap};
ghost use Rattle.pmr_build.specs.Parts.{AreSquares, MeetsSquares, TellOverlaps, IsJustOne, AreQuartersMet};

use page_pool::{PageFault, Pages};
use pmr_tree::ShapeOf;
use ring_geom::meets_rect;
use sand_base::{COORDINATE_BITS, Point, Rect, Rough, Shape};
use std::alloc::Global;
use z_code::Block;

/// The closed squares of the four children of a block.
#[derive(Clone, Copy)]
pub struct Squares {
    pub first: Rect,
    pub second: Rect,
    pub third: Rect,
    pub fourth: Rect,
}

/// Which of the four children of a block have squares that a shape meets.
#[derive(Clone, Copy)]
pub struct QuartersMet {
    pub first: bool,
    pub second: bool,
    pub third: bool,
    pub fourth: bool,
}

// The squares of the children of a block.
pub fn squares_of(block: Block) -> Squares
    requires block { IsBlock block }
    requires above_points { block.level < COORDINATE_BITS }
    ensures { AreSquares block result }
{
    let [first, second, third, fourth] = block.quarters();
    Squares {
        first: first.1,
        second: second.1,
        third: third.1,
        fourth: fourth.1,
    }
}

// Whether the point is a grid point of the plane.
pub fn is_in_plane(at: Point) -> bool
    ensures { result ≡ true → IsInPlane at }
{
    at.x < 1 << COORDINATE_BITS && at.y < 1 << COORDINATE_BITS
}

// The squares that the shape meets.
fn squares_met(shape: &Shape, block: Block, squares: Squares) -> QuartersMet
    requires plane { IsShapeInPlane shape.now }
    requires squares { AreSquares block squares }
    ensures { MeetsSquares shape.now block result }
{
    QuartersMet {
        first: meets_rect(shape, squares.first),
        second: meets_rect(shape, squares.second),
        third: meets_rect(shape, squares.third),
        fourth: meets_rect(shape, squares.fourth),
    }
}

// Whether two closed rectangles have a point in common.
fn overlap(a: Rect, b: Rect) -> bool
    ensures { Overlap a b → IsTrue result }
{
    a.low.x <= b.high.x && b.low.x <= a.high.x && a.low.y <= b.high.y && b.low.y <= a.high.y
}

// The squares that a rectangle touches.
fn squares_near(bound: Rect, squares: Squares) -> QuartersMet
    ensures { TellOverlaps bound squares result }
{
    QuartersMet {
        first: overlap(bound, squares.first),
        second: overlap(bound, squares.second),
        third: overlap(bound, squares.third),
        fourth: overlap(bound, squares.fourth),
    }
}

// Whether just one of the four answers is yes.
fn is_one(met: QuartersMet) -> bool
    ensures { result ≡ true → IsJustOne met.first met.second met.third met.fourth }
{
    match (met.first, met.second, met.third, met.fourth) {
        (true, false, false, false) | (false, true, false, false) => true,
        (false, false, true, false) | (false, false, false, true) => true,
        _ => false,
    }
}

// The children of the block whose squares the shape of a member meets. A polygon's is read, but where its rectangle
// touches one of the squares alone: this one it meets, since it meets the block's.
pub fn quarters_met<P: Pages, S: ShapeOf>(
    alloc: Global,
    pages: &mut P,
    shapes: &S,
    block: Block,
    squares: Squares,
    member: (u32, Rough),
) -> Result<QuartersMet, PageFault>
    requires stands { IsTold (P.shown pages.old) → S.Stands shapes.now (P.shown pages.old).pages }
    requires block { IsBlock block }
    requires above_points { block.level < COORDINATE_BITS }
    requires squares { AreSquares block squares }
    ensures met { IfOk result (λ met. IsTold (P.shown pages.old) → (m : Block → ℕ → Bool) → TellsRows (S.rows shapes.now (P.shown pages.old).pages) m
        → IsMemberOf (S.rows shapes.now (P.shown pages.old).pages) member → m block member.0 ≡ true → AreQuartersMet m block member.0 met) }
    ensures read { IsRead (P.shown pages.old) (P.shown pages.new) }
    ensures cause { HasPageCause (P.shown pages.old) (P.shown pages.new) result }
{
    match member.1 {
        Rough::Point(at) => {
            // No row of a store over a disk that tells has a shape outside the plane.
            if !is_in_plane(at) {
                return Err(PageFault::Memory);
            }
            Ok(squares_met(&Shape::Point(at), block, squares))
        }
        Rough::Segment(way) => {
            if !is_in_plane(way.a) || !is_in_plane(way.b) {
                return Err(PageFault::Memory);
            }
            Ok(squares_met(&Shape::Segment(way), block, squares))
        }
        Rough::Bound(bound) => {
            let near = squares_near(bound, squares);
            if is_one(near) {
                return Ok(near);
            }
            let shape = shapes.shape_of(alloc, pages, member.0)?;
            Ok(squares_met(&shape, block, squares))
        }
    }
}
