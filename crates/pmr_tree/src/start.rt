ghost use Rattle.std.specs.Prelude.{◌≡◌, ◌+◌, ◌*◌, ◌^◌, ◌<◌, ◌≤◌, IfOk};
ghost use Rattle.sand_base.specs.declared.TheConstants.{COORDINATE_BITS};
ghost use Rattle.sand_base.specs.Plane.{IsShapeInPlane};
ghost use Rattle.z_code.specs.Block.{IsBlock};
ghost use Rattle.sand_model.specs.Tree.{root_block};
ghost use Rattle.page_pool.specs.Pool.{IsTold};
ghost use Rattle.page_pool.specs.Reads.{IsRead};
ghost use Rattle.page_pool.specs.Causes.{HasPageCause};
ghost use Rattle.pmr_tree.specs.Quadtree.{tree_at, IsPmr};
ghost use Rattle.pmr_tree.specs.Starts.{has_inside, IsLeafIn, MayBeginAt};

use crate::Pmr;
use crate::code_leaf::{block_with, last_key, level_in};
use page_pool::{PageFault, Pages};
use sand_base::{COORDINATE_BITS, Point, Shape};
use z_code::Block;

// Whether the point lies in the square of the block, on none of its sides.
fn has_inside(block: Block, point: Point) -> bool
    requires { IsBlock block }
    ensures { result ≡ has_inside block point }
{
    let square = block.rect();
    square.low.x < point.x
        && point.x < square.high.x
        && square.low.y < point.y
        && point.y < square.high.y
}

// The block of the leaf that has the code in its range.
fn leaf_block<P: Pages>(pages: &mut P, tree: Pmr, z: u64) -> Result<Block, PageFault>
    requires code { z < 2 ^ (2 * COORDINATE_BITS) }
    requires tree { IsTold (P.shown pages.old) → IsPmr (P.shown pages.old).pages tree }
    ensures block { IfOk result (λ leaf. IsBlock leaf) }
    ensures leaf { IfOk result (λ leaf. IsTold (P.shown pages.old) → IsLeafIn root_block (tree_at (P.shown pages.old).pages tree) leaf) }
    ensures read { IsRead (P.shown pages.old) (P.shown pages.new) }
    ensures cause { HasPageCause (P.shown pages.old) (P.shown pages.new) result }
{
    let found = tree.map.floor(pages, last_key(z))?;
    Ok(block_with(z, level_in(found)))
}

// The block at which a change by the shape may begin: the leaf that has a point in its square and on none of its sides,
// since no other leaf lists it; for any other shape the root.
pub fn start_of<P: Pages>(pages: &mut P, tree: Pmr, shape: &Shape) -> Result<Block, PageFault>
    requires plane { IsShapeInPlane shape.now }
    requires tree { IsTold (P.shown pages.old) → IsPmr (P.shown pages.old).pages tree }
    ensures block { IfOk result (λ start. IsBlock start) }
    ensures start { IfOk result (λ start. IsTold (P.shown pages.old) → MayBeginAt shape.now (tree_at (P.shown pages.old).pages tree) start) }
    ensures read { IsRead (P.shown pages.old) (P.shown pages.new) }
    ensures cause { HasPageCause (P.shown pages.old) (P.shown pages.new) result }
{
    let Shape::Point(point) = shape else {
        return Ok(Block::root());
    };
    let finest = Block::of_point(*point, COORDINATE_BITS as u8);
    let leaf = leaf_block(pages, tree, finest.z)?;
    if !has_inside(leaf, *point) {
        return Ok(Block::root());
    }
    Ok(leaf)
}
