ghost use Rattle.std.specs.Prelude.{◌≡◌, ◌+◌, ◌≤◌, ◌<◌, Some, IfOk};
ghost use Rattle.sand_base.specs.Plane.{IsShapeInPlane};
ghost use Rattle.sand_base.specs.declared.TheConstants.{COORDINATE_BITS};
ghost use Rattle.sand_base.specs.declared.shape.Shape.{Shape};
ghost use Rattle.sand_model.specs.Database.{shape_at};
ghost use Rattle.z_code.specs.Block.{IsBlock};
ghost use Rattle.page_pool.specs.Pool.{IsTold};
ghost use Rattle.page_pool.specs.Reads.{IsRead};
ghost use Rattle.page_pool.specs.Causes.{HasPageCause};
ghost use Rattle.pmr_tree.specs.Calls.{IsFoundInRange, GetsSome};
ghost use Rattle.pmr_tree.specs.declared.listed.Node.TheVariants as of_tree;
ghost use Rattle.dist_join.specs.Looks.{CanLook, Sees, AreNear, IsWithinPairPrice};

use page_pool::{PageFault, Pages};
use pmr_tree::{Near, Node, Pmr, ShapeOf};
use sand_base::Shape;
use std::alloc::Global;
use z_code::Block;

// The places of two quadtrees at two blocks, each looked at from where its last look began.
pub fn look_at_both<P: Pages>(
    alloc: Global,
    pages: &mut P,
    left: &Pmr,
    block: Block,
    right: &Pmr,
    other: Block,
    near: &mut (Near, Near),
) -> Result<(Node, Node), PageFault>
    requires block { IsBlock block }
    requires other { IsBlock other }
    requires left { IsTold (P.shown pages.old) → CanLook (P.shown pages.old).pages left.now block }
    requires right { IsTold (P.shown pages.old) → CanLook (P.shown pages.old).pages right.now other }
    requires near { IsTold (P.shown pages.old) → AreNear (P.shown pages.old).pages left.now right.now near.old }
    ensures left { IfOk result (λ found. IsTold (P.shown pages.old) → Sees (P.shown pages.old).pages left.now block found.0) }
    ensures right { IfOk result (λ found. IsTold (P.shown pages.old) → Sees (P.shown pages.old).pages right.now other found.1) }
    ensures plane { IfOk result (λ found. IsFoundInRange found.0) }
    ensures other_plane { IfOk result (λ found. IsFoundInRange found.1) }
    ensures above_points { IfOk result (λ found. found.0 ≡ of_tree.Inner → block.level < COORDINATE_BITS) }
    ensures other_above { IfOk result (λ found. found.1 ≡ of_tree.Inner → other.level < COORDINATE_BITS) }
    ensures read { IsRead (P.shown pages.old) (P.shown pages.new) }
    ensures cause { HasPageCause (P.shown pages.old) (P.shown pages.new) result }
    ensures up { (P.shown pages.old).gets ≤ (P.shown pages.new).gets }
    ensures some { GetsSome (P.shown pages.old) (P.shown pages.new) result }
    ensures price { IsTold (P.shown pages.old) → IsWithinPairPrice (P.shown pages.old).pages left.now block right.now other (P.shown pages.old) (P.shown pages.new) }
    ensures near { IsTold (P.shown pages.old) → AreNear (P.shown pages.old).pages left.now right.now near.new }
{
    match left.look_near(alloc, pages, block, &mut near.0) {
        Ok(place) => match right.look_near(alloc, pages, other, &mut near.1) {
            Ok(second) => Ok((place, second)),
            Err(fault) => Err(fault),
        },
        Err(fault) => Err(fault),
    }
}

// The shapes of two rows, one of each side.
pub fn fetch_both<G: ShapeOf, P: Pages>(
    alloc: Global,
    pages: &mut P,
    left_shapes: &G,
    left: u32,
    right_shapes: &G,
    right: u32,
) -> Result<(Shape, Shape), PageFault>
    requires left { IsTold (P.shown pages.old) → G.Stands left_shapes.now (P.shown pages.old).pages }
    requires right { IsTold (P.shown pages.old) → G.Stands right_shapes.now (P.shown pages.old).pages }
    ensures value { IfOk result (λ found. IsTold (P.shown pages.old) → (s t : Shape) → shape_at (G.rows left_shapes.now (P.shown pages.old).pages) left ≡ Some s
        → shape_at (G.rows right_shapes.now (P.shown pages.old).pages) right ≡ Some t → (found.0 ≡ s) × (found.1 ≡ t)) }
    ensures plane { IfOk result (λ found. IsShapeInPlane found.0 × IsShapeInPlane found.1) }
    ensures read { IsRead (P.shown pages.old) (P.shown pages.new) }
    ensures cause { HasPageCause (P.shown pages.old) (P.shown pages.new) result }
    ensures up { (P.shown pages.old).gets ≤ (P.shown pages.new).gets }
    ensures price { (P.shown pages.new).gets ≤ (P.shown pages.old).gets + (G.price left_shapes.now + G.price right_shapes.now) }
{
    match left_shapes.shape_of(alloc, pages, left) {
        Ok(shape) => match right_shapes.shape_of(alloc, pages, right) {
            Ok(other) => Ok((shape, other)),
            Err(fault) => Err(fault),
        },
        Err(fault) => Err(fault),
    }
}
