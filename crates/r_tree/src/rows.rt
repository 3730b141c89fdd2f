// Rows enter and leave an R-tree that lists them.
ghost use Rattle.std.specs.Prelude.{◌≡◌, ◌∷◌, ◌++◌, [], ℕ, List, Some, map, filter, not, nat_eq, IfOk};
ghost use Rattle.page_pool.specs.Pool.{IsOpen, IsTold};
ghost use Rattle.page_pool.specs.Causes.{HasPageCause};
ghost use Rattle.page_pool.specs.Steps.{InCommand};
ghost use Rattle.sand_base.specs.Plane.{IsShapeInPlane};
ghost use Rattle.sand_base.specs.declared.shape.Shape.{Shape as Figure};
ghost use Rattle.sand_model.specs.Database.{shape_at};
ghost use Rattle.r_tree.specs.Listing.{ListsRows, AreMembersOf, HasNoRowOf, HasRowsOnce, PlantsRows, Relists};

use crate::RTree;
use crate::rough::rough_shape;
use page_pool::{Disk, PageFault, Pool};
use sand_base::{Rough, Shape};
use std::alloc::Global;

/// The tree of rows whose ids and rough shapes are given, on new pages. After a refusal the command is to be aborted.
pub fn tree_of_rows<D: Disk>(
    alloc: Global,
    pool: &mut Pool<D>,
    number: u32,
    members: &[(u32, Rough)],
) -> Result<RTree, PageFault>
    requires opened { IsOpen pool.old }
    requires once { IsTold pool.old → (rows : List (ℕ × Figure)) × (AreMembersOf members.now rows × HasRowsOnce rows) }
    ensures planted { IfOk result (λ tree. IsTold pool.old → (rows : List (ℕ × Figure)) → AreMembersOf members.now rows → PlantsRows pool.old.pages pool.new.pages tree number rows) }
    ensures within { InCommand pool.old pool.new }
    ensures cause { HasPageCause pool.old pool.new result }
{
    let tree = RTree::build(alloc, pool, number, members)?;
    Ok(tree)
}

/// The tree with the row of a new id. After a refusal the command is to be aborted.
pub fn with_shape<D: Disk>(
    alloc: Global,
    pool: &mut Pool<D>,
    tree: RTree,
    id: u32,
    shape: &Shape,
) -> Result<RTree, PageFault>
    requires opened { IsOpen pool.old }
    requires plane { IsShapeInPlane shape.now }
    requires lists { IsTold pool.old → (rows : List (ℕ × Figure)) × (ListsRows pool.old.pages tree rows × HasNoRowOf id rows) }
    ensures relists { IfOk result (λ grown. IsTold pool.old → (rows : List (ℕ × Figure)) → ListsRows pool.old.pages tree rows
        → Relists pool.old.pages pool.new.pages tree grown (rows ++ (id, shape.now) ∷ [])) }
    ensures within { InCommand pool.old pool.new }
    ensures cause { HasPageCause pool.old pool.new result }
{
    let mut grown = tree;
    grown.insert(alloc, pool, id, rough_shape(shape))?;
    Ok(grown)
}

/// The tree without the row of an id, which has this shape. After a refusal the command is to be aborted.
pub fn without_shape<D: Disk>(
    alloc: Global,
    pool: &mut Pool<D>,
    tree: RTree,
    id: u32,
    shape: &Shape,
) -> Result<RTree, PageFault>
    requires opened { IsOpen pool.old }
    requires plane { IsShapeInPlane shape.now }
    requires lists { IsTold pool.old → (rows : List (ℕ × Figure)) × (ListsRows pool.old.pages tree rows × (shape_at rows id ≡ Some shape.now)) }
    ensures relists { IfOk result (λ shrunk. IsTold pool.old → (rows : List (ℕ × Figure)) → ListsRows pool.old.pages tree rows → shape_at rows id ≡ Some shape.now
        → Relists pool.old.pages pool.new.pages tree shrunk (filter (λ row. not (nat_eq row.0 id)) rows)) }
    ensures within { InCommand pool.old pool.new }
    ensures cause { HasPageCause pool.old pool.new result }
{
    let mut shrunk = tree;
    shrunk.remove(alloc, pool, id, rough_shape(shape))?;
    Ok(shrunk)
}
