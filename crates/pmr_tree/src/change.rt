ghost use Rattle.std.specs.Prelude.{◌≡◌, ℕ, ◌<◌, ◌≤◌, IfOk, OnOk, Some, Err};
ghost use Rattle.sand_base.specs.Plane.{IsShapeInPlane};
ghost use Rattle.sand_model.specs.Measure.{Measure, IsMeasure};
ghost use Rattle.page_pool.specs.Pool.{IsOpen, IsLive, IsTold};
ghost use Rattle.page_pool.specs.Causes.{HasPageCause};
ghost use Rattle.page_pool.specs.Steps.{InCommand};
ghost use Rattle.code_btree.specs.Tree.{times};
ghost use Rattle.pmr_tree.specs.Leaves.{fault_of};
ghost use Rattle.pmr_tree.specs.Plot.{of_end, IsNotFull};
ghost use Rattle.pmr_tree.specs.Quadtree.{pages_at, tree_at, IsPmr, FitsOthers, IsListedWhereMet};
ghost use Rattle.pmr_tree.specs.Calls.{Grows, Shrinks};

use crate::grow::grow;
use crate::no_shapes::NoShapes;
use crate::plot::Plot;
use crate::shrink::shrink_at;
use crate::start::start_of;
use crate::value::value_of;
use crate::{Kept, Pmr, PmrFault, ShapeOf};
use page_pool::{Disk, PageFault, Pool};
use ring_geom::{measure_laws, ring_laws};
use sand_base::Shape;
use std::alloc::Global;
use z_code::Block;

// The quadtree with an id more, whatever its listings.
pub fn grown<D: Disk, G: ShapeOf>(
    alloc: Global,
    pool: &mut Pool<D>,
    tree: Pmr,
    shapes: &G,
    id: u32,
    shape: &Shape,
) -> Result<Pmr, PmrFault>
    requires opened { IsOpen pool.old }
    requires id { 1 ≤ id }
    requires plane { IsShapeInPlane shape.now }
    requires tree { IsTold pool.old → IsPmr pool.old.pages tree }
    requires shapes { IsTold pool.old → G.Stands shapes.now pool.old.pages }
    requires apart { IsTold pool.old → (n : ℕ) → G.Owns shapes.now pool.old.pages n → IsLive pool.old n × (times n (pages_at pool.old.pages tree) ≡ 0) }
    requires fits { IsTold pool.old → (gap : Measure) → IsMeasure gap → FitsOthers gap (G.rows shapes.now pool.old.pages) id (tree_at pool.old.pages tree) }
    ensures grown { IfOk result (λ new. IsTold pool.old → Grows pool.old.pages pool.new.pages tree new (G.rows shapes.now pool.old.pages) id shape.now) }
    ensures within { InCommand pool.old pool.new }
    ensures cause { HasPageCause pool.old pool.new (of_end (fault_of result)) }
    ensures not_full { IsNotFull (fault_of result) }
{
    ring_laws();
    measure_laws();
    let start = start_of(pool, tree, shape)?;
    let value = value_of(shape);
    let mut plot = Plot {
        tree: tree.map,
        shapes,
        id,
        shape,
    };
    grow(
        alloc,
        &mut plot,
        pool,
        tree.threshold,
        start,
        Kept { id, value },
    )?;
    Ok(Pmr {
        map: plot.tree,
        threshold: tree.threshold,
        number: tree.number,
    })
}

// The quadtree without an id, which leaves by its own shape: no other one is read.
pub fn shrunk<D: Disk>(
    alloc: Global,
    pool: &mut Pool<D>,
    tree: Pmr,
    id: u32,
    shape: &Shape,
) -> Result<Pmr, PmrFault>
    requires opened { IsOpen pool.old }
    requires id { 1 ≤ id }
    requires plane { IsShapeInPlane shape.now }
    requires tree { IsTold pool.old → IsPmr pool.old.pages tree }
    requires listed { IsTold pool.old → IsListedWhereMet (tree_at pool.old.pages tree) id shape.now }
    ensures shrunk { IfOk result (λ new. IsTold pool.old → Shrinks pool.old.pages pool.new.pages tree new id) }
    ensures within { InCommand pool.old pool.new }
    ensures cause { HasPageCause pool.old pool.new (of_end (fault_of result)) }
    ensures not_full { IsNotFull (fault_of result) }
{
    ring_laws();
    measure_laws();
    let start = start_of(pool, tree, shape)?;
    let none = NoShapes {};
    let mut plot = Plot {
        tree: tree.map,
        shapes: &none,
        id,
        shape,
    };
    shrink_at(
        alloc,
        &mut plot,
        pool,
        tree.threshold,
        Block::root(),
        start,
        id,
    )?;
    Ok(Pmr {
        map: plot.tree,
        threshold: tree.threshold,
        number: tree.number,
    })
}

// The refusal as the pages have it.
pub fn of_pages(fault: PmrFault) -> PageFault
    requires { IsNotFull (Some fault) }
    ensures { of_end (Some fault) ≡ Err result }
{
    match fault {
        PmrFault::Memory => PageFault::Memory,
        PmrFault::Device => PageFault::Device,
        PmrFault::Damaged { page, kept, read } => PageFault::Damaged { page, kept, read },
        PmrFault::IndexFull => PageFault::Memory,
    }
}
