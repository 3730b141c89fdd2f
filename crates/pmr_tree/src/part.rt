ghost use Rattle.std.specs.Prelude.{◌≡◌, ℕ, ◌<◌, ◌≤◌, ◌++◌, ◌∷◌, [], Bool, true, cond, List, IfOk, IfErr, OnOk};
ghost use Rattle.sand_base.specs.declared.TheConstants.{COORDINATE_BITS};
ghost use Rattle.sand_base.specs.Plane.{IsShapeInPlane};
ghost use Rattle.z_code.specs.Block.{IsBlock};
ghost use Rattle.z_code.specs.declared.block.Block.{Block};
ghost use Rattle.pmr_tree.specs.Leaves.{ListPasses, id_test, fault_of};
ghost use Rattle.pmr_tree.specs.Parts.{TellsMeeting, MeetsQuarters, AreParts, GainsId, PartsPass};
ghost use Rattle.pmr_tree.specs.declared.fault.PmrFault.TheVariants.{Memory};

use crate::{Ground, Kept, PmrFault};
use ring_geom::meets_rect;
use sand_base::{COORDINATE_BITS, Shape};
use std::alloc::Global;
use z_code::Block;

/// Which of the four children of a block have squares that a shape meets.
#[derive(Clone, Copy)]
pub struct QuartersMet {
    pub first: bool,
    pub second: bool,
    pub third: bool,
    pub fourth: bool,
}

/// The ids that the four children of a block get.
#[derive(Drop)]
pub struct Parts {
    pub first: Vec<Kept>,
    pub second: Vec<Kept>,
    pub third: Vec<Kept>,
    pub fourth: Vec<Kept>,
}

// Whether the shape meets the square of the block.
fn meets_block(shape: &Shape, block: Block) -> bool
    requires plane { IsShapeInPlane shape.now }
    requires block { IsBlock block }
    ensures { TellsMeeting shape.now block result }
{
    meets_rect(shape, block.rect())
}

// The children of a block whose squares the shape meets.
pub fn quarters_met(shape: &Shape, block: Block) -> QuartersMet
    requires plane { IsShapeInPlane shape.now }
    requires block { IsBlock block }
    requires above_points { block.level < COORDINATE_BITS }
    ensures { MeetsQuarters shape.now block result }
{
    let [first, second, third, fourth] = block.children();
    QuartersMet {
        first: meets_block(shape, first),
        second: meets_block(shape, second),
        third: meets_block(shape, third),
        fourth: meets_block(shape, fourth),
    }
}

// Adds an id to a list where it belongs there.
fn push_if(met: bool, kept: Kept, found: &mut Vec<Kept>) -> Result<(), PmrFault>
    ensures found { OnOk result (found.new.items ≡ found.old.items ++ cond met (kept ∷ []) []) }
    ensures memory { IfErr result (λ e. e ≡ Memory) }
{
    if met {
        found.push(kept)?;
    }
    Ok(())
}

// Adds an id to the parts of those children whose squares its shape meets.
fn push_parts(met: QuartersMet, kept: Kept, parts: &mut Parts) -> Result<(), PmrFault>
    ensures found { OnOk result (GainsId met kept parts.old parts.new) }
    ensures memory { IfErr result (λ e. e ≡ Memory) }
{
    push_if(met.first, kept, &mut parts.first)?;
    push_if(met.second, kept, &mut parts.second)?;
    push_if(met.third, kept, &mut parts.third)?;
    push_if(met.fourth, kept, &mut parts.fourth)?;
    Ok(())
}

// For each child of a block those of the ids whose shapes meet its square. Each shape is read once.
pub fn parts_of<P, S: Ground<P>>(
    alloc: Global,
    ground: &S,
    pages: &mut P,
    block: Block,
    list: &[Kept],
) -> Result<Parts, PmrFault>
    requires ready { S.IsReady ground.now pages.old }
    requires block { IsBlock block }
    requires above_points { block.level < COORDINATE_BITS }
    ensures leads { S.Leads ground.now pages.old ground.now pages.new (fault_of result) }
    ensures found { IfOk result (λ parts. S.IsKnown ground.now pages.old → (m : Block → ℕ → Bool) (has : ℕ → Bool) → S.Tells ground.now pages.old m has
        → ListPasses (id_test has) list.now → AreParts m block list.now parts) }
    ensures values { IfOk result (λ parts. (test : ℕ → ℕ → Bool) → ListPasses test list.now → PartsPass test parts) }
    ensures same { OnOk result (S.IsKnown ground.now pages.old → S.pairs ground.now pages.new ≡ S.pairs ground.now pages.old) }
{
    let mut parts = Parts {
        first: Vec::new(alloc),
        second: Vec::new(alloc),
        third: Vec::new(alloc),
        fourth: Vec::new(alloc),
    };
    for kept in list {
        let met = ground.quarters_met(alloc, pages, block, kept.id)?;
        push_parts(met, *kept, &mut parts)?;
    }
    Ok(parts)
}
