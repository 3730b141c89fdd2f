// A block's members are divided among its children.
ghost use Rattle.std.specs.Prelude.{◌≡◌, ℕ, ◌<◌, ◌++◌, ◌∷◌, [], Bool, cond, length, IfOk, IfErr, OnOk};
ghost use Rattle.sand_base.specs.declared.TheConstants.{COORDINATE_BITS};
ghost use Rattle.page_pool.specs.Pool.{IsTold};
ghost use Rattle.page_pool.specs.Reads.{IsRead};
ghost use Rattle.page_pool.specs.Causes.{HasPageCause, IsMemory};
ghost use Rattle.z_code.specs.Block.{IsBlock};
ghost use Rattle.z_code.specs.declared.block.Block.{Block};
ghost use Rattle.pmr_build.specs.Members.{TellsRows, AreMembersIn};
ghost use Rattle.pmr_build.specs.Parts.{AreSquares, TakesIn, PartsTake, HaveMost, AreDivided};

use crate::met::{QuartersMet, Squares, quarters_met, squares_of};
use page_pool::{PageFault, Pages};
use pmr_tree::ShapeOf;
use sand_base::{NoMemory, Rough};
use std::alloc::Global;
use std::cmp::max;
use z_code::Block;

/// The members that the four children of a block get, in their order.
#[derive(Drop)]
pub struct Parts {
    pub first: Vec<(u32, Rough)>,
    pub second: Vec<(u32, Rough)>,
    pub third: Vec<(u32, Rough)>,
    pub fourth: Vec<(u32, Rough)>,
}

/// How many members each of the four children keeps as a leaf.
#[derive(Clone, Copy)]
pub struct Mosts {
    pub first: usize,
    pub second: usize,
    pub third: usize,
    pub fourth: usize,
}

/// The four children of a block: their members, and how many of them each keeps as a leaf.
#[derive(Drop)]
pub struct Division {
    pub parts: Parts,
    pub mosts: Mosts,
}

// Adds a member to a list where it belongs there.
fn push_if(met: bool, member: (u32, Rough), found: &mut Vec<(u32, Rough)>) -> Result<(), NoMemory>
    ensures { OnOk result (found.new.items ≡ found.old.items ++ cond met (member ∷ []) []) }
{
    if met {
        found.push(member)?;
    }
    Ok(())
}

// Adds a member to the parts of those children whose squares its shape meets.
fn push_parts(met: QuartersMet, member: (u32, Rough), parts: &mut Parts) -> Result<(), NoMemory>
    ensures { OnOk result (TakesIn met member parts.old parts.new) }
{
    push_if(met.first, member, &mut parts.first)?;
    push_if(met.second, member, &mut parts.second)?;
    push_if(met.third, member, &mut parts.third)?;
    push_if(met.fourth, member, &mut parts.fourth)?;
    Ok(())
}

// Adds members to the parts of the children whose squares their shapes meet. Each shape is read once at most.
fn divide<P: Pages, S: ShapeOf>(
    alloc: Global,
    pages: &mut P,
    shapes: &S,
    block: Block,
    squares: Squares,
    list: &[(u32, Rough)],
    parts: &mut Parts,
) -> Result<(), PageFault>
    requires stands { IsTold (P.shown pages.old) → S.Stands shapes.now (P.shown pages.old).pages }
    requires block { IsBlock block }
    requires above_points { block.level < COORDINATE_BITS }
    requires squares { AreSquares block squares }
    ensures taken { OnOk result (IsTold (P.shown pages.old) → (m : Block → ℕ → Bool) → TellsRows (S.rows shapes.now (P.shown pages.old).pages) m
        → AreMembersIn (S.rows shapes.now (P.shown pages.old).pages) m block list.now → PartsTake m block list.now parts.old parts.new) }
    ensures read { IsRead (P.shown pages.old) (P.shown pages.new) }
    ensures cause { HasPageCause (P.shown pages.old) (P.shown pages.new) result }
{
    'members: for member in list {
        let met = quarters_met(alloc, pages, shapes, block, squares, *member)?;
        push_parts(met, *member, parts)?;
    }
    Ok(())
}

// How many members each child keeps as a leaf that came to be with these.
fn mosts_of(threshold: usize, parts: &Parts) -> Mosts
    ensures { HaveMost threshold parts.now result }
{
    Mosts {
        first: max(threshold, parts.first.len()),
        second: max(threshold, parts.second.len()),
        third: max(threshold, parts.third.len()),
        fourth: max(threshold, parts.fourth.len()),
    }
}

/// The children of a block that has more members than it keeps as a leaf. They came to be when there was one more.
pub fn divided<P: Pages, S: ShapeOf>(
    alloc: Global,
    pages: &mut P,
    shapes: &S,
    threshold: usize,
    block: Block,
    most: usize,
    list: &[(u32, Rough)],
) -> Result<Division, PageFault>
    requires stands { IsTold (P.shown pages.old) → S.Stands shapes.now (P.shown pages.old).pages }
    requires block { IsBlock block }
    requires above_points { block.level < COORDINATE_BITS }
    requires many { most < length list.now }
    ensures divided { IfOk result (λ d. IsTold (P.shown pages.old) → (m : Block → ℕ → Bool) → TellsRows (S.rows shapes.now (P.shown pages.old).pages) m
        → AreMembersIn (S.rows shapes.now (P.shown pages.old).pages) m block list.now → AreDivided m threshold block most list.now d) }
    ensures read { IsRead (P.shown pages.old) (P.shown pages.new) }
    ensures cause { HasPageCause (P.shown pages.old) (P.shown pages.new) result }
{
    let squares = squares_of(block);
    let (begun, more) = list.split_at(most + 1);
    let mut parts = Parts {
        first: Vec::new(alloc),
        second: Vec::new(alloc),
        third: Vec::new(alloc),
        fourth: Vec::new(alloc),
    };
    divide(alloc, pages, shapes, block, squares, begun, &mut parts)?;
    let mosts = mosts_of(threshold, &parts);
    divide(alloc, pages, shapes, block, squares, more, &mut parts)?;
    Ok(Division { parts, mosts })
}
