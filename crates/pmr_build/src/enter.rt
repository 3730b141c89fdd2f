// The entries of the tree of a block.
ghost use Rattle.std.specs.Prelude.{◌≡◌, ℕ, ◌+◌, ◌<◌, ◌≤◌, Bool, length, IfOk, IfErr, OnOk};
ghost use Rattle.sand_base.specs.declared.TheConstants.{COORDINATE_BITS};
ghost use Rattle.sand_model.specs.Tree.{listings};
ghost use Rattle.page_pool.specs.Pool.{IsTold};
ghost use Rattle.page_pool.specs.Reads.{IsRead};
ghost use Rattle.z_code.specs.Block.{IsBlock};
ghost use Rattle.z_code.specs.declared.block.Block.{Block};
ghost use Rattle.pmr_tree.specs.Calls.{HasPmrCause};
ghost use Rattle.pmr_tree.specs.declared.fault.PmrFault.TheVariants.{IndexFull};
ghost use Rattle.pmr_build.specs.Members.{TellsRows, AreMembersIn};
ghost use Rattle.pmr_build.specs.Calls.{EntersBlock, IsTooMany};

use crate::divide::divided;
use crate::leaf::enter_leaf;
use page_pool::Pages;
use pmr_tree::{PmrFault, ShapeOf};
use sand_base::{COORDINATE_BITS, Rough};
use std::alloc::Global;
use z_code::Block;

/// What a tree is built by: the greatest number of ids that a leaf takes without a split, and the most listings.
#[derive(Clone, Copy)]
pub struct Rule {
    pub threshold: u8,
    pub limit: u64,
}

/// Adds the entries of the tree of a block with these members, of which it keeps so many as a leaf, in the order of
/// their keys.
pub fn enter<P: Pages, S: ShapeOf>(
    alloc: Global,
    pages: &mut P,
    shapes: &S,
    rule: Rule,
    block: Block,
    most: usize,
    list: &[(u32, Rough)],
    entries: &mut Vec<(u128, u128)>,
) -> Result<(), PmrFault>
    requires stands { IsTold (P.shown pages.old) → S.Stands shapes.now (P.shown pages.old).pages }
    requires block { IsBlock block }
    requires few { length entries.old.items ≤ rule.limit }
    ensures entered { OnOk result (IsTold (P.shown pages.old) → (m : Block → ℕ → Bool) → TellsRows (S.rows shapes.now (P.shown pages.old).pages) m
        → AreMembersIn (S.rows shapes.now (P.shown pages.old).pages) m block list.now → EntersBlock m rule.threshold block most list.now entries.old.items entries.new.items) }
    ensures few { OnOk result (length entries.new.items ≤ rule.limit) }
    ensures full { IfErr result (λ e. e ≡ IndexFull → IsTold (P.shown pages.old) → (m : Block → ℕ → Bool) → TellsRows (S.rows shapes.now (P.shown pages.old).pages) m
        → AreMembersIn (S.rows shapes.now (P.shown pages.old).pages) m block list.now → IsTooMany m rule block most list.now (length entries.old.items)) }
    ensures read { IsRead (P.shown pages.old) (P.shown pages.new) }
    ensures cause { HasPmrCause (P.shown pages.old) (P.shown pages.new) result }
{
    if list.len() <= most || u32::from(block.level) >= COORDINATE_BITS {
        return enter_leaf(block, list, rule.limit, entries);
    }
    let division = divided(
        alloc,
        pages,
        shapes,
        usize::from(rule.threshold),
        block,
        most,
        list,
    )?;
    let parts = &division.parts;
    let mosts = division.mosts;
    let [first, second, third, fourth] = block.children();
    enter(
        alloc,
        pages,
        shapes,
        rule,
        first,
        mosts.first,
        &parts.first,
        entries,
    )?;
    enter(
        alloc,
        pages,
        shapes,
        rule,
        second,
        mosts.second,
        &parts.second,
        entries,
    )?;
    enter(
        alloc,
        pages,
        shapes,
        rule,
        third,
        mosts.third,
        &parts.third,
        entries,
    )?;
    enter(
        alloc,
        pages,
        shapes,
        rule,
        fourth,
        mosts.fourth,
        &parts.fourth,
        entries,
    )?;
    Ok(())
}
