ghost use Rattle.std.specs.Prelude.{◌≡◌, ℕ, ◌+◌, ◌<◌, ◌≤◌, ◌^◌, Bool, true, List, [], length, map, filter, nat_lt, ◌&&◌, IfOk, OnOk, Option, None, Some};
ghost use Rattle.z_code.specs.Block.{IsBlock, child};
ghost use Rattle.z_code.specs.declared.block.Block.{Block};
ghost use Rattle.sand_base.specs.declared.TheConstants.{COORDINATE_BITS};
ghost use Rattle.pmr_tree.specs.Keys.{key_of, IsId, own};
ghost use Rattle.pmr_tree.specs.Leaves.{firsts, ids_of, Passes, ListPasses, id_test, HasLeafIds, fault_of};
ghost use Rattle.pmr_tree.specs.Parts.{PartsPass, with_parts};
ghost use Rattle.pmr_tree.specs.Changes.{KeysStand, Becomes, IsOneMore, split_leaf};

use crate::fill::{clear, plant};
use crate::part::{Parts, parts_of};
use crate::{Ground, Kept, PmrFault};
use std::alloc::Global;
use z_code::Block;

// Plants four leaves with these ids, where the children of a block have no entry.
fn plant_parts<P, S: Ground<P>>(
    ground: &mut S,
    pages: &mut P,
    block: Block,
    parts: &Parts,
) -> Result<(), PmrFault>
    requires ready { S.IsReady ground.old pages.old }
    requires block { IsBlock block }
    requires above_points { block.level < COORDINATE_BITS }
    ensures leads { S.Leads ground.old pages.old ground.new pages.new (fault_of result) }
    ensures keys { OnOk result (S.IsKnown ground.old pages.old → firsts (S.pairs ground.new pages.new) ≡ with_parts block parts.now (firsts (S.pairs ground.old pages.old))) }
    ensures values { OnOk result (S.IsKnown ground.old pages.old → (test : ℕ → ℕ → Bool) → PartsPass test parts.now → Passes test (S.pairs ground.old pages.old)
        → Passes test (S.pairs ground.new pages.new)) }
{
    let [first, second, third, fourth] = block.children();
    plant(ground, pages, first, &parts.first)?;
    plant(ground, pages, second, &parts.second)?;
    plant(ground, pages, third, &parts.third)?;
    plant(ground, pages, fourth, &parts.fourth)?;
    Ok(())
}

// Replaces a leaf that has the ids of the list by four, each with those of all ids whose shapes meet its square. All are
// those of the list and at most one more.
pub fn split<P, S: Ground<P>>(
    alloc: Global,
    ground: &mut S,
    pages: &mut P,
    block: Block,
    list: &[Kept],
    all: &[Kept],
) -> Result<(), PmrFault>
    requires ready { S.IsReady ground.old pages.old }
    requires block { IsBlock block }
    requires above_points { block.level < COORDINATE_BITS }
    requires all { IsOneMore (ids_of list.now) (ids_of all.now) }
    requires stands { S.IsKnown ground.old pages.old → KeysStand block (firsts (S.pairs ground.old pages.old)) }
    requires leaf { S.IsKnown ground.old pages.old → HasLeafIds block (firsts (S.pairs ground.old pages.old)) (ids_of list.now) }
    ensures leads { S.Leads ground.old pages.old ground.new pages.new (fault_of result) }
    ensures keys { OnOk result (S.IsKnown ground.old pages.old → (m : Block → ℕ → Bool) (has : ℕ → Bool) → S.Tells ground.old pages.old m has → ListPasses (id_test has) all.now
        → Becomes block (split_leaf m block (ids_of all.now)) (firsts (S.pairs ground.old pages.old)) (firsts (S.pairs ground.new pages.new))) }
    ensures values { OnOk result (S.IsKnown ground.old pages.old → (test : ℕ → ℕ → Bool) → ListPasses test all.now → Passes test (S.pairs ground.old pages.old)
        → Passes test (S.pairs ground.new pages.new)) }
{
    let parts = parts_of(alloc, &*ground, pages, block, all)?;
    clear(ground, pages, block, list)?;
    plant_parts(ground, pages, block, &parts)?;
    Ok(())
}
