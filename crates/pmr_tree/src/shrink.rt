ghost use Rattle.std.specs.Prelude.{◌≡◌, ℕ, ◌+◌, ◌-◌, ◌<◌, ◌≤◌, Bool, true, false, List, [], length, IfOk, IfErr, IfSome, OnOk, MatchOption};
ghost use Rattle.sand_base.specs.declared.TheConstants.{COORDINATE_BITS};
ghost use Rattle.z_code.specs.Block.{IsBlock};
ghost use Rattle.z_code.specs.declared.block.Block.{Block};
ghost use Rattle.pmr_tree.specs.Lists.{put_all};
ghost use Rattle.pmr_tree.specs.Keys.{IsId, own, leaf_keys};
ghost use Rattle.pmr_tree.specs.Parts.{PartsPass, AreLeaves, ids_together, without_parts};
ghost use Rattle.pmr_tree.specs.FirstIds.{HasLargeChild, IsLarge};
ghost use Rattle.pmr_tree.specs.declared.fault.PmrFault.TheVariants.{Memory};
ghost use Rattle.pmr_tree.specs.Leaves.{firsts, ids_of, Passes, ListPasses, HasLeafIds, Told, fault_of};
ghost use Rattle.pmr_tree.specs.Changes.{KeysStand, Becomes, merging, shrunk_where};
ghost use Rattle.pmr_tree.specs.Starts.{HasLeaf, MeetsAlone};

use crate::code_leaf::block_with;
use crate::fill::{clear, plant};
use crate::leaf::leaf_of;
use crate::leave::leave;
use crate::part::Parts;
use crate::union::join;
use crate::{Ground, Kept, PmrFault};
use sand_base::COORDINATE_BITS;
use std::alloc::Global;
use z_code::Block;

// Puts one leaf with all ids in place of the four children of a block, which are leaves with these ids.
fn replace_four<P, S: Ground<P>>(
    ground: &mut S,
    pages: &mut P,
    block: Block,
    parts: &Parts,
    all: &[Kept],
) -> Result<(), PmrFault>
    requires ready { S.IsReady ground.old pages.old }
    requires block { IsBlock block }
    requires above_points { block.level < COORDINATE_BITS }
    ensures leads { S.Leads ground.old pages.old ground.new pages.new (fault_of result) }
    ensures keys { OnOk result (S.IsKnown ground.old pages.old → firsts (S.pairs ground.new pages.new)
        ≡ put_all (leaf_keys block (ids_of all.now)) (without_parts block parts.now (firsts (S.pairs ground.old pages.old)))) }
    ensures values { OnOk result (S.IsKnown ground.old pages.old → (test : ℕ → ℕ → Bool) → ListPasses test all.now → Passes test (S.pairs ground.old pages.old)
        → Passes test (S.pairs ground.new pages.new)) }
{
    let [first, second, third, fourth] = block.children();
    clear(ground, pages, first, &parts.first)?;
    clear(ground, pages, second, &parts.second)?;
    clear(ground, pages, third, &parts.third)?;
    clear(ground, pages, fourth, &parts.fourth)?;
    plant(ground, pages, block, all)?;
    Ok(())
}

// The ids of a leaf that has fewer than so many; else None, and so where the block is an inner place.
fn small_leaf<P, S: Ground<P>>(
    alloc: Global,
    ground: &S,
    pages: &mut P,
    block: Block,
    most: u8,
) -> Result<Option<Vec<Kept>>, PmrFault>
    requires ready { S.IsReady ground.now pages.old }
    requires block { IsBlock block }
    requires stands { S.IsKnown ground.now pages.old → KeysStand block (firsts (S.pairs ground.now pages.old)) }
    ensures leads { S.Leads ground.now pages.old ground.now pages.new (fault_of result) }
    ensures found { IfOk result (λ found. S.IsKnown ground.now pages.old → MatchOption found
        (IsLarge most block (firsts (S.pairs ground.now pages.old)))
        (λ list. HasLeafIds block (firsts (S.pairs ground.now pages.old)) (ids_of list.items))) }
    ensures values { IfOk result (λ found. S.IsKnown ground.now pages.old → (test : ℕ → ℕ → Bool) → Passes test (S.pairs ground.now pages.old) → IfSome found (λ list. ListPasses test list.items)) }
    ensures same { OnOk result (S.IsKnown ground.now pages.old → S.pairs ground.now pages.new ≡ S.pairs ground.now pages.old) }
{
    let Some(list) = leaf_of(alloc, ground, pages, block, most)? else {
        return Ok(None);
    };
    if list.len() >= most as usize {
        return Ok(None);
    }
    Ok(Some(list))
}

// The ids of the four children of a block, or None where one of them is an inner place or has at least so many.
fn leaves_of<P, S: Ground<P>>(
    alloc: Global,
    ground: &S,
    pages: &mut P,
    block: Block,
    most: u8,
) -> Result<Option<Parts>, PmrFault>
    requires ready { S.IsReady ground.now pages.old }
    requires block { IsBlock block }
    requires above_points { block.level < COORDINATE_BITS }
    requires stands { S.IsKnown ground.now pages.old → KeysStand block (firsts (S.pairs ground.now pages.old)) }
    requires inner { S.IsKnown ground.now pages.old → own block (firsts (S.pairs ground.now pages.old)) ≡ [] }
    ensures leads { S.Leads ground.now pages.old ground.now pages.new (fault_of result) }
    ensures found { IfOk result (λ found. S.IsKnown ground.now pages.old → MatchOption found
        (HasLargeChild most block (firsts (S.pairs ground.now pages.old)))
        (λ parts. AreLeaves block (firsts (S.pairs ground.now pages.old)) parts)) }
    ensures values { IfOk result (λ found. S.IsKnown ground.now pages.old → (test : ℕ → ℕ → Bool) → Passes test (S.pairs ground.now pages.old) → IfSome found (λ parts. PartsPass test parts)) }
    ensures same { OnOk result (S.IsKnown ground.now pages.old → S.pairs ground.now pages.new ≡ S.pairs ground.now pages.old) }
{
    let [p, q, r, s] = block.children();
    let Some(first) = small_leaf(alloc, ground, pages, p, most)? else {
        return Ok(None);
    };
    let Some(second) = small_leaf(alloc, ground, pages, q, most)? else {
        return Ok(None);
    };
    let Some(third) = small_leaf(alloc, ground, pages, r, most)? else {
        return Ok(None);
    };
    let Some(fourth) = small_leaf(alloc, ground, pages, s, most)? else {
        return Ok(None);
    };
    Ok(Some(Parts {
        first,
        second,
        third,
        fourth,
    }))
}

// The ids of four leaves in one list.
fn joined(alloc: Global, parts: &Parts) -> Result<Vec<Kept>, PmrFault>
    ensures ids { IfOk result (λ all. ids_of all.items ≡ ids_together parts.now) }
    ensures values { IfOk result (λ all. (test : ℕ → ℕ → Bool) → PartsPass test parts.now → ListPasses test all.items) }
    ensures memory { IfErr result (λ e. e ≡ Memory) }
{
    let mut all = Vec::new(alloc);
    join(&mut all, &parts.fourth)?;
    join(&mut all, &parts.third)?;
    join(&mut all, &parts.second)?;
    join(&mut all, &parts.first)?;
    Ok(all)
}

// Puts one leaf in place of the four children of a block, where these are leaves with fewer ids together than the
// threshold. The answer tells whether it did.
fn merge<P, S: Ground<P>>(
    alloc: Global,
    ground: &mut S,
    pages: &mut P,
    threshold: u8,
    block: Block,
) -> Result<bool, PmrFault>
    requires ready { S.IsReady ground.old pages.old }
    requires block { IsBlock block }
    requires above_points { block.level < COORDINATE_BITS }
    requires stands { S.IsKnown ground.old pages.old → KeysStand block (firsts (S.pairs ground.old pages.old)) }
    requires inner { S.IsKnown ground.old pages.old → own block (firsts (S.pairs ground.old pages.old)) ≡ [] }
    ensures leads { S.Leads ground.old pages.old ground.new pages.new (fault_of result) }
    ensures keys { OnOk result (S.IsKnown ground.old pages.old → Becomes block (merging threshold) (firsts (S.pairs ground.old pages.old)) (firsts (S.pairs ground.new pages.new))) }
    ensures inner { IfOk result (λ merged. merged ≡ false → S.IsKnown ground.old pages.old → own block (firsts (S.pairs ground.new pages.new)) ≡ []) }
    ensures values { OnOk result (S.IsKnown ground.old pages.old → (test : ℕ → ℕ → Bool) → Passes test (S.pairs ground.old pages.old) → Passes test (S.pairs ground.new pages.new)) }
{
    let Some(parts) = leaves_of(alloc, &*ground, pages, block, threshold)? else {
        return Ok(false);
    };
    let all = joined(alloc, &parts)?;
    if all.len() >= threshold as usize {
        return Ok(false);
    }
    replace_four(ground, pages, block, &parts, &all)?;
    Ok(true)
}

// Takes an id out of each leaf below the block whose square its shape meets; places merge from the bottom up.
pub fn shrink<P, S: Ground<P>>(
    alloc: Global,
    ground: &mut S,
    pages: &mut P,
    threshold: u8,
    block: Block,
    id: u32,
) -> Result<(), PmrFault>
    requires ready { S.IsReady ground.old pages.old }
    requires block { IsBlock block }
    requires id { IsId id }
    requires stands { S.IsKnown ground.old pages.old → KeysStand block (firsts (S.pairs ground.old pages.old)) }
    requires shapes { S.IsKnown ground.old pages.old → Told (S.Tells ground.old pages.old) [] id }
    ensures leads { S.Leads ground.old pages.old ground.new pages.new (fault_of result) }
    ensures keys { OnOk result (S.IsKnown ground.old pages.old → (m : Block → ℕ → Bool) (has : ℕ → Bool) → S.Tells ground.old pages.old m has → has id ≡ true
        → Becomes block (shrunk_where m threshold id block) (firsts (S.pairs ground.old pages.old)) (firsts (S.pairs ground.new pages.new))) }
    ensures values { OnOk result (S.IsKnown ground.old pages.old → (test : ℕ → ℕ → Bool) → Passes test (S.pairs ground.old pages.old) → Passes test (S.pairs ground.new pages.new)) }
{
    if !ground.does_meet(alloc, pages, block, id)? {
        return Ok(());
    }
    if let Some(list) = leaf_of(alloc, &*ground, pages, block, 2)? {
        leave(ground, pages, block, id, &list)?;
        return Ok(());
    }
    if u32::from(block.level) >= COORDINATE_BITS {
        return Ok(());
    }
    let [first, second, third, fourth] = block.children();
    shrink(alloc, ground, pages, threshold, first, id)?;
    shrink(alloc, ground, pages, threshold, second, id)?;
    shrink(alloc, ground, pages, threshold, third, id)?;
    shrink(alloc, ground, pages, threshold, fourth, id)?;
    merge(alloc, ground, pages, threshold, block)?;
    Ok(())
}

// The same where a leaf below the block alone lists the id. Places merge from the bottom up as long as one does: one that
// doesn't is an inner place, so that those above it don't either. The answer is no where the block is an inner place then.
pub fn shrink_at<P, S: Ground<P>>(
    alloc: Global,
    ground: &mut S,
    pages: &mut P,
    threshold: u8,
    block: Block,
    leaf: Block,
    id: u32,
) -> Result<bool, PmrFault>
    requires ready { S.IsReady ground.old pages.old }
    requires block { IsBlock block }
    requires leaf { IsBlock leaf }
    requires id { IsId id }
    requires stands { S.IsKnown ground.old pages.old → KeysStand block (firsts (S.pairs ground.old pages.old)) }
    requires place { S.IsKnown ground.old pages.old → block.level < leaf.level → HasLeaf leaf block (firsts (S.pairs ground.old pages.old)) }
    requires shapes { S.IsKnown ground.old pages.old → Told (S.Tells ground.old pages.old) [] id }
    requires alone { S.IsKnown ground.old pages.old → block.level < leaf.level → (m : Block → ℕ → Bool) (has : ℕ → Bool) → S.Tells ground.old pages.old m has → has id ≡ true → MeetsAlone m id leaf }
    ensures leads { S.Leads ground.old pages.old ground.new pages.new (fault_of result) }
    ensures keys { OnOk result (S.IsKnown ground.old pages.old → (m : Block → ℕ → Bool) (has : ℕ → Bool) → S.Tells ground.old pages.old m has → has id ≡ true
        → Becomes block (shrunk_where m threshold id block) (firsts (S.pairs ground.old pages.old)) (firsts (S.pairs ground.new pages.new))) }
    ensures inner { IfOk result (λ is_leaf. is_leaf ≡ false → S.IsKnown ground.old pages.old → own block (firsts (S.pairs ground.new pages.new)) ≡ []) }
    ensures values { OnOk result (S.IsKnown ground.old pages.old → (test : ℕ → ℕ → Bool) → Passes test (S.pairs ground.old pages.old) → Passes test (S.pairs ground.new pages.new)) }
{
    if block.level >= leaf.level {
        shrink(alloc, ground, pages, threshold, block, id)?;
        return Ok(true);
    }
    let child = block_with(leaf.z, block.level + 1);
    if !shrink_at(alloc, ground, pages, threshold, child, leaf, id)? {
        return Ok(false);
    }
    let merged = merge(alloc, ground, pages, threshold, block)?;
    Ok(merged)
}
