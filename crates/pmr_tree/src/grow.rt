ghost use Rattle.std.specs.Prelude.{◌≡◌, ℕ, ◌+◌, ◌-◌, ◌<◌, ◌≤◌, ◌&&◌, nat_lt, Bool, true, length, IfOk, IfErr, OnOk};
ghost use Rattle.sand_base.specs.declared.TheConstants.{COORDINATE_BITS};
ghost use Rattle.z_code.specs.Block.{IsBlock};
ghost use Rattle.z_code.specs.declared.block.Block.{Block};
ghost use Rattle.sand_model.specs.Tree.{add};
ghost use Rattle.pmr_tree.specs.Keys.{IsId};
ghost use Rattle.pmr_tree.specs.Leaves.{firsts, ids_of, Passes, ListPasses, id_test, Told, fault_of};
ghost use Rattle.pmr_tree.specs.FirstIds.{HasFirstIds};
ghost use Rattle.pmr_tree.specs.Changes.{KeysStand, Becomes, grown_where};
ghost use Rattle.pmr_tree.specs.declared.fault.PmrFault.TheVariants.{Memory};

use crate::enter::enter;
use crate::leaf::leaf_of;
use crate::split::split;
use crate::union::add;
use crate::{Ground, Kept, PmrFault};
use sand_base::COORDINATE_BITS;
use std::alloc::{AllocError, Global};
use z_code::Block;

// Whether a leaf of these ids is to be split: they are more than the threshold, and it isn't of the finest level.
fn is_split(block: Block, list: &[Kept], threshold: u8) -> bool
    ensures { result ≡ (nat_lt threshold (length list.now) && nat_lt block.level COORDINATE_BITS) }
{
    list.len() > threshold as usize && u32::from(block.level) < COORDINATE_BITS
}

// The ids of a list once more.
fn copied(alloc: Global, list: &[Kept]) -> Result<Vec<Kept>, AllocError>
    ensures { IfOk result (λ copy. copy.items ≡ list.now) }
{
    list.iter().copied().collect(alloc)
}

// The ids of a list, and one more in its place among them.
fn with_one(alloc: Global, list: &[Kept], newcomer: Kept) -> Result<Vec<Kept>, PmrFault>
    ensures ids { IfOk result (λ all. ids_of all.items ≡ add newcomer.id (ids_of list.now)) }
    ensures values { IfOk result (λ all. (test : ℕ → ℕ → Bool) → test newcomer.id newcomer.value ≡ true → ListPasses test list.now → ListPasses test all.items) }
    ensures memory { IfErr result (λ e. e ≡ Memory) }
{
    let mut all = copied(alloc, list)?;
    add(&mut all, newcomer)?;
    Ok(all)
}

// Brings an id into a leaf whose first ids are those of the list. It splits where it has too many then; a leaf of the
// finest level doesn't, so that of its ids no more are asked for than tell whether there is one.
fn grow_leaf<P, S: Ground<P>>(
    alloc: Global,
    ground: &mut S,
    pages: &mut P,
    threshold: u8,
    block: Block,
    newcomer: Kept,
    list: &[Kept],
) -> Result<(), PmrFault>
    requires ready { S.IsReady ground.old pages.old }
    requires block { IsBlock block }
    requires id { IsId newcomer.id }
    requires stands { S.IsKnown ground.old pages.old → KeysStand block (firsts (S.pairs ground.old pages.old)) }
    requires leaf { S.IsKnown ground.old pages.old → HasFirstIds block 1 (firsts (S.pairs ground.old pages.old)) (ids_of list.now) }
    requires told { S.IsKnown ground.old pages.old → (test : ℕ → ℕ → Bool) → Passes test (S.pairs ground.old pages.old) → ListPasses test list.now }
    ensures leads { S.Leads ground.old pages.old ground.new pages.new (fault_of result) }
    ensures keys { OnOk result (S.IsKnown ground.old pages.old → (m : Block → ℕ → Bool) (has : ℕ → Bool) → S.Tells ground.old pages.old m has
        → Passes (id_test has) (S.pairs ground.old pages.old) → has newcomer.id ≡ true → m block newcomer.id ≡ true
        → Becomes block (grown_where m threshold newcomer.id block) (firsts (S.pairs ground.old pages.old)) (firsts (S.pairs ground.new pages.new))) }
    ensures values { OnOk result (S.IsKnown ground.old pages.old → (test : ℕ → ℕ → Bool) → test newcomer.id newcomer.value ≡ true → Passes test (S.pairs ground.old pages.old)
        → Passes test (S.pairs ground.new pages.new)) }
{
    if u32::from(block.level) >= COORDINATE_BITS {
        enter(ground, pages, block, newcomer, list)?;
        return Ok(());
    }
    if list.len() < threshold as usize {
        enter(ground, pages, block, newcomer, list)?;
        return Ok(());
    }
    let all = with_one(alloc, list, newcomer)?;
    if !is_split(block, &all, threshold) {
        enter(ground, pages, block, newcomer, list)?;
        return Ok(());
    }
    split(alloc, ground, pages, block, list, &all)?;
    Ok(())
}

// Brings an id into each leaf below the block whose square its shape meets; those that are too full then split once.
pub fn grow<P, S: Ground<P>>(
    alloc: Global,
    ground: &mut S,
    pages: &mut P,
    threshold: u8,
    block: Block,
    newcomer: Kept,
) -> Result<(), PmrFault>
    requires ready { S.IsReady ground.old pages.old }
    requires block { IsBlock block }
    requires id { IsId newcomer.id }
    requires stands { S.IsKnown ground.old pages.old → KeysStand block (firsts (S.pairs ground.old pages.old)) }
    requires shapes { S.IsKnown ground.old pages.old → Told (S.Tells ground.old pages.old) (S.pairs ground.old pages.old) newcomer.id }
    ensures leads { S.Leads ground.old pages.old ground.new pages.new (fault_of result) }
    ensures keys { OnOk result (S.IsKnown ground.old pages.old → (m : Block → ℕ → Bool) (has : ℕ → Bool) → S.Tells ground.old pages.old m has
        → Passes (id_test has) (S.pairs ground.old pages.old) → has newcomer.id ≡ true
        → Becomes block (grown_where m threshold newcomer.id block) (firsts (S.pairs ground.old pages.old)) (firsts (S.pairs ground.new pages.new))) }
    ensures values { OnOk result (S.IsKnown ground.old pages.old → (test : ℕ → ℕ → Bool) → test newcomer.id newcomer.value ≡ true → Passes test (S.pairs ground.old pages.old)
        → Passes test (S.pairs ground.new pages.new)) }
{
    if !ground.does_meet(alloc, pages, block, newcomer.id)? {
        return Ok(());
    }
    if let Some(list) = leaf_of(alloc, &*ground, pages, block, 1)? {
        grow_leaf(alloc, ground, pages, threshold, block, newcomer, &list)?;
        return Ok(());
    }
    if u32::from(block.level) >= COORDINATE_BITS {
        return Ok(());
    }
    let [first, second, third, fourth] = block.children();
    grow(alloc, ground, pages, threshold, first, newcomer)?;
    grow(alloc, ground, pages, threshold, second, newcomer)?;
    grow(alloc, ground, pages, threshold, third, newcomer)?;
    grow(alloc, ground, pages, threshold, fourth, newcomer)?;
    Ok(())
}
