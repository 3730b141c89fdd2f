ghost use Rattle.std.specs.Prelude.{◌≡◌, ℕ, ◌+◌, ◌<◌, ◌≤◌, ◌^◌, Bool, true, List, [], ◌∷◌, ◌++◌, map, filter, IfOk, OnOk, Option, None, Some};
ghost use Rattle.z_code.specs.Block.{IsBlock};
ghost use Rattle.z_code.specs.declared.block.Block.{Block};
ghost use Rattle.pmr_tree.specs.Lists.{put_all, take_all};
ghost use Rattle.pmr_tree.specs.Keys.{key_of, leaf_keys, IsId};
ghost use Rattle.pmr_tree.specs.Leaves.{firsts, ids_of, Passes, ListPasses, id_test, fault_of};

use crate::leaf::key_of;
use crate::{Ground, Kept, PmrFault};
use z_code::Block;

// Takes the entries of these ids of a leaf.
fn take_ids<P, S: Ground<P>>(
    ground: &mut S,
    pages: &mut P,
    block: Block,
    list: &[Kept],
) -> Result<(), PmrFault>
    requires ready { S.IsReady ground.old pages.old }
    requires block { IsBlock block }
    ensures leads { S.Leads ground.old pages.old ground.new pages.new (fault_of result) }
    ensures keys { OnOk result (S.IsKnown ground.old pages.old → firsts (S.pairs ground.new pages.new) ≡ take_all (map (key_of block) (ids_of list.now)) (firsts (S.pairs ground.old pages.old))) }
    ensures values { OnOk result (S.IsKnown ground.old pages.old → (test : ℕ → ℕ → Bool) → Passes test (S.pairs ground.old pages.old) → Passes test (S.pairs ground.new pages.new)) }
{
    for kept in list {
        ground.take(pages, key_of(block, kept.id))?;
    }
    Ok(())
}

// Puts the entries of these ids of a leaf.
fn put_ids<P, S: Ground<P>>(
    ground: &mut S,
    pages: &mut P,
    block: Block,
    list: &[Kept],
) -> Result<(), PmrFault>
    requires ready { S.IsReady ground.old pages.old }
    requires block { IsBlock block }
    ensures leads { S.Leads ground.old pages.old ground.new pages.new (fault_of result) }
    ensures keys { OnOk result (S.IsKnown ground.old pages.old → firsts (S.pairs ground.new pages.new) ≡ put_all (map (key_of block) (ids_of list.now)) (firsts (S.pairs ground.old pages.old))) }
    ensures values { OnOk result (S.IsKnown ground.old pages.old → (test : ℕ → ℕ → Bool) → ListPasses test list.now → Passes test (S.pairs ground.old pages.old)
        → Passes test (S.pairs ground.new pages.new)) }
{
    for kept in list {
        ground.put(pages, key_of(block, kept.id), kept.value)?;
    }
    Ok(())
}

// Takes all entries of a leaf that has these ids.
pub fn clear<P, S: Ground<P>>(
    ground: &mut S,
    pages: &mut P,
    block: Block,
    list: &[Kept],
) -> Result<(), PmrFault>
    requires ready { S.IsReady ground.old pages.old }
    requires block { IsBlock block }
    ensures leads { S.Leads ground.old pages.old ground.new pages.new (fault_of result) }
    ensures keys { OnOk result (S.IsKnown ground.old pages.old → firsts (S.pairs ground.new pages.new) ≡ take_all (leaf_keys block (ids_of list.now)) (firsts (S.pairs ground.old pages.old))) }
    ensures values { OnOk result (S.IsKnown ground.old pages.old → (test : ℕ → ℕ → Bool) → Passes test (S.pairs ground.old pages.old) → Passes test (S.pairs ground.new pages.new)) }
{
    if list.len() == 0 {
        ground.take(pages, key_of(block, 0))
    } else {
        take_ids(ground, pages, block, list)
    }
}

// Plants a leaf with these ids, where the block has no entry.
pub fn plant<P, S: Ground<P>>(
    ground: &mut S,
    pages: &mut P,
    block: Block,
    list: &[Kept],
) -> Result<(), PmrFault>
    requires ready { S.IsReady ground.old pages.old }
    requires block { IsBlock block }
    ensures leads { S.Leads ground.old pages.old ground.new pages.new (fault_of result) }
    ensures keys { OnOk result (S.IsKnown ground.old pages.old → firsts (S.pairs ground.new pages.new) ≡ put_all (leaf_keys block (ids_of list.now)) (firsts (S.pairs ground.old pages.old))) }
    ensures values { OnOk result (S.IsKnown ground.old pages.old → (test : ℕ → ℕ → Bool) → ListPasses test list.now → Passes test (S.pairs ground.old pages.old)
        → Passes test (S.pairs ground.new pages.new)) }
{
    if list.len() == 0 {
        ground.put(pages, key_of(block, 0), 0)?;
        return Ok(());
    }
    put_ids(ground, pages, block, list)
}
