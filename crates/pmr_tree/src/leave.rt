ghost use Rattle.std.specs.Prelude.{◌≡◌, ℕ, ◌<◌, ◌≤◌, Bool, true, List, length, OnOk};
ghost use Rattle.z_code.specs.Block.{IsBlock};
ghost use Rattle.pmr_tree.specs.Keys.{key_of, IsId};
ghost use Rattle.pmr_tree.specs.Leaves.{firsts, ids_of, Passes, fault_of};
ghost use Rattle.pmr_tree.specs.FirstIds.{HasFirstIds};
ghost use Rattle.pmr_tree.specs.Changes.{KeysStand, Becomes, left};

use crate::leaf::key_of;
use crate::{Ground, Kept, PmrFault};
use z_code::Block;

// Takes an id out of a leaf whose first ids are those of the list. A mark comes where it was the only one.
pub fn leave<P, S: Ground<P>>(
    ground: &mut S,
    pages: &mut P,
    block: Block,
    id: u32,
    list: &[Kept],
) -> Result<(), PmrFault>
    requires ready { S.IsReady ground.old pages.old }
    requires block { IsBlock block }
    requires id { IsId id }
    requires stands { S.IsKnown ground.old pages.old → KeysStand block (firsts (S.pairs ground.old pages.old)) }
    requires leaf { S.IsKnown ground.old pages.old → HasFirstIds block 2 (firsts (S.pairs ground.old pages.old)) (ids_of list.now) }
    ensures leads { S.Leads ground.old pages.old ground.new pages.new (fault_of result) }
    ensures keys { OnOk result (S.IsKnown ground.old pages.old → Becomes block (left id) (firsts (S.pairs ground.old pages.old)) (firsts (S.pairs ground.new pages.new))) }
    ensures values { OnOk result (S.IsKnown ground.old pages.old → (test : ℕ → ℕ → Bool) → Passes test (S.pairs ground.old pages.old) → Passes test (S.pairs ground.new pages.new)) }
{
    ground.take(pages, key_of(block, id))?;
    if list.len() != 1 {
        return Ok(());
    }
    if list[0].id != id {
        return Ok(());
    }
    ground.put(pages, key_of(block, 0), 0)?;
    Ok(())
}
