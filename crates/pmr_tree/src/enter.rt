ghost use Rattle.std.specs.Prelude.{◌≡◌, ℕ, ◌+◌, ◌<◌, ◌≤◌, ◌^◌, Bool, true, List, [], length, map, filter, nat_lt, ◌&&◌, IfOk, OnOk, Option, None, Some};
ghost use Rattle.z_code.specs.Block.{IsBlock, child};
ghost use Rattle.pmr_tree.specs.Keys.{key_of, IsId, own};
ghost use Rattle.pmr_tree.specs.Leaves.{firsts, ids_of, Passes, ListPasses, id_test, fault_of};
ghost use Rattle.pmr_tree.specs.FirstIds.{HasFirstIds};
ghost use Rattle.pmr_tree.specs.Changes.{KeysStand, Becomes, entered};

use crate::leaf::key_of;
use crate::{Ground, Kept, PmrFault};
use z_code::Block;

// Puts an id into a leaf whose first ids are those of the list. Its mark goes first, where it has none.
pub fn enter<P, S: Ground<P>>(
    ground: &mut S,
    pages: &mut P,
    block: Block,
    newcomer: Kept,
    list: &[Kept],
) -> Result<(), PmrFault>
    requires ready { S.IsReady ground.old pages.old }
    requires block { IsBlock block }
    requires id { IsId newcomer.id }
    requires stands { S.IsKnown ground.old pages.old → KeysStand block (firsts (S.pairs ground.old pages.old)) }
    requires leaf { S.IsKnown ground.old pages.old → HasFirstIds block 1 (firsts (S.pairs ground.old pages.old)) (ids_of list.now) }
    ensures leads { S.Leads ground.old pages.old ground.new pages.new (fault_of result) }
    ensures keys { OnOk result (S.IsKnown ground.old pages.old → Becomes block (entered newcomer.id) (firsts (S.pairs ground.old pages.old)) (firsts (S.pairs ground.new pages.new))) }
    ensures values { OnOk result (S.IsKnown ground.old pages.old → (test : ℕ → ℕ → Bool) → test newcomer.id newcomer.value ≡ true → Passes test (S.pairs ground.old pages.old)
        → Passes test (S.pairs ground.new pages.new)) }
{
    let key = key_of(block, newcomer.id);
    if list.len() == 0 {
        ground.take(pages, key_of(block, 0))?;
        ground.put(pages, key, newcomer.value)?;
        return Ok(());
    }
    ground.put(pages, key, newcomer.value)?;
    Ok(())
}
