ghost use Rattle.std.specs.Prelude.{◌≡◌, ℕ, ◌<◌, ◌≤◌, Bool, true, List, length, IfErr, OnOk};
ghost use Rattle.sand_model.specs.Tree.{add, union};
ghost use Rattle.pmr_tree.specs.Lists.{place_in, is_at};
ghost use Rattle.pmr_tree.specs.Leaves.{ids_of, ListPasses};
ghost use Rattle.pmr_tree.specs.declared.fault.PmrFault.TheVariants.{Memory};

use crate::{Kept, PmrFault};

// How many ids of an ascending list are below this one.
fn place_of(list: &[Kept], id: u32) -> usize
    ensures value { result ≡ place_in id (ids_of list.now) }
    ensures bound { result ≤ length list.now }
{
    let mut at = 0;
    'ids: while at < list.len() && list[at].id < id {
        at += 1;
    }
    at
}

// Whether the id stands at the place of the list.
fn is_at(list: &[Kept], at: usize, id: u32) -> bool
    ensures { result ≡ is_at (ids_of list.now) at id }
{
    if at >= list.len() {
        return false;
    }
    list[at].id == id
}

// Puts an id in its place among ascending ones, if it isn't there.
pub fn add(list: &mut Vec<Kept>, kept: Kept) -> Result<(), PmrFault>
    ensures ids { OnOk result (ids_of list.new.items ≡ add kept.id (ids_of list.old.items)) }
    ensures values { OnOk result ((test : ℕ → ℕ → Bool) → test kept.id kept.value ≡ true → ListPasses test list.old.items → ListPasses test list.new.items) }
    ensures memory { IfErr result (λ e. e ≡ Memory) }
{
    let at = place_of(list, kept.id);
    if is_at(list, at, kept.id) {
        return Ok(());
    }
    list.insert(at, kept)?;
    Ok(())
}

// Puts all ids of another ascending list into this one.
pub fn join(list: &mut Vec<Kept>, more: &[Kept]) -> Result<(), PmrFault>
    ensures ids { OnOk result (ids_of list.new.items ≡ union (ids_of more.now) (ids_of list.old.items)) }
    ensures values { OnOk result ((test : ℕ → ℕ → Bool) → ListPasses test more.now → ListPasses test list.old.items → ListPasses test list.new.items) }
    ensures memory { IfErr result (λ e. e ≡ Memory) }
{
    let mut i = more.len();
    'ids: while i > 0 {
        i -= 1;
        add(list, more[i])?;
    }
    Ok(())
}
