ghost use Rattle.std.specs.Prelude.{◌≡◌, ◌≤◌, ◌^◌, IfErr, OnOk};
ghost use Rattle.sand_journal.specs.Journal.{IsOnlyRead, IsReading, IsReady};
ghost use Rattle.sand_store.specs.Calls.{Carries};
ghost use Rattle.journal_replay.specs.Replayed.{HasReplayCause, IsBadForCause, IsReplayed};

use crate::ReplayFault;
use crate::changes::carry_change;
use page_pool::Disk;
use sand_journal::{Journal, Tape};
use sand_store::Store;
use std::alloc::Global;

/// Carries out the changes of all records that the journal hasn't passed, in their order, and prints nothing. The tape
/// is only read. After `Ok` the journal takes records; after a fault the changes before it are carried out.
pub fn replay<T: Tape, D: Disk>(
    alloc: Global,
    journal: &mut Journal<T>,
    store: &mut Store<D>,
) -> Result<(), ReplayFault>
    requires { IsReading T.seen journal.old }
    ensures replayed { OnOk result (IsReplayed T.seen journal.old journal.new store.old store.new) }
    ensures ready { OnOk result (IsReady T.seen journal.new) }
    ensures near { OnOk result (journal.old.end ≤ 2 ^ 62 → journal.new.end ≤ 2 ^ 62) }
    ensures bad { IfErr result (IsBadForCause T.seen journal.old journal.new store.old) }
    ensures read { IsOnlyRead (T.seen journal.old.tape) (T.seen journal.new.tape) }
    ensures carries { Carries store.old store.new }
    ensures cause { HasReplayCause (T.seen journal.old.tape) (T.seen journal.new.tape) store.old.pool store.new.pool result }
{
    'changes: while let Some(change) = journal.next(alloc)? {
        carry_change(alloc, store, change)?;
    }
    Ok(())
}
