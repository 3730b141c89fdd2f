ghost use Rattle.std.specs.Prelude.{OnErr, OnOk};
ghost use Rattle.statements.specs.Statement.{Delete};
ghost use Rattle.sand_store.specs.Calls.{Carries, Deleted, HasStoreCause, IsUnchanged};
ghost use Rattle.statement_exec.specs.Performing.{ChangesStore};

use crate::Reply;
use page_pool::Disk;
use sand_base::{Label, Refusal};
use sand_store::Store;

/// `delete`: one row fewer. After a refusal all is as it was.
pub fn delete<D: Disk>(store: &mut Store<D>, name: &Label, id: u32) -> Result<Reply, Refusal>
    ensures performs { ChangesStore (Delete name.now id) store.old store.new result }
    ensures deleted { OnOk result (Deleted store.old store.new name.now id) }
    ensures unchanged { OnErr result (IsUnchanged store.old store.new) }
    ensures carries { Carries store.old store.new }
    ensures cause { HasStoreCause store.old.pool store.new.pool result }
{
    match store.delete(name.as_str(), id) {
        Ok(()) => Ok(Reply::Accepted),
        Err(why) => Err(why),
    }
}
