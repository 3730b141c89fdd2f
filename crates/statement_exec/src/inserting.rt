ghost use Rattle.std.specs.Prelude.{ℕ, OnErr, OnOk};
ghost use Rattle.sand_base.specs.InRange.{IsRowInRange};
ghost use Rattle.statements.specs.Statement.{Insert};
ghost use Rattle.sand_store.specs.Calls.{Carries, HasStoreCause, RowInserted, IsUnchanged};
ghost use Rattle.statement_exec.specs.Performing.{ChangesStore};

use crate::Reply;
use page_pool::Disk;
use sand_base::{Label, Refusal, Row};
use sand_store::Store;

/// `insert`: one more row, which is told its id. After a refusal all is as it was.
pub fn insert<D: Disk>(store: &mut Store<D>, name: &Label, values: Row) -> Result<Reply, Refusal>
    requires { IsRowInRange values }
    ensures performs { ChangesStore (Insert name.now values) store.old store.new result }
    ensures inserted { OnOk result ((id : ℕ) × RowInserted store.old store.new name.now values id) }
    ensures unchanged { OnErr result (IsUnchanged store.old store.new) }
    ensures carries { Carries store.old store.new }
    ensures cause { HasStoreCause store.old.pool store.new.pool result }
{
    match store.insert(name.as_str(), values) {
        Ok(id) => Ok(Reply::Id(id)),
        Err(why) => Err(why),
    }
}
