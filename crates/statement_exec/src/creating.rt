ghost use Rattle.std.specs.Prelude.{OnErr, OnOk};
ghost use Rattle.sand_base.specs.InRange.{IsSchemaInRange};
ghost use Rattle.statements.specs.Statement.{Create};
ghost use Rattle.sand_store.specs.Calls.{Carries, Created, HasStoreCause, IsUnchanged};
ghost use Rattle.statement_exec.specs.Performing.{ChangesStore};

use crate::Reply;
use page_pool::Disk;
use sand_base::{Label, Refusal, Schema};
use sand_store::Store;

/// `create`: an empty relation, the last one. After a refusal all is as it was.
pub fn create<D: Disk>(
    store: &mut Store<D>,
    name: &Label,
    columns: Schema,
) -> Result<Reply, Refusal>
    requires { IsSchemaInRange columns }
    ensures performs { ChangesStore (Create name.now columns) store.old store.new result }
    ensures created { OnOk result (Created store.old store.new name.now columns) }
    ensures unchanged { OnErr result (IsUnchanged store.old store.new) }
    ensures carries { Carries store.old store.new }
    ensures cause { HasStoreCause store.old.pool store.new.pool result }
{
    match store.create(name.as_str(), columns) {
        Ok(()) => Ok(Reply::Accepted),
        Err(why) => Err(why),
    }
}
