ghost use Rattle.std.specs.Prelude.{◌≤◌, IfSome, OnErr, OnOk};
ghost use Rattle.statements.specs.Statement.{Index, Rtree};
ghost use Rattle.sand_store.specs.Calls.{Carries, HasStoreCause, Indexed, IsUnchanged, Treed};
ghost use Rattle.statement_exec.specs.Performing.{ChangesStore};

use crate::Reply;
use page_pool::Disk;
use sand_base::{Label, Refusal};
use sand_store::Store;

/// `index`: a column gets an index, with the rows that are there. After a refusal all is as it was.
pub fn index<D: Disk>(
    store: &mut Store<D>,
    relation: &Label,
    column: &Label,
    threshold: Option<u8>,
) -> Result<Reply, Refusal>
    requires { IfSome threshold (λ t. (1 ≤ t) × (t ≤ 64)) }
    ensures performs { ChangesStore (Index (record { relation = relation.now; column = column.now }) threshold) store.old store.new result }
    ensures indexed { OnOk result (Indexed store.old store.new (record { relation = relation.now; column = column.now }) threshold) }
    ensures unchanged { OnErr result (IsUnchanged store.old store.new) }
    ensures carries { Carries store.old store.new }
    ensures cause { HasStoreCause store.old.pool store.new.pool result }
{
    match store.index(relation.as_str(), column.as_str(), threshold) {
        Ok(()) => Ok(Reply::Accepted),
        Err(why) => Err(why),
    }
}

/// `rtree`: a column of shapes gets an R-tree, with the rows that are there. After a refusal all is as it was.
pub fn rtree<D: Disk>(
    store: &mut Store<D>,
    relation: &Label,
    column: &Label,
) -> Result<Reply, Refusal>
    ensures performs { ChangesStore (Rtree (record { relation = relation.now; column = column.now })) store.old store.new result }
    ensures treed { OnOk result (Treed store.old store.new (record { relation = relation.now; column = column.now })) }
    ensures unchanged { OnErr result (IsUnchanged store.old store.new) }
    ensures carries { Carries store.old store.new }
    ensures cause { HasStoreCause store.old.pool store.new.pool result }
{
    match store.rtree(relation.as_str(), column.as_str()) {
        Ok(()) => Ok(Reply::Accepted),
        Err(why) => Err(why),
    }
}
