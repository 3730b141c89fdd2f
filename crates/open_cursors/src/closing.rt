ghost use Rattle.std.specs.Prelude.{◌≡◌, List, IfErr, is_ok};
ghost use Rattle.plan_iterator.specs.Standing.{IsAt};
ghost use Rattle.plan_iterator.specs.Rows.{counts_of};
ghost use Rattle.sand_model.specs.Cursor.{Cursor};
ghost use Rattle.open_cursors.specs.OpenCursors.{AreHeld, AreNamed, AtStamp, ClosesOf, HaveOwnNames, StandAll, is_open, named, cursors_without};
ghost use Rattle.page_pool.specs.Pool.{PoolState};
ghost use Rattle.sand_base.specs.Faults.{HasCause};
ghost use Rattle.statements.specs.Statement.{CloseCursor};
ghost use Rattle.sand_store.specs.Catalog.{CatalogView};
ghost use Rattle.open_cursors.specs.Carried.{CarriesBeside};
ghost use Rattle.open_cursors.specs.OverPages.{HoldsOthers};
ghost use Rattle.sand_base.specs.declared.refusal.Refusal.TheVariants as why;

use crate::OpenCursor;
use crate::next_rows::place_of;
use page_pool::Disk;
use plan_iterator::{RowSource, RowStage};
use sand_base::{Failed, Label, Refusal, Sink};
use sand_store::Store;
use statement_exec::{Reply, finish};

/// Ends the open cursor of this name, and releases its stamp. It takes no memory.
pub(crate) fn close<S: RowSource, T: RowStage, D: Disk>(
    store: &mut Store<D>,
    cursors: &mut Vec<OpenCursor<S, T>>,
    name: &Label,
) -> Result<(), Refusal>
    requires held { AreHeld store.old.pool.stamps cursors.old.items }
    ensures closes { (cs : List Cursor) → HaveOwnNames cs → StandAll (AtStamp (λ r. IsAt S.At T.Stands T.closed (λ s. counts_of (S.seen s)) r)) store.old.pool.stamps cursors.old.items cs
        → ClosesOf (named cs name.now) cs name.now result (StandAll (AtStamp (λ r. IsAt S.At T.Stands T.closed (λ s. counts_of (S.seen s)) r)) store.new.pool.stamps cursors.new.items) }
    ensures names { (cs : List Cursor) → HaveOwnNames cs → AreNamed cursors.old.items cs → ClosesOf (named cs name.now) cs name.now result (AreNamed cursors.new.items) }
    ensures unknown { IfErr result (λ w. w ≡ why.UnknownCursor) }
    ensures known { is_ok result ≡ is_open cursors.old.items name.now }
    ensures left { cursors.new.items ≡ cursors_without name.now cursors.old.items }
    ensures held { AreHeld store.new.pool.stamps cursors.new.items }
    ensures others { HoldsOthers store.old store.new }
{
    let Some(at) = place_of(cursors, name.as_str()) else {
        return Err(Refusal::UnknownCursor);
    };
    let ended = cursors.remove(at);
    store.release(ended.stamp);
    Ok(())
}

/// `close`: the open cursor of this name is ended, and the line of it is written. The answer says whether it was refused.
pub(crate) fn close_line<S: RowSource, T: RowStage, D: Disk, K: Sink>(
    store: &mut Store<D>,
    cursors: &mut Vec<OpenCursor<S, T>>,
    name: &Label,
    out: &mut K,
) -> Result<bool, Failed>
    requires held { AreHeld store.old.pool.stamps cursors.old.items }
    ensures named { (cs : List Cursor) → HaveOwnNames cs → AreNamed cursors.old.items cs → (catalog : CatalogView) (pool : PoolState)
        → CarriesBeside (CloseCursor name.now) catalog pool pool cs (K.took out.old) (K.took out.new) result (AreNamed cursors.new.items) }
    ensures carried { (cs : List Cursor) → HaveOwnNames cs → StandAll (AtStamp (λ r. IsAt S.At T.Stands T.closed (λ s. counts_of (S.seen s)) r)) store.old.pool.stamps cursors.old.items cs
        → (catalog : CatalogView) (pool : PoolState)
        → CarriesBeside (CloseCursor name.now) catalog pool pool cs (K.took out.old) (K.took out.new) result
        (StandAll (AtStamp (λ r. IsAt S.At T.Stands T.closed (λ s. counts_of (S.seen s)) r)) store.new.pool.stamps cursors.new.items) }
    ensures held { AreHeld store.new.pool.stamps cursors.new.items }
    ensures others { HoldsOthers store.old store.new }
    ensures sink { HasCause (K.faults out.old) (K.faults out.new) result }
{
    match close(store, cursors, name) {
        Ok(()) => finish(out, Ok(Reply::Accepted)),
        Err(why) => finish(out, Err(why)),
    }
}
