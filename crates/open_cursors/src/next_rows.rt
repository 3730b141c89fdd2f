ghost use Rattle.std.specs.Prelude.{◌≡◌, List, IfOk, IfSome, false, true, map, position};
ghost use Rattle.page_pool.specs.Reads.{IsRead};
ghost use Rattle.plan_iterator.specs.Standing.{IsAt};
ghost use Rattle.plan_iterator.specs.Rows.{counts_of};
ghost use Rattle.sand_base.specs.Faults.{HasCause};
ghost use Rattle.sand_base.specs.Streams.{Stays};
ghost use Rattle.sand_model.specs.Cursor.{Cursor};
ghost use Rattle.sand_model.specs.Database.{same_name};
ghost use Rattle.statement_exec.specs.Causes.{BlamesNoFile};
ghost use Rattle.statement_exec.specs.Ending.{PagesHaveCause, PagesHaveLineCause};
ghost use Rattle.open_cursors.specs.OpenCursors.{AnswersNext, AreHeld, AtStamp, HaveOwnNames, NextOf, StandAll, is_open, named, cursors_without, AreNamed};
ghost use Rattle.statements.specs.Statement.{Next};
ghost use Rattle.sand_store.specs.Catalog.{CatalogView};
ghost use Rattle.open_cursors.specs.Carried.{CarriesBeside};
ghost use Rattle.open_cursors.specs.OverPages.{told_stamps};
ghost use Rattle.open_cursors.specs.Steps.{WritesRows};

use crate::OpenCursor;
use crate::row_steps::print_steps;
use page_pool::Disk;
use plan_iterator::{RowSource, RowStage};
use sand_base::{Failed, Label, Refusal, Sink};
use sand_store::Store;
use statement_exec::end_with;
use std::alloc::Global;

// The place of the cursor with this name.
pub(crate) fn place_of<S, T>(cursors: &[OpenCursor<S, T>], name: &str) -> Option<usize>
    ensures { result ≡ position (λ x. same_name x.name name.now) cursors.now }
{
    cursors.iter().position(|open| open.name.as_str() == name)
}

/// Prints the next rows of the open cursor of this name over the pages that its stamp holds, up to their end or to a
/// refusal, whose line is still to be printed. Whatever the disk tells, the cursor stays open under its name and the
/// others are as they were.
fn print_next<S: RowSource, T: RowStage, D: Disk, K: Sink>(
    alloc: Global,
    store: Store<D>,
    cursors: &mut Vec<OpenCursor<S, T>>,
    name: &Label,
    count: u32,
    out: &mut K,
) -> (Store<D>, Result<Option<Refusal>, Failed>)
    requires held { AreHeld store.pool.stamps cursors.old.items }
    requires stands { IfSome (told_stamps store.pool) (λ stamps. (cs : List Cursor) × StandAll (AtStamp (λ r. IsAt S.At T.Stands T.closed (λ s. counts_of (S.seen s)) r)) stamps cursors.old.items cs) }
    ensures catalog { result.0.catalog ≡ store.catalog }
    ensures read { IsRead store.pool result.0.pool }
    ensures cause { PagesHaveCause store.pool result.0.pool result.1 }
    ensures no_file { IfOk result.1 BlamesNoFile }
    ensures unknown { AnswersNext (is_open cursors.old.items name.now) result.1 }
    ensures silent { is_open cursors.old.items name.now ≡ false → Stays (K.took out.old) (K.took out.new) }
    ensures names { map (λ x. x.name) cursors.new.items ≡ map (λ x. x.name) cursors.old.items }
    ensures others { cursors_without name.now cursors.new.items ≡ cursors_without name.now cursors.old.items }
    ensures held { AreHeld store.pool.stamps cursors.new.items }
    ensures sink { HasCause (K.faults out.old) (K.faults out.new) result.1 }
    ensures rows { is_open cursors.old.items name.now ≡ true → WritesRows count (K.took out.old) (K.took out.new) result.1 }
    ensures steps { IfSome (told_stamps store.pool) (λ stamps. (cs : List Cursor) → HaveOwnNames cs
        → StandAll (AtStamp (λ r. IsAt S.At T.Stands T.closed (λ s. counts_of (S.seen s)) r)) stamps cursors.old.items cs
        → NextOf (named cs name.now) cs name.now count (K.took out.old) (K.took out.new) result.1
        (λ after. StandAll (AtStamp (λ r. IsAt S.At T.Stands T.closed (λ s. counts_of (S.seen s)) r)) stamps cursors.new.items after)) }
{
    let Some(at) = place_of(cursors, name.as_str()) else {
        return (store, Ok(Some(Refusal::UnknownCursor)));
    };
    let open = &mut cursors[at];
    let (catalog, mut desk) = store.part_at(&open.stamp);
    let printed = print_steps(&mut open.cursor, alloc, &mut desk, count, out);
    (Store::rejoin(alloc, catalog, desk), printed)
}

/// `next`: the next rows of the open cursor of this name are written, up to their end or to a refusal. The answer says
/// whether it was refused.
pub(crate) fn next_line<S: RowSource, T: RowStage, D: Disk, K: Sink>(
    alloc: Global,
    store: Store<D>,
    cursors: &mut Vec<OpenCursor<S, T>>,
    name: &Label,
    count: u32,
    out: &mut K,
) -> (Store<D>, Result<bool, Failed>)
    requires held { AreHeld store.pool.stamps cursors.old.items }
    requires stands { IfSome (told_stamps store.pool) (λ stamps. (cs : List Cursor) × StandAll (AtStamp (λ r. IsAt S.At T.Stands T.closed (λ s. counts_of (S.seen s)) r)) stamps cursors.old.items cs) }
    ensures named { (store.pool.disk.told ≡ false) → (cs : List Cursor) → HaveOwnNames cs → AreNamed cursors.old.items cs
        → (catalog : CatalogView) → CarriesBeside (Next name.now count) catalog store.pool result.0.pool cs (K.took out.old) (K.took out.new) result.1 (AreNamed cursors.new.items) }
    ensures carried { IfSome (told_stamps store.pool) (λ stamps. (cs : List Cursor) → HaveOwnNames cs
        → StandAll (AtStamp (λ r. IsAt S.At T.Stands T.closed (λ s. counts_of (S.seen s)) r)) stamps cursors.old.items cs
        → (catalog : CatalogView) → CarriesBeside (Next name.now count) catalog store.pool result.0.pool cs (K.took out.old) (K.took out.new) result.1
        (StandAll (AtStamp (λ r. IsAt S.At T.Stands T.closed (λ s. counts_of (S.seen s)) r)) stamps cursors.new.items)) }
    ensures catalog { result.0.catalog ≡ store.catalog }
    ensures read { IsRead store.pool result.0.pool }
    ensures held { AreHeld store.pool.stamps cursors.new.items }
    ensures cause { PagesHaveLineCause store.pool result.0.pool result.1 }
    ensures sink { HasCause (K.faults out.old) (K.faults out.new) result.1 }
{
    let (store, printed) = print_next(alloc, store, cursors, name, count, out);
    match printed {
        Ok(end) => (store, end_with(out, end)),
        Err(Failed {}) => (store, Err(Failed {})),
    }
}
