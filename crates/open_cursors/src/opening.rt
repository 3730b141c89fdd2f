ghost use Rattle.std.specs.Prelude.{◌≡◌, ◌<◌, ◌++◌, ◌∷◌, [], IfOk, IsTrue, List};
ghost use Rattle.std_alloc.specs.Vec.{vec_capacity, vec_len};
ghost use Rattle.page_pool.specs.Disk.{PageMap};
ghost use Rattle.page_pool.specs.Pool.{IsTold, PoolState, StampMap};
ghost use Rattle.statements.specs.Plan.{plan_value};
ghost use Rattle.sand_base.specs.Faults.{HasCause};
ghost use Rattle.sand_model.specs.Cursor.{Cursor, new_cursor};
ghost use Rattle.statements.specs.Statement.{OpenCursor as Opens};
ghost use Rattle.sand_store.specs.Contents.{database_in};
ghost use Rattle.script_text.specs.InRange.{IsPlanInRange};
ghost use Rattle.open_cursors.specs.OpenCursors.{AreHeld, AreNamed, HaveOwnNames, StandAll};
ghost use Rattle.open_cursors.specs.Carried.{CarriesBeside};
ghost use Rattle.open_cursors.specs.OverPages.{HoldsOthers, told_stamps};
ghost use Rattle.open_cursors.specs.PlanCursors.{ChecksOf, OpensOf, PlanAt, PlanOver};

use crate::OpenCursor;
use crate::open_checks::refused_open;
use page_pool::Disk;
use plan_iterator::RowCursor;
use plan_ops::{Running, Source, Stage};
use sand_base::{Failed, Label, NoMemory, Refusal, Sink};
use sand_store::Store;
use script_text::Plan;
use statement_exec::{Reply, finish};
use std::alloc::Global;

// Puts a cursor behind the others, where there is room for it.
fn push(cursors: &mut Vec<OpenCursor<Source, Stage>>, opened: OpenCursor<Source, Stage>)
    requires { vec_len cursors.old < vec_capacity cursors.old }
    ensures { cursors.new.items ≡ cursors.old.items ++ opened ∷ [] }
{
    match cursors.push(opened) {
        Ok(()) => {}
        Err(_full) => unreachable!(),
    }
}

// A cursor over the plan with a copy of its name, where all checks pass. It reads no page.
fn ready<D: Disk>(
    alloc: Global,
    store: &Store<D>,
    cursors: &[OpenCursor<Source, Stage>],
    name: &Label,
    plan: &Plan,
) -> Result<(Label, RowCursor<Source, Stage>), Refusal>
    requires { IsPlanInRange (plan_value plan.now) }
    ensures checks { (stamps : StampMap) (pages : PageMap) (cs : List Cursor) → StandAll PlanAt stamps cursors.now cs → ChecksOf store.now.catalog pages cs name.now (plan_value plan.now) result }
    ensures names { (pages : PageMap) (cs : List Cursor) → AreNamed cursors.now cs → ChecksOf store.now.catalog pages cs name.now (plan_value plan.now) result }
    ensures begun { IfOk result (λ both. (both.0 ≡ name.now)
        × (IsTold store.now.pool → PlanOver both.1 store.now.pool.pages (new_cursor name.now (plan_value plan.now) (database_in store.now.pool.pages store.now.catalog.relations)))) }
{
    if let Some(why) = refused_open(store.catalog(), cursors, name, plan) {
        return Err(why);
    }
    let running = match Running::start(alloc, store.catalog(), plan) {
        Ok(running) => running,
        Err(NoMemory {}) => return Err(Refusal::Memory),
    };
    match name.copy(alloc) {
        Ok(copied) => Ok((copied, running.cursor)),
        Err(NoMemory {}) => Err(Refusal::Memory),
    }
}

// Opens a cursor over the plan behind the others. Its stamp is taken last, when all checks have passed.
fn open<D: Disk>(
    alloc: Global,
    store: &mut Store<D>,
    cursors: &mut Vec<OpenCursor<Source, Stage>>,
    name: &Label,
    plan: &Plan,
) -> Result<(), Refusal>
    requires in_range { IsPlanInRange (plan_value plan.now) }
    requires held { AreHeld store.old.pool.stamps cursors.old.items }
    ensures opens { IsTrue store.old.pool.disk.told → (cs : List Cursor) → StandAll PlanAt store.old.pool.stamps cursors.old.items cs
        → OpensOf store.old.catalog store.old.pool.pages cs name.now (plan_value plan.now) result (StandAll PlanAt store.new.pool.stamps cursors.new.items) }
    ensures named { (pages : PageMap) (cs : List Cursor) → AreNamed cursors.old.items cs → OpensOf store.old.catalog pages cs name.now (plan_value plan.now) result (AreNamed cursors.new.items) }
    ensures held { AreHeld store.new.pool.stamps cursors.new.items }
    ensures others { HoldsOthers store.old store.new }
{
    let (name, cursor) = ready(alloc, store, cursors, name, plan)?;
    if let Err(_full) = cursors.reserve(1) {
        return Err(Refusal::Memory);
    }
    match store.keep() {
        Ok(stamp) => {
            push(
                cursors,
                OpenCursor {
                    name,
                    stamp,
                    cursor,
                },
            );
            Ok(())
        }
        Err(NoMemory {}) => Err(Refusal::Memory),
    }
}

/// `open`: a cursor over the plan is opened under the name, behind the others, and the line of it is written. It reads no
/// page. Where it is refused, the open cursors are as they were. The answer says whether it was refused.
pub(crate) fn open_line<D: Disk, K: Sink>(
    alloc: Global,
    store: &mut Store<D>,
    cursors: &mut Vec<OpenCursor<Source, Stage>>,
    name: &Label,
    plan: &Plan,
    out: &mut K,
) -> Result<bool, Failed>
    requires in_range { IsPlanInRange (plan_value plan.now) }
    requires held { AreHeld store.old.pool.stamps cursors.old.items }
    ensures named { (cs : List Cursor) → HaveOwnNames cs → AreNamed cursors.old.items cs → (pool : PoolState)
        → CarriesBeside (Opens name.now (plan_value plan.now)) store.old.catalog pool pool cs (K.took out.old) (K.took out.new) result (AreNamed cursors.new.items) }
    ensures carried { IsTrue store.old.pool.disk.told → (cs : List Cursor) → HaveOwnNames cs → StandAll PlanAt store.old.pool.stamps cursors.old.items cs
        → CarriesBeside (Opens name.now (plan_value plan.now)) store.old.catalog store.old.pool store.old.pool cs (K.took out.old) (K.took out.new) result
        (StandAll PlanAt store.new.pool.stamps cursors.new.items) }
    ensures held { AreHeld store.new.pool.stamps cursors.new.items }
    ensures others { HoldsOthers store.old store.new }
    ensures sink { HasCause (K.faults out.old) (K.faults out.new) result }
{
    match open(alloc, store, cursors, name, plan) {
        Ok(()) => finish(out, Ok(Reply::Accepted)),
        Err(why) => finish(out, Err(why)),
    }
}
