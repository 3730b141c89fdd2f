// A statement that reads, with the cursors that are open.
ghost use Rattle.std.specs.Prelude.{◌≡◌, List};
ghost use Rattle.page_pool.specs.Reads.{IsRead};
ghost use Rattle.sand_base.specs.Faults.{HasCause};
ghost use Rattle.sand_base.specs.Plane.{IsInPlane};
ghost use Rattle.sand_model.specs.Cursor.{Cursor};
ghost use Rattle.statements.specs.Plan.{plan_value};
ghost use Rattle.statements.specs.Statement.{Blocks, Far, Show, statement_value};
ghost use Rattle.script_text.specs.InRange.{IsPlanInRange};
ghost use Rattle.open_cursors.specs.Outcomes.{PerformsBeside};
ghost use Rattle.statement_exec.specs.Printing.{WritesOf};
ghost use Rattle.script_text.specs.InRange.{IsInRange};
ghost use Rattle.statement_exec.specs.Ending.{PagesHaveLineCause};
ghost use Rattle.open_cursors.specs.OpenCursors.{AreHeld, HaveOwnNames};
ghost use Rattle.open_cursors.specs.Carried.{AreCounted, CarriesBeside, ChangesRelations};
ghost use Rattle.open_cursors.specs.OverPages.{AreStanding, LeavesPages, StandOver};

use crate::OpenCursor;
use crate::closing::close_line;
use crate::farthest::far_line;
use crate::next_rows::next_line;
use crate::numbers::stats_line;
use crate::opening::open_line;
use crate::showing::show_line;
use page_pool::Disk;
use plan_ops::{Source, Stage};
use sand_base::{Failed, Label, Point, Sink};
use sand_store::Store;
use script_text::{Column, Plan, Statement};
use statement_exec::print_blocks;
use std::alloc::Global;

// `show`: the pages are lent to it.
fn show<D: Disk, K: Sink>(
    alloc: Global,
    store: Store<D>,
    count: u32,
    plan: &Plan,
    out: &mut K,
) -> (Store<D>, Result<bool, Failed>)
    requires { IsPlanInRange (plan_value plan.now) }
    ensures written { (cs : List Cursor) → WritesOf (PerformsBeside (Show count (plan_value plan.now)) store.catalog store.pool result.0.pool cs cs) (K.took out.old) (K.took out.new) result.1 }
    ensures catalog { result.0.catalog ≡ store.catalog }
    ensures read { IsRead store.pool result.0.pool }
    ensures cause { PagesHaveLineCause store.pool result.0.pool result.1 }
    ensures sink { HasCause (K.faults out.old) (K.faults out.new) result.1 }
{
    let (catalog, mut desk) = store.part();
    let shown = show_line(alloc, &catalog, &mut desk, count, plan, out);
    (Store::rejoin(alloc, catalog, desk), shown)
}

// `blocks`: the pages are lent to it.
fn blocks<D: Disk, K: Sink>(
    alloc: Global,
    store: Store<D>,
    relation: &Label,
    column: &Label,
    out: &mut K,
) -> (Store<D>, Result<bool, Failed>)
    ensures written { (cs : List Cursor) → WritesOf (PerformsBeside (Blocks (record { relation = relation.now; column = column.now })) store.catalog store.pool result.0.pool cs cs)
        (K.took out.old) (K.took out.new) result.1 }
    ensures catalog { result.0.catalog ≡ store.catalog }
    ensures read { IsRead store.pool result.0.pool }
    ensures cause { PagesHaveLineCause store.pool result.0.pool result.1 }
    ensures sink { HasCause (K.faults out.old) (K.faults out.new) result.1 }
{
    let (catalog, mut desk) = store.part();
    let printed = print_blocks(alloc, &catalog, &mut desk, relation, column, out);
    (Store::rejoin(alloc, catalog, desk), printed)
}

// `far`: the pages are lent to it.
fn far<D: Disk, K: Sink>(
    alloc: Global,
    store: Store<D>,
    count: u32,
    column: &Column,
    goal: Point,
    out: &mut K,
) -> (Store<D>, Result<bool, Failed>)
    requires { IsInPlane goal }
    ensures written { (cs : List Cursor) → WritesOf (PerformsBeside (Far count column.now goal) store.catalog store.pool result.0.pool cs cs) (K.took out.old) (K.took out.new) result.1 }
    ensures catalog { result.0.catalog ≡ store.catalog }
    ensures read { IsRead store.pool result.0.pool }
    ensures cause { PagesHaveLineCause store.pool result.0.pool result.1 }
    ensures sink { HasCause (K.faults out.old) (K.faults out.new) result.1 }
{
    let (catalog, mut desk) = store.part();
    let printed = far_line(alloc, &catalog, &mut desk, count, column, goal, out);
    (Store::rejoin(alloc, catalog, desk), printed)
}

/// Carries a statement out that changes no relation, and writes its lines. The answer says whether it was refused. Each
/// cursor reads the pages that its stamp holds; any other statement reads the live ones.
pub fn read_statement<D: Disk, K: Sink>(
    alloc: Global,
    store: Store<D>,
    cursors: &mut Vec<OpenCursor<Source, Stage>>,
    statement: &Statement,
    out: &mut K,
) -> (Store<D>, Result<bool, Failed>)
    requires in_range { IsInRange (statement_value statement.now) }
    requires reads { ChangesRelations (statement_value statement.now) → ⊥ }
    requires stands { AreStanding store.pool cursors.old.items }
    ensures carried { (cs : List Cursor) → HaveOwnNames cs → AreCounted cs → StandOver store.pool cursors.old.items cs
        → CarriesBeside (statement_value statement.now) store.catalog store.pool result.0.pool cs (K.took out.old) (K.took out.new) result.1 (StandOver result.0.pool cursors.new.items) }
    ensures held { AreHeld result.0.pool.stamps cursors.new.items }
    ensures catalog { result.0.catalog ≡ store.catalog }
    ensures pages { LeavesPages store.pool result.0.pool }
    ensures cause { PagesHaveLineCause store.pool result.0.pool result.1 }
    ensures sink { HasCause (K.faults out.old) (K.faults out.new) result.1 }
{
    match statement {
        Statement::OpenCursor { cursor, plan } => {
            let mut kept = store;
            let opened = open_line(alloc, &mut kept, cursors, cursor, plan, out);
            (kept, opened)
        }
        Statement::Next { cursor, count } => next_line(alloc, store, cursors, cursor, *count, out),
        Statement::CloseCursor { cursor } => {
            let mut kept = store;
            let closed = close_line(&mut kept, cursors, cursor, out);
            (kept, closed)
        }
        Statement::Show { count, plan } => show(alloc, store, *count, plan, out),
        Statement::Stats { cursor } => {
            let printed = stats_line(cursors, cursor, out);
            (store, printed)
        }
        Statement::Far {
            count,
            column,
            goal,
        } => far(alloc, store, *count, column, *goal, out),
        Statement::Blocks { column } => {
            blocks(alloc, store, &column.relation, &column.column, out)
        }
        Statement::Create { .. }
        | Statement::Insert { .. }
        | Statement::Delete { .. }
        | Statement::Load { .. }
        | Statement::Index { .. }
        | Statement::Rtree { .. } => unreachable!(),
    }
}
