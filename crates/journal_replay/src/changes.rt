// One change, carried out on a store.
ghost use Rattle.std.specs.Prelude.{◌≡◌, ◌∷◌, [], IfErr, IfOk, OnOk};
ghost use Rattle.sand_journal.specs.ChangeBody.{Line, Rows, IsChange, IsKept, change_value, line_value};
ghost use Rattle.sand_store.specs.Calls.{Carries};
ghost use Rattle.script_text.specs.InRange.{IsInRange};
ghost use Rattle.journal_replay.specs.LedBy.{LedByOne};
ghost use Rattle.journal_replay.specs.Replayed.{HasChangeCause, IsDeclined};

use crate::ReplayFault;
use crate::rows::rows_for;
use page_pool::Disk;
use sand_base::Row;
use sand_journal::{Change, Encodings};
use sand_store::Store;
use script_text::{Plan, Statement};
use std::alloc::Global;

// Ends a plan: here alone it is dropped.
fn end_plan(_plan: Plan) {}

// Ends a statement: here alone it is dropped, and its plan apart, since a drop has a way for each form of what it drops.
pub(crate) fn end_statement(statement: Statement) {
    match statement {
        Statement::OpenCursor { cursor: _, plan } => end_plan(plan),
        Statement::Show { count: _, plan } => end_plan(plan),
        _ => {}
    }
}

// A statement that a journal keeps, carried out.
fn carry_line<D: Disk>(store: &mut Store<D>, statement: Statement) -> Result<(), ReplayFault>
    requires kept { IsKept (line_value statement) }
    requires in_range { IsInRange (line_value statement) }
    ensures led { OnOk result (LedByOne (Line (line_value statement)) store.old store.new) }
    ensures declined { IfErr result (IsDeclined store.old (Line (line_value statement))) }
    ensures carries { Carries store.old store.new }
    ensures cause { HasChangeCause store.old.pool store.new.pool result }
{
    match statement {
        Statement::Create { relation, columns } => store.create(relation.as_str(), columns)?,
        Statement::Delete { relation, id } => store.delete(relation.as_str(), id)?,
        Statement::Index { column, threshold } => {
            store.index(column.relation.as_str(), column.column.as_str(), threshold)?
        }
        Statement::Rtree { column } => {
            store.rtree(column.relation.as_str(), column.column.as_str())?
        }
        // A journal keeps no other statement.
        other => end_statement(other),
    }
    Ok(())
}

// The only one of some rows, or all of them where they aren't one.
fn only_row(rows: Vec<Row>) -> Result<Row, Vec<Row>>
    ensures one { IfOk result (λ row. rows.items ≡ row ∷ []) }
    ensures others { IfErr result (λ rest. rest ≡ rows) }
{
    let mut rest = rows;
    if rest.len() == 1 {
        if let Some(row) = rest.pop() {
            return Ok(row);
        }
    }
    Err(rest)
}

// The rows that have these encodings enter their relation, all or none. A single row is an insert: a load would copy the
// relation for it.
fn carry_rows<D: Disk>(
    alloc: Global,
    store: &mut Store<D>,
    relation: &str,
    encodings: &Encodings,
) -> Result<(), ReplayFault>
    ensures led { OnOk result (LedByOne (Rows relation.now encodings.now) store.old store.new) }
    ensures declined { IfErr result (IsDeclined store.old (Rows relation.now encodings.now)) }
    ensures carries { Carries store.old store.new }
    ensures cause { HasChangeCause store.old.pool store.new.pool result }
{
    let rows = rows_for(alloc, store.catalog(), relation, encodings)?;
    match only_row(rows) {
        Ok(row) => {
            store.insert(relation, row)?;
        }
        Err(rows) => {
            store.load_rows(relation, rows)?;
        }
    }
    Ok(())
}

/// Carries a change out: a statement, or the load of rows that are read by the schema of their relation. It is `Bad`
/// exactly where the store doesn't take the change. After a refusal the relations are as they were.
pub(crate) fn carry_change<D: Disk>(
    alloc: Global,
    store: &mut Store<D>,
    change: Change,
) -> Result<(), ReplayFault>
    requires { IsChange (change_value change) }
    ensures led { OnOk result (LedByOne (change_value change) store.old store.new) }
    ensures declined { IfErr result (IsDeclined store.old (change_value change)) }
    ensures carries { Carries store.old store.new }
    ensures cause { HasChangeCause store.old.pool store.new.pool result }
{
    match change {
        Change::Line(statement) => carry_line(store, statement),
        Change::Rows { relation, rows } => carry_rows(alloc, store, relation.as_str(), &rows),
    }
}
