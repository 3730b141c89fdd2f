// The records of changes, made before the store is asked.
ghost use Rattle.std.specs.Prelude.{◌≡◌, All, IfOk, option_map};
ghost use Rattle.sand_base.specs.InRange.{IsRowInRange};
ghost use Rattle.sand_journal.specs.ChangeBody.{Line, IsKept, body_of, line_value};
ghost use Rattle.script_text.specs.InRange.{IsInRange};
ghost use Rattle.script_text.specs.Name.{IsName};
ghost use Rattle.journal_replay.specs.KeptBody.{IsKeptOf, IsKeptOfRows, IsLineOf};

use crate::changes::end_statement;
use crate::encoding::{encode_all, is_body_short};
use sand_base::{Label, NoMemory, Row};
use sand_journal::{Change, Encodings, Record};
use sand_store::Catalog;
use script_text::{Column, Statement};
use std::alloc::Global;
use std::slice;

// Ends a change: here alone it is dropped, and its statement apart.
fn end_change(change: Change) {
    match change {
        Change::Line(statement) => end_statement(statement),
        Change::Rows {
            relation: _,
            rows: _,
        } => {}
    }
}

// The record of a statement that a journal keeps as a line.
fn record_of_line(alloc: Global, statement: Statement) -> Result<Record, NoMemory>
    requires kept { IsKept (line_value statement) }
    requires in_range { IsInRange (line_value statement) }
    ensures { IfOk result (λ one. one ≡ body_of (Line (line_value statement))) }
{
    let change = Change::Line(statement);
    let made = Record::of(alloc, &change);
    end_change(change);
    match made {
        Ok(one) => Ok(one),
        Err(NoMemory {}) => Err(NoMemory {}),
    }
}

/// The record of rows that are to enter a relation together, by the schema that it has. None where the relation isn't
/// there, a row isn't of its schema, or an encoding is too long: the store takes no such rows. Rows whose body would
/// have 2^32 bytes or more are refused as for want of memory.
pub fn record_of_rows(
    alloc: Global,
    catalog: &Catalog,
    name: &Label,
    rows: &[Row],
) -> Result<Option<Record>, NoMemory>
    requires named { IsName name.now }
    requires in_range { All IsRowInRange rows.now }
    ensures { IfOk result (IsKeptOfRows catalog.now name.now rows.now) }
{
    let Some(relation) = catalog.relation(name.as_str()) else {
        return Ok(None);
    };
    let Some(encodings) = encode_all(alloc, relation.schema(), rows)? else {
        return Ok(None);
    };
    if !is_body_short(name.as_str(), &encodings) {
        return Err(NoMemory {});
    }
    let change = Change::Rows {
        relation: name.copy(alloc)?,
        rows: Encodings::new(encodings),
    };
    let made = Record::of(alloc, &change);
    end_change(change);
    match made {
        Ok(one) => Ok(Some(one)),
        Err(NoMemory {}) => Err(NoMemory {}),
    }
}

// A copy of a statement that a journal keeps as a line, None of any other.
fn line_of(alloc: Global, statement: &Statement) -> Result<Option<Statement>, NoMemory>
    ensures { IfOk result (λ found. IsLineOf (line_value statement.now) (option_map line_value found)) }
{
    match statement {
        Statement::Create { relation, columns } => Ok(Some(Statement::Create {
            relation: relation.copy(alloc)?,
            columns: columns.copy(alloc)?,
        })),
        Statement::Delete { relation, id } => Ok(Some(Statement::Delete {
            relation: relation.copy(alloc)?,
            id: *id,
        })),
        Statement::Index { column, threshold } => Ok(Some(Statement::Index {
            column: Column {
                relation: column.relation.copy(alloc)?,
                column: column.column.copy(alloc)?,
            },
            threshold: *threshold,
        })),
        Statement::Rtree { column } => Ok(Some(Statement::Rtree {
            column: Column {
                relation: column.relation.copy(alloc)?,
                column: column.column.copy(alloc)?,
            },
        })),
        _ => Ok(None),
    }
}

/// The record of a statement, where it is one that a journal keeps and that the catalog doesn't show to be refused. A
/// `load` has none here: its rows have one together, by `record_of_rows`.
pub fn record_of(
    alloc: Global,
    catalog: &Catalog,
    statement: &Statement,
) -> Result<Option<Record>, NoMemory>
    requires { IsInRange (line_value statement.now) }
    ensures { IfOk result (IsKeptOf catalog.now (line_value statement.now)) }
{
    if let Statement::Insert { relation, values } = statement {
        return record_of_rows(alloc, catalog, relation, slice::from_ref(values));
    }
    let Some(line) = line_of(alloc, statement)? else {
        return Ok(None);
    };
    let one = record_of_line(alloc, line)?;
    Ok(Some(one))
}
