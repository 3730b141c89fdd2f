ghost use Rattle.std.specs.Prelude.{◌≡◌, ◌++◌, length, IfOk, OnOk};
ghost use Rattle.std.specs.List.{AllByRecursion, flat_map};
ghost use Rattle.sand_journal.specs.ChangeBody.{Line, Rows, IsChange, IsEncodingShort, body_of, change_value, framed_row, line_value};
ghost use Rattle.sand_journal.specs.Images.{IsShort};
ghost use Rattle.sand_journal.specs.RowsBody.{bytes_of_each};

use crate::{Change, Record};
use sand_base::NoMemory;
use script_text::{Statement, print_statement};
use std::alloc::Global;

/// The first byte of the body of a statement.
pub const LINE_BODY: u8 = 1;

/// The first byte of the body of rows.
pub const ROWS_BODY: u8 = 2;

// Writes the body of a statement.
fn line_body(alloc: Global, statement: &Statement) -> Result<Vec<u8>, NoMemory>
    ensures { IfOk result (λ body. body.items ≡ body_of (Line (line_value statement.now))) }
{
    let text = print_statement(alloc, statement)?;
    let mut body = vec![in alloc; LINE_BODY]?;
    body.extend_from_slice(&text)?;
    Ok(body)
}

// Adds a row in its frame.
fn extend_row(body: &mut Vec<u8>, row: &[u8]) -> Result<(), NoMemory>
    requires { IsEncodingShort row.now }
    ensures { OnOk result (body.new.items ≡ body.old.items ++ framed_row row.now) }
{
    let size = row.len() as u16;
    body.extend_from_slice(&size.to_be_bytes())?;
    body.extend_from_slice(row)?;
    Ok(())
}

// Adds rows one after another, each in its frame.
fn extend_rows(body: &mut Vec<u8>, rows: &[Vec<u8>]) -> Result<(), NoMemory>
    requires { AllByRecursion IsEncodingShort (bytes_of_each rows.now) }
    ensures { OnOk result (body.new.items ≡ body.old.items ++ flat_map framed_row (bytes_of_each rows.now)) }
{
    'rows: for row in rows {
        extend_row(body, row)?;
    }
    Ok(())
}

// Writes the body of rows of a relation.
fn rows_body(alloc: Global, relation: &str, rows: &[Vec<u8>]) -> Result<Vec<u8>, NoMemory>
    requires { IsChange (Rows relation.now (bytes_of_each rows.now)) }
    ensures { IfOk result (λ body. body.items ≡ body_of (Rows relation.now (bytes_of_each rows.now))) }
{
    let count = rows.len() as u32;
    let mut body = vec![in alloc; ROWS_BODY, relation.len() as u8]?;
    body.extend_from_slice(relation.as_bytes())?;
    body.extend_from_slice(&count.to_be_bytes())?;
    extend_rows(&mut body, rows)?;
    Ok(body)
}

// Writes the body of a change.
#[tactic(auto, unfolding(crate::specs::ChangeBody::change_value))]
fn change_body(alloc: Global, change: &Change) -> Result<Vec<u8>, NoMemory>
    requires { IsChange (change_value change.now) }
    ensures { IfOk result (λ body. body.items ≡ body_of (change_value change.now)) }
{
    match change {
        Change::Line(statement) => line_body(alloc, statement),
        Change::Rows { relation, rows } => rows_body(alloc, relation.as_str(), rows.rows()),
    }
}

impl Record {
    /// The record of a change.
    pub fn of(alloc: Global, change: &Change) -> Result<Record, NoMemory>
        requires { IsChange (change_value change.now) }
        ensures body { IfOk result (λ one. one ≡ body_of (change_value change.now)) }
        ensures short { IfOk result (λ one. IsShort one) }
    {
        let body = change_body(alloc, change)?;
        Record::with_body(alloc, &body)
    }
}
