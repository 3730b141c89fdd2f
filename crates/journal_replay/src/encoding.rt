// Rows that are to enter a relation, as their encodings.
ghost use Rattle.std.specs.Prelude.{◌≡◌, ◌≤◌, ◌<◌, ◌^◌, length, true, All, IfOk, option_map};
ghost use Rattle.std.specs.List.{AllByRecursion};
ghost use Rattle.sand_base.specs.InRange.{IsRowInRange};
ghost use Rattle.sand_base.specs.Shape.{same_kind};
ghost use Rattle.sand_journal.specs.ChangeBody.{Rows, IsEncodingShort, body_of};
ghost use Rattle.sand_journal.specs.RowsBody.{bytes_of_each};
ghost use Rattle.sand_model.specs.StatementChecks.{is_row_of};
ghost use Rattle.script_text.specs.Name.{IsName};
ghost use Rattle.journal_replay.specs.KeptBody.{AreEncodedAs, IsEncodedAs};

use sand_base::{Kind, Label, NoMemory, Row, Schema, Value};
use std::alloc::Global;
use tuple_codec::{CodecFault, encode};

/// A body has fewer bytes.
const BODY_BYTES: usize = 1 << 32;

// Whether two kinds are one.
fn is_same_kind(a: Kind, b: Kind) -> bool
    ensures { result ≡ same_kind a b }
{
    match (a, b) {
        (Kind::Int, Kind::Int)
        | (Kind::Text, Kind::Text)
        | (Kind::Point, Kind::Point)
        | (Kind::Segment, Kind::Segment)
        | (Kind::Polygon, Kind::Polygon) => true,
        _ => false,
    }
}

// Whether the values are of the kinds of the columns, one for each.
fn is_of_columns(columns: &[(Label, Kind)], values: &[Value]) -> bool
    ensures { result ≡ is_row_of columns.now values.now }
{
    if columns.len() != values.len() {
        return false;
    }
    'columns: for at in 0..columns.len() {
        if !is_same_kind(values[at].kind(), columns[at].1) {
            return false;
        }
    }
    true
}

// The encoding of a row, None where the row isn't of the schema, or too long.
fn encode_row(alloc: Global, schema: &Schema, row: &Row) -> Result<Option<Vec<u8>>, NoMemory>
    requires { IsRowInRange row.now }
    ensures { IfOk result (λ found. IsEncodedAs schema.now row.now (option_map (λ bytes. bytes.items) found)) }
{
    if !is_of_columns(schema.columns(), row.values()) {
        return Ok(None);
    }
    match encode(alloc, schema, row) {
        Ok(bytes) => Ok(Some(bytes)),
        Err(CodecFault::Memory) => Err(NoMemory {}),
        Err(CodecFault::TupleTooLong) => Ok(None),
    }
}

/// The encodings of rows, None where one of them isn't of the schema, or too long.
pub(crate) fn encode_all(
    alloc: Global,
    schema: &Schema,
    rows: &[Row],
) -> Result<Option<Vec<Vec<u8>>>, NoMemory>
    requires { All IsRowInRange rows.now }
    ensures { IfOk result (λ found. AreEncodedAs schema.now rows.now (option_map (λ all. bytes_of_each all.items) found)) }
{
    let mut encodings = Vec::new(alloc);
    'rows: for row in rows {
        let Some(bytes) = encode_row(alloc, schema, row)? else {
            return Ok(None);
        };
        encodings.push(bytes)?;
    }
    Ok(Some(encodings))
}

/// Whether the body of these rows has fewer than 2^32 bytes.
pub(crate) fn is_body_short(relation: &str, encodings: &[Vec<u8>]) -> bool
    requires named { IsName relation.now }
    requires short { AllByRecursion IsEncodingShort (bytes_of_each encodings.now) }
    ensures { result ≡ true → length (body_of (Rows relation.now (bytes_of_each encodings.now))) < 2 ^ 32 }
{
    let mut size = 6 + relation.len();
    'rows: for bytes in encodings {
        if size >= BODY_BYTES {
            return false;
        }
        size += 2 + bytes.len();
    }
    size < BODY_BYTES
}
