// The checks of a row.
ghost use Rattle.std.specs.Prelude.{◌≡◌, ◌≤◌, length, None, IfOk, IfErr};
ghost use Rattle.sand_base.specs.InRange.{IsRowInRange};
ghost use Rattle.sand_base.specs.Shape.{same_kind};
ghost use Rattle.sand_model.specs.Kept.{longest_row};
ghost use Rattle.sand_model.specs.RowSize.{row_size};
ghost use Rattle.sand_model.specs.StatementChecks.{is_row_of};
ghost use Rattle.tuple_codec.specs.Encoding.{encoding};
ghost use Rattle.tuple_codec.specs.Decoding.{IsRowFor};
ghost use Rattle.sand_store.specs.Steps.{row_check, IsRefusedOrSpent};

use crate::Relation;
use sand_base::{Kind, Label, Limits, Refusal, Row, Value};
use std::alloc::Global;
use tuple_codec::{CodecFault, encode};

// Whether two kinds are one.
fn is_same_kind(a: Kind, b: Kind) -> bool
    ensures { result ≡ same_kind a b }
{
    match (a, b) {
        (Kind::Int, Kind::Int)
        | (Kind::Text, Kind::Text)
        | (Kind::Point, Kind::Point)
        | (Kind::Segment, Kind::Segment)
        | (Kind::Polygon, Kind::Polygon) => true,
        _ => false,
    }
}

// Whether the values are of the kinds of the columns, one for each.
fn is_of_columns(columns: &[(Label, Kind)], values: &[Value]) -> bool
    ensures { result ≡ is_row_of columns.now values.now }
{
    if columns.len() != values.len() {
        return false;
    }
    'columns: for at in 0..columns.len() {
        if !is_same_kind(values[at].kind(), columns[at].1) {
            return false;
        }
    }
    true
}

/// The bytes of a row that the relation may take in: it is of the schema, not too long, and an id is left for it.
pub fn admitted(
    alloc: Global,
    relation: &Relation,
    row: &Row,
    limits: Limits,
) -> Result<Vec<u8>, Refusal>
    requires range { IsRowInRange row.now }
    requires begun { 1 ≤ relation.now.next }
    ensures passes { IfOk result (λ bytes. row_check limits relation.now row.now ≡ None) }
    ensures of { IfOk result (λ bytes. IsRowFor relation.now.schema row.now) }
    ensures bytes { IfOk result (λ bytes. bytes.items ≡ encoding row.now) }
    ensures short { IfOk result (λ bytes. length bytes.items ≤ 3900) }
    ensures size { IfOk result (λ bytes. row_size row.now ≤ longest_row) }
    ensures refused { IfErr result (IsRefusedOrSpent (row_check limits relation.now row.now)) }
{
    if !is_of_columns(relation.schema.columns(), row.values()) {
        return Err(Refusal::WrongKind);
    }
    let bytes = match encode(alloc, &relation.schema, row) {
        Ok(bytes) => bytes,
        Err(CodecFault::Memory) => return Err(Refusal::Memory),
        Err(CodecFault::TupleTooLong) => return Err(Refusal::TupleTooLong),
    };
    if limits.ids < relation.next {
        return Err(Refusal::IdsSpent);
    }
    Ok(bytes)
}
