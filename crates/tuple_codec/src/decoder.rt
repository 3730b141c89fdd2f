ghost use Rattle.std.specs.Prelude.{◌≡◌, List, Some, IfSome, IfOk};
ghost use Rattle.sand_base.specs.InRange.{IsValueInRange};
ghost use Rattle.sand_base.specs.declared.value.Value.{Value as Held};
ghost use Rattle.tuple_codec.specs.Decoding.{IsEncodingOf, IsValueIn};

use crate::pass::pass_value;
use crate::reader::Reader;
use crate::values::{read_value, read_values};
use sand_base::{NoMemory, Row, Schema, Value};
use std::alloc::Global;

/// The row of the schema of which the bytes are the encoding, or None where they are the encoding of none.
pub fn decode(alloc: Global, schema: &Schema, bytes: &[u8]) -> Result<Option<Row>, NoMemory>
    ensures found { IfOk result (λ found. IfSome found (λ row. IsEncodingOf schema.now row bytes.now)) }
    ensures whole { IfOk result (λ found. (row : List Held) → IsEncodingOf schema.now row bytes.now → found ≡ Some row) }
{
    let mut reader = Reader::over(bytes);
    let Some(values) = read_values(alloc, &mut reader, schema.columns())? else {
        return Ok(None);
    };
    if !reader.is_empty() {
        return Ok(None);
    }
    Ok(Some(Row::new(values)))
}

/// The value that the row of the schema of which the bytes are the encoding has in a column, or None where the
/// schema has no such column. What stands before the value is passed over, and what stands behind it isn't read.
pub fn decode_value(
    alloc: Global,
    schema: &Schema,
    bytes: &[u8],
    column: usize,
) -> Result<Option<Value>, NoMemory>
    ensures value { IfOk result (λ value. IsValueIn schema.now bytes.now column value) }
    ensures in_range { IfOk result (λ value. IfSome value IsValueInRange) }
{
    let columns = schema.columns();
    let Some((_, kind)) = columns.get(column) else {
        return Ok(None);
    };
    let mut reader = Reader::over(bytes);
    'columns: for (_, before) in &columns[..column] {
        if !pass_value(&mut reader, *before) {
            return Ok(None);
        }
    }
    let value = read_value(alloc, &mut reader, *kind)?;
    Ok(value)
}
