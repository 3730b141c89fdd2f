ghost use Rattle.std.specs.Prelude.{◌≡◌, ◌≤◌, ◌<◌, ◌↔◌, length, Err, IfOk};
ghost use Rattle.sand_base.specs.InRange.{IsRowOf, IsRowInRange};
ghost use Rattle.sand_model.specs.RowSize.{row_size};
ghost use Rattle.tuple_codec.specs.Encoding.{encoding};

use crate::CodecFault;
use crate::size::{MOST_TUPLE_BYTES, tuple_size};
use crate::write::write_value;
use sand_base::{Row, Schema};
use std::alloc::Global;

/// The bytes of a row of the schema. `TupleTooLong` comes exactly where they are more than 3,900, before any
/// memory is asked for.
pub fn encode(alloc: Global, schema: &Schema, row: &Row) -> Result<Vec<u8>, CodecFault>
    requires of_schema { IsRowOf schema.now row.now }
    requires in_range { IsRowInRange row.now }
    ensures encoded { IfOk result (λ bytes. bytes.items ≡ encoding row.now) }
    ensures long { IfOk result (λ bytes. length bytes.items ≡ row_size row.now) }
    ensures fits { IfOk result (λ bytes. row_size row.now ≤ MOST_TUPLE_BYTES) }
    ensures too_long { (result ≡ Err CodecFault.TupleTooLong) ↔ (MOST_TUPLE_BYTES < row_size row.now) }
{
    let Some(size) = tuple_size(row.values()) else {
        return Err(CodecFault::TupleTooLong);
    };
    let mut bytes = Vec::with_capacity(alloc, size)?;
    'values: for value in row.values() {
        write_value(&mut bytes, value)?;
    }
    Ok(bytes)
}
