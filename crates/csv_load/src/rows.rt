ghost use Rattle.std.specs.Prelude.{◌≡◌, ◌≤◌, IfOk, IfErr, length};
ghost use Rattle.sand_base.specs.InRange.{IsSchemaInRange};
ghost use Rattle.sand_model.specs.StatementChecks.{AreRows, longest_file};
ghost use Rattle.csv_load.specs.FileRows.{rows_of_file, first_row, TellsBad};

use crate::LoadFault;
use crate::records::records_of;
use crate::row::row_of;
use sand_base::{Row, Schema};
use std::alloc::Global;

// The number of the first record that is a row.
fn first_row(header: bool) -> u32
    ensures { result ≡ first_row header }
{
    if header { 2 } else { 1 }
}

/// The rows of a data file, one for each record in their order, the first record left out with `header`. `BadRecord` has the
/// first record that is no row of the schema, and its leftmost bad column: a field that is no value of the column's kind, or a
/// missing field at its column, or else a surplus field at the number of columns and one. Nothing else is refused but memory.
pub fn rows_of(
    alloc: Global,
    bytes: &[u8],
    schema: &Schema,
    header: bool,
) -> Result<Vec<Row>, LoadFault>
    requires short { length bytes.now ≤ longest_file }
    requires schema { IsSchemaInRange schema.now }
    ensures rows { IfOk result (λ rows. rows_of_file bytes.now schema.now header ≡ AreRows rows.items) }
    ensures bad { IfErr result (TellsBad (rows_of_file bytes.now schema.now header)) }
{
    let first = first_row(header);
    let mut number = 0;
    let mut rows = Vec::new(alloc);
    'records: for read in records_of(alloc, bytes) {
        let Ok(fields) = read else {
            return Err(LoadFault::Memory);
        };
        number += 1;
        if number < first {
            continue;
        }
        rows.push(row_of(alloc, number, &fields, schema.columns())?)?;
    }
    Ok(rows)
}
