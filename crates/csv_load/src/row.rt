// A record as a row.
ghost use Rattle.std.specs.Prelude.{◌≡◌, ◌+◌, ◌≤◌, Ok, IfOk, IfErr, length};
ghost use Rattle.csv.specs.Records.{fields_of, field_at};
ghost use Rattle.csv_load.specs.declared.fault.LoadFault.TheVariants as fault;
ghost use Rattle.csv_load.specs.FieldValue.{field_value_in};
ghost use Rattle.csv_load.specs.FileRows.{record_row, TellsColumn};

use crate::LoadFault;
use csv::ByteRecord;
use sand_base::{Kind, Label, NoMemory, Row, Value};
use script_text::read_field;
use std::alloc::Global;

// The value of the field at a place, if one is there and is of the kind.
fn value_at(
    alloc: Global,
    fields: &ByteRecord,
    at: usize,
    kind: Kind,
) -> Result<Option<Value>, NoMemory>
    ensures { IfOk result (λ found. found ≡ field_value_in kind (field_at (fields_of fields.now) at)) }
{
    match fields.get(at) {
        Some(field) => read_field(alloc, field, kind),
        None => Ok(None),
    }
}

// That the column behind so many others is bad.
fn bad_after(row: u32, columns: usize) -> LoadFault
    requires { columns ≤ 12 }
    ensures { result ≡ fault.BadRecord row (columns + 1) }
{
    LoadFault::BadRecord {
        row,
        column: columns as u32 + 1,
    }
}

// The row that the record with this number is, or its leftmost bad column.
pub(crate) fn row_of(
    alloc: Global,
    number: u32,
    fields: &ByteRecord,
    columns: &[(Label, Kind)],
) -> Result<Row, LoadFault>
    requires { length columns.now ≤ 12 }
    ensures row { IfOk result (λ row. record_row 1 columns.now (fields_of fields.now) ≡ Ok row) }
    ensures bad { IfErr result (TellsColumn number (record_row 1 columns.now (fields_of fields.now))) }
{
    let mut values = Vec::with_capacity(alloc, columns.len())?;
    'columns: for (_, kind) in columns {
        let Some(value) = value_at(alloc, fields, values.len(), *kind)? else {
            return Err(bad_after(number, values.len()));
        };
        values.push(value)?;
    }
    if fields.get(columns.len()).is_some() {
        return Err(bad_after(number, columns.len()));
    }
    Ok(Row::new(values))
}
