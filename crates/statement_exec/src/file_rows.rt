// The rows of a data file, read from the shelf.
ghost use Rattle.std.specs.Prelude.{◌≡◌, ◌≤◌, All, IfOk, IfErr};
ghost use Rattle.sand_base.specs.InRange.{IsRowInRange, IsSchemaInRange};
ghost use Rattle.sand_model.specs.StatementChecks.{AreRows};
ghost use Rattle.statement_exec.specs.FileReading.{GivesNone, HasRecords, OfFound, file_refusal, shelf_after};

use csv_load::{LoadFault, read_file, rows_of, rows_of_a_file_fit_its_schema};
use sand_base::{Label, Refusal, Row, Schema, Shelf};
use std::alloc::Global;

/// A fault of a file, as a statement is refused by it.
pub(crate) fn refusal_of(why: LoadFault) -> Refusal
    ensures { result ≡ file_refusal why }
{
    match why {
        LoadFault::Memory => Refusal::Memory,
        LoadFault::File => Refusal::File,
        LoadFault::FileTooLong => Refusal::FileTooLong,
        LoadFault::BadRecord { row, column } => Refusal::BadRecord { row, column },
    }
}

/// The rows of the file with this name, each a row of the schema.
pub(crate) fn read_rows<H: Shelf>(
    alloc: Global,
    shelf: &mut H,
    file: &Label,
    schema: &Schema,
    header: bool,
) -> Result<Vec<Row>, LoadFault>
    requires { IsSchemaInRange schema.now }
    ensures rows { IfOk result (λ rows. OfFound (H.files shelf.old) (HasRecords (record { name = file.now; schema = schema.now; header = header }) (AreRows rows.items))) }
    ensures in_range { IfOk result (λ rows. All IsRowInRange rows.items) }
    ensures none { IfErr result (GivesNone (H.files shelf.old) (record { name = file.now; schema = schema.now; header = header })) }
    ensures files { H.files shelf.new ≡ H.files shelf.old }
    ensures cause { H.faults shelf.new ≡ shelf_after (H.faults shelf.old) result }
{
    // For the proof alone: the rows are in range.
    rows_of_a_file_fit_its_schema();
    let bytes = match read_file(alloc, shelf, file.as_str()) {
        Ok(bytes) => bytes,
        Err(why) => return Err(why),
    };
    let rows = rows_of(alloc, &bytes, schema, header)?;
    Ok(rows)
}
