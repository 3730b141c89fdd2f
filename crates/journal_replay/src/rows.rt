// Rows, read from their encodings.
ghost use Rattle.std.specs.Prelude.{◌≡◌, All, IfOk, IfErr, map, option_map};
ghost use Rattle.sand_base.specs.InRange.{IsRowInRange};
ghost use Rattle.sand_journal.specs.RowsBody.{bytes_of_each};
ghost use Rattle.journal_replay.specs.EncodedRows.{AreReadAs, HasRowsFor};
ghost use Rattle.journal_replay.specs.Replayed.{IsLacking};

use crate::ReplayFault;
use sand_base::{NoMemory, Row, Schema};
use sand_journal::Encodings;
use sand_store::Catalog;
use std::alloc::Global;
use tuple_codec::decode;

// The rows of a schema that have these encodings, in their order; None where one of these is that of no row.
fn decode_all(
    alloc: Global,
    schema: &Schema,
    encodings: &[Vec<u8>],
) -> Result<Option<Vec<Row>>, NoMemory>
    ensures { IfOk result (λ found. AreReadAs schema.now (bytes_of_each encodings.now) (option_map (λ rows. rows.items) found)) }
{
    let mut rows = Vec::new(alloc);
    'rows: for bytes in encodings {
        let Some(row) = decode(alloc, schema, bytes)? else {
            return Ok(None);
        };
        rows.push(row)?;
    }
    Ok(Some(rows))
}

/// The rows that have these encodings, by the schema of the relation of this name. It is `Bad` where there is no such
/// relation, and where one of these is the encoding of no row.
pub(crate) fn rows_for(
    alloc: Global,
    catalog: &Catalog,
    name: &str,
    encodings: &Encodings,
) -> Result<Vec<Row>, ReplayFault>
    ensures rows { IfOk result (λ rows. HasRowsFor catalog.now name.now encodings.now rows.items) }
    ensures in_range { IfOk result (λ rows. All IsRowInRange rows.items) }
    ensures none { IfErr result (IsLacking catalog.now name.now encodings.now) }
{
    let Some(relation) = catalog.relation(name) else {
        return Err(ReplayFault::Bad);
    };
    match decode_all(alloc, relation.schema(), encodings.rows())? {
        Some(rows) => Ok(rows),
        None => Err(ReplayFault::Bad),
    }
}
