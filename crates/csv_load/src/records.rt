// The records of some bytes.
ghost use Rattle.std.specs.Prelude.{[]};
ghost use Rattle.csv_load.specs.Progress.{HasGivenRecords};

use csv::{ByteRecordsIntoIter, ReaderBuilder};
use std::alloc::Global;

// The records of the bytes, of any number of fields each, none of them a header.
pub(crate) fn records_of(alloc: Global, bytes: &[u8]) -> ByteRecordsIntoIter<&[u8]>
    ensures { HasGivenRecords bytes.entry.now [] result }
{
    ReaderBuilder::new()
        .has_headers(false)
        .flexible(true)
        .from_reader(alloc, bytes)
        .into_byte_records()
}
