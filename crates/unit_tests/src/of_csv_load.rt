// What a file's records are, by hand.
ghost use Rattle.std.specs.Prelude.{◌≡◌, IfOk, length};

use csv_load::{LONGEST_FILE, LoadFault, rows_of};
use sand_base::{Kind, Label, NoMemory, Schema};
use std::alloc::Global;
use std::process::Abort;

// Columns of a point and an int.
fn two_columns(alloc: Global) -> Result<Schema, NoMemory>
    ensures { IfOk result (λ schema. length schema ≡ 2) }
{
    let mut columns = Vec::new(alloc);
    columns.push((Label::new(alloc, "at")?, Kind::Point))?;
    columns.push((Label::new(alloc, "pop")?, Kind::Int))?;
    Ok(Schema::new(columns))
}

// How many rows a file has with these columns, or its fault.
fn count_rows(alloc: Global, bytes: &[u8], header: bool) -> Result<usize, LoadFault> {
    if bytes.len() > LONGEST_FILE {
        return Err(LoadFault::FileTooLong);
    }
    let schema = two_columns(alloc)?;
    let rows = rows_of(alloc, bytes, &schema, header)?;
    Ok(rows.len())
}

static WHOLE: [(&[u8], bool, usize); 9] = [
    (b"", false, 0),
    (b"", true, 0),
    (b"\n\r\n\n", false, 0),
    (b"at,pop\n", true, 0),
    (b"at,pop\n(1 1),5", true, 1),
    (b"\xEF\xBB\xBF(1 1),5\n", false, 1),
    (b"(1 1),5\r(2 2),6\r\n\n(3 3),7\n", false, 3),
    (b" ( 1 1 ) ,-07\n", false, 1),
    (b"\"(1 1)\",\"5\"\n", false, 1),
];

static BAD: [(&[u8], bool, u32, u32); 9] = [
    (b"(1 1),5\n(2 2),6\n(3 3),7\n(4 4),x\n", false, 4, 2),
    (b"at,pop\n", false, 1, 1),
    (b"at,pop\n(1 1),5\nx,y\n", true, 3, 1),
    (b"(1 1),5\n(2 2)\n", false, 2, 2),
    (b"(1 1),5,6\n", false, 1, 3),
    (b"(1\t1),5\n", false, 1, 1),
    (b"(1 1), 5\n", false, 1, 2),
    (b"(1 1),\"5\n(2 2),6\n", false, 1, 2),
    (b"(1 1),\xFF\n", false, 1, 2),
];

// Each file has so many rows.
fn are_whole(rt: &impl Abort, alloc: Global, cases: &[(&[u8], bool, usize)]) {
    for (bytes, header, count) in cases {
        assert_eq!(rt; count_rows(alloc, bytes, *header), Ok(*count), "{bytes:?}");
    }
}

// Each file is refused with this record and this column.
fn are_bad(rt: &impl Abort, alloc: Global, cases: &[(&[u8], bool, u32, u32)]) {
    for (bytes, header, row, column) in cases {
        let fault = LoadFault::BadRecord {
            row: *row,
            column: *column,
        };
        assert_eq!(rt; count_rows(alloc, bytes, *header), Err(fault), "{bytes:?}");
    }
}

#[test]
fn records_are_rows_or_the_first_bad_one_is_told(rt: HostRuntime) {
    let alloc = rt.alloc();
    are_whole(&rt, alloc, &WHOLE);
    are_bad(&rt, alloc, &BAD);
}
