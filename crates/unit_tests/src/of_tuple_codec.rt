// That the bytes are those written out by hand, and which bytes are no row.
use sand_base::{Kind, Label, NoMemory, Schema};
use std::alloc::Global;
use std::process::Abort;
use std::test::Fail;
use tuple_codec::{CodecFault, decode, encode};

fn schema_of(alloc: Global, kinds: &[Kind]) -> Result<Schema, NoMemory> {
    let mut columns = Vec::new(alloc);
    for kind in kinds {
        columns.push((Label::new(alloc, "c")?, *kind))?;
    }
    Ok(Schema::new(columns))
}

fn is_row(alloc: Global, kinds: &[Kind], bytes: &[u8]) -> Result<bool, NoMemory> {
    Ok(decode(alloc, &schema_of(alloc, kinds)?, bytes)?.is_some())
}

// The row is read and its bytes are made again; None where no row was read or no memory was left.
fn made_again(alloc: Global, kinds: &[Kind], bytes: &[u8]) -> Option<Result<Vec<u8>, CodecFault>> {
    let Ok(schema) = schema_of(alloc, kinds) else {
        return None;
    };
    match decode(alloc, &schema, bytes) {
        Ok(Some(row)) => Some(encode(alloc, &schema, &row)),
        _ => None,
    }
}

// The row is read, and these are the bytes that are made of it.
fn is_made_again(alloc: Global, kinds: &[Kind], bytes: &[u8]) -> bool {
    match made_again(alloc, kinds, bytes) {
        Some(Ok(again)) => again.as_slice() == bytes,
        _ => false,
    }
}

// The row is read, and is too long to be made again.
fn is_too_long(alloc: Global, kinds: &[Kind], bytes: &[u8]) -> bool {
    matches!(
        made_again(alloc, kinds, bytes),
        Some(Err(CodecFault::TupleTooLong))
    )
}

// Whether the bytes and one more are a row.
fn is_row_with_a_byte(alloc: Global, kinds: &[Kind], bytes: &[u8]) -> Result<bool, NoMemory> {
    let mut longer = bytes.to_vec(alloc)?;
    longer.push(0)?;
    is_row(alloc, kinds, &longer)
}

static KINDS: [Kind; 5] = [
    Kind::Int,
    Kind::Text,
    Kind::Point,
    Kind::Segment,
    Kind::Polygon,
];

// -2, a text of two letters, (1 1048575), (0 0)-(2 3) and a triangle.
static ROW: [u8; 61] = [
    255, 255, 255, 255, 255, 255, 255, 254, // -2
    3, 65, 195, 169, // a text of three bytes
    0, 0, 0, 1, 0, 15, 255, 255, // a point
    0, 0, 0, 0, 0, 0, 0, 0, 0, 0, 0, 2, 0, 0, 0, 3, // a segment
    3, 0, 0, 0, 0, 0, 0, 0, 0, 0, 0, 0, 4, 0, 0, 0, 0, 0, 0, 0, 0, 0, 0, 0, 5, // a ring
];

// The row is read and made again; no beginning of it is a row, and with a byte more it is none.
fn is_read_as_a_whole(
    rt: &impl Abort,
    alloc: Global,
    kinds: &[Kind],
    row: &[u8],
) -> Result<(), Fail> {
    assert!(rt; is_made_again(alloc, kinds, row), "it is a row");
    for cut in 0..row.len() {
        assert!(rt; !is_row(alloc, kinds, &row[..cut])?, "cut after {cut}");
    }
    assert!(rt;
        !is_row_with_a_byte(alloc, kinds, row)?,
        "a byte is left over"
    );
    Ok(())
}

#[test]
fn a_row_of_each_kind_is_read_and_made_again(rt: HostRuntime) -> Result<(), Fail> {
    is_read_as_a_whole(&rt, rt.alloc(), &KINDS, &ROW)
}

static VALUES: [(&str, Kind, &[u8], bool); 4] = [
    ("the empty text", Kind::Text, &[0], true),
    ("no UTF-8", Kind::Text, &[2, 195, 40], false),
    ("a control character", Kind::Text, &[2, 194, 133], false),
    (
        "an x of 1048576",
        Kind::Point,
        &[0, 16, 0, 0, 0, 0, 0, 0],
        false,
    ),
];

// The bytes of each case are a row of one value, or are none.
fn are_rows(
    rt: &impl Abort,
    alloc: Global,
    cases: &[(&str, Kind, &[u8], bool)],
) -> Result<(), Fail> {
    for (name, kind, bytes, fits) in cases {
        assert!(rt; is_row(alloc, &[*kind], bytes)? == *fits, "{name}");
    }
    Ok(())
}

// Whether so many vertices, all at the origin, are a row of a ring.
fn is_ring(alloc: Global, count: u8) -> Result<bool, NoMemory> {
    let mut ring = vec![in alloc; 0; 1 + 8 * usize::from(count)]?;
    if let Some(first) = ring.first_mut() {
        *first = count;
    }
    is_row(alloc, &[Kind::Polygon], &ring)
}

#[test]
fn values_out_of_range_are_no_row(rt: HostRuntime) -> Result<(), Fail> {
    let alloc = rt.alloc();
    are_rows(&rt, alloc, &VALUES)?;
    for &(count, fits) in &[(2, false), (3, true), (64, true), (65, false)] {
        assert!(rt; is_ring(alloc, count)? == fits, "{count} vertices");
    }
    Ok(())
}

static LONG: [Kind; 9] = [
    Kind::Polygon,
    Kind::Polygon,
    Kind::Polygon,
    Kind::Polygon,
    Kind::Polygon,
    Kind::Polygon,
    Kind::Polygon,
    Kind::Text,
    Kind::Text,
];

// Seven rings of 64 vertices, a text of 255 bytes and a text of `last` bytes.
fn long_row(alloc: Global, last: u8) -> Result<Vec<u8>, NoMemory> {
    let mut bytes = Vec::new(alloc);
    for _ in 0..7u32 {
        bytes.push(64)?;
        for _ in 0..512u32 {
            bytes.push(0)?;
        }
    }
    for length in [255, last] {
        bytes.push(length)?;
        for _ in 0..length {
            bytes.push(b'a')?;
        }
    }
    Ok(bytes)
}

#[test]
fn a_row_of_3900_bytes_fits_and_one_of_3901_does_not(rt: HostRuntime) -> Result<(), Fail> {
    let alloc = rt.alloc();
    let fits = long_row(alloc, 52)?;
    assert!(rt; fits.len() == 3900 && is_made_again(alloc, &LONG, &fits));
    let longer = long_row(alloc, 53)?;
    assert!(rt; longer.len() == 3901 && is_too_long(alloc, &LONG, &longer));
    Ok(())
}
