// Values at the front of some bytes.
ghost use Rattle.std.specs.Prelude.{◌≡◌, ◌++◌, IfOk, MatchOption, map};
ghost use Rattle.sand_base.specs.InRange.{IsRowOf, IsRowInRange};
ghost use Rattle.tuple_codec.specs.Encoding.{value_bytes, encoding};
ghost use Rattle.tuple_codec.specs.Front.{IsNoneInFront, Takes};
ghost use Rattle.tuple_codec.specs.Decoding.{IsValueOf, IsRowFor};

use crate::figures::{read_point, read_ring, read_segment};
use crate::reader::Reader;
use crate::text::read_text;
use sand_base::{Kind, Label, NoMemory, Shape, Value};
use std::alloc::Global;

// A value of the kind. An int is read in the caller.
#[inline]
pub(crate) fn read_value(
    alloc: Global,
    reader: &mut Reader,
    kind: Kind,
) -> Result<Option<Value>, NoMemory>
    ensures { IfOk result (λ found. Takes (IsValueOf kind) value_bytes reader.old.left.now found reader.new.left.now) }
{
    match kind {
        Kind::Int => Ok(reader.int().map(|number| Value::Int(number))),
        _ => read_longer(alloc, reader, kind),
    }
}

// A value of the kind. Texts and shapes take much code, which stays out of the callers.
#[inline(never)]
fn read_longer(alloc: Global, reader: &mut Reader, kind: Kind) -> Result<Option<Value>, NoMemory>
    ensures { IfOk result (λ found. Takes (IsValueOf kind) value_bytes reader.old.left.now found reader.new.left.now) }
{
    match kind {
        Kind::Int => Ok(reader.int().map(|number| Value::Int(number))),
        Kind::Text => Ok(read_text(alloc, reader)?.map(|text| Value::Text(text))),
        Kind::Point => Ok(read_point(reader).map(|point| Value::Shape(Shape::Point(point)))),
        Kind::Segment => Ok(read_segment(reader).map(|segment| Value::Shape(Shape::Segment(
            segment,
        )))),
        Kind::Polygon => Ok(read_ring(alloc, reader)?.map(|ring| Value::Shape(Shape::Polygon(
            ring,
        )))),
    }
}

// A value for each column.
pub(crate) fn read_values(
    alloc: Global,
    reader: &mut Reader,
    columns: &[(Label, Kind)],
) -> Result<Option<Vec<Value>>, NoMemory>
    ensures { IfOk result (λ found. MatchOption found
        (IsNoneInFront (IsRowFor columns.now) encoding reader.old.left.now)
        (λ values. IsRowFor columns.now values.items
        × (reader.old.left.now ≡ encoding values.items ++ reader.new.left.now))) }
{
    let mut values = Vec::with_capacity(alloc, columns.len())?;
    'columns: for (_, kind) in columns {
        let Some(value) = read_value(alloc, reader, *kind)? else {
            return Ok(None);
        };
        values.push(value)?;
    }
    Ok(Some(values))
}
