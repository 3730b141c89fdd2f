// How many bytes a row takes.
ghost use Rattle.std.specs.Prelude.{◌≡◌, ◌≤◌, ◌^◌, SomeIff};
ghost use Rattle.sand_model.specs.RowSize.{shape_size, value_size, row_size};

use sand_base::{Shape, Value};

/// The most bytes of a row that is kept.
pub const MOST_TUPLE_BYTES: usize = 3900;

// How many bytes a shape takes.
fn shape_size(shape: &Shape) -> usize
    ensures size { result ≡ shape_size shape.now }
    ensures small { result ≤ 513 }
{
    match shape {
        Shape::Point(_) => 8,
        Shape::Segment(_) => 16,
        Shape::Polygon(ring) => 1 + 8 * ring.corners().len(),
    }
}

// How many bytes a value takes: fewer than half of all numbers, so that a sum of two fits.
fn value_size(value: &Value) -> usize
    ensures size { result ≡ value_size value.now }
    ensures small { result ≤ 2 ^ 63 }
{
    match value {
        Value::Int(_) => 8,
        Value::Text(text) => 1 + text.as_str().len(),
        Value::Shape(shape) => shape_size(shape),
    }
}

// How many bytes a row takes, or None where they are more than a tuple may have.
pub(crate) fn tuple_size(values: &[Value]) -> Option<usize>
    ensures { SomeIff result (row_size values.now ≤ MOST_TUPLE_BYTES) (row_size values.now) }
{
    let mut size = 0;
    'values: for value in values {
        size += value_size(value);
        if size > MOST_TUPLE_BYTES {
            return None;
        }
    }
    Some(size)
}
