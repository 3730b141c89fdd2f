// Values at the end of some bytes.
ghost use Rattle.std.specs.Prelude.{◌≡◌, ◌++◌, OnOk};
ghost use Rattle.sand_base.specs.InRange.{IsTextInRange, IsValueInRange};
ghost use Rattle.sand_base.specs.Grid.{IsRing};
ghost use Rattle.tuple_codec.specs.Encoding.{coordinate_bytes, int_bytes, text_bytes, point_bytes, segment_bytes, ring_bytes, shape_bytes, value_bytes};

use sand_base::{Point, Segment, Shape, Value};
use std::alloc::AllocError;

#[tactic(auto, unfolding(crate::specs::Encoding::coordinate_bytes))]
fn write_coordinate(bytes: &mut Vec<u8>, coordinate: u32) -> Result<(), AllocError>
    ensures { OnOk result (bytes.new.items ≡ bytes.old.items ++ coordinate_bytes coordinate) }
{
    bytes.extend_from_slice(&coordinate.to_be_bytes())?;
    Ok(())
}

#[tactic(auto, using(crate::proofs::Numbers::of_int), unfolding(crate::specs::Encoding::int_bytes))]
fn write_int(bytes: &mut Vec<u8>, number: i64) -> Result<(), AllocError>
    ensures { OnOk result (bytes.new.items ≡ bytes.old.items ++ int_bytes number) }
{
    bytes.extend_from_slice(&number.to_be_bytes())?;
    Ok(())
}

fn write_point(bytes: &mut Vec<u8>, point: Point) -> Result<(), AllocError>
    ensures { OnOk result (bytes.new.items ≡ bytes.old.items ++ point_bytes point) }
{
    write_coordinate(bytes, point.x)?;
    write_coordinate(bytes, point.y)?;
    Ok(())
}

fn write_segment(bytes: &mut Vec<u8>, segment: Segment) -> Result<(), AllocError>
    ensures { OnOk result (bytes.new.items ≡ bytes.old.items ++ segment_bytes segment) }
{
    write_point(bytes, segment.a)?;
    write_point(bytes, segment.b)?;
    Ok(())
}

fn write_ring(bytes: &mut Vec<u8>, corners: &[Point]) -> Result<(), AllocError>
    requires { IsRing corners.now }
    ensures { OnOk result (bytes.new.items ≡ bytes.old.items ++ ring_bytes corners.now) }
{
    bytes.push(corners.len() as u8)?;
    'corners: for corner in corners {
        write_point(bytes, *corner)?;
    }
    Ok(())
}

fn write_shape(bytes: &mut Vec<u8>, shape: &Shape) -> Result<(), AllocError>
    ensures { OnOk result (bytes.new.items ≡ bytes.old.items ++ shape_bytes shape.now) }
{
    match shape {
        Shape::Point(point) => write_point(bytes, *point)?,
        Shape::Segment(segment) => write_segment(bytes, *segment)?,
        Shape::Polygon(ring) => write_ring(bytes, ring.corners())?,
    }
    Ok(())
}

fn write_text(bytes: &mut Vec<u8>, text: &str) -> Result<(), AllocError>
    requires { IsTextInRange text.now }
    ensures { OnOk result (bytes.new.items ≡ bytes.old.items ++ text_bytes text.now) }
{
    bytes.push(text.len() as u8)?;
    bytes.extend_from_slice(text.as_bytes())?;
    Ok(())
}

// A value in range at the end of the bytes.
pub(crate) fn write_value(bytes: &mut Vec<u8>, value: &Value) -> Result<(), AllocError>
    requires { IsValueInRange value.now }
    ensures { OnOk result (bytes.new.items ≡ bytes.old.items ++ value_bytes value.now) }
{
    match value {
        Value::Int(number) => write_int(bytes, *number)?,
        Value::Text(text) => write_text(bytes, text.as_str())?,
        Value::Shape(shape) => write_shape(bytes, shape)?,
    }
    Ok(())
}
