// What a row looks like, that it is one write, and what is taken of a line that breaks off.
ghost use Rattle.output_text.specs.Line.{IsPrintable};

use exact_frac::Frac;
use output_text::{LineRef, write_line};
use sand_base::{Label, MemSink, NoMemory, Point, Ring, Segment, Shape, Value};
use std::alloc::Global;
use std::process::Abort;
use std::test::Fail;

// The line is written as this text by one call, and nothing more by a call that fails.
fn prints(rt: &impl Abort, alloc: Global, line: &LineRef, text: &str) -> Result<(), NoMemory>
    requires { IsPrintable line.now }
{
    let mut sink = MemSink::new(alloc, 500, vec![in alloc; 2]?)?;
    let answers = (
        write_line(&mut sink, line).is_ok(),
        write_line(&mut sink, line).is_ok(),
    );
    assert_eq!(rt;
        (answers, sink.bytes()),
        ((true, false), text.as_bytes()),
        "{text}"
    );
    Ok(())
}

const LOW: Point = Point { x: 0, y: 1 };

const HIGH: Point = Point { x: 2, y: 1048575 };

// A polygon of these vertices, if they are enough and memory is left.
fn polygon(vertices: Vec<Point>) -> Option<Value> {
    let ring = Ring::new(vertices).ok()?;
    Some(Value::Shape(Shape::Polygon(ring)))
}

// An int, a text, a segment and a polygon, if memory is left.
fn four_values(alloc: Global) -> Option<[Value; 4]> {
    let polygon = polygon(vec![in alloc; LOW, HIGH, LOW].ok()?)?;
    let text = Label::new(alloc, "a \"b\" \u{e9}").ok()?;
    let segment = Segment { a: LOW, b: HIGH };
    Some([
        Value::Int(-9_223_372_036_854_775_808),
        Value::Text(text),
        Value::Shape(Shape::Segment(segment)),
        polygon,
    ])
}

const ROW: &str =
    "4/5\t1\t20\t-9223372036854775808\ta \"b\" \u{e9}\t(0 1)-(2 1048575)\t((0 1) (2 1048575) (0 1))\n";

// The row of these values with a gap and two ids is written as this text.
fn prints_row(
    rt: &impl Abort,
    alloc: Global,
    values: &[Value],
    text: &str,
) -> Result<(), NoMemory> {
    let row = LineRef::Row {
        gap: Some(Frac::new(16, 20)),
        ids: &[1, 20],
        values,
    };
    prints(rt, alloc, &row, text)
}

#[test]
fn a_row_has_its_gap_its_ids_and_its_values(rt: HostRuntime) -> Result<(), Fail> {
    let values = four_values(rt.alloc()).ok_or("no values are made")?;
    prints_row(&rt, rt.alloc(), &values, ROW)?;
    Ok(())
}

// The line doesn't go whole into a sink with so much room that fails at this call, and what is there is a prefix.
fn breaks_off(
    rt: &impl Abort,
    alloc: Global,
    line: &LineRef,
    whole: &[u8],
    room: usize,
    call: u64,
) -> Result<(), NoMemory>
    requires { IsPrintable line.now }
{
    let mut sink = MemSink::new(alloc, room, vec![in alloc; call]?)?;
    let is_whole = write_line(&mut sink, line).is_ok();
    assert!(rt;
        !is_whole && whole.starts_with(sink.bytes()),
        "room {room}, call {call}"
    );
    Ok(())
}

// The line has so many bytes, and breaks off wherever the sink fails or has no room for it.
fn breaks_off_anywhere(
    rt: &impl Abort,
    alloc: Global,
    line: &LineRef,
    length: usize,
) -> Result<(), NoMemory>
    requires { IsPrintable line.now }
{
    let mut whole = MemSink::new(alloc, 1000, vec![in alloc]?)?;
    assert!(rt; write_line(&mut whole, line).is_ok() && whole.bytes().len() == length);
    for &(room, call) in &[(1000, 1), (1000, 2), (1000, 3), (100, 9)] {
        breaks_off(rt, alloc, line, whole.bytes(), room, call)?;
    }
    Ok(())
}

// A polygon of 64 vertices, if memory is left.
fn long_value(alloc: Global) -> Option<Value> {
    polygon(vec![in alloc; Point { x: 10000, y: 2 }; 64].ok()?)
}

#[test]
fn a_long_line_breaks_off_with_a_prefix(rt: HostRuntime) -> Result<(), Fail> {
    let values = [long_value(rt.alloc()).ok_or("no value is made")?];
    let row = LineRef::Row {
        gap: None,
        ids: &[],
        values: &values,
    };
    breaks_off_anywhere(&rt, rt.alloc(), &row, 642)?;
    Ok(())
}
