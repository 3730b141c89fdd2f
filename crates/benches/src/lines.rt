// What lines of scripts and fields of data files are read as: the printed form, or the column of the first fault, or that a number or a length is
// out of range.
use crate::cases::{BROKEN, FIELDS, LINES, LONG, Repeated};
use crate::reading::{Outcome, deepest, field, form, repeated, says};
use std::alloc::Global;
use std::{io, str};
use work_gen::Workload;

// Prints the statement of a line.
fn print(rt: &(impl Print + AllocGlobal), line: &[u8]) -> io::Result<()> {
    match &form(rt.alloc(), line) {
        Some(bytes) => rt.println(format_args!("  {}", text_of(bytes))),
        None => rt.println(format_args!("  memory was short")),
    }
}

// The bytes as a text.
fn text_of(bytes: &[u8]) -> &str {
    match str::from_utf8(bytes) {
        Ok(text) => text,
        Err(_) => "no text",
    }
}

// Prints what a line says but for the statement.
fn tell(rt: &impl Print, outcome: Outcome) -> io::Result<()> {
    match outcome {
        Outcome::PassedOver => rt.println(format_args!("  passed over")),
        Outcome::Read => rt.println(format_args!("  read")),
        Outcome::Syntax(column) => rt.println(format_args!("  a fault at column {column}")),
        Outcome::Range => rt.println(format_args!("  out of range")),
        Outcome::Memory => rt.println(format_args!("  memory was short")),
        Outcome::TooLong => rt.println(format_args!("  too long")),
    }
}

// Prints what a line says, and the statement.
fn tell_line(rt: &(impl Print + AllocGlobal), line: &[u8]) -> io::Result<()> {
    match says(rt.alloc(), line) {
        Outcome::Read => print(rt, line),
        other => tell(rt, other),
    }
}

// The lines that are given in full.
fn lines(rt: &(impl Print + AllocGlobal)) -> io::Result<()> {
    for line in &LINES {
        rt.println(format_args!("{line:?}"))?;
        tell_line(rt, line.as_bytes())?;
    }
    Ok(())
}

// The lines with bytes that are no characters.
fn broken_lines(rt: &(impl Print + AllocGlobal)) -> io::Result<()> {
    for line in &BROKEN {
        rt.println(format_args!("{line:?}"))?;
        tell(rt, says(rt.alloc(), line))?;
    }
    Ok(())
}

// What a long line says.
fn says_long(alloc: Global, parts: &Repeated) -> Outcome {
    match &repeated(alloc, parts) {
        Some(line) => says(alloc, line),
        None => Outcome::Memory,
    }
}

// The long ones.
fn long_lines(rt: &(impl Print + AllocGlobal)) -> io::Result<()> {
    for parts in &LONG {
        rt.println(format_args!(
            "{:?}, {} times {:?}, {:?}",
            parts.first, parts.count, parts.item, parts.last
        ))?;
        tell(rt, says_long(rt.alloc(), parts))?;
    }
    Ok(())
}

// The deepest plan.
fn deep(rt: &(impl Print + AllocGlobal)) -> io::Result<()> {
    match deepest(rt.alloc()) {
        Some((depth, bytes)) => rt.println(format_args!(
            "a plan of {depth} operators is read, copied and printed in {bytes} bytes"
        )),
        None => rt.println(format_args!("the deepest plan is not read, or memory was short")),
    }
}

// The fields of data files.
fn fields(rt: &(impl Print + AllocGlobal)) -> io::Result<()> {
    for (kind, text) in &FIELDS {
        let read = field(rt.alloc(), text.as_bytes(), *kind);
        rt.println(format_args!("{kind:?} {text:?} is {read}"))?;
    }
    Ok(())
}

/// Prints what some lines and fields say.
pub fn tell_all(rt: &(impl Print + AllocGlobal)) -> io::Result<()> {
    lines(rt)?;
    broken_lines(rt)?;
    long_lines(rt)?;
    deep(rt)?;
    fields(rt)
}

// The number of lines of a workload that are read.
fn read_lines(alloc: Global, size: u32) -> Option<u64> {
    if size < 1 || size > 100_000 {
        return None;
    }
    let mut workload = Workload::new(size);
    let mut count = 0u64;
    'lines: for _ in 0..u32::MAX {
        let Some(line) = workload.next_line() else {
            break;
        };
        if let Outcome::Read = says(alloc, line) {
            count = count.wrapping_add(1);
        }
    }
    Some(count)
}

/// Reads the lines of so large a workload, of 1 to 100,000.
pub fn measure(rt: &(impl Print + AllocGlobal), size: &str) -> io::Result<()> {
    let Ok(size) = size.parse() else {
        return rt.println(format_args!("no number"));
    };
    match read_lines(rt.alloc(), size) {
        Some(count) => rt.println(format_args!("{count} lines")),
        None => rt.println(format_args!("no such workload")),
    }
}
