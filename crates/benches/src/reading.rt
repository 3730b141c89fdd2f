// What lines and fields are read as.
ghost use Rattle.std.specs.Prelude.{◌≤◌, length};
ghost use Rattle.script_text.specs.declared.TheConstants.{LONGEST_LINE};

use crate::cases::Repeated;
use sand_base::{Kind, Value};
use script_text::{
    LONGEST_LINE, LineFault, Plan, Statement, parse_line, print_statement, read_field,
};
use std::alloc::{AllocError, Global};

/// What a line says.
#[derive(Clone, Copy)]
pub enum Outcome {
    PassedOver,
    Read,
    Syntax(u32),
    Range,
    Memory,
    TooLong,
}

/// What the line says.
pub fn says(alloc: Global, line: &[u8]) -> Outcome {
    if line.len() > LONGEST_LINE {
        return Outcome::TooLong;
    }
    match &parse_line(alloc, line) {
        Ok(None) => Outcome::PassedOver,
        Ok(Some(_statement)) => Outcome::Read,
        Err(LineFault::Memory) => Outcome::Memory,
        Err(LineFault::Syntax { column }) => Outcome::Syntax(*column),
        Err(LineFault::Range) => Outcome::Range,
    }
}

// The statement that a line writes.
fn statement(alloc: Global, line: &[u8]) -> Option<Statement> {
    if line.len() > LONGEST_LINE {
        return None;
    }
    parse_line(alloc, line).ok().flatten()
}

// The printed form of a statement.
fn printed(alloc: Global, statement: Option<&Statement>) -> Option<Vec<u8>> {
    print_statement(alloc, statement?).ok()
}

/// The printed form of the statement that a line writes.
pub fn form(alloc: Global, line: &[u8]) -> Option<Vec<u8>> {
    printed(alloc, statement(alloc, line).as_ref())
}

/// What a field of a column is, in a word.
pub fn field(alloc: Global, bytes: &[u8], kind: Kind) -> &'static str {
    match &read_field(alloc, bytes, kind) {
        Ok(None) => "no value",
        Ok(Some(Value::Int(_))) => "a number",
        Ok(Some(Value::Text(_))) => "a text",
        Ok(Some(Value::Shape(_))) => "a shape",
        Err(_) => "refused memory",
    }
}

// Adds a text so many times.
fn push_times(line: &mut Vec<u8>, item: &[u8], count: usize) -> Result<(), AllocError> {
    'items: for _ in 0..count {
        line.extend_from_slice(item)?;
    }
    Ok(())
}

/// The bytes of the line.
pub fn repeated(alloc: Global, parts: &Repeated) -> Option<Vec<u8>> {
    let mut line = parts.first.as_bytes().to_vec(alloc).ok()?;
    push_times(&mut line, parts.item.as_bytes(), parts.count).ok()?;
    line.extend_from_slice(parts.last.as_bytes()).ok()?;
    Some(line)
}

// A line of so many operators inside one another.
fn nested(alloc: Global, depth: usize) -> Option<Vec<u8>> {
    let parts = Repeated {
        first: "show 1 ",
        item: "first 1(",
        count: depth,
        last: "scan p",
    };
    let mut line = repeated(alloc, &parts)?;
    push_times(&mut line, b")", depth).ok()?;
    Some(line)
}

// How deep a plan is.
fn depth(plan: Option<&Plan>) -> Option<usize> {
    Some(plan?.depth())
}

// How deep the plan of a `show` is, read from its copy.
fn depth_of_copy(alloc: Global, statement: Option<&Statement>) -> Option<usize> {
    let Some(Statement::Show { plan, .. }) = statement else {
        return None;
    };
    depth(plan.copy(alloc).ok().as_ref())
}

// How deep the plan of a line is.
fn depth_of(alloc: Global, line: &[u8]) -> Option<usize> {
    depth_of_copy(alloc, statement(alloc, line).as_ref())
}

// In how many bytes the statement of a line is printed.
fn size_of(alloc: Global, line: &[u8]) -> Option<usize> {
    let text = form(alloc, line)?;
    Some(text.len())
}

// Both of a line.
fn depth_and_size(alloc: Global, line: &[u8]) -> Option<(usize, usize)> {
    Some((depth_of(alloc, line)?, size_of(alloc, line)?))
}

/// How deep the deepest plan is that a line can hold, read from its copy, and how many bytes its statement is printed in.
pub fn deepest(alloc: Global) -> Option<(usize, usize)> {
    let line = nested(alloc, 908)?;
    depth_and_size(alloc, line.as_slice())
}
