ghost use Rattle.std.specs.Prelude.{◌≡◌, ◌≤◌, length, IfOk, IfErr};
ghost use Rattle.script_text.specs.declared.TheConstants.{LONGEST_LINE};
ghost use Rattle.script_lines.specs.Lines.{chopped};
ghost use Rattle.statement_exec.specs.Causes.{BlamesNone};
ghost use Rattle.line_meaning.specs.Reading.{Says, RefusesLine};

use sand_base::Refusal;
use script_text::{LineFault, Statement, a_line_has_one_reading, parse_line};
use std::alloc::Global;

// The line without one carriage return at its end.
fn without_return(line: &[u8]) -> &[u8]
    ensures value { result.now ≡ chopped line.now }
    ensures len { length result.now ≤ length line.now }
{
    let n = line.len();
    if n > 0 && line[n - 1] == b'\r' {
        &line[..n - 1]
    } else {
        line
    }
}

/// The statement of a line, None for one that is passed over, or why it is refused.
pub fn read_line(alloc: Global, line: &[u8]) -> Result<Option<Statement>, Refusal>
    requires { length line.now ≤ LONGEST_LINE }
    ensures says { IfOk result (Says line.now) }
    ensures refuses { IfErr result (RefusesLine line.now) }
    ensures inside { IfErr result BlamesNone }
{
    // For the proof alone: a line says one thing.
    a_line_has_one_reading();
    match parse_line(alloc, without_return(line)) {
        Ok(statement) => Ok(statement),
        Err(LineFault::Syntax { column }) => Err(Refusal::Syntax { column }),
        Err(LineFault::Range) => Err(Refusal::Range),
        Err(LineFault::Memory) => Err(Refusal::Memory),
    }
}
