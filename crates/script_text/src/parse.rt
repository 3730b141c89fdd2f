ghost use Rattle.std.specs.Prelude.{◌≡◌, ℕ, ◌+◌, ◌≤◌, false, [], length};
ghost use Rattle.script_text.specs.Line.{Reads, answer_value, is_passed_over};
ghost use Rattle.script_text.specs.Lexical.{IsColumn};
ghost use Rattle.script_text.specs.Lexing.{unread};
ghost use Rattle.script_text.specs.declared.TheConstants.{LONGEST_LINE};
ghost use Rattle.script_text.specs.declared.parse.LineFault.TheVariants.{Syntax};

use crate::Statement;
use crate::cursor::Cursor;
use crate::lexer::{fault_room, skip_blanks, unread};
use crate::stuck::Stuck;
use std::alloc::Global;

/// Why a line gives no statement.
#[derive(Clone, Copy, Debug, PartialEq, Eq)]
pub enum LineFault {
    /// Memory was refused.
    Memory,
    /// No token begins at this column, a text that is not closed has its fault here, or no line of the grammar goes on
    /// with the token here. Columns count bytes from 1; where the tokens end too early, the column is one past the line.
    Syntax { column: u32 },
    /// A number, a count, a window or a text is out of its range.
    Range,
}

// Whether the line has blanks alone, or a `#` as its first other byte.
fn is_passed_over(line: &[u8]) -> bool
    ensures { result ≡ is_passed_over line.now }
{
    match skip_blanks(line).first() {
        None => true,
        Some(first) => *first == b'#',
    }
}

// A fault at the byte from which on the line has so many bytes.
fn syntax_at(line: &[u8], room: usize) -> LineFault
    requires within { room ≤ length line.now }
    requires short { length line.now ≤ LONGEST_LINE }
    ensures { (column : ℕ) × (result ≡ Syntax column) × IsColumn line.now room column }
{
    let column = line.len() - room + 1;
    LineFault::Syntax {
        column: column as u32,
    }
}

// Reads the statement of a line of tokens.
fn read_tokens(alloc: Global, line: &[u8]) -> Result<Option<Statement>, LineFault>
    requires short { length line.now ≤ LONGEST_LINE }
    requires counts { is_passed_over line.now ≡ false }
    requires lexed { unread line.now ≡ [] }
    ensures { Reads line.now (answer_value result) }
{
    let mut cursor = Cursor::over(line);
    let statement = match cursor.whole_statement(alloc) {
        Ok(statement) => statement,
        Err(Stuck::Memory) => return Err(LineFault::Memory),
        Err(Stuck::Here) => return Err(syntax_at(line, cursor.room())),
    };
    let is_in_range = cursor.is_in_range();
    is_in_range
        .then_some(Some(statement))
        .ok_or(LineFault::Range)
}

/// Reads one line, without its line feed. None for a line of blanks or a comment.
///
/// Memory is taken for the statement alone.
pub fn parse_line(alloc: Global, line: &[u8]) -> Result<Option<Statement>, LineFault>
    requires { length line.now ≤ LONGEST_LINE }
    ensures { Reads line.now (answer_value result) }
{
    if is_passed_over(line) {
        return Ok(None);
    }
    let bad = unread(line);
    if !bad.is_empty() {
        return Err(syntax_at(line, fault_room(bad)));
    }
    read_tokens(alloc, line)
}
