//! The script language: reading a line as a statement, and printing a statement.
//!
//! A line is cut into tokens that borrow it, each the longest that stands there (`lexer`, `text`): once for the first
//! byte at which none begins, and once for a cursor that takes them one by one (`cursor`) under the grammar, which has a
//! method for each rule (`reader`, `plan_reader`, `statement_reader`). `parse_line` gives the statement, or the column
//! of the first fault. The grammar is said once, as data: forms typed by their value (`specs/Form.antt`,
//! `specs/Rules.antt`), with one theorem over all forms that what is read is written and what is written is read, and
//! that the reader is stuck at the first bad token. `print_statement` writes the tokens of a statement under one rule for
//! the spaces between them (`printer`, `value_printer`, `plan_printer`, `print`), and `read_field` reads what a data file
//! holds in one column (`field`). Above: `session`, which carries statements out. Below: `statements` for
//! statements as values, and `sand_base`.
//! Contracts see a statement as its tree; read `specs/Lexical.antt` first, then `specs/Form.antt`, `specs/Rules.antt`,
//! `specs/Line.antt` and `specs/Printing.antt`.
//! After P. M. Lewis and R. E. Stearns (1968), reading from the left with one token in hand.
#![tactic(auto)]

mod cursor;
mod field;
mod laws;
mod lexer;
mod parse;
mod plan_printer;
mod plan_reader;
mod print;
mod printer;
mod reader;
mod statement_reader;
mod stuck;
mod text;
mod token;
mod value_printer;

pub use field::read_field;
pub use laws::{a_line_has_one_reading, printed_statements_are_read_back, the_limits};
pub use parse::{LineFault, parse_line};
pub use print::print_statement;
use sand_base::COORDINATE_BITS;
pub use statements::{Column, Op, Place, Places, Plan, Statement, Test, Tests};

/// The longest name, in bytes.
pub const LONGEST_NAME: usize = 32;

/// The most rows that one statement may ask for.
pub const MOST_ROWS: u32 = 1_000_000;

/// The greatest distance that `within` may name: more than that between any two points of the plane.
pub const MOST_WITHIN: u32 = (2 << COORDINATE_BITS) - 1;

/// The longest line, in bytes.
pub const LONGEST_LINE: usize = 8_192;
