//! The lines of a script, pulled from its source one by one.
//!
//! The caller asks for the next line, so that whatever it holds between two lines (cursors that borrow the relations)
//! stays its own. Bytes come in pieces of 4,096, the longest line is reserved at the start, and no call takes memory.
//! Above: `session`. Below: `script_text` for the longest line, `sand_base` for `Source`. Contracts see the bytes that
//! were read and the lines of them that were given; read `specs/Lines.antt`, then `specs/Reading.antt`.
#![tactic(auto)]

mod chunk;
pub mod laws;
mod open_line;
mod script_lines;

pub use script_lines::{Found, ScriptLines};

/// The longest script, in bytes.
pub const LONGEST_SCRIPT: usize = 16_777_216;
