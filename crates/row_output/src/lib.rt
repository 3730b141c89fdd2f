//! The rows of a cursor, printed to a sink.
//!
//! Each row's line is written before the next row is asked for, so a cursor that is refused, or a sink that fails, is
//! left just behind the rows that were given. Above: `open_cursors`. Below: `plan_iterator` for the steps of a cursor,
//! `output_text` for the lines. Contracts see the steps of the cursor of the model and the lines that they print; read
//! `specs/Printing.antt` first.
#![tactic(auto)]

mod next;
mod row;
mod rows;

pub use next::Next;
pub use row::print_row;
pub use rows::{Printed, print_rows};
