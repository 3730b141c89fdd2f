//! The lines of the program's output, written to a sink.
//!
//! `write_line` writes one line, `write_all` a text of bytes. A line has no greatest length (a row may have a thousand
//! places), so its parts go to the sink as they come, and no memory is taken; small parts are joined in a fixed buffer,
//! so that a plain row is one write. Above: `session`. Below: `sand_model` for what a line's text is, `exact_frac` for gaps,
//! `z_code` for the corners of leaves, `sand_base` for values and sinks. Contracts see a `LineRef` as the line of the model
//! that it stands for. Read `specs/Line.antt` first, then `specs/Writing.antt`; `specs/Forming.antt` is for the proofs alone.
#![tactic(auto)]

mod line;
mod pending;
mod print;
mod rows;
mod shapes;
mod short_rows;
mod sinks;

pub use line::LineRef;
pub use print::write_line;
pub use sinks::write_all;
