//! One line of a script, carried out on a store and beside the cursors that are open.
//!
//! Each line goes one way, whether cursors are open or not. A statement that changes relations is one call of the store,
//! which leaves the pages that open cursors read by their stamps; any other has the pages lent to it for its own length,
//! so that between two lines the store is whole. All that a line prints is written, the line of a refusal among it, and after a refusal all is as it
//! was. Above: `session`, which draws the lines from the script. Below: `line_meaning` for what a line says,
//! `statement_exec` for changes, `open_cursors` for statements that read. Contracts see the moment beside the open
//! cursors of the model; read `specs/LineCarried.antt`, then `src/line.rt`.
//! One executor for each kind of statement after M. M. Astrahan and others, System R (1976).
#![tactic(auto)]

mod changed;
mod changes;
mod fault;
mod keeping;
mod line;
mod loads;
mod statement;

pub use fault::LineFault;
pub use keeping::of_sink;
pub use line::carry_line;
