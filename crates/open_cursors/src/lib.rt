//! Statements that read, and the cursors that are open between them.
//!
//! The pages are lent, and nothing is written: a cursor is opened over a plan, gives its next rows, tells its numbers
//! and is closed; the first rows of a plan are shown; a quadtree's leaves are printed. All that a statement prints is
//! written, the line of a refusal among it. A cursor owns what it reads by and is found by its name; it holds a stamp
//! of the pool, so that it reads the pages of its opening whatever was written since. Above: `line_exec`, which carries
//! out any line. Below: `plan_names` and `plan_ops` for plans, `far_cursor` for rows farthest first, `row_output` for
//! rows, `statement_exec` for the lines with which statements end and for leaves, `sand_store` for the catalog.
//! Contracts see the cursors of the model that the open ones stand for; read `specs/OpenCursors.antt`, then
//! `specs/Steps.antt`, `specs/Carried.antt` and `specs/OverPages.antt`.
#![tactic(auto)]

mod closing;
mod ending;
mod farthest;
mod next_rows;
mod numbers;
mod open_checks;
mod open_cursor;
mod opening;
mod queries;
mod row_steps;
mod showing;
mod starting;

pub use ending::{end_cursors, end_statement};
pub use open_checks::MOST_CURSORS;
pub use open_cursor::OpenCursor;
pub use queries::read_statement;
