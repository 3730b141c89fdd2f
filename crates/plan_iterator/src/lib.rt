//! Plans as operators that are pulled (demand-pull): they are asked for one row at a time, and a cursor asks until one comes.
//!
//! A plan is a source and stages over it, one for each operator. A source gives the rows of its plan's from-scratch list one
//! by one, and after each call its visits are counted exactly as far as the rows reach; operators use nothing else of it. A step of an operator asks the one beneath it at most
//! once and has no loop: it gives a row, or only comes nearer to one, or finds the end. A stage works in the same step on
//! a row that it takes, where it can. So nothing is taken ahead, and after a refusal no row is lost, and a step may be
//! made again. A cursor makes steps until one gives a row or the end, so each of its calls is one step of the cursor of the model: the same
//! row, and the same counts. Above: `plan_sources`, `plan_stages`, `plan_ops`, `row_output` and `open_cursors`.
//! Below: `sand_model` for what a source's list and its counts are, `page_pool` for the desk that it reads through, `r_tree`
//! for what the page of a node tells.
//! Contracts see a row as `row_of` says, the rows that each operator took and gave, that page gets are paid, and the cursor of the model over
//! the pages; read `specs/Rows.antt` first, then `specs/SourceSteps.antt`; for operators
//! `specs/Outermost.antt`, then `specs/Stages.antt`, `specs/Sifts.antt`, `specs/Following.antt`, `specs/Steps.antt` and `specs/Paying.antt`; for
//! cursors `specs/CursorStep.antt`, `specs/Standing.antt`, and `specs/PaidCalls.antt` for what a call costs in page gets.
//! After G. Graefe, Query evaluation techniques for large databases (1993).
#![tactic(auto)]

mod advance;
mod answer;
mod below;
mod cursor;
mod operator;
mod row_source;
mod row_stage;
mod sifted;
mod stats;
mod step;
mod take_row;

pub use answer::Answer;
pub use cursor::RowCursor;
pub use operator::{Operator, Over};
pub use row_source::RowSource;
pub use row_stage::RowStage;
pub use sifted::Sifted;
pub use stats::{SourceCounts, Stats};
pub use step::Step;
