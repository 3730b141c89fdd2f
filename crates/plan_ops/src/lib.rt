//! Cursors over plans: the sources and stages of a plan put together, and asked for one row at a time.
//!
//! A plan that passed its checks becomes an operator: a source, and a stage for each operator over it, with all names
//! looked up in the catalog. No page is read for that. Above: `open_cursors`. Below: `plan_iterator` for the steps of a
//! cursor, the crates of sources and of stages, `plan_names` for the checks.
//! Contracts see the cursor of the model; read `specs/Openable.antt` first, then `specs/Running.antt`.
#![tactic(auto)]

mod columns;
mod operators;
mod places;
mod running;
mod source;
mod stage;
mod start_source;
mod start_stage;

pub use plan_iterator::{Answer, Stats};
pub use plan_names::check;
pub use running::Running;
pub use source::Source;
pub use stage::Stage;
