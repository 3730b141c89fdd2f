//! The statements of the script language and their plans, as values.
//!
//! A statement is what a line of a script says; a plan says which answers a query gives, and in which order: a source at
//! the innermost place, and operators round it. Names are labels, a plan inside another stands in a box. Above:
//! `sand_model`, which says what statements and plans mean, and `script_text`, which reads and prints them. Below:
//! `sand_base`. Contracts see both as trees without pointers, their names as lists of bytes; read `specs/Plan.antt`, then
//! `specs/Statement.antt`.
#![tactic(auto)]

mod column;
mod copy;
mod lists;
mod plan;
mod statement;
mod test;

pub use column::{Column, Place};
pub use lists::{Places, Tests};
pub use plan::Plan;
pub use statement::Statement;
pub use test::{Op, Test};
