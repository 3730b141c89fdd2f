//! What the names of a plan lead to in the catalog: the checks of a plan before a cursor of it is opened, and where its columns stand.
//!
//! The checks go from the innermost operator outwards and in one operator from left to right; the first that fails is the
//! refusal, and the number of operators comes last. They ask the catalog alone: no page is read and no memory taken. A name is
//! looked up once, when a cursor opens; what it leads to (a relation, the number of a column, an index) then reads values of rows, and ids of
//! rows by values. Above: `plan_sources`, `plan_stages`, `plan_ops` and `open_cursors`.
//! Below: `statements` for plans, `sand_store` for the catalog, `sand_model` for the checks themselves, `tuple_file` and `attr_index` for rows
//! and look-ups in pages.
//! Contracts see a plan as its tree, and the model's `value_at` and `column_values`; read `specs/OperatorCheck.antt` first, then
//! `specs/Spots.antt` and `specs/Equals.antt`.
#![tactic(auto)]

mod asked;
mod checks;
mod column;
mod column_spot;
pub mod laws;
mod look_up;
mod place;
mod row;
mod spot;

pub use checks::{check, check_depth, check_operators};
pub use column_spot::ColumnSpot;
pub use look_up::LookUp;
pub use place::relation_name;
pub use spot::Spot;

/// The most operators that a plan may have, its source included.
pub const MOST_OPERATORS: usize = 16;
