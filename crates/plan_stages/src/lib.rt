//! The operators of plans as stages: what each does with the rows of the plan beneath it, sorts among them.
//!
//! A stage holds at most one row while it reads what the row leads to, so a refused call loses none. A sort takes all rows of the plan beneath
//! it, reads the key of each once, and then gives them in their order; it is stable, and a stable sort is unique, so what comes is the model's
//! sorted list. Above: `plan_ops`, which puts stages over sources. Below: `plan_iterator` for what a stage promises, `plan_names` for the values
//! at places of rows, `plan_iterator` for rows.
//! Contracts see the rows that a stage took and gave; read `specs/Splits.antt` first, then `specs/Keyed.antt` and `specs/Sorting.antt`.
#![tactic(auto)]

mod fetch;
mod filter;
mod first;
mod keyed;
mod keys;
mod matching;
mod probe;
mod row_sort;
mod sort_by;
mod sort_near;
mod tests;
mod values;

pub use fetch::Fetch;
pub use filter::Filter;
pub use first::First;
pub use keyed::Keyed;
pub use matching::Match;
pub use row_sort::RowSort;
pub use sort_by::SortBy;
pub use sort_near::SortNear;
pub use tests::SpotTest;
