//! The distance semi-join: of the rows of a distance join, nearest first, the first one of each left row.
//!
//! A best-first search gives the pairs in their order. It is asked for the left rows that wait alone, so that a pair whose
//! left row was given is not queued, or passed over where it is; a bit for each left id says which was. It ends once every
//! left row was given, without a further visit, or where the search ends. Above: `plan_sources`. Below: `best_first`, over
//! any hierarchy and any queue.
//! Contracts see the search as `best_first` has it, and the left rows as `LeftRows`; read `specs/LeftRows.antt`
//! first, then `specs/FirstPairs.antt` and `specs/Visits.antt`.
//! After G. Hjaltason and H. Samet, Incremental distance join algorithms for spatial databases (1998).
#![tactic(auto)]

mod lefts;
mod next_pair;
mod semi;

pub use semi::Semi;
