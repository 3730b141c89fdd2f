//! The distance join with k partners: of the rows of a distance join, nearest first, the first k of each left row.
//!
//! A best-first search gives the pairs in their order. A pair whose left row has had its k partners is passed over,
//! and a byte for each left id counts them. It ends once each left row has had as many as it can have, without a
//! further visit, or where the search ends. Above: `plan_sources`. Below: `best_first`, over any hierarchy and any
//! queue, and `semi_join` for answers as lists.
//! Contracts see the search as `best_first` has it, and the counts as `PartnerCounts`; read
//! `specs/PartnerCounts.antt` first, then `specs/Listed.antt` and `specs/Visits.antt`.
//! After G. Hjaltason and H. Samet, Incremental distance join algorithms for spatial databases (1998).
#![tactic(auto)]

mod knn;
mod next_partner;
mod partners;

pub use knn::{Knn, knn_laws};
