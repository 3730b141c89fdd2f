//! Two quadtrees as a hierarchy of pairs of places, for the best-first search.
//!
//! One idea: two places are no farther apart than what lies in them, so the gaps of pairs of squares are lower
//! bounds, and each pair of rows is listed in some pair of leaves that is no farther apart than they. Above:
//! `plan_sources`. Below: `best_first` for the search, `rank_cursor` for the places of one
//! quadtree, `ring_geom` for exact distances and their laws, `sand_model` for what a join is.
//! Contracts see the join that two trees stand for over pages; read `specs/Joining.antt` first, then
//! `specs/Answers.antt`, `specs/Laws.antt` and `specs/OverPages.antt`.
//! After G. R. Hjaltason and H. Samet, Incremental distance join algorithms for spatial databases (1998).
#![tactic(auto)]

mod as_hierarchy;
mod blocks;
mod entries;
mod figures;
mod laws;
mod looks;
mod pair_tree;
mod places;
mod room;

pub use laws::join_laws;
pub use pair_tree::PairTree;
