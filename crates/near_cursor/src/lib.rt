//! An R-tree in pages and a goal, as a hierarchy for the best-first search.
//!
//! One idea: the rectangle of a node is the least round all that it lists, so its gap from a goal is a lower bound, and
//! each row is listed in one leaf. Above: `plan_sources`. Below: `best_first` for the search, `r_tree` for
//! the tree in pages, `ring_geom` for exact distances, `rank_cursor` for what a ranking gives.
//! Contracts see the ranking that a tree stands for over pages; read `specs/TreeNodes.antt` first, then
//! `specs/NearRanking.antt` and `specs/NearLaws.antt`.
//! After N. Roussopoulos and others, Nearest neighbor queries (1995), and G. R. Hjaltason and H. Samet, Distance
//! browsing in spatial databases (1999).
#![tactic(auto)]

mod as_hierarchy;
mod figures;
mod items;
mod near_tree;
mod visit;

pub use near_tree::NearTree;
