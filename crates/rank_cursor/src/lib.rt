//! A quadtree in pages and a goal, as a hierarchy for the best-first search.
//!
//! One idea: a place of the tree is no farther from a goal than what lies in it, so the gaps of blocks are lower
//! bounds, and a row is listed in some leaf that is no farther than it. Above: `plan_sources`, `dist_join`. Below:
//! `best_first` for the search, `pmr_tree` for the quadtree in pages, `ring_geom` for exact distances and their
//! laws, `sand_model` for what a ranking is.
//! Contracts see the ranking that a tree stands for over pages; read `specs/Ranking.antt` first, then
//! `specs/Answers.antt` and `specs/Cursor.antt`.
//! After G. R. Hjaltason and H. Samet, Distance browsing in spatial databases (1999).
#![tactic(auto)]

mod as_hierarchy;
mod as_zero_hierarchy;
mod at_zero;
mod blocks;
mod entries;
mod laws;
mod rank_tree;

pub use laws::reach_laws;
pub use rank_tree::RankTree;
