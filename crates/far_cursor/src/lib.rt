//! Rows farthest first: a quadtree in pages and a point, as a hierarchy under keys.
//!
//! A place is searched by an upper bound, the greatest distance of the point from its square. One idea: the key of a
//! distance is what it lacks to the diagonal of the plane, so the farthest has the least key, and the best-first search
//! gives the rows by falling distance as it gives others by rising distance. Above: `open_cursors`. Below:
//! `best_first` for the search, `rank_cursor` for what a place holds, `pmr_tree` for the quadtree in pages, `ring_geom`
//! for exact distances, `sand_store` for the catalog.
//! Contracts see the rows by falling distance; read `specs/Farthest.antt` first, then `specs/FarRanking.antt` and
//! `specs/FarAnswer.antt`.
//! After G. R. Hjaltason and H. Samet, Distance browsing in spatial databases (1999).
#![tactic(auto)]

mod as_hierarchy;
mod blocks;
mod column;
mod entries;
mod far;
mod far_tree;
mod keys;

pub use far::Far;
pub use far_tree::FarTree;
pub use keys::{gap_of, greatest};
