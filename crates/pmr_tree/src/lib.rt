//! The PMR quadtree (polygonal-map, random) in pages, as the entries of its leaves.
//!
//! A tree is kept as its leaves alone: a key for each listed id, in the order of Morton codes, so that a
//! leaf is one range of keys and an inner place has none of its own. Growing, splitting and merging are then
//! keys taken and put inside the range of a block, with all else untouched. Above: `rank_cursor` and `dist_join`, which
//! search it, and `sand_store`, which changes it. Below: `code_btree` for the entries, `z_code` for blocks and
//! `sand_model` for the tree as a value.
//! Contracts see the tree as a value, over the pages in which it lies; read `specs/Quadtree.antt` first, then
//! `specs/Calls.antt`.
//! After R. C. Nelson and H. Samet (1986); linear quadtrees after I. Gargantini (1982).
#![tactic(auto)]

mod change;
mod code_leaf;
mod enter;
mod fault;
mod fill;
mod ground;
mod grow;
pub mod laws;
mod leaf;
mod leave;
mod listed;
mod no_shapes;
mod part;
mod plot;
mod quadtree;
mod range;
mod shapes;
mod shrink;
mod split;
mod start;
mod union;
mod value;

pub use code_btree::Near;
pub use fault::PmrFault;
use ground::Ground;
use leaf::Kept;
pub use listed::{LeafList, Listed, Node, listed_of};
pub use quadtree::Pmr;
pub use shapes::ShapeOf;
