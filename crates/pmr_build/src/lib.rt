//! A PMR quadtree of many rows at once.
//!
//! What a tree becomes depends, inside a block, on the ids that meet the block alone, in their order: a block is
//! divided by the first id that its leaf has no room for, and each child begins with those that met it then. So the
//! tree of ascending ids is built block by block from the root down, over lists, and its entries come out in the order
//! of their keys, for a B+-tree that is built from them. Above: `sand_store`. Below: `pmr_tree` for the tree and its
//! keys, `code_btree` for the pages.
//! Contracts see the tree as a value; read `specs/Bulk.antt` first, then `specs/Calls.antt`.
//! After R. C. Nelson and H. Samet (1986); bulk loading of quadtrees after G. R. Hjaltason and H. Samet (2002).
#![tactic(auto)]

mod divide;
mod enter;
mod entries;
mod leaf;
mod met;
mod quadtree;

pub use quadtree::build;
