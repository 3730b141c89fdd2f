//! An R-tree in pages of a pool: rough shapes with their ids, under nested rectangles; and the rows of a column as one lists them.
//!
//! A leaf has members, each an id with a rough shape; an inner node has branches, each the least rectangle round a child
//! and that child's page. All leaves have one depth, and each node but the root has 50 to 126 entries in no order. A node
//! that is full is cut along the axis of the smaller perimeters, where its parts overlap least; a node that is short joins
//! another child of its parent, or shares with it. A tree of a list is built at once, part by part. Every rectangle is measured
//! anew where its node is written, so it is always the least. What a tree of a column lists is, in some order, the rows' ids with their rough
//! shapes, so a row enters and leaves it by its id and its shape.
//! Above: `sand_store`, which keeps such trees beside its files, `near_cursor`, which ranks rows by them, and `fault_tables`, which tries them.
//! Below: `page_pool`; `pmr_tree` for what a rough shape stands for, `ring_geom` for the rectangle round a polygon.
//! Contracts see a tree as the list of its members, in no order, and say which pages are its own. Read `specs/Tree.antt`
//! first, then `specs/Calls.antt` and `specs/Listing.antt`; `specs/Page.antt` has the two nodes byte by byte.
//! After A. Guttman, R-trees: a dynamic index structure for spatial searching (1984), and N. Beckmann and others, The R*-tree (1990).
#![tactic(auto)]

mod build;
mod cut;
mod entry;
mod hull;
mod insert;
mod join;
mod measure;
mod nearest;
mod node;
mod page;
mod remove;
mod rough;
mod rows;
mod store;
mod tree;

pub use entry::NodeEntry;
pub use node::{Branches, Members, TreeNode};
pub use rough::rough_shape;
pub use rows::{tree_of_rows, with_shape, without_shape};
pub use tree::RTree;
