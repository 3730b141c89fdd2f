//! A B+-tree in pages of a pool: a finite map from u128 to u128.
//!
//! A leaf page has pairs in the order of their keys and leads to the next leaf; an inner page has children, and
//! between two of them the least key under the second. A page that is full is cut in two, and the key between the
//! halves goes up; the first part of a leaf joins the leaf in front of it, where one page has room for both, so that
//! leaves fill up where keys come in order. A page that is short is joined with a neighbour, or gets one entry of it. A
//! run gives the pairs from a key on, one by one; the pairs of a key range are read leaf by leaf. Above: `pmr_tree`,
//! `tuple_file` and `attr_index`. Below: `page_pool`.
//! Contracts see a tree as its pairs in ascending order, and say which pages are its own. Read `specs/Tree.antt`
//! first, then `specs/Calls.antt` and `specs/Run.antt`; `specs/Node.antt` has the two pages byte by byte.
//! After R. Bayer and E. McCreight (1972); B+-trees after D. Comer (1979).
#![tactic(auto)]

mod between;
mod bytes;
mod chain;
mod inner;
mod insert;
mod join;
pub mod laws;
mod leaf;
mod leaf_run;
mod look;
mod map;
mod near;
mod remove;
mod split;
mod steps;
mod store;

pub use leaf_run::{Entry, PageRun, page_run};
pub use map::Tree;
pub use near::Near;
pub use steps::Run;
