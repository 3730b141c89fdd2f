//! Attribute indexes: rows' ids by the values of a column of ints or texts, in pages.
//!
//! An index is a tree whose keys are 96 bits of value and 32 bits of id, so that the entries of one value stand
//! side by side in the order of their ids, and those of ints in the order of the ints. A look-up is one step of
//! the tree: the least key from a bound on. A text is known by its first 12 bytes alone, and whoever looks it up
//! compares the row. Above: `sand_store`, `plan_names` and `plan_sources`. Below: `code_btree`, `page_pool`.
//! Contracts see an index as its list of (key, id) in order. Read `specs/Key.antt` and `specs/Entries.antt`
//! first, then `specs/Index.antt` and `specs/Calls.antt`.
//! Secondary indexes over a B+-tree after D. Comer (1979).
#![tactic(auto)]

mod index;
mod key;
pub mod laws;
mod place;

pub use index::AttrIndex;
pub use key::{AttrKey, key_of};
