//! Relations with their rows, indexes and R-trees in the pages of one pool, changed all or nothing.
//!
//! A store is a catalog, plain numbers in memory that lead to pages, and the pool that has the pages. Each writing call
//! is one command of the pool: it makes the numbers of the changed relation anew beside the old ones, and the catalog
//! takes them over once the command is committed. So a refusal aborts, and everything is as it was. For reading, a store
//! is parted into its catalog and a desk. Above: `plan_names` and the sources of plans, `statement_exec` and `session`.
//! Below: `tuple_file`, `pmr_tree`, `r_tree`,
//! `attr_index`, `page_pool`.
//! Contracts see the database for which catalog and pages stand; read `specs/Catalog.antt` and `specs/Contents.antt`
//! first, then `specs/Standing.antt` and `specs/Calls.antt`.
//! Catalogs and access paths after P. G. Selinger and others, System R (1979).
#![tactic(auto)]

mod admit;
mod catalog;
mod column;
mod create;
mod delete;
mod grow;
mod index;
mod insert;
pub mod laws;
mod load;
mod path;
mod refusal;
mod relation;
mod rtree;
mod shapes;
mod shrink;
mod store;
mod trees;
mod whole_tree;

pub use catalog::Catalog;
pub use column::FileShapes;
pub use path::AccessPath;
pub use relation::Relation;
pub use store::Store;
