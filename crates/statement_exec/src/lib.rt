//! The statements that change relations or print leaves, carried out on a store.
//!
//! Each statement is one call: it makes one call of the store, or reads its pages, and its line is printed behind it. A
//! load is two calls, of which the first reads the file, so that a record that is no row is refused before any page is touched. `blocks`
//! finds leaf after leaf by its code and prints each before it looks for the next. Above: `open_cursors`, `line_exec`. Below:
//! `sand_store` for the relations, `csv_load` for data files, `output_text` for lines. Contracts see a moment: the
//! relations and open cursors with what the disk and the shelf tell and have counted. A clause says that a statement
//! led from one moment to another as the outcome of the model does, in every setting of the first. Read
//! `specs/Moment.antt` and `specs/Performing.antt` first, then `specs/Printing.antt` and `specs/Ending.antt`.
//! An executor of statements after M. M. Astrahan and others, System R (1976).
#![tactic(auto)]

mod answers;
mod column_blocks;
mod creating;
mod deleting;
mod file_rows;
mod indexing;
mod inserting;
mod leaf_tree;
mod leaves;
mod loading;
mod reply;
mod stop;

pub use answers::{end_with, finish, refuse};
pub use column_blocks::print_blocks;
pub use creating::create;
pub use deleting::delete;
pub use indexing::{index, rtree};
pub use inserting::insert;
pub use loading::{enter_rows, rows_to_load};
pub use reply::Reply;
use stop::Stop;
