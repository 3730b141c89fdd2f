//! Tuples of bytes by id, in slotted pages behind a tree from ids to places.
//!
//! A file is plain numbers: its tree leads from an id to the page and the slot of the tuple, and the newest page
//! takes tuples in until one doesn't fit. Nothing is moved within a page, so a place holds as long as its tuple.
//! Which pages are the file's isn't kept: they are those to which an id leads. So a page whose last tuple is taken
//! is freed at once. Above: `sand_store`. Below: `code_btree`, `page_pool` and `tuple_codec`.
//! Contracts see a file as its list of (id, bytes), and say which pages are its own. Read `specs/Rows.antt` and
//! `specs/File.antt` first, then `specs/Calls.antt`; `specs/Page.antt` has the page byte by byte, `specs/Spans.antt`
//! where tuples lie, as far as it is known without the tree.
//! Slotted pages and tuple ids after M. M. Astrahan and others, System R (1976).
#![tactic(auto)]

mod file;
pub mod laws;
mod page;
mod place;
mod row;
mod span;
mod spans;
mod steps;
mod store;

pub use file::TupleFile;
pub use span::Span;
pub use spans::Spans;
