//! Rows as bytes, and bytes as rows.
//!
//! A row is kept as the bytes of its values in the order of the columns, with no header: the schema says where
//! a value ends and the next one begins. So no code of a value is the beginning of another one's (a prefix
//! code), and a row is read from the front in one pass. Above: `tuple_file`, which keeps the bytes in pages.
//! Below: `sand_base`. Contracts see a row as the list of its values; read `specs/Encoding.antt` first, then
//! `specs/Decoding.antt`.
//!
//! On the layout of records in pages: H. Garcia-Molina, J. Ullman and J. Widom, Database Systems (2008).
#![tactic(auto)]

mod decoder;
mod encoder;
mod fault;
mod figures;
mod laws;
mod pass;
mod reader;
mod size;
mod text;
mod values;
mod write;

pub use decoder::{decode, decode_value};
pub use encoder::encode;
pub use fault::CodecFault;
pub use laws::rows_with_one_encoding_are_one;
pub use size::MOST_TUPLE_BYTES;
