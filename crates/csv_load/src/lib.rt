//! The rows of a data file: records of comma-separated fields, each field read by the kind of its column.
//!
//! A file is read whole from a shelf (`read_file`), and its bytes are then read as rows of a schema, record by record
//! (`rows_of`): the first record that is no row refuses the file, with its leftmost bad column. Above: `statement_exec`,
//! which enters the rows. Below: `sand_base`, `script_text` for the fields, and the crate `csv`, whose own definition says what the
//! records of some bytes are. Contracts see a file as its bytes and a row as the list of its values; read
//! `specs/FieldValue.antt` first, then `specs/FileRows.antt`.
//!
//! The format after Y. Shafranovich, Common Format and MIME Type for Comma-Separated Values, RFC 4180 (2005), as `csv` reads it.
#![tactic(auto)]

mod fault;
mod file;
mod laws;
mod records;
mod row;
mod rows;

pub use fault::LoadFault;
pub use file::read_file;
pub use laws::{fields_have_one_value, rows_of_a_file_fit_its_schema};
pub use rows::rows_of;

/// The longest data file, in bytes.
pub const LONGEST_FILE: usize = 67_108_864;
