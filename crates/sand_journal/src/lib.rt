//! A journal: records on a tape that may crash at any moment.
//!
//! A record stands behind a gate byte that is opened, by a write of its own, only once the record and the shut gate behind it
//! are durable (`steps`, `journal`). So whatever a crash leaves of a torn write counts for nothing, and no checksum is trusted.
//! A journal is read from the front, up to the first gate that isn't open (`ahead`), and each body as a change (`read_change`);
//! `write_change` makes the body of a change. `Tape` is the file, with its crash model as
//! ghost members: what a crash now may leave, and what one since an earlier moment might have left; `MemTape` is one in
//! memory. Above: `fault_tables`, its tables. Below: `sand_base`, and `script_text` for the bodies of changes.
//! Contracts see a tape as a `TapeView` and a record as the bytes of its body; read `specs/Tape.antt`, `specs/Images.antt` and
//! `specs/Journal.antt` first.
//! Write-ahead logging after J. Gray and A. Reuter (1993), with a commit byte in the place of a checksum.
#![tactic(auto)]

mod ahead;
mod change;
mod fault;
mod gate;
mod journal;
mod laws;
mod mem_tape;
mod read_change;
mod read_line;
mod read_name;
mod read_rows;
mod record;
mod steps;
mod tape;
mod tape_call;
mod write_change;

pub use change::{Change, Encodings};
pub use fault::JournalFault;
pub use journal::Journal;
pub use laws::{
    a_body_has_one_change, an_image_has_one_list_of_bodies, an_image_has_the_first_changes,
};
pub use mem_tape::MemTape;
pub use record::Record;
pub use tape::Tape;

/// The longest encoding of a row, in bytes.
pub const LONGEST_ENCODING: usize = 3_900;
