//! The changes of a journal, carried out again on a store.
//!
//! A journal keeps what was accepted and no answers, so a replay makes the calls that made these answers: a `create`, a
//! `delete` or an `index` is one call of the store, and the rows of an `insert` or a `load` are decoded by the schema
//! that their relation has by then, and enter it all or none. The first record that is bad, and the first change that
//! the store doesn't take, end the replay. A record is made (`keeping`) before the store is asked, so that want of memory
//! comes first, and is appended once the store has accepted. Above: `line_exec`, `session`. Below: `sand_journal` for the records,
//! `tuple_codec` for rows, `sand_store` for the changes. Contracts see the world after a list of changes; read
//! `specs/ChangedDatabase.antt`, then `specs/Replayed.antt` and `specs/KeptBody.antt`.
//! Redo of a log of logical changes after C. Mohan and others, ARIES (1992).
#![tactic(auto)]

mod changes;
mod encoding;
mod fault;
mod keeping;
pub mod laws;
mod replaying;
mod rows;

pub use fault::ReplayFault;
pub use keeping::{record_of, record_of_rows};
pub use replaying::replay;
