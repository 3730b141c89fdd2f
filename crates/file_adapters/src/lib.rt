//! The edge of the program: data files, a page file and a journal's file over the plain files of std, the source and
//! the sink over its readers and writers, and the outbox between these two.
//!
//! `FileShelf` is the shelf of a run, `ShellDisk` its disk: with a name it keeps the pages in that file, without one in
//! memory. `FileTape` is the file of a journal. `StdinSource` is where its script comes from, `StdoutSink` where its
//! answers go. Each call of std that fails is one counted fault. An `Outbox` gathers the answers that an `OutboxWriter` writes, and a `PromptReader` hands them
//! on before it reads more of the script. Above: `sand_shell`, whose `main` passes all of them to the top call. Below:
//! `sand_base`, `page_pool` and `sand_journal`, whose traits `Source`, `Sink`, `Shelf`, `Disk` and `Tape` carry the
//! contracts.
//! Contracts see what an opened file, a reader and a writer tell of their bytes (those of the system tell nothing) and
//! the counts of faults, of a disk the `DiskView`, and of an outbox what is gathered. Read `specs/Kept.antt` first.
#![tactic(auto)]

mod file_shelf;
mod file_tape;
mod kept;
mod outbox;
mod page_file;
mod shell_disk;
mod stdin_source;
mod stdout_sink;

pub use file_shelf::FileShelf;
pub use file_tape::FileTape;
pub use outbox::{Outbox, OutboxWriter, PromptReader};
pub use shell_disk::ShellDisk;
pub use stdin_source::StdinSource;
pub use stdout_sink::StdoutSink;
