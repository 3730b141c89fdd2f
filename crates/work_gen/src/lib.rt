//! The workload of a number: its lines, made one at a time, as a script that is read from a source; and the summary of its run.
//!
//! The workload of n makes two relations, fills each with n rows of numbers from a linear congruential generator, ranks the first from
//! n / 10 + 1 points and joins both. A line lies in a fixed buffer until it was read, with a line feed behind it, so that a reader of scripts
//! reads a workload like a file. It loads no file, so its run takes a shelf of empty files, which never fails. The text of its run isn't kept: a
//! sink takes it piece by piece, counts its bytes and feeds them to SHA-256 (`DigestSink`), or counts the lines besides that begin with
//! `refused` (`TallySink`). No call takes memory or fails. Above: `session`, which runs the workload. Below: `sand_base`, for the traits of
//! sources and sinks, `script_lines`, for how a script is cut into lines, and `sha2`.
//! Contracts see a `Workload` as the list of the lines that are left, a source as its bytes, and what a sink took as a relation. Read
//! `specs/Draws.antt` and `specs/Workload.antt`, then `specs/Script.antt`, then `specs/RefusedLines.antt` and `specs/Summary.antt`.
//!
//! Linear congruential generators after D. H. Lehmer (1951) and D. E. Knuth, The Art of Computer Programming, volume 2, section 3.2.1. The
//! digest after FIPS 180-4, Secure Hash Standard (2015).
#![tactic(auto)]

mod counted;
mod digest_sink;
mod drawn;
mod empty_shelf;
mod fed_line;
mod generator;
mod line;
mod script;
mod summary_text;
mod tally;
mod tally_sink;
mod work_source;
mod workload;

pub use counted::line_count;
pub use digest_sink::DigestSink;
pub use empty_shelf::EmptyShelf;
pub use summary_text::SummaryText;
pub use tally_sink::TallySink;
pub use work_source::WorkSource;
pub use workload::Workload;
