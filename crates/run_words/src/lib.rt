//! The words of the command line: how many frames, which page file, and which workload.
//!
//! A command of the crate `clap` with three options of one value each decides which words are taken; it has no arguments
//! by place, and neither help nor a version. The numbers of accepted words are read once, and lie in their ranges.
//! Above: `session`. Below: `sand_base`, for a word as a `Label`, and `clap`, whose own definition says what a simple command
//! makes of the words. Contracts see a word as the list of its bytes; read `specs/Command.antt`, then `specs/Asked.antt`.
#![tactic(auto)]

mod asked;
mod command;
pub mod laws;
mod matching;
mod numbers;
mod reading;

pub use asked::{KeptWords, WordFault, Words};
pub use reading::{read_kept_words, read_words};

/// How many frames there are where the words don't say.
pub const PLAIN_FRAMES: u32 = 256;
