//! The top call: a script is read, its statements are carried out in order, and their lines are written.
//!
//! The promise of the whole system is the contract of `run`: however the lines go, what is written is the text of a run
//! over the lines of the script, each carried out on the relations as they stood. A run goes through these states:
//!
//! ```text
//! not started --run_within, run_asked, start--> between two lines --draw--> a line in hand --carry_hand--> between two lines
//!                                               between two lines --draw, at the end or a fault--> ended
//!                                               a line in hand --carry_hand, where the sink fails--> ended
//! ```
//!
//! Above: `sand_shell`, which passes the real streams. Below: `script_lines` for lines, `line_exec` for what one line
//! does, `sand_store` for the relations, `open_cursors` for the list of cursors, `run_words` for the words of the command
//! line, `work_gen` for a workload that runs in place of the script. Contracts see what is outside
//! as one record before the run and one after it. Read `specs/Outside.antt` first, then `specs/Ends.antt` and
//! `specs/Workload.antt`; `specs/RunStates.antt`, `specs/OpenRun.antt` and `specs/Tallies.antt` are for the proofs alone.
#![tactic(auto)]

mod drawing;
mod kept;
mod laws;
mod script;
mod start;
mod status;
mod top;
mod workload;
mod workspace;

pub use kept::run_kept;
pub use laws::no_run_begins_behind_a_bad_record;
pub use status::Status;
pub use top::{run, run_within};
