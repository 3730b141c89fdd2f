//! What one line of a script says, and what lines do to the state that they find.
//!
//! A line is read as a statement of the language, is passed over, or is refused by what it says. Carried out, it leads
//! from one moment to another as the model's line does, and lines one after the other as a run of the model does; here is
//! what that means, and that one more line makes a run of one line more. Above: `open_cursors` and `line_exec`, which
//! carry lines out, `run_laws` and `session`. Below: `script_text` for statements, `plan_names` for plans as the
//! model's, `statement_exec` for what statements do. Contracts see a line as its bytes, and what it says as a relation;
//! read `specs/Spoken.antt` first, then `specs/ShelfRun.antt`, `specs/Said.antt` and `specs/Carrying.antt`.
#![tactic(auto)]

mod reading;

pub use reading::read_line;
