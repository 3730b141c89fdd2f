// The next line of the script, or why there is none.
ghost use Rattle.std.specs.Prelude.{◌≡◌, IfErr};
ghost use Rattle.session.specs.RunStates.{Draws, IsEnd, ended, source_after_draw};

use crate::Status;
use sand_base::{Failed, Source};
use script_lines::{Found, ScriptLines};

/// The next line, and whether it is too long; or why there is none.
pub(crate) fn draw<S: Source>(lines: &mut ScriptLines, script: &mut S) -> Result<bool, Status>
    ensures draws { Draws result lines.old lines.new (S.left script.old) (S.left script.new) }
    ensures cause { S.faults script.new ≡ source_after_draw result (S.faults script.old) }
    ensures end { IfErr result IsEnd }
{
    match lines.next(script) {
        Ok(Found::Line) => Ok(false),
        Ok(Found::TooLong) => Ok(true),
        Ok(Found::End) => Err(Status::Done),
        Ok(Found::ScriptTooLong) => Err(Status::ScriptTooLong),
        Err(Failed {}) => Err(Status::ReadFault),
    }
}

/// The status of a run whose lines are over.
pub(crate) fn ended(status: Status, some_refused: bool) -> Status
    ensures { result ≡ ended status some_refused }
{
    match status {
        Status::Done if some_refused => Status::SomeRefused,
        _ => status,
    }
}
