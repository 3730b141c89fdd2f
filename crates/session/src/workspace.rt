ghost use Rattle.std.specs.Prelude.{◌≡◌, [], ℕ, List, IfOk, Option};
ghost use Rattle.script_lines.specs.Reading.{ReadsLines};

use open_cursors::{MOST_CURSORS, OpenCursor, end_cursors};
use plan_ops::{Source, Stage};
use sand_base::NoMemory;
use script_lines::ScriptLines;
use std::alloc::Global;

/// What a run holds beside its store: the reader of its lines, and room for the cursors that may be open. Its memory is
/// taken before the first statement, so that no cursor is refused for want of room in the list.
pub(crate) struct Workspace {
    pub(crate) lines: ScriptLines,
    pub(crate) cursors: Vec<OpenCursor<Source, Stage>>,
}

impl Workspace {
    /// Nothing is read, and no cursor is open.
    pub(crate) fn new(alloc: Global) -> Result<Workspace, NoMemory>
        ensures begun { IfOk result (λ w. (left : Option (List ℕ)) → ReadsLines w.lines left [] []) }
        ensures none { IfOk result (λ w. w.cursors.items ≡ []) }
    {
        let lines = ScriptLines::new(alloc)?;
        let cursors = Vec::with_capacity(alloc, MOST_CURSORS)?;
        Ok(Workspace { lines, cursors })
    }

    /// Ends the cursors that are open, and the reader.
    pub(crate) fn close(self) {
        let Workspace { lines: _, cursors } = self;
        end_cursors(cursors);
    }
}
