ghost use Rattle.std.specs.Prelude.{◌≡◌, ◌≤◌, [], ◌++◌, Some};
ghost use Rattle.std.specs.Io.{ReadsAtMost};
ghost use Rattle.std.specs.Io.KnownBytes.{ReadConsumes};
ghost use Rattle.sand_base.specs.Faults.{HasCause};
ghost use Rattle.work_gen.specs.Workload.{workload};
ghost use Rattle.work_gen.specs.Script.{IsScriptOf, bytes_left, script_of};

use crate::Workload;
use crate::fed_line::Line;
use sand_base::{Failed, Source};

/// The lines of a workload, each with a line feed, as a source that never fails.
#[derive(Drop)]
pub struct WorkSource {
    workload: Workload,
    line: Line,
}

impl WorkSource {
    /// The script of the workload of n, before its first byte.
    pub fn new(n: u32) -> WorkSource
        requires least { 1 ≤ n }
        requires most { n ≤ 100000 }
        ensures left { bytes_left result ≡ script_of (workload n) }
        ensures script { IsScriptOf (workload n) (script_of (workload n)) }
    {
        WorkSource {
            workload: Workload::new(n),
            line: Line::new(),
        }
    }
}

// Where the line in hand was read whole, the next one comes in hand. No byte of it is left only after the last line.
fn fill_line(workload: &mut Workload, line: &mut Line)
    ensures left { line.new ++ script_of workload.new ≡ line.old ++ script_of workload.old }
    ensures end { line.new ≡ [] → workload.new ≡ [] }
{
    if line.is_empty()
        && let Some(next) = workload.next_line()
    {
        line.begin(next);
    }
}

impl Source for WorkSource {
    ghost left = { λ s. Some (bytes_left s) };

    ghost faults = { λ s. 0 };

    fn read(&mut self, piece: &mut [u8]) -> Result<usize, Failed>
        ensures bound { ReadsAtMost result piece.new }
        ensures bytes { ReadConsumes (Some (bytes_left self.old)) (Some (bytes_left self.new)) result piece.new }
        ensures cause { HasCause 0 0 result }
    {
        fill_line(&mut self.workload, &mut self.line);
        Ok(self.line.give(piece))
    }
}
