ghost use Rattle.std.specs.Prelude.{◌≡◌, ◌≤◌, [], ◌∷◌, drop, length, IfSome, MatchOption};
ghost use Rattle.std.specs.Borrow.{sem};
ghost use Rattle.std.specs.Io.BufRead.{Rests};

use crate::line::Line;
use crate::script::Script;
use std::marker::Model;

/// The lines of a large script, made one at a time and without memory. Contracts see the lines that are left.
#[derive(Drop)]
pub struct Workload {
    script: Script,
    line: Line,
}

impl Model for Workload {
    ghost use Rattle.std.specs.Prelude.{List, ℕ};
    ghost use Rattle.work_gen.specs.Progress.{lines_left};

    ghost Value = { List (List ℕ) };

    ghost view = { λ workload. lines_left workload.script };
}

impl Workload {
    ghost use Rattle.work_gen.specs.Workload.{workload};
    ghost use Rattle.work_gen.specs.contracts.workload.Workload.{the_row};

    /// The workload of n, before its first line.
    pub fn new(n: u32) -> Workload
        requires least { 1 ≤ n }
        requires most { n ≤ 100000 }
        ensures { result ≡ workload n }
    {
        Workload {
            script: Script::new(n),
            line: Line::new(),
        }
    }

    /// The next line, or None after the last one.
    pub fn next_line(&mut self) -> Option<&[u8]>
        ensures line { MatchOption result (self.old ≡ []) (λ line. self.old ≡ line.now ∷ drop 1 self.old) }
        ensures short { IfSome result (λ line. length line.now ≤ 80) }
        ensures* after { sem 𝓛 (Rests the_row self.entry (λ new. new ≡ drop 1 self.old)) }
    {
        if !self.script.write_next(&mut self.line) {
            return None;
        }
        Some(self.line.as_bytes())
    }
}
