// Where a workload stands, and the line that comes next.
ghost use Rattle.std.specs.Prelude.{◌≡◌, ◌≤◌, true, [], ◌∷◌, length, MatchBool};

use crate::drawn::{write_filter, write_point, write_rank, write_segment};
use crate::generator::Generator;
use crate::line::Line;

// Which line comes next. A number is how many turns of its sort come after this one.
#[derive(Clone, Copy)]
pub(crate) enum Stage {
    CreatePoints,
    CreateSegments,
    IndexPoints,
    IndexSegments,
    Point(u32),
    Segment(u32),
    Rank(u32),
    Filter(u32),
    Open,
    Next,
    Stats,
    Close,
    Over,
}

// The number of turns of inserts, what comes next, and the generator of its numbers.
#[derive(Drop)]
pub(crate) struct Script {
    pub(crate) turns: u32,
    pub(crate) stage: Stage,
    pub(crate) generator: Generator,
    ghost some: { 1 ≤ turns },
}

impl Script {
    ghost use Rattle.work_gen.specs.Workload.{workload};
    ghost use Rattle.work_gen.specs.Progress.{lines_left};

    // Before the first line.
    pub(crate) fn new(turns: u32) -> Script
        requires { 1 ≤ turns }
        ensures { lines_left result ≡ workload turns }
    {
        Script {
            turns,
            stage: Stage::CreatePoints,
            generator: Generator { state: turns },
        }
    }

    // The next line, or false after the last one.
    pub(crate) fn write_next(&mut self, line: &mut Line) -> bool
        ensures { MatchBool result
            (lines_left self.old ≡ line.new ∷ lines_left self.new)
            ((lines_left self.old ≡ []) × (lines_left self.new ≡ [])) }
    {
        match self.stage {
            Stage::CreatePoints => self.fixed(
                line,
                "create p (at point, pop int)",
                Stage::CreateSegments,
            ),
            Stage::CreateSegments => self.fixed(line, "create s (way segment)", Stage::IndexPoints),
            Stage::IndexPoints => self.fixed(line, "index p.at", Stage::IndexSegments),
            Stage::IndexSegments => self.fixed(line, "index s.way", Stage::Point(self.turns - 1)),
            Stage::Open => self.fixed(line, "open j = semi p.at s.way", Stage::Next),
            Stage::Next => self.fixed(line, "next j 100", Stage::Stats),
            Stage::Stats => self.fixed(line, "stats j", Stage::Close),
            Stage::Close => self.fixed(line, "close j", Stage::Over),
            Stage::Over => false,
            Stage::Point(later) => {
                write_point(&mut self.generator, line);
                self.stage = Stage::Segment(later);
                true
            }
            Stage::Segment(later) => {
                write_segment(&mut self.generator, line);
                self.stage = match later {
                    0 => Stage::Rank(self.turns / 10),
                    _ => Stage::Point(later - 1),
                };
                true
            }
            Stage::Rank(later) => {
                write_rank(&mut self.generator, line);
                self.stage = Stage::Filter(later);
                true
            }
            Stage::Filter(later) => {
                write_filter(&mut self.generator, line);
                self.stage = match later {
                    0 => Stage::Open,
                    _ => Stage::Rank(later - 1),
                };
                true
            }
        }
    }

    // A line that is always the same, and what comes after it.
    fn fixed(&mut self, line: &mut Line, text: &str, next: Stage) -> bool
        requires { length text.now ≤ 80 }
        ensures there { result ≡ true }
        ensures text { line.new ≡ text.now }
        ensures stage { self.new.stage ≡ next }
        ensures turns { self.new.turns ≡ self.old.turns }
        ensures generator { self.new.generator ≡ self.old.generator }
    {
        line.begin(text);
        self.stage = next;
        true
    }
}
