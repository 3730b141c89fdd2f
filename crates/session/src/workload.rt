// A workload in place of a script: its lines are run, and the sink gets a summary of their text.
ghost use Rattle.std.specs.Prelude.{◌≡◌, ◌≤◌, [], ℕ, List, Option, OnOk, OnErr, length};
ghost use Rattle.output_text.specs.Writing.{AddsPrefix};
ghost use Rattle.work_gen.specs.RefusedLines.{refused_lines};
ghost use Rattle.work_gen.specs.Summary.{summary};
ghost use Rattle.work_gen.specs.Taken.{HasTallied};
ghost use Rattle.sand_base.specs.Faults.{HasCause};
ghost use Rattle.sand_base.specs.Shelf.{Files};
ghost use Rattle.sand_base.specs.Streams.{Adds};
ghost use Rattle.sand_store.specs.Catalog.{IsLimits};
ghost use Rattle.script_lines.specs.Reading.{ReadsLines};
ghost use Rattle.work_gen.specs.Workload.{workload};
ghost use Rattle.session.specs.Ends.{IsCaused, IsTaken};
ghost use Rattle.session.specs.Outside.{outside_of};
ghost use Rattle.session.specs.Tallies.{Tallies, without_streams};
ghost use Rattle.session.specs.Workload.{EndsWorkload};

use crate::Status;
use crate::top::run_started;
use crate::workspace::Workspace;
use output_text::write_all;
use page_pool::Disk;
use run_words::Words;
use sand_base::{Failed, Limits, NoMemory, Sink};
use std::alloc::Global;
use work_gen::{EmptyShelf, TallySink, WorkSource, line_count};

// Writes the summary of a run over the lines of the workload, whose text was counted.
fn sum_up<K: Sink>(tally: TallySink, n: u32, out: &mut K) -> Result<(), Failed>
    ensures written { OnOk result ((text : List ℕ) → HasTallied tally text → Adds (K.took out.old) (K.took out.new) (summary (length (workload n)) (refused_lines text) text)) }
    ensures prefix { OnErr result ((text : List ℕ) → HasTallied tally text → AddsPrefix (K.took out.old) (K.took out.new) (summary (length (workload n)) (refused_lines text) text)) }
    ensures cause { HasCause (K.faults out.old) (K.faults out.new) result }
{
    let text = tally.summary(line_count(n));
    match write_all(out, text.as_bytes()) {
        Ok(()) => Ok(()),
        Err(Failed {}) => Err(Failed {}),
    }
}

// Runs the lines of the workload, and counts their text.
fn run_tallied<D: Disk>(
    alloc: Global,
    limits: Limits,
    asked: &Words,
    n: u32,
    held: &mut Workspace,
    disk: D,
) -> (Status, D, TallySink)
    requires one { 1 ≤ n }
    requires size { n ≤ 100000 }
    requires least { 16 ≤ asked.now.frames }
    requires most { asked.now.frames ≤ 4096 }
    requires limits { IsLimits limits }
    requires begun { (left : Option (List ℕ)) → ReadsLines held.old.lines left [] [] }
    requires none { held.old.cursors.items ≡ [] }
    ensures tallied { Tallies n result.0 limits (without_streams (D.seen disk)) (without_streams (D.seen result.1)) result.2 }
{
    let mut script = WorkSource::new(n);
    let mut shelf = EmptyShelf {};
    let mut tally = TallySink::new();
    let (status, disk) = run_started(
        alloc,
        limits,
        asked,
        held,
        &mut script,
        &mut shelf,
        disk,
        &mut tally,
    );
    (status, disk, tally)
}

/// Runs the lines of the workload of n on a store over the disk, and writes the summary of their text.
pub(crate) fn run_workload<D: Disk, K: Sink>(
    alloc: Global,
    limits: Limits,
    asked: &Words,
    n: u32,
    disk: D,
    out: &mut K,
) -> (Status, D)
    requires one { 1 ≤ n }
    requires size { n ≤ 100000 }
    requires least { 16 ≤ asked.now.frames }
    requires most { asked.now.frames ≤ 4096 }
    requires limits { IsLimits limits }
    ensures promise { (left : Option (List ℕ)) (reads : ℕ) (files : Option Files) (opens : ℕ)
        → EndsWorkload n result.0 limits (outside_of left reads files opens (D.seen disk) (K.took out.old) (K.faults out.old))
        (outside_of left reads files opens (D.seen result.1) (K.took out.new) (K.faults out.new)) }
    ensures cause { (reads : ℕ) → IsCaused result.0 reads reads (K.faults out.old) (K.faults out.new) }
    ensures taken { IsTaken result.0 }
{
    let mut held = match Workspace::new(alloc) {
        Ok(held) => held,
        Err(NoMemory {}) => return (Status::NoMemory, disk),
    };
    let (status, disk, tally) = run_tallied(alloc, limits, asked, n, &mut held, disk);
    held.close();
    match status {
        Status::Done | Status::SomeRefused => match sum_up(tally, n, out) {
            Ok(()) => (status, disk),
            Err(Failed {}) => (Status::WriteFault, disk),
        },
        _ => (status, disk),
    }
}
