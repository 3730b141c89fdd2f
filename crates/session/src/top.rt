ghost use Rattle.std.specs.Prelude.{◌≡◌, ◌≤◌, ◌^◌, [], Option, ℕ, List, IfSome, is_some};
ghost use Rattle.line_exec.specs.Keeping.{TakesUpTo, tape_count};
ghost use Rattle.open_cursors.specs.OpenCursors.{AreHeld};
ghost use Rattle.page_pool.specs.Pool.{new_pool};
ghost use Rattle.sand_journal.specs.ChangeBody.{ChangeValue};
ghost use Rattle.sand_model.specs.Cursor.{State};
ghost use Rattle.sand_store.specs.Catalog.{IsLimits, new_catalog};
ghost use Rattle.sand_store.specs.Contents.{database};
ghost use Rattle.script_lines.specs.Reading.{ReadsLines};
ghost use Rattle.session.specs.Ends.{AreJudged, Ends, HasBegun, IsCaused, IsTaken, standard_limits, tape_after};
ghost use Rattle.session.specs.KeptRun.{EndsKeeping};
ghost use Rattle.session.specs.KeptTape.{ShowsIfAny};
ghost use Rattle.session.specs.Outside.{outside_of};
ghost use Rattle.statement_exec.specs.Moment.{moment_of, state_with};
ghost use Rattle.session.specs.Workload.{EndsAsked, workload_of};

use crate::Status;
use crate::script::carry_script;
use crate::start::start;
use crate::workload::run_workload;
use crate::workspace::Workspace;
use page_pool::Disk;
use run_words::{WordFault, Words, read_words};
use sand_base::{Label, Limits, NoMemory, Shelf, Sink, Source};
use sand_journal::{Journal, MemTape, Tape};
use sand_store::Store;
use std::alloc::Global;

/// Carries the script out on a store, which a journal keeps where there is one, and hands the disk back.
pub(crate) fn run_from<S: Source, H: Shelf, D: Disk, K: Sink, T: Tape>(
    alloc: Global,
    store: Store<D>,
    held: &mut Workspace,
    script: &mut S,
    shelf: &mut H,
    out: &mut K,
    journal: &mut Option<Journal<T>>,
) -> (Status, D)
    requires begun { (left : Option (List ℕ)) → ReadsLines held.old.lines left [] [] }
    requires none { held.old.cursors.items ≡ [] }
    requires held { AreHeld store.pool.stamps held.old.cursors.items }
    requires journal { TakesUpTo T.seen (2 ^ 62) journal.old }
    ensures promise { (last : State) × (kept : Option (List ChangeValue)) × (untold : Option (List ChangeValue))
        × EndsKeeping (state_with [] (database store)) last kept untold result.0 store.catalog.limits
        (outside_of (S.left script.old) (S.faults script.old) (H.files shelf.old) (H.faults shelf.old) store.pool.disk (K.took out.old) (K.faults out.old))
        (outside_of (S.left script.new) (S.faults script.new) (H.files shelf.new) (H.faults shelf.new) (D.seen result.1) (K.took out.new) (K.faults out.new))
        × ShowsIfAny T.seen journal.old journal.new result.0 (moment_of store (H.files shelf.old) (H.faults shelf.old)) last kept untold }
    ensures cause { IsCaused result.0 (S.faults script.old) (S.faults script.new) (K.faults out.old) (K.faults out.new) }
    ensures told { (D.seen result.1).told ≡ store.pool.disk.told }
    ensures there { is_some journal.new ≡ is_some journal.old }
    ensures tape { tape_count T.seen journal.new ≡ tape_after result.0 (tape_count T.seen journal.old) }
    ensures begun { HasBegun result.0 }
{
    let (store, status) = carry_script(
        alloc,
        store,
        &mut held.cursors,
        &mut held.lines,
        script,
        shelf,
        out,
        journal,
    );
    (status, store.into_disk())
}

// Carries the script out on a store of no relations, whose changes no journal keeps, and hands the disk back.
fn run_store<S: Source, H: Shelf, D: Disk, K: Sink>(
    alloc: Global,
    store: Store<D>,
    held: &mut Workspace,
    script: &mut S,
    shelf: &mut H,
    out: &mut K,
) -> (Status, D)
    requires begun { (left : Option (List ℕ)) → ReadsLines held.old.lines left [] [] }
    requires none { held.old.cursors.items ≡ [] }
    requires empty { store ≡ record { catalog = new_catalog store.catalog.limits; pool = new_pool store.pool.disk store.pool.frames } }
    ensures promise { Ends result.0 store.catalog.limits
        (outside_of (S.left script.old) (S.faults script.old) (H.files shelf.old) (H.faults shelf.old) store.pool.disk (K.took out.old) (K.faults out.old))
        (outside_of (S.left script.new) (S.faults script.new) (H.files shelf.new) (H.faults shelf.new) (D.seen result.1) (K.took out.new) (K.faults out.new)) }
    ensures cause { IsCaused result.0 (S.faults script.old) (S.faults script.new) (K.faults out.old) (K.faults out.new) }
    ensures begun { HasBegun result.0 }
{
    let mut none: Option<Journal<MemTape>> = None;
    run_from(alloc, store, held, script, shelf, out, &mut none)
}

/// Starts the store over the disk, and carries the script out on it.
pub(crate) fn run_started<S: Source, H: Shelf, D: Disk, K: Sink>(
    alloc: Global,
    limits: Limits,
    asked: &Words,
    held: &mut Workspace,
    script: &mut S,
    shelf: &mut H,
    disk: D,
    out: &mut K,
) -> (Status, D)
    requires least { 16 ≤ asked.now.frames }
    requires most { asked.now.frames ≤ 4096 }
    requires limits { IsLimits limits }
    requires begun { (left : Option (List ℕ)) → ReadsLines held.old.lines left [] [] }
    requires none { held.old.cursors.items ≡ [] }
    ensures promise { Ends result.0 limits (outside_of (S.left script.old) (S.faults script.old) (H.files shelf.old) (H.faults shelf.old) (D.seen disk) (K.took out.old) (K.faults out.old))
        (outside_of (S.left script.new) (S.faults script.new) (H.files shelf.new) (H.faults shelf.new) (D.seen result.1) (K.took out.new) (K.faults out.new)) }
    ensures cause { IsCaused result.0 (S.faults script.old) (S.faults script.new) (K.faults out.old) (K.faults out.new) }
    ensures taken { IsTaken result.0 }
{
    match start(alloc, disk, asked, limits) {
        Ok(store) => run_store(alloc, store, held, script, shelf, out),
        Err((status, disk)) => (status, disk),
    }
}

/// What the words ask for.
pub(crate) fn run_asked<S: Source, H: Shelf, D: Disk, K: Sink>(
    alloc: Global,
    limits: Limits,
    asked: &Words,
    script: &mut S,
    shelf: &mut H,
    disk: D,
    out: &mut K,
) -> (Status, D)
    requires least { 16 ≤ asked.now.frames }
    requires most { asked.now.frames ≤ 4096 }
    requires size { IfSome asked.now.workload (λ n. (1 ≤ n) × (n ≤ 100000)) }
    requires limits { IsLimits limits }
    ensures promise { EndsAsked asked.now.workload result.0 limits
        (outside_of (S.left script.old) (S.faults script.old) (H.files shelf.old) (H.faults shelf.old) (D.seen disk) (K.took out.old) (K.faults out.old))
        (outside_of (S.left script.new) (S.faults script.new) (H.files shelf.new) (H.faults shelf.new) (D.seen result.1) (K.took out.new) (K.faults out.new)) }
    ensures cause { IsCaused result.0 (S.faults script.old) (S.faults script.new) (K.faults out.old) (K.faults out.new) }
    ensures taken { IsTaken result.0 }
{
    if let Some(n) = asked.workload {
        return run_workload(alloc, limits, asked, n, disk, out);
    }
    let mut held = match Workspace::new(alloc) {
        Ok(held) => held,
        Err(NoMemory {}) => return (Status::NoMemory, disk),
    };
    let ended = run_started(alloc, limits, asked, &mut held, script, shelf, disk, out);
    held.close();
    ended
}

/// Reads a script, carries its lines out in order and writes their lines of output. The limits stand in the place of the
/// numbers of ids and listings. The disk is handed back.
pub fn run_within<S: Source, H: Shelf, D: Disk, K: Sink>(
    alloc: Global,
    limits: Limits,
    words: &[Label],
    script: &mut S,
    shelf: &mut H,
    disk: D,
    out: &mut K,
) -> (Status, D)
    requires { IsLimits limits }
    ensures promise { EndsAsked (workload_of words.now) result.0 limits
        (outside_of (S.left script.old) (S.faults script.old) (H.files shelf.old) (H.faults shelf.old) (D.seen disk) (K.took out.old) (K.faults out.old))
        (outside_of (S.left script.new) (S.faults script.new) (H.files shelf.new) (H.faults shelf.new) (D.seen result.1) (K.took out.new) (K.faults out.new)) }
    ensures cause { IsCaused result.0 (S.faults script.old) (S.faults script.new) (K.faults out.old) (K.faults out.new) }
    ensures usage { AreJudged result.0 words.now }
{
    match read_words(alloc, words) {
        Ok(asked) => run_asked(alloc, limits, &asked, script, shelf, disk, out),
        Err(WordFault::Usage) => (Status::Usage, disk),
        Err(WordFault::Memory) => (Status::NoMemory, disk),
    }
}

/// A run within the limits of a plain run: 1,000,000 ids of each relation, 16,000,000 listings of each quadtree.
pub fn run<S: Source, H: Shelf, D: Disk, K: Sink>(
    alloc: Global,
    words: &[Label],
    script: &mut S,
    shelf: &mut H,
    disk: D,
    out: &mut K,
) -> (Status, D)
    ensures promise { EndsAsked (workload_of words.now) result.0 standard_limits
        (outside_of (S.left script.old) (S.faults script.old) (H.files shelf.old) (H.faults shelf.old) (D.seen disk) (K.took out.old) (K.faults out.old))
        (outside_of (S.left script.new) (S.faults script.new) (H.files shelf.new) (H.faults shelf.new) (D.seen result.1) (K.took out.new) (K.faults out.new)) }
    ensures cause { IsCaused result.0 (S.faults script.old) (S.faults script.new) (K.faults out.old) (K.faults out.new) }
    ensures usage { AreJudged result.0 words.now }
{
    run_within(alloc, Limits::standard(), words, script, shelf, disk, out)
}
