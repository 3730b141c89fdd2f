// A run whose accepted changes outlive it: those of its journal are carried out again, and it appends its own.
ghost use Rattle.std.specs.Prelude.{◌≡◌, ◌≤◌, ◌^◌, [], ℕ, List, Option, None, Some, IfOk, IfErr, IfSome};
ghost use Rattle.open_cursors.specs.OpenCursors.{AreHeld};
ghost use Rattle.page_pool.specs.Pool.{new_pool};
ghost use Rattle.run_words.specs.Journal.{journal_beside};
ghost use Rattle.sand_base.specs.Faults.{next_count};
ghost use Rattle.sand_journal.specs.Journal.{HasPassed, IsOnlyRead, IsReady};
ghost use Rattle.sand_journal.specs.ChangeBody.{ChangeValue};
ghost use Rattle.sand_model.specs.Cursor.{State};
ghost use Rattle.sand_store.specs.Catalog.{IsLimits, new_catalog};
ghost use Rattle.sand_store.specs.Contents.{database};
ghost use Rattle.script_lines.specs.Reading.{ReadsLines};
ghost use Rattle.session.specs.Ends.{HasBegun, IsCaused, tape_after};
ghost use Rattle.session.specs.KeptRun.{AreJudgedKept, EndsKeeping, EndsKept, EndsWithTape, HasAll, HasBadRecord, IsTakenKept, journal_of, kept_workload, status_of_replay};
ghost use Rattle.session.specs.KeptTape.{BecomesJournal, KeepsBehind, KeepsShown, LosesNothing};
ghost use Rattle.session.specs.Outside.{outside_of};
ghost use Rattle.session.specs.Workload.{EndsAsked};
ghost use Rattle.statement_exec.specs.Moment.{moment_of, state_with};

use crate::Status;
use crate::start::start;
use crate::top::{run_asked, run_from};
use crate::workspace::Workspace;
use journal_replay::{ReplayFault, replay};
use page_pool::Disk;
use run_words::{KeptWords, WordFault, Words, read_kept_words};
use sand_base::{Failed, Label, Limits, NoMemory, Shelf, Sink, Source};
use sand_journal::{Journal, Tape};
use sand_store::Store;
use std::alloc::Global;

// The status of a run whose replay ended before the last record.
fn status_of_replay(why: ReplayFault) -> Status
    ensures { result ≡ status_of_replay why }
{
    match why {
        ReplayFault::Memory => Status::NoMemory,
        ReplayFault::Tape => Status::JournalFault,
        ReplayFault::Bad => Status::JournalBad,
        ReplayFault::Device => Status::ReplayFault,
        ReplayFault::Damaged => Status::ReplayDamaged,
    }
}

// The journal in the file of this name. A fault gives the tape back.
fn open_journal<T: Tape>(mut tape: T, name: &str) -> Result<Journal<T>, T>
    ensures passed { IfOk result (λ journal. HasPassed T.seen journal []) }
    ensures opened { IfOk result (λ journal. BecomesJournal (T.seen tape) (T.seen journal.tape)) }
    ensures unread { IfErr result (λ given. LosesNothing (T.seen tape) (T.seen given)) }
    ensures counted { IfOk result (λ journal. (T.seen journal.tape).faults ≡ (T.seen tape).faults) }
    ensures cause { IfErr result (λ given. (T.seen given).faults ≡ next_count (T.seen tape).faults) }
{
    match tape.start(name) {
        Ok(()) => {}
        Err(Failed {}) => return Err(tape),
    }
    match Journal::open(tape) {
        Ok(journal) => Ok(journal),
        Err((_, tape)) => Err(tape),
    }
}

// Carries the script out on a store that the changes of the journal led on, and appends its own.
fn run_on<S: Source, H: Shelf, D: Disk, K: Sink, T: Tape>(
    alloc: Global,
    store: Store<D>,
    held: &mut Workspace,
    script: &mut S,
    shelf: &mut H,
    journal: Journal<T>,
    out: &mut K,
) -> (Status, D, T)
    requires begun { (left : Option (List ℕ)) → ReadsLines held.old.lines left [] [] }
    requires none { held.old.cursors.items ≡ [] }
    requires held { AreHeld store.pool.stamps held.old.cursors.items }
    requires ready { IsReady T.seen journal }
    requires near { journal.end ≤ 2 ^ 62 }
    ensures promise { (last : State) × (shown : List ChangeValue) × (untold : List ChangeValue)
        × EndsKeeping (state_with [] (database store)) last (Some shown) (Some untold) result.0 store.catalog.limits
        (outside_of (S.left script.old) (S.faults script.old) (H.files shelf.old) (H.faults shelf.old) store.pool.disk (K.took out.old) (K.faults out.old))
        (outside_of (S.left script.new) (S.faults script.new) (H.files shelf.new) (H.faults shelf.new) (D.seen result.1) (K.took out.new) (K.faults out.new))
        × KeepsShown T.seen journal result.2 result.0 (moment_of store (H.files shelf.old) (H.faults shelf.old)) last shown untold }
    ensures cause { IsCaused result.0 (S.faults script.old) (S.faults script.new) (K.faults out.old) (K.faults out.new) }
    ensures tape { (T.seen result.2).faults ≡ tape_after result.0 (T.seen journal.tape).faults }
    ensures told { (D.seen result.1).told ≡ store.pool.disk.told }
    ensures begun { HasBegun result.0 }
{
    let mut kept = Some(journal);
    let (status, disk) = run_from(alloc, store, held, script, shelf, out, &mut kept);
    (status, disk, kept.unwrap().into_tape())
}

// Carries the changes of the journal out again, and then the script, whose changes the journal keeps.
fn run_behind<S: Source, H: Shelf, D: Disk, K: Sink, T: Tape>(
    alloc: Global,
    store: Store<D>,
    held: &mut Workspace,
    script: &mut S,
    shelf: &mut H,
    journal: Journal<T>,
    out: &mut K,
) -> (Status, D, T)
    requires begun { (left : Option (List ℕ)) → ReadsLines held.old.lines left [] [] }
    requires none { held.old.cursors.items ≡ [] }
    requires empty { store ≡ record { catalog = new_catalog store.catalog.limits; pool = new_pool store.pool.disk store.pool.frames } }
    requires passed { HasPassed T.seen journal [] }
    ensures promise { EndsKept result.0 store.catalog.limits
        (outside_of (S.left script.old) (S.faults script.old) (H.files shelf.old) (H.faults shelf.old) store.pool.disk (K.took out.old) (K.faults out.old))
        (outside_of (S.left script.new) (S.faults script.new) (H.files shelf.new) (H.faults shelf.new) (D.seen result.1) (K.took out.new) (K.faults out.new))
        (HasAll (T.seen journal.tape).told (T.seen journal.tape).bytes) (KeepsBehind T.seen result.0 journal.tape result.2)
        (HasBadRecord store.catalog.limits (D.seen result.1).told (T.seen journal.tape).told (T.seen journal.tape).bytes)
        (IsOnlyRead (T.seen journal.tape) (T.seen result.2)) }
    ensures cause { IsCaused result.0 (S.faults script.old) (S.faults script.new) (K.faults out.old) (K.faults out.new) }
    ensures tape { (T.seen result.2).faults ≡ tape_after result.0 (T.seen journal.tape).faults }
    ensures taken { IsTakenKept result.0 }
{
    let mut world = store;
    let mut journal = journal;
    match replay(alloc, &mut journal, &mut world) {
        Ok(()) => run_on(alloc, world, held, script, shelf, journal, out),
        Err(why) => (
            status_of_replay(why),
            world.into_disk(),
            journal.into_tape(),
        ),
    }
}

// Opens the journal in the file of this name, beside a store of no relations.
fn run_opened<S: Source, H: Shelf, D: Disk, K: Sink, T: Tape>(
    alloc: Global,
    store: Store<D>,
    name: &str,
    held: &mut Workspace,
    script: &mut S,
    shelf: &mut H,
    tape: T,
    out: &mut K,
) -> (Status, D, T)
    requires begun { (left : Option (List ℕ)) → ReadsLines held.old.lines left [] [] }
    requires none { held.old.cursors.items ≡ [] }
    requires empty { store ≡ record { catalog = new_catalog store.catalog.limits; pool = new_pool store.pool.disk store.pool.frames } }
    ensures promise { EndsWithTape T.seen result.0 store.catalog.limits
        (outside_of (S.left script.old) (S.faults script.old) (H.files shelf.old) (H.faults shelf.old) store.pool.disk (K.took out.old) (K.faults out.old))
        (outside_of (S.left script.new) (S.faults script.new) (H.files shelf.new) (H.faults shelf.new) (D.seen result.1) (K.took out.new) (K.faults out.new)) tape result.2 }
    ensures cause { IsCaused result.0 (S.faults script.old) (S.faults script.new) (K.faults out.old) (K.faults out.new) }
    ensures tape { (T.seen result.2).faults ≡ tape_after result.0 (T.seen tape).faults }
    ensures taken { IsTakenKept result.0 }
{
    match open_journal(tape, name) {
        Ok(journal) => run_behind(alloc, store, held, script, shelf, journal, out),
        Err(tape) => (Status::JournalFault, store.into_disk(), tape),
    }
}

// Starts the store over the disk, and then the journal in the file of this name.
fn run_journal<S: Source, H: Shelf, D: Disk, K: Sink, T: Tape>(
    alloc: Global,
    limits: Limits,
    asked: &Words,
    name: &str,
    held: &mut Workspace,
    script: &mut S,
    shelf: &mut H,
    disk: D,
    tape: T,
    out: &mut K,
) -> (Status, D, T)
    requires least { 16 ≤ asked.now.frames }
    requires most { asked.now.frames ≤ 4096 }
    requires limits { IsLimits limits }
    requires begun { (left : Option (List ℕ)) → ReadsLines held.old.lines left [] [] }
    requires none { held.old.cursors.items ≡ [] }
    ensures promise { EndsWithTape T.seen result.0 limits
        (outside_of (S.left script.old) (S.faults script.old) (H.files shelf.old) (H.faults shelf.old) (D.seen disk) (K.took out.old) (K.faults out.old))
        (outside_of (S.left script.new) (S.faults script.new) (H.files shelf.new) (H.faults shelf.new) (D.seen result.1) (K.took out.new) (K.faults out.new)) tape result.2 }
    ensures cause { IsCaused result.0 (S.faults script.old) (S.faults script.new) (K.faults out.old) (K.faults out.new) }
    ensures tape { (T.seen result.2).faults ≡ tape_after result.0 (T.seen tape).faults }
    ensures taken { IsTakenKept result.0 }
{
    match start(alloc, disk, asked, limits) {
        Ok(store) => run_opened(alloc, store, name, held, script, shelf, tape, out),
        Err((status, disk)) => (status, disk, tape),
    }
}

// Carries the script out with the journal in the file of this name.
fn run_named<S: Source, H: Shelf, D: Disk, K: Sink, T: Tape>(
    alloc: Global,
    limits: Limits,
    asked: &Words,
    name: &str,
    script: &mut S,
    shelf: &mut H,
    disk: D,
    tape: T,
    out: &mut K,
) -> (Status, D, T)
    requires least { 16 ≤ asked.now.frames }
    requires most { asked.now.frames ≤ 4096 }
    requires limits { IsLimits limits }
    ensures promise { EndsWithTape T.seen result.0 limits
        (outside_of (S.left script.old) (S.faults script.old) (H.files shelf.old) (H.faults shelf.old) (D.seen disk) (K.took out.old) (K.faults out.old))
        (outside_of (S.left script.new) (S.faults script.new) (H.files shelf.new) (H.faults shelf.new) (D.seen result.1) (K.took out.new) (K.faults out.new)) tape result.2 }
    ensures cause { IsCaused result.0 (S.faults script.old) (S.faults script.new) (K.faults out.old) (K.faults out.new) }
    ensures tape { (T.seen result.2).faults ≡ tape_after result.0 (T.seen tape).faults }
    ensures taken { IsTakenKept result.0 }
{
    let mut held = match Workspace::new(alloc) {
        Ok(held) => held,
        Err(NoMemory {}) => return (Status::NoMemory, disk, tape),
    };
    let ended = run_journal(
        alloc, limits, asked, name, &mut held, script, shelf, disk, tape, out,
    );
    held.close();
    ended
}

// What the words ask for: a journal goes with a script alone.
fn run_kept_asked<S: Source, H: Shelf, D: Disk, K: Sink, T: Tape>(
    alloc: Global,
    limits: Limits,
    asked: &KeptWords,
    script: &mut S,
    shelf: &mut H,
    disk: D,
    tape: T,
    out: &mut K,
) -> (Status, D, T)
    requires least { 16 ≤ asked.now.words.frames }
    requires most { asked.now.words.frames ≤ 4096 }
    requires size { IfSome asked.now.words.workload (λ n. (1 ≤ n) × (n ≤ 100000)) }
    requires limits { IsLimits limits }
    ensures plain { journal_beside asked.now.words.workload asked.now.journal ≡ None
        → EndsAsked asked.now.words.workload result.0 limits
        (outside_of (S.left script.old) (S.faults script.old) (H.files shelf.old) (H.faults shelf.old) (D.seen disk) (K.took out.old) (K.faults out.old))
        (outside_of (S.left script.new) (S.faults script.new) (H.files shelf.new) (H.faults shelf.new) (D.seen result.1) (K.took out.new) (K.faults out.new)) × (result.2 ≡ tape) }
    ensures kept { (name : List ℕ) → journal_beside asked.now.words.workload asked.now.journal ≡ Some name
        → EndsWithTape T.seen result.0 limits (outside_of (S.left script.old) (S.faults script.old) (H.files shelf.old) (H.faults shelf.old) (D.seen disk) (K.took out.old) (K.faults out.old))
        (outside_of (S.left script.new) (S.faults script.new) (H.files shelf.new) (H.faults shelf.new) (D.seen result.1) (K.took out.new) (K.faults out.new)) tape result.2 }
    ensures cause { IsCaused result.0 (S.faults script.old) (S.faults script.new) (K.faults out.old) (K.faults out.new) }
    ensures tape { (T.seen result.2).faults ≡ tape_after result.0 (T.seen tape).faults }
    ensures taken { IsTakenKept result.0 }
{
    let words = &asked.words;
    match asked.journal_of_script() {
        Some(name) => run_named(alloc, limits, words, name, script, shelf, disk, tape, out),
        None => {
            let (status, disk) = run_asked(alloc, limits, words, script, shelf, disk, out);
            (status, disk, tape)
        }
    }
}

/// A run that begins with the changes of the journal that the words name, and keeps its own there. Without a journal,
/// and with a workload, it is a run within these limits, and the tape isn't touched. The disk and the tape are handed
/// back.
pub fn run_kept<S: Source, H: Shelf, D: Disk, K: Sink, T: Tape>(
    alloc: Global,
    limits: Limits,
    words: &[Label],
    script: &mut S,
    shelf: &mut H,
    disk: D,
    tape: T,
    out: &mut K,
) -> (Status, D, T)
    requires { IsLimits limits }
    ensures plain { journal_of words.now ≡ None → EndsAsked (kept_workload words.now) result.0 limits
        (outside_of (S.left script.old) (S.faults script.old) (H.files shelf.old) (H.faults shelf.old) (D.seen disk) (K.took out.old) (K.faults out.old))
        (outside_of (S.left script.new) (S.faults script.new) (H.files shelf.new) (H.faults shelf.new) (D.seen result.1) (K.took out.new) (K.faults out.new)) × (result.2 ≡ tape) }
    ensures kept { (name : List ℕ) → journal_of words.now ≡ Some name
        → EndsWithTape T.seen result.0 limits (outside_of (S.left script.old) (S.faults script.old) (H.files shelf.old) (H.faults shelf.old) (D.seen disk) (K.took out.old) (K.faults out.old))
        (outside_of (S.left script.new) (S.faults script.new) (H.files shelf.new) (H.faults shelf.new) (D.seen result.1) (K.took out.new) (K.faults out.new)) tape result.2 }
    ensures cause { IsCaused result.0 (S.faults script.old) (S.faults script.new) (K.faults out.old) (K.faults out.new) }
    ensures tape { (T.seen result.2).faults ≡ tape_after result.0 (T.seen tape).faults }
    ensures usage { AreJudgedKept result.0 words.now }
{
    match read_kept_words(alloc, words) {
        Ok(asked) => run_kept_asked(alloc, limits, &asked, script, shelf, disk, tape, out),
        Err(WordFault::Usage) => (Status::Usage, disk, tape),
        Err(WordFault::Memory) => (Status::NoMemory, disk, tape),
    }
}
