// A change that was made, appended to the journal before its line is written.
ghost use Rattle.std.specs.Prelude.{◌≡◌, ◌∷◌, [], ℕ, ◌+◌, ◌≤◌, IfErr, IfOk, OnErr, OnOk, IsOk, is_err, is_some};
ghost use Rattle.output_text.specs.Writing.{Writes, WritesPrefix};
ghost use Rattle.sand_base.specs.Faults.{HasCause};
ghost use Rattle.sand_base.specs.Streams.{Stays};
ghost use Rattle.sand_journal.specs.Journal.{IsReady};
ghost use Rattle.sand_model.specs.OutputText.{IsText};
ghost use Rattle.statement_exec.specs.Performing.{line_of_answer};
ghost use Rattle.line_exec.specs.KeptChanges.{Appends, AppendsIfAny, UnlessJournal, bodies_kept};
ghost use Rattle.line_exec.specs.Keeping.{HasLineCause, KeepsOn, TakesUpTo, last_end, most_kept, sink_result, tape_count};
ghost use Rattle.line_exec.specs.declared.fault.LineFault.TheVariants as fault;

use crate::LineFault;
use crate::changed::Changed;
use sand_base::{Failed, Sink};
use sand_journal::{Journal, Record, Tape};
use statement_exec::finish;

// Appends a record to a journal that has room for it.
fn append<T: Tape>(journal: &mut Journal<T>, one: &Record) -> Result<(), Failed>
    requires ready { IsReady T.seen journal.old }
    requires room { journal.old.end ≤ last_end }
    ensures ready { OnOk result (IsReady T.seen journal.new) }
    ensures end { OnOk result (journal.new.end ≤ journal.old.end + most_kept) }
    ensures appends { Appends T.seen journal.old journal.new (one.now ∷ []) (OnOk result) }
    ensures cause { HasCause (T.seen journal.old.tape).faults (T.seen journal.new.tape).faults result }
{
    // For the proof alone: a record is short.
    let _step = one.step();
    match journal.append(one) {
        Ok(()) => Ok(()),
        Err(Failed {}) => Err(Failed {}),
    }
}

// Appends the record of a change that was accepted. Of a refusal nothing is kept.
fn keep<T: Tape>(journal: &mut Option<Journal<T>>, changed: &Changed) -> Result<(), Failed>
    requires { TakesUpTo T.seen last_end journal.old }
    ensures there { is_some journal.new ≡ is_some journal.old }
    ensures takes { (bound : ℕ) → TakesUpTo T.seen bound journal.old → OnOk result (TakesUpTo T.seen (bound + most_kept) journal.new) }
    ensures appends { AppendsIfAny T.seen journal.old journal.new (bodies_kept changed.now.answer changed.now.kept) (OnOk result) }
    ensures accepted { OnErr result (IsOk changed.now.answer) }
    ensures cause { HasCause (tape_count T.seen journal.old) (tape_count T.seen journal.new) result }
{
    if changed.answer.is_err() {
        return Ok(());
    }
    let Some(one) = &changed.kept else {
        return Ok(());
    };
    match journal {
        Some(journal) => append(journal, one),
        None => Ok(()),
    }
}

/// What the write of a line came to, as the end of that line.
pub fn of_sink(written: Result<bool, Failed>) -> Result<bool, LineFault>
    ensures written { written ≡ sink_result result }
    ensures sink { IfErr result (λ why. why ≡ fault.Sink) }
{
    match written {
        Ok(refused) => Ok(refused),
        Err(Failed {}) => Err(LineFault::Sink),
    }
}

/// Keeps a change that was accepted, and then writes the line of its answer. The answer says whether it was refused.
pub(crate) fn finish_kept<T: Tape, K: Sink>(
    journal: &mut Option<Journal<T>>,
    changed: &Changed,
    out: &mut K,
) -> Result<bool, LineFault>
    requires { TakesUpTo T.seen last_end journal.old }
    ensures keeps { KeepsOn T.seen journal.old journal.new result }
    ensures appends { AppendsIfAny T.seen journal.old journal.new (bodies_kept changed.now.answer changed.now.kept) (UnlessJournal result) }
    ensures written { IfOk result (λ refused. (refused ≡ is_err changed.now.answer) × Writes (IsText (line_of_answer changed.now.answer ∷ [])) (K.took out.old) (K.took out.new)) }
    ensures prefix { OnErr result (WritesPrefix (IsText (line_of_answer changed.now.answer ∷ [])) (K.took out.old) (K.took out.new)) }
    ensures untold { IfErr result (λ why. why ≡ fault.Journal → IsOk changed.now.answer × Stays (K.took out.old) (K.took out.new)) }
    ensures cause { HasLineCause (K.faults out.old) (K.faults out.new) (tape_count T.seen journal.old) (tape_count T.seen journal.new) result }
{
    match keep(journal, changed) {
        Ok(()) => of_sink(finish(out, changed.answer)),
        Err(Failed {}) => Err(LineFault::Journal),
    }
}
