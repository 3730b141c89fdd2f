// The lines with which statements end.
ghost use Rattle.std.specs.Prelude.{◌≡◌, [], ◌∷◌, IfOk, OnErr, Some, is_err, true};
ghost use Rattle.sand_base.specs.Faults.{HasCause};
ghost use Rattle.sand_model.specs.OutputText.{IsText};
ghost use Rattle.output_text.specs.Line.{IsPrintable, line_of as output_line};
ghost use Rattle.output_text.specs.Writing.{Writes, WritesPrefix};
ghost use Rattle.statement_exec.specs.Ending.{is_refusal, refused_line};
ghost use Rattle.statement_exec.specs.Performing.{line_of_answer};

use crate::Reply;
use output_text::{LineRef, write_line};
use sand_base::{Failed, Refusal, Sink};

/// Writes the line of a refusal. The answer says that something was refused.
pub fn refuse<K: Sink>(out: &mut K, why: Refusal) -> Result<bool, Failed>
    ensures written { IfOk result (λ refused. (refused ≡ true) × Writes (IsText (refused_line (Some why))) (K.took out.old) (K.took out.new)) }
    ensures prefix { OnErr result (WritesPrefix (IsText (refused_line (Some why))) (K.took out.old) (K.took out.new)) }
    ensures cause { HasCause (K.faults out.old) (K.faults out.new) result }
{
    write_line(out, &LineRef::Refused(why))?;
    Ok(true)
}

/// Writes the line of a refusal, where there is one. The answer says whether there is one.
pub fn end_with<K: Sink>(out: &mut K, end: Option<Refusal>) -> Result<bool, Failed>
    ensures written { IfOk result (λ refused. (refused ≡ is_refusal end) × Writes (IsText (refused_line end)) (K.took out.old) (K.took out.new)) }
    ensures prefix { OnErr result (WritesPrefix (IsText (refused_line end)) (K.took out.old) (K.took out.new)) }
    ensures cause { HasCause (K.faults out.old) (K.faults out.new) result }
{
    match end {
        None => Ok(false),
        Some(why) => refuse(out, why),
    }
}

// The line of an answer.
fn line_of<'a>(answer: Result<Reply, Refusal>) -> LineRef<'a>
    ensures line { output_line result ≡ line_of_answer answer }
    ensures printable { IsPrintable result }
{
    match answer {
        Ok(Reply::Accepted) => LineRef::Accepted,
        Ok(Reply::Id(id)) => LineRef::Id(id),
        Ok(Reply::Loaded(rows)) => LineRef::Loaded(rows),
        Err(why) => LineRef::Refused(why),
    }
}

/// Writes the line with which a statement ends: that of its reply, or of its refusal. The answer says whether it was
/// refused.
pub fn finish<K: Sink>(out: &mut K, answer: Result<Reply, Refusal>) -> Result<bool, Failed>
    ensures written { IfOk result (λ refused. (refused ≡ is_err answer) × Writes (IsText (line_of_answer answer ∷ [])) (K.took out.old) (K.took out.new)) }
    ensures prefix { OnErr result (WritesPrefix (IsText (line_of_answer answer ∷ [])) (K.took out.old) (K.took out.new)) }
    ensures cause { HasCause (K.faults out.old) (K.faults out.new) result }
{
    let line = line_of(answer);
    write_line(out, &line)?;
    Ok(answer.is_err())
}
