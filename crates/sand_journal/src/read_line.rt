ghost use Rattle.std.specs.Prelude.{◌≡◌, ◌↔◌, ◌⊎◌, ◌∷◌, true, false, Some, None, Ok, IfOk};
ghost use Rattle.script_text.specs.Printing.{printed};
ghost use Rattle.sand_journal.specs.ChangeBody.{IsKept, IsChangeOf, line_value};

use crate::Change;
use sand_base::NoMemory;
use script_text::{
    LONGEST_LINE, LineFault, Statement, parse_line, print_statement,
    printed_statements_are_read_back,
};
use std::alloc::Global;

// Whether a journal keeps the statement as a line.
#[tactic(auto, unfolding(crate::specs::ChangeBody::line_value))]
fn is_kept(statement: &Statement) -> bool
    ensures { (result ≡ true) ↔ IsKept (line_value statement.now) }
{
    matches!(
        statement,
        Statement::Create { .. }
            | Statement::Delete { .. }
            | Statement::Index { .. }
            | Statement::Rtree { .. }
    )
}

// Whether a journal keeps the statement as a line of this text, which is its printed form.
#[tactic(auto, unfolding(crate::specs::ChangeBody::line_value))]
fn is_line(alloc: Global, statement: &Statement, text: &[u8]) -> Result<bool, NoMemory>
    ensures { IfOk result (λ is_line. (is_line ≡ true) ↔ (IsKept (line_value statement.now) × (text.now ≡ printed (line_value statement.now)))) }
{
    if !is_kept(statement) {
        return Ok(false);
    }
    let form = print_statement(alloc, statement)?;
    Ok(form.as_slice() == text)
}

// The value where it is wanted. A statement is let go here and not in the caller, whose proof would have to take it apart.
fn only_if<T: Drop>(is_wanted: Result<bool, NoMemory>, value: T) -> Result<Option<T>, NoMemory>
    ensures { IfOk result (λ found. ((is_wanted ≡ Ok true) × (found ≡ Some value)) ⊎ ((is_wanted ≡ Ok false) × (found ≡ None))) }
{
    Ok(is_wanted?.then_some(value))
}

/// The change whose printed form the text is, None where it is that of no statement that is kept.
pub(crate) fn read_line(alloc: Global, text: &[u8]) -> Result<Option<Change>, NoMemory>
    ensures { IfOk result (IsChangeOf (1 ∷ text.now)) }
{
    if text.len() > LONGEST_LINE {
        return Ok(None);
    }
    printed_statements_are_read_back();
    match parse_line(alloc, text) {
        Ok(Some(statement)) => {
            let is_line = is_line(alloc, &statement, text);
            only_if(is_line, Change::Line(statement))
        }
        Ok(None) => Ok(None),
        Err(LineFault::Memory) => Err(NoMemory {}),
        Err(LineFault::Syntax { .. }) => Ok(None),
        Err(LineFault::Range) => Ok(None),
    }
}
