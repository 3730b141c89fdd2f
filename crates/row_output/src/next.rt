ghost use Rattle.std.specs.Prelude.{◌≡◌, IfSome, Option, Result};
ghost use Rattle.sand_base.specs.Faults.{HasCause};
ghost use Rattle.page_pool.specs.Causes.{HasPageCause};
ghost use Rattle.page_pool.specs.Reads.{IsRead};
ghost use Rattle.sand_model.specs.Cursor.{Cursor};
ghost use Rattle.best_first.specs.Visits.{told_pages};
ghost use Rattle.page_pool.specs.declared.fault.PageFault.{PageFault as Fault};
ghost use Rattle.plan_iterator.specs.Rows.{counts_of};
ghost use Rattle.plan_iterator.specs.declared.answer.Answer.{Answer};
ghost use Rattle.plan_iterator.specs.Standing.{IsAt};
ghost use Rattle.plan_iterator.specs.Paying.{prices};
ghost use Rattle.row_output.specs.Stepping.{CountsStep, PrintsNextPaid, PrintsStep, printed_refusal};

use crate::row::print_row;
use output_text::{LineRef, write_line};
use page_pool::{Desk, Disk, PageFault};
use plan_iterator::{RowCursor, RowSource, RowStage};
use sand_base::{Failed, Sink};
use std::alloc::Global;

/// What was printed of one step of a cursor: a row, the end, or nothing of a refused step.
pub enum Next {
    Row,
    End,
    Refused(PageFault),
}

// Makes one step of the cursor and writes its line.
pub fn print_next<S: RowSource, T: RowStage, D: Disk, K: Sink>(
    cursor: &mut RowCursor<S, T>,
    alloc: Global,
    desk: &mut Desk<D>,
    out: &mut K,
) -> Result<Next, Failed>
    requires stands { IfSome (told_pages desk.old) (λ pages. (c : Cursor) × IsAt S.At T.Stands T.closed (λ s. counts_of (S.seen s)) cursor.old pages c) }
    ensures read { IsRead desk.old.pool desk.new.pool }
    ensures refused { HasPageCause desk.old.pool desk.new.pool (printed_refusal result) }
    ensures cause { HasCause (K.faults out.old) (K.faults out.new) result }
    ensures number { CountsStep cursor.old.given cursor.new.given result }
    ensures line { (answer : Result (Option Answer) Fault) × PrintsStep answer result (K.took out.old) (K.took out.new) }
    ensures step { IfSome (told_pages desk.old) (PrintsNextPaid S.At T.Stands T.closed (prices S.heights S.step_price S.owed T.price T.owed)
        (λ s. counts_of (S.seen s)) cursor.old cursor.new desk.old desk.new (K.took out.old) (K.took out.new) result) }
{
    match cursor.next(alloc, desk) {
        Ok(Some(row)) => {
            print_row(out, &row)?;
            Ok(Next::Row)
        }
        Ok(None) => {
            write_line(out, &LineRef::End)?;
            Ok(Next::End)
        }
        Err(fault) => Ok(Next::Refused(fault)),
    }
}
