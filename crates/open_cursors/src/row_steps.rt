// The next rows of a cursor.
ghost use Rattle.std.specs.Prelude.{◌≡◌, IfOk, IfSome};
ghost use Rattle.best_first.specs.Visits.{told_pages};
ghost use Rattle.page_pool.specs.Reads.{IsRead};
ghost use Rattle.plan_iterator.specs.Standing.{IsAt};
ghost use Rattle.plan_iterator.specs.Rows.{counts_of};
ghost use Rattle.sand_base.specs.Faults.{HasCause};
ghost use Rattle.sand_model.specs.Cursor.{Cursor};
ghost use Rattle.sand_store.specs.Calls.{refusal_of};
ghost use Rattle.statement_exec.specs.Causes.{BlamesNoFile};
ghost use Rattle.statement_exec.specs.Ending.{PagesHaveCause};
ghost use Rattle.open_cursors.specs.Steps.{AnswersPages, StepsOn, WritesRows};

use page_pool::{Desk, Disk, PageFault};
use plan_iterator::{RowCursor, RowSource, RowStage};
use row_output::{Printed, print_rows};
use sand_base::{Failed, Refusal, Sink};
use std::alloc::Global;

/// A fault of a page, as a statement is refused by it.
pub(crate) fn refusal_of(why: PageFault) -> Refusal
    ensures { result ≡ refusal_of why }
{
    match why {
        PageFault::Memory => Refusal::Memory,
        PageFault::Device => Refusal::Device,
        PageFault::Damaged { page, kept, read } => Refusal::Damaged { page, kept, read },
    }
}

/// Prints the next rows of a cursor up to so many, and `end` where no more are left; or the rows before a refusal,
/// whose line is still to be printed.
pub(crate) fn print_steps<S: RowSource, T: RowStage, D: Disk, K: Sink>(
    cursor: &mut RowCursor<S, T>,
    alloc: Global,
    desk: &mut Desk<D>,
    count: u32,
    out: &mut K,
) -> Result<Option<Refusal>, Failed>
    requires stands { IfSome (told_pages desk.old) (λ pages. (c : Cursor) × IsAt S.At T.Stands T.closed (λ s. counts_of (S.seen s)) cursor.old pages c) }
    ensures read { IsRead desk.old.pool desk.new.pool }
    ensures cause { PagesHaveCause desk.old.pool desk.new.pool result }
    ensures no_file { IfOk result BlamesNoFile }
    ensures pages { AnswersPages result }
    ensures sink { HasCause (K.faults out.old) (K.faults out.new) result }
    ensures rows { WritesRows count (K.took out.old) (K.took out.new) result }
    ensures steps { IfSome (told_pages desk.old) (λ pages. (c : Cursor) → IsAt S.At T.Stands T.closed (λ s. counts_of (S.seen s)) cursor.old pages c
        → StepsOn c count (K.took out.old) (K.took out.new) result (IsAt S.At T.Stands T.closed (λ s. counts_of (S.seen s)) cursor.new pages)) }
{
    match print_rows(cursor, alloc, desk, count, out) {
        Ok(Printed::Rows { .. }) => Ok(None),
        Ok(Printed::Refused { fault, .. }) => Ok(Some(refusal_of(fault))),
        Err(Failed {}) => Err(Failed {}),
    }
}
