ghost use Rattle.std.specs.Prelude.{◌≡◌, IfSome};
ghost use Rattle.sand_base.specs.Faults.{HasCause};
ghost use Rattle.page_pool.specs.Causes.{HasPageCause};
ghost use Rattle.page_pool.specs.Reads.{IsRead};
ghost use Rattle.sand_model.specs.Cursor.{Cursor};
ghost use Rattle.best_first.specs.Visits.{told_pages};
ghost use Rattle.plan_iterator.specs.Rows.{counts_of};
ghost use Rattle.plan_iterator.specs.Standing.{IsAt};
ghost use Rattle.plan_iterator.specs.Paying.{prices};
ghost use Rattle.row_output.specs.Printing.{CountsRows, PrintsRowsPaid, WritesCounted, refusal_in};

use crate::next::{Next, print_next};
use page_pool::{Desk, Disk, PageFault};
use plan_iterator::{RowCursor, RowSource, RowStage};
use sand_base::{Failed, Sink};
use std::alloc::Global;

/// What was printed of a cursor.
#[derive(Drop)]
pub enum Printed {
    /// The lines of so many rows, and `end` where fewer were left than were asked.
    Rows { rows: u32, end: bool },
    /// The lines of so many rows, fewer than were asked; the step for the next one was refused.
    Refused { rows: u32, fault: PageFault },
}

/// Prints the next rows of a cursor, up to so many, and `end` where no more are left. Each line is written before the
/// next row is asked for, and printing takes no memory. A refusal's line is left to the caller. After `Failed` the
/// sink took a prefix of the lines of the rows that the cursor gave, and of `end` where none was left. Its page gets
/// are at most the price of the visits noted, of the steps of the source and of the rows that operators handled.
pub fn print_rows<S: RowSource, T: RowStage, D: Disk, K: Sink>(
    cursor: &mut RowCursor<S, T>,
    alloc: Global,
    desk: &mut Desk<D>,
    count: u32,
    out: &mut K,
) -> Result<Printed, Failed>
    requires stands { IfSome (told_pages desk.old) (λ pages. (c : Cursor) × IsAt S.At T.Stands T.closed (λ s. counts_of (S.seen s)) cursor.old pages c) }
    ensures read { IsRead desk.old.pool desk.new.pool }
    ensures refused { HasPageCause desk.old.pool desk.new.pool (refusal_in result) }
    ensures cause { HasCause (K.faults out.old) (K.faults out.new) result }
    ensures number { CountsRows cursor.old.given cursor.new.given result }
    ensures lines { WritesCounted count result (K.took out.old) (K.took out.new) }
    ensures step { IfSome (told_pages desk.old) (PrintsRowsPaid S.At T.Stands T.closed (prices S.heights S.step_price S.owed T.price T.owed)
        (λ s. counts_of (S.seen s)) cursor.old cursor.new count desk.old desk.new (K.took out.old) (K.took out.new) result) }
{
    let mut rows = 0;
    'rows: while rows < count {
        match print_next(cursor, alloc, desk, out) {
            Ok(Next::Row) => rows += 1,
            Ok(Next::End) => return Ok(Printed::Rows { rows, end: true }),
            Ok(Next::Refused(fault)) => return Ok(Printed::Refused { rows, fault }),
            Err(failed) => return Err(failed),
        }
    }
    Ok(Printed::Rows { rows, end: false })
}
