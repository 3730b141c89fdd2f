ghost use Rattle.std.specs.Prelude.{◌≡◌, List, is_some, [], ◌∷◌, false, IfOk, OnErr};
ghost use Rattle.plan_iterator.specs.Standing.{IsAt};
ghost use Rattle.plan_iterator.specs.Rows.{counts_of};
ghost use Rattle.sand_model.specs.Cursor.{Cursor};
ghost use Rattle.open_cursors.specs.OpenCursors.{AtStamp, HaveOwnNames, NumbersOf, StandAll, is_open, named, AreNamed};
ghost use Rattle.output_text.specs.Line.{IsPrintable};
ghost use Rattle.output_text.specs.Writing.{Writes, WritesPrefix};
ghost use Rattle.page_pool.specs.Pool.{PoolState, StampMap};
ghost use Rattle.sand_base.specs.Faults.{HasCause};
ghost use Rattle.sand_model.specs.OutputText.{IsText};
ghost use Rattle.statements.specs.Statement.{Stats as StatsOf};
ghost use Rattle.sand_store.specs.Catalog.{CatalogView};
ghost use Rattle.open_cursors.specs.Outcomes.{PerformsBeside};
ghost use Rattle.open_cursors.specs.Carried.{AreCounted, line_of_numbers};
ghost use Rattle.statement_exec.specs.Printing.{WritesOf};

use crate::OpenCursor;
use crate::next_rows::place_of;
use output_text::{LineRef, write_line};
use plan_iterator::{RowSource, RowStage, Stats};
use sand_base::{Failed, Label, Refusal, Sink};
use statement_exec::refuse;

// What the open cursor of this name has visited, and how many rows it gave; None where no cursor has the name.
fn stats_of<S: RowSource, T: RowStage>(cursors: &[OpenCursor<S, T>], name: &Label) -> Option<Stats>
    ensures known { is_some result ≡ is_open cursors.now name.now }
    ensures numbers { (stamps : StampMap) (cs : List Cursor) → HaveOwnNames cs → StandAll (AtStamp (λ r. IsAt S.At T.Stands T.closed (λ s. counts_of (S.seen s)) r)) stamps cursors.now cs
        → NumbersOf (named cs name.now) result }
{
    let Some(at) = place_of(cursors, name.as_str()) else {
        return None;
    };
    let open = &cursors[at];
    Some(open.cursor.stats())
}

// Writes the line of the numbers of a cursor. Nothing is refused.
fn write_numbers<K: Sink>(out: &mut K, numbers: Stats) -> Result<bool, Failed>
    ensures written { IfOk result (λ refused. (refused ≡ false) × Writes (IsText (line_of_numbers numbers ∷ [])) (K.took out.old) (K.took out.new)) }
    ensures prefix { OnErr result (WritesPrefix (IsText (line_of_numbers numbers ∷ [])) (K.took out.old) (K.took out.new)) }
    ensures cause { HasCause (K.faults out.old) (K.faults out.new) result }
{
    let line = LineRef::Stats {
        blocks: numbers.blocks,
        pairs: numbers.pairs,
        geometries: numbers.geometries,
        rows: numbers.rows,
    };
    match write_line(out, &line) {
        Ok(()) => Ok(false),
        Err(Failed {}) => Err(Failed {}),
    }
}

/// `stats`: the numbers of the open cursor of this name are written. The answer says whether it was refused.
pub(crate) fn stats_line<S: RowSource, T: RowStage, K: Sink>(
    cursors: &[OpenCursor<S, T>],
    name: &Label,
    out: &mut K,
) -> Result<bool, Failed>
    ensures named { (cs : List Cursor) → AreNamed cursors.now cs → (catalog : CatalogView) (pool : PoolState) → (pool.disk.told ≡ false)
        → WritesOf (PerformsBeside (StatsOf name.now) catalog pool pool cs cs) (K.took out.old) (K.took out.new) result }
    ensures written { (stamps : StampMap) (cs : List Cursor) → HaveOwnNames cs
        → StandAll (AtStamp (λ r. IsAt S.At T.Stands T.closed (λ s. counts_of (S.seen s)) r)) stamps cursors.now cs → AreCounted cs
        → (catalog : CatalogView) (pool : PoolState) → WritesOf (PerformsBeside (StatsOf name.now) catalog pool pool cs cs) (K.took out.old) (K.took out.new) result }
    ensures sink { HasCause (K.faults out.old) (K.faults out.new) result }
{
    match stats_of(cursors, name) {
        Some(numbers) => write_numbers(out, numbers),
        None => refuse(out, Refusal::UnknownCursor),
    }
}
