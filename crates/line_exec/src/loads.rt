// A load: its rows are read, then their record is made, and then they enter their relation.
ghost use Rattle.std.specs.Prelude.{◌≡◌, ◌∷◌, [], ℕ, true, Bool, List, All, IfOk, OnOk, Option};
ghost use Rattle.journal_replay.specs.KeptBody.{IsKeptOfRows};
ghost use Rattle.line_meaning.specs.Carrying.{FollowsMoment};
ghost use Rattle.sand_base.specs.InRange.{IsRowInRange};
ghost use Rattle.sand_base.specs.Shelf.{Files};
ghost use Rattle.sand_model.specs.Cursor.{Cursor};
ghost use Rattle.sand_store.specs.Calls.{Carries};
ghost use Rattle.script_text.specs.Name.{IsName};
ghost use Rattle.statements.specs.Statement.{Load};
ghost use Rattle.statement_exec.specs.Loading.{InSettings, LoadOf, Yields};
ghost use Rattle.statement_exec.specs.Moment.{moment_of, while_open};
ghost use Rattle.statement_exec.specs.Performing.{Performs, line_of_answer};
ghost use Rattle.line_exec.specs.Keeping.{IsCountedAlike};
ghost use Rattle.line_exec.specs.KeptChanges.{IsToKeep};

use crate::changed::Changed;
use journal_replay::record_of_rows;
use page_pool::Disk;
use sand_base::{Label, NoMemory, Refusal, Row, Shelf};
use sand_journal::Record;
use sand_store::{Catalog, Store};
use statement_exec::{enter_rows, rows_to_load};
use std::alloc::Global;

// The record of rows, where one is to be made.
fn record_for_rows(
    alloc: Global,
    catalog: &Catalog,
    name: &Label,
    rows: &[Row],
    keeps: bool,
) -> Result<Option<Record>, NoMemory>
    requires named { IsName name.now }
    requires in_range { All IsRowInRange rows.now }
    ensures { IfOk result (λ made. keeps ≡ true → IsKeptOfRows catalog.now name.now rows.now made) }
{
    if keeps {
        return record_of_rows(alloc, catalog, name, rows);
    }
    Ok(None)
}

// The rows that were read enter their relation, behind their record.
fn enter<D: Disk>(
    alloc: Global,
    store: &mut Store<D>,
    name: &Label,
    rows: Vec<Row>,
    keeps: bool,
) -> Changed
    requires named { IsName name.now }
    requires in_range { All IsRowInRange rows.items }
    ensures performs { (load : LoadOf) → load.relation ≡ name.now → (files : Option Files) (shelf : ℕ) (cs : List Cursor)
        → InSettings store.old.catalog files (λ setting state. Yields setting state load rows.items)
        → Performs (Load load.relation load.file load.header) (while_open store.old files shelf cs) (while_open store.new files shelf cs) (line_of_answer result.answer ∷ []) }
    ensures carries { Carries store.old store.new }
    ensures kept { (file : List ℕ) (header : Bool) → IsToKeep keeps (Load name.now file header) result.answer result.kept store.old store.new }
    ensures counts { (shelf : ℕ) → OnOk result.answer (IsCountedAlike store.old.pool store.new.pool shelf shelf) }
    ensures follows { (files : Option Files) (shelf : ℕ) → FollowsMoment (moment_of store.old files shelf) (moment_of store.new files shelf) }
{
    match record_for_rows(alloc, store.catalog(), name, &rows, keeps) {
        Ok(kept) => Changed {
            answer: enter_rows(store, name, rows),
            kept,
        },
        Err(NoMemory {}) => Changed::refused(Refusal::Memory),
    }
}

/// `load`: the rows of a data file, all or none. After a refusal all is as it was, but what was read of the shelf.
pub(crate) fn load<D: Disk, H: Shelf>(
    alloc: Global,
    store: &mut Store<D>,
    shelf: &mut H,
    name: &Label,
    file: &Label,
    header: bool,
    keeps: bool,
) -> Changed
    requires { IsName name.now }
    ensures performs { (cs : List Cursor) → Performs (Load name.now file.now header) (while_open store.old (H.files shelf.old) (H.faults shelf.old) cs)
        (while_open store.new (H.files shelf.new) (H.faults shelf.new) cs) (line_of_answer result.answer ∷ []) }
    ensures carries { Carries store.old store.new }
    ensures kept { IsToKeep keeps (Load name.now file.now header) result.answer result.kept store.old store.new }
    ensures files { H.files shelf.new ≡ H.files shelf.old }
    ensures counts { OnOk result.answer (IsCountedAlike store.old.pool store.new.pool (H.faults shelf.old) (H.faults shelf.new)) }
    ensures follows { FollowsMoment (moment_of store.old (H.files shelf.old) (H.faults shelf.old)) (moment_of store.new (H.files shelf.new) (H.faults shelf.new)) }
{
    match rows_to_load(alloc, store.catalog(), shelf, name, file, header) {
        Ok(rows) => enter(alloc, store, name, rows, keeps),
        Err(why) => Changed::refused(why),
    }
}
