// Statements that change relations.
ghost use Rattle.std.specs.Prelude.{◌≡◌, ◌∷◌, [], true, IfErr, IfOk, List, OnErr, OnOk};
ghost use Rattle.journal_replay.specs.KeptBody.{IsKeptOf};
ghost use Rattle.line_meaning.specs.Carrying.{FollowsMoment};
ghost use Rattle.open_cursors.specs.Carried.{ChangesRelations};
ghost use Rattle.sand_journal.specs.ChangeBody.{line_value};
ghost use Rattle.sand_model.specs.Cursor.{Cursor};
ghost use Rattle.sand_store.specs.Calls.{Carries};
ghost use Rattle.script_text.specs.InRange.{IsInRange};
ghost use Rattle.statements.specs.Statement.{statement_value};
ghost use Rattle.statement_exec.specs.Moment.{moment_of, while_open};
ghost use Rattle.statement_exec.specs.Performing.{Performs, line_of_answer};
ghost use Rattle.line_exec.specs.Keeping.{IsCountedAlike};
ghost use Rattle.line_exec.specs.KeptChanges.{IsToKeep};

use crate::changed::Changed;
use crate::loads::load;
use journal_replay::record_of;
use open_cursors::end_statement;
use page_pool::Disk;
use sand_base::{NoMemory, Refusal, Shelf};
use sand_journal::Record;
use sand_store::{Catalog, Store};
use script_text::Statement;
use statement_exec::{create, delete, index, insert, rtree};
use std::alloc::Global;

// The record of a statement, where one is to be made. That of a load is made of its rows.
fn record_for(
    alloc: Global,
    catalog: &Catalog,
    statement: &Statement,
    keeps: bool,
) -> Result<Option<Record>, NoMemory>
    requires { IsInRange (statement_value statement.now) }
    ensures { IfOk result (λ made. keeps ≡ true → IsKeptOf catalog.now (line_value statement.now) made) }
{
    if keeps {
        return record_of(alloc, catalog, statement);
    }
    Ok(None)
}

// The answer of a statement that changes relations, whose record was made; any other comes back.
fn change_behind<D: Disk, H: Shelf>(
    alloc: Global,
    store: &mut Store<D>,
    shelf: &mut H,
    statement: Statement,
    kept: Option<Record>,
    keeps: bool,
) -> Result<Changed, Statement>
    requires in_range { IsInRange (statement_value statement) }
    requires kept { keeps ≡ true → IsKeptOf store.old.catalog (line_value statement) kept }
    ensures answers { IfOk result (λ made. (cs : List Cursor)
        → Performs (statement_value statement) (while_open store.old (H.files shelf.old) (H.faults shelf.old) cs)
        (while_open store.new (H.files shelf.new) (H.faults shelf.new) cs) (line_of_answer made.answer ∷ [])) }
    ensures kept { IfOk result (λ made. IsToKeep keeps (statement_value statement) made.answer made.kept store.old store.new) }
    ensures returned { IfErr result (λ other. (statement_value other ≡ statement_value statement) × (ChangesRelations (statement_value statement) → ⊥)) }
    ensures unchanged { OnErr result (store.new ≡ store.old) }
    ensures carries { Carries store.old store.new }
    ensures files { H.files shelf.new ≡ H.files shelf.old }
    ensures shelf { OnErr result (H.faults shelf.new ≡ H.faults shelf.old) }
    ensures counts { IfOk result (λ made. OnOk made.answer (IsCountedAlike store.old.pool store.new.pool (H.faults shelf.old) (H.faults shelf.new))) }
    ensures follows { FollowsMoment (moment_of store.old (H.files shelf.old) (H.faults shelf.old)) (moment_of store.new (H.files shelf.new) (H.faults shelf.new)) }
{
    match statement {
        Statement::Create { relation, columns } => Ok(Changed {
            answer: create(store, &relation, columns),
            kept,
        }),
        Statement::Insert { relation, values } => Ok(Changed {
            answer: insert(store, &relation, values),
            kept,
        }),
        Statement::Delete { relation, id } => Ok(Changed {
            answer: delete(store, &relation, id),
            kept,
        }),
        Statement::Load {
            relation,
            file,
            header,
        } => Ok(load(alloc, store, shelf, &relation, &file, header, keeps)),
        Statement::Index { column, threshold } => Ok(Changed {
            answer: index(store, &column.relation, &column.column, threshold),
            kept,
        }),
        Statement::Rtree { column } => Ok(Changed {
            answer: rtree(store, &column.relation, &column.column),
            kept,
        }),
        other => Err(other),
    }
}

/// What comes of a statement that changes relations, whatever cursors are open; any other comes back. Where changes are
/// kept, its record is made before the store is asked.
pub(crate) fn change<D: Disk, H: Shelf>(
    alloc: Global,
    store: &mut Store<D>,
    shelf: &mut H,
    statement: Statement,
    keeps: bool,
) -> Result<Changed, Statement>
    requires in_range { IsInRange (statement_value statement) }
    ensures answers { IfOk result (λ made. (cs : List Cursor)
        → Performs (statement_value statement) (while_open store.old (H.files shelf.old) (H.faults shelf.old) cs)
        (while_open store.new (H.files shelf.new) (H.faults shelf.new) cs) (line_of_answer made.answer ∷ [])) }
    ensures kept { IfOk result (λ made. IsToKeep keeps (statement_value statement) made.answer made.kept store.old store.new) }
    ensures returned { IfErr result (λ other. (statement_value other ≡ statement_value statement) × (ChangesRelations (statement_value statement) → ⊥)) }
    ensures unchanged { OnErr result (store.new ≡ store.old) }
    ensures carries { Carries store.old store.new }
    ensures files { H.files shelf.new ≡ H.files shelf.old }
    ensures shelf { OnErr result (H.faults shelf.new ≡ H.faults shelf.old) }
    ensures counts { IfOk result (λ made. OnOk made.answer (IsCountedAlike store.old.pool store.new.pool (H.faults shelf.old) (H.faults shelf.new))) }
    ensures follows { FollowsMoment (moment_of store.old (H.files shelf.old) (H.faults shelf.old)) (moment_of store.new (H.files shelf.new) (H.faults shelf.new)) }
{
    match record_for(alloc, store.catalog(), &statement, keeps) {
        Ok(kept) => change_behind(alloc, store, shelf, statement, kept, keeps),
        Err(NoMemory {}) => {
            end_statement(statement);
            Ok(Changed::refused(Refusal::Memory))
        }
    }
}
