ghost use Rattle.std.specs.Prelude.{◌≡◌, List, IfSome, None};
ghost use Rattle.page_pool.specs.Disk.{PageMap};
ghost use Rattle.page_pool.specs.Pool.{StampMap};
ghost use Rattle.statements.specs.Plan.{plan_value};
ghost use Rattle.plan_iterator.specs.Standing.{IsAt};
ghost use Rattle.plan_iterator.specs.Rows.{counts_of};
ghost use Rattle.sand_model.specs.Checks.{check_operators};
ghost use Rattle.sand_model.specs.Cursor.{Cursor};
ghost use Rattle.statements.specs.Statement.{OpenCursor as Opens};
ghost use Rattle.sand_model.specs.StatementChecks.{Setting, early};
ghost use Rattle.sand_store.specs.Catalog.{IsCatalog};
ghost use Rattle.sand_store.specs.Contents.{database_in};
ghost use Rattle.statement_exec.specs.LeafLines.{IsOfCheck, state_beside};
ghost use Rattle.open_cursors.specs.OpenCursors.{AreNamed, AtStamp, StandAll};

use crate::OpenCursor;
use crate::next_rows::place_of;
use plan_iterator::{RowSource, RowStage};
use plan_names::{check_depth, check_operators};
use sand_base::{Label, Refusal};
use sand_store::Catalog;
use script_text::Plan;

/// The most open cursors.
pub const MOST_CURSORS: usize = 16;

/// Why a cursor of this name can't be opened over a plan beside those that are open; None where it can.
pub(crate) fn refused_open<S: RowSource, T: RowStage>(
    catalog: &Catalog,
    cursors: &[OpenCursor<S, T>],
    name: &Label,
    plan: &Plan,
) -> Option<Refusal>
    requires { IsCatalog catalog.now }
    ensures checks { (stamps : StampMap) (pages : PageMap) (cs : List Cursor) → StandAll (AtStamp (λ r. IsAt S.At T.Stands T.closed (λ s. counts_of (S.seen s)) r)) stamps cursors.now cs
        → (setting : Setting) → early setting (state_beside catalog.now pages cs) (Opens name.now (plan_value plan.now)) ≡ result }
    ensures names { (pages : PageMap) (cs : List Cursor) → AreNamed cursors.now cs → (setting : Setting)
        → early setting (state_beside catalog.now pages cs) (Opens name.now (plan_value plan.now)) ≡ result }
    ensures of_check { IfSome result IsOfCheck }
    ensures openable { (result ≡ None) → (pages : PageMap) → check_operators (database_in pages catalog.now.relations) (plan_value plan.now) ≡ None }
{
    if let Some(_at) = place_of(cursors, name.as_str()) {
        return Some(Refusal::CursorNameTaken);
    }
    if let Err(why) = check_operators(catalog, plan) {
        return Some(why);
    }
    if cursors.len() >= MOST_CURSORS {
        return Some(Refusal::TooManyCursors);
    }
    match check_depth(plan) {
        Ok(()) => None,
        Err(why) => Some(why),
    }
}
