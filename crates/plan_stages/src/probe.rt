ghost use Rattle.std.specs.Prelude.{◌≡◌, ◌≤◌, ◌<◌, ◌++◌, ◌∷◌, [], ℕ, min, IfOk, IfErr, IfSome};
ghost use Rattle.sand_base.specs.Faults.{last_count};
ghost use Rattle.page_pool.specs.Causes.{HasPageCause};
ghost use Rattle.page_pool.specs.Pool.{IsTold};
ghost use Rattle.page_pool.specs.Reads.{IsRead};
ghost use Rattle.sand_model.specs.Database.{Database};
ghost use Rattle.statements.specs.declared.column.Column.{Column};
ghost use Rattle.plan_names.specs.Indexed.{Holds, IsLookUp};
ghost use Rattle.plan_stages.specs.MatchPrices.{ProbeCosts};
ghost use Rattle.plan_stages.specs.Matches.{GivesNextMatch};

use page_pool::{PageFault, Pages};
use plan_iterator::Answer;
use plan_names::LookUp;
use sand_base::{Ids, NoMemory, Value};
use std::alloc::Global;

/// A row whose value was read, and whose matches are looked up one after another: those behind the last id that matched,
/// 0 at first.
#[derive(Drop)]
pub struct Probe {
    pub(crate) row: Answer,
    pub(crate) value: Value,
    pub(crate) last: u32,
}

// The ids, and one more.
fn with_one(alloc: Global, ids: &[u32], id: u32) -> Result<Ids, NoMemory>
    ensures { IfOk result (λ all. all ≡ ids.now ++ id ∷ []) }
{
    let mut all = Vec::new(alloc);
    all.extend_from_slice(ids)?;
    all.push(id)?;
    Ok(Ids::new(all))
}

// A copy of the row with one id more.
fn extended(alloc: Global, row: &Answer, id: u32) -> Result<Answer, NoMemory>
    ensures gap { IfOk result (λ a. a.gap ≡ row.now.gap) }
    ensures ids { IfOk result (λ a. a.ids ≡ row.now.ids ++ id ∷ []) }
    ensures values { IfOk result (λ a. a.values ≡ row.now.values) }
{
    let ids = with_one(alloc, row.ids.as_slice(), id)?;
    let values = row.values.copy(alloc)?;
    Ok(Answer {
        gap: row.gap,
        ids,
        values,
    })
}

impl Probe {
    /// The row with its next match, `None` where none is left. It makes one look-up, and after a refusal it is as it was.
    pub(crate) fn next<P: Pages>(
        &mut self,
        alloc: Global,
        pages: &mut P,
        look_up: &LookUp,
    ) -> Result<Option<Answer>, PageFault>
        requires { IsTold (P.shown pages.old) → Holds (P.shown pages.old).pages look_up.now }
        ensures gives { IsTold (P.shown pages.old) → (d : Database) (column : Column) → IsLookUp d column look_up.now (P.shown pages.old).pages → GivesNextMatch d column self.old result self.new }
        ensures rises { IfOk result (λ found. IfSome found (λ row. self.old.last < self.new.last)) }
        ensures kept { IfErr result (λ fault. self.new ≡ self.old) }
        ensures read { IsRead (P.shown pages.old) (P.shown pages.new) }
        ensures up { min (P.shown pages.old).gets last_count ≤ (P.shown pages.new).gets }
        ensures cause { HasPageCause (P.shown pages.old) (P.shown pages.new) result }
        ensures costs { IsTold (P.shown pages.old) → ProbeCosts look_up.now (P.shown pages.old).pages self.old result self.new (P.shown pages.old) (P.shown pages.new) }
    {
        let Some(id) = look_up.next(alloc, pages, &self.value, self.last)? else {
            return Ok(None);
        };
        let row = extended(alloc, &self.row, id)?;
        self.last = id;
        Ok(Some(row))
    }
}
