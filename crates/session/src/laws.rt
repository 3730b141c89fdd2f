ghost use Rattle.std.specs.Prelude.{Bool, IsTrue, ℕ, List};
ghost use Rattle.sand_base.specs.declared.limits.Limits.{Limits};
ghost use Rattle.sand_journal.specs.ChangeBody.{ChangeValue};
ghost use Rattle.sand_model.specs.Cursor.{State};
ghost use Rattle.session.specs.KeptRun.{HasAll, HasBadRecord, IsWorldOf};

use sand_journal::a_body_has_one_change;

/// No record is bad behind which a run begins to read: so `JournalBad` comes exactly where one is, unless another fault came before it.
pub fn no_run_begins_behind_a_bad_record()
    ensures { (limits : Limits) (disk told : Bool) (image : List ℕ) (changes : List ChangeValue) (state : State) → HasAll told image changes → IsWorldOf limits disk changes state
        → IsTrue told → IsTrue disk → HasBadRecord limits disk told image → ⊥ }
{
    a_body_has_one_change();
}
