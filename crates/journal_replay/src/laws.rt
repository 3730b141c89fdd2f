ghost use Rattle.std.specs.Prelude.{◌≡◌, ℕ, List, [], ◌∷◌, ◌++◌, Some, None};
ghost use Rattle.sand_base.specs.declared.value.Value.{Value};
ghost use Rattle.sand_journal.specs.ChangeBody.{ChangeValue, Rows};
ghost use Rattle.sand_model.specs.Database.{Database, Relation, relation_named, changed_at, with_row};
ghost use Rattle.statements.specs.Statement.{Insert};
ghost use Rattle.sand_model.specs.StatementChecks.{Setting, entered};
ghost use Rattle.journal_replay.specs.ChangedDatabase.{PassesChecks, TakesChange, changed_by, world_after};
ghost use Rattle.journal_replay.specs.EncodedRows.{AreEncodingsOf};

/// The change of a row, or of rows, by their encodings does what the `insert` or the `load` did that was accepted.
pub fn changes_of_rows_do_what_their_statements_did()
    ensures inserted { (setting : Setting) (d : Database) (name : List ℕ) (row : List Value) (encodings : List (List ℕ)) (relation : Relation) → relation_named d name ≡ Some relation
        → AreEncodingsOf relation.schema (row ∷ []) encodings → PassesChecks setting d (Insert name row)
        → TakesChange setting (Rows name encodings) d × (changed_by setting (Rows name encodings) d ≡ changed_at name (with_row setting.gap row) d) }
    ensures loaded { (setting : Setting) (d : Database) (name : List ℕ) (rows : List (List Value)) (encodings : List (List ℕ)) (relation : Relation) → relation_named d name ≡ Some relation
        → AreEncodingsOf relation.schema rows encodings → (entered setting rows relation).0 ≡ None
        → TakesChange setting (Rows name encodings) d × (changed_by setting (Rows name encodings) d ≡ changed_at name (λ r. (entered setting rows r).1) d) }
{}

/// The world after one change more is that of the changes, changed by it.
pub fn the_last_change_comes_last()
    ensures { (setting : Setting) (changes : List ChangeValue) (change : ChangeValue) (d : Database)
        → world_after setting (changes ++ change ∷ []) d ≡ changed_by setting change (world_after setting changes d) }
{}
