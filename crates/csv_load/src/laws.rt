ghost use Rattle.std.specs.Prelude.{◌≡◌, ℕ, Bool, List, Option, All};
ghost use Rattle.sand_base.specs.InRange.{IsRowOf, IsRowInRange};
ghost use Rattle.sand_base.specs.declared.kind.Kind.{Kind};
ghost use Rattle.sand_base.specs.declared.value.Value.{Value};
ghost use Rattle.sand_model.specs.StatementChecks.{AreRows};
ghost use Rattle.script_text.specs.Field.{ReadsField};
ghost use Rattle.csv_load.specs.FieldValue.{field_value};
ghost use Rattle.csv_load.specs.FileRows.{rows_of_file};

/// Does nothing: its clauses say that each field has its value, if it is one of the kind, and no other.
pub fn fields_have_one_value()
    ensures reads { (kind : Kind) (field : List ℕ) → ReadsField kind field (field_value kind field) }
    ensures only { (kind : Kind) (field : List ℕ) (found : Option Value) → ReadsField kind field found → found ≡ field_value kind field }
{}

/// Does nothing: its clause says that the rows of a file are rows of the schema and in range.
pub fn rows_of_a_file_fit_its_schema()
    ensures { (bytes : List ℕ) (schema : List (List ℕ × Kind)) (header : Bool) (rows : List (List Value))
        → rows_of_file bytes schema header ≡ AreRows rows → All (λ row. IsRowOf schema row × IsRowInRange row) rows }
{}
