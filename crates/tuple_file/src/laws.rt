ghost use Rattle.std.specs.Prelude.{◌≡◌, ℕ, ◌≤◌, ◌<◌, List, [], ◌∷◌, ◌++◌, Option, None, MatchOption};
ghost use Rattle.std.specs.List.{All};
ghost use Rattle.sand_base.specs.declared.kind.Kind.{Kind};
ghost use Rattle.sand_base.specs.declared.value.Value.{Value as Held};
ghost use Rattle.tuple_codec.specs.Encoding.{encoding};
ghost use Rattle.tuple_codec.specs.Decoding.{HasValue};
ghost use Rattle.code_btree.specs.Tree.{Store, times};
ghost use Rattle.tuple_file.specs.declared.file.TupleFile.{TupleFile};
ghost use Rattle.tuple_file.specs.Rows.{of_id, with_id, without_id};
ghost use Rattle.tuple_file.specs.File.{file_pages};
ghost use Rattle.tuple_file.specs.Calls.{IsRowAt, IsValueAt, FileUnmoved};
ghost use Rattle.tuple_file.specs.Table.{encodings, AreRowsFor};

/// A file depends only on its own pages: where these stay, its list and its pages stay, and it is a file still.
/// So a change of one file or tree leaves every other one of the pool as it is.
pub fn own_pages_decide()
    ensures { (m w : Store) (f : TupleFile) → ((q : ℕ) → 1 ≤ times q (file_pages m f) → w q ≡ m q) → FileUnmoved m w f }
{}

/// An id above all others comes last.
pub fn a_greatest_id_comes_last()
    ensures { (id : ℕ) (bytes : List ℕ) (rows : List (ℕ × List ℕ)) → All (λ r. r.0 < id) rows → with_id id bytes rows ≡ rows ++ ((id, bytes) ∷ []) }
{}

/// Where the bytes are the encodings of rows of the schema, the row that is fetched is that of the id.
pub fn fetched_rows_are_those_of_the_table()
    ensures { (schema : List (List ℕ × Kind)) (table : List (ℕ × List Held)) (id : ℕ) (found : Option (List Held)) → AreRowsFor schema table
        → IsRowAt schema (encodings table) id found → found ≡ of_id id table }
{}

/// And the value that is fetched is the one that this row has in the column, none where the id isn't there.
pub fn fetched_values_are_those_of_the_table()
    ensures { (schema : List (List ℕ × Kind)) (table : List (ℕ × List Held)) (id column : ℕ) (value : Option Held) → AreRowsFor schema table
        → IsValueAt schema (encodings table) id column value → MatchOption (of_id id table) (value ≡ None) (λ row. HasValue row column value) }
{}

/// Encodings follow the rows, where one is put or taken.
pub fn encodings_follow_the_rows()
    ensures put { (id : ℕ) (row : List Held) (table : List (ℕ × List Held)) → encodings (with_id id row table) ≡ with_id id (encoding row) (encodings table) }
    ensures taken { (id : ℕ) (table : List (ℕ × List Held)) → encodings (without_id id table) ≡ without_id id (encodings table) }
{}
