ghost use Rattle.std.specs.Prelude.{◌≡◌, map};

use sand_base::Label;
use script_text::Statement;
use std::marker::Model;

/// The encodings of rows. Contracts see the list of their bytes.
#[derive(Drop)]
pub struct Encodings {
    rows: Vec<Vec<u8>>,
}

impl Model for Encodings {
    ghost use Rattle.std.specs.Prelude.{ℕ, List, map};

    ghost Value = { List (List ℕ) };

    ghost view = { λ encodings. map (λ row. row.items) encodings.rows.items };
}

impl Encodings {
    /// Encodings of these bytes, a row each.
    pub fn new(rows: Vec<Vec<u8>>) -> Encodings
        ensures { result ≡ map (λ row. row.items) rows.items }
    {
        Encodings { rows }
    }

    /// The bytes of each row, in the order of the rows.
    pub fn rows(&self) -> &[Vec<u8>]
        ensures { map (λ row. row.items) result.now ≡ self.now }
    {
        &self.rows
    }
}

/// A change of the store that was accepted: a statement, or rows of a relation. A record holds one.
#[derive(Drop)]
pub enum Change {
    /// A `create`, a `delete`, an `index` or an `rtree`.
    Line(Statement),
    /// The rows of an `insert` or a `load`, in their order.
    Rows { relation: Label, rows: Encodings },
}
