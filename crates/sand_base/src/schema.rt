ghost use Rattle.std.specs.Prelude.{◌≡◌, IfOk};

use crate::{Kind, Label, NoMemory};
use std::alloc::Global;
use std::marker::Model;

/// The columns of a relation, each a name and a kind, in their order. Contracts see the list.
#[derive(Drop)]
pub struct Schema {
    columns: Vec<(Label, Kind)>,
}

impl Model for Schema {
    ghost use Rattle.std.specs.Prelude.{ℕ, List};
    ghost use Rattle.sand_base.specs.declared.kind.Kind.{Kind};

    ghost Value = { List (List ℕ × Kind) };

    ghost view = { λ schema. schema.columns.items };
}

impl Schema {
    pub fn new(columns: Vec<(Label, Kind)>) -> Schema
        ensures { result ≡ columns.items }
    {
        Schema { columns }
    }

    pub fn columns(&self) -> &[(Label, Kind)]
        ensures { result.now ≡ self.now }
    {
        &self.columns
    }

    /// An equal schema.
    pub fn copy(&self, alloc: Global) -> Result<Schema, NoMemory>
        ensures { IfOk result (λ schema. schema ≡ self.now) }
    {
        let mut columns = Vec::with_capacity(alloc, self.columns.len())?;
        'columns: for (name, kind) in &self.columns {
            columns.push((name.copy(alloc)?, *kind))?;
        }
        Ok(Schema { columns })
    }
}
