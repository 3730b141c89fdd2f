ghost use Rattle.std.specs.Prelude.{◌≡◌, IfOk};

use crate::{NoMemory, Value};
use std::alloc::Global;
use std::marker::Model;

/// The values of a row, in the order of its columns. Contracts see the list.
#[derive(Drop)]
pub struct Row {
    values: Vec<Value>,
}

impl Model for Row {
    ghost use Rattle.std.specs.Prelude.{List};
    ghost use Rattle.sand_base.specs.declared.value.Value.{Value as Held};

    ghost Value = { List Held };

    ghost view = { λ row. row.values.items };
}

impl Row {
    pub fn new(values: Vec<Value>) -> Row
        ensures { result ≡ values.items }
    {
        Row { values }
    }

    pub fn values(&self) -> &[Value]
        ensures { result.now ≡ self.now }
    {
        &self.values
    }

    /// An equal row.
    pub fn copy(&self, alloc: Global) -> Result<Row, NoMemory>
        ensures { IfOk result (λ row. row ≡ self.now) }
    {
        let mut values = Vec::with_capacity(alloc, self.values.len())?;
        'values: for value in &self.values {
            values.push(value.copy(alloc)?)?;
        }
        Ok(Row { values })
    }
}
