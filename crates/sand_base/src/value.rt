ghost use Rattle.std.specs.Prelude.{◌≡◌, IfOk};
ghost use Rattle.sand_base.specs.Shape.{value_kind};

use crate::{Kind, Label, NoMemory, Shape};
use std::alloc::Global;

/// What a row holds in one column.
#[derive(Drop)]
pub enum Value {
    Int(i64),
    Text(Label),
    Shape(Shape),
}

impl Value {
    /// An equal value.
    pub fn copy(&self, alloc: Global) -> Result<Value, NoMemory>
        ensures { IfOk result (λ value. value ≡ self.now) }
    {
        match self {
            Value::Int(number) => Ok(Value::Int(*number)),
            Value::Text(text) => Ok(Value::Text(text.copy(alloc)?)),
            Value::Shape(shape) => Ok(Value::Shape(shape.copy(alloc)?)),
        }
    }

    /// The kind of the columns that hold such a value.
    pub fn kind(&self) -> Kind
        ensures { result ≡ value_kind self.now }
    {
        match self {
            Value::Int(_) => Kind::Int,
            Value::Text(_) => Kind::Text,
            Value::Shape(shape) => shape.kind(),
        }
    }
}
