ghost use Rattle.std.specs.Prelude.{◌≡◌, IfOk};

use crate::{NoMemory, Rect, Shape};
use std::alloc::Global;

/// What a ranked search measures from: a shape, or a closed rectangle. Definitions speak of it as the one
/// type of figure.
#[derive(Drop)]
pub enum Goal {
    Shape(Shape),
    Rect(Rect),
}

impl Goal {
    /// An equal goal.
    pub fn copy(&self, alloc: Global) -> Result<Goal, NoMemory>
        ensures { IfOk result (λ goal. goal ≡ self.now) }
    {
        match self {
            Goal::Shape(shape) => Ok(Goal::Shape(shape.copy(alloc)?)),
            Goal::Rect(window) => Ok(Goal::Rect(*window)),
        }
    }
}
