ghost use Rattle.std.specs.Prelude.{◌≡◌};

use crate::{Place, Test};
use std::marker::Model;

/// The tests of a `filter`, in their order. Contracts see the list.
#[derive(Drop)]
pub struct Tests {
    items: Vec<Test>,
}

impl Model for Tests {
    ghost use Rattle.std.specs.Prelude.{List};
    ghost use Rattle.statements.specs.declared.test.Test.{Test};

    ghost Value = { List Test };

    ghost view = { λ tests. tests.items.items };
}

impl Tests {
    pub fn new(items: Vec<Test>) -> Tests
        ensures { result ≡ items.items }
    {
        Tests { items }
    }

    pub fn as_slice(&self) -> &[Test]
        ensures { result.now ≡ self.now }
    {
        &self.items
    }
}

/// The places of a `fetch`, in their order. Contracts see the list.
#[derive(Drop)]
pub struct Places {
    items: Vec<Place>,
}

impl Model for Places {
    ghost use Rattle.std.specs.Prelude.{List};
    ghost use Rattle.statements.specs.declared.column.Place.{Place};

    ghost Value = { List Place };

    ghost view = { λ places. places.items.items };
}

impl Places {
    pub fn new(items: Vec<Place>) -> Places
        ensures { result ≡ items.items }
    {
        Places { items }
    }

    pub fn as_slice(&self) -> &[Place]
        ensures { result.now ≡ self.now }
    {
        &self.items
    }
}
