ghost use Rattle.std.specs.Prelude.{◌≡◌, [], ◌∷◌};

use std::marker::Model;

/// The ids of a row of a plan, one for each relation in it, or of a leaf. Contracts see the list.
#[derive(Drop)]
pub struct Ids {
    held: Held,
}

// A single id stands in its place, since most rows have one, and others in a list.
#[derive(Drop)]
pub(crate) enum Held {
    One([u32; 1]),
    List(Vec<u32>),
}

impl Model for Ids {
    ghost use Rattle.std.specs.Prelude.{ℕ, List};
    ghost use Rattle.sand_base.specs.Ids.{held_ids};

    ghost Value = { List ℕ };

    ghost view = { λ a. held_ids a.held };
}

impl Ids {
    /// The ids of a list.
    pub fn new(ids: Vec<u32>) -> Ids
        ensures { result ≡ ids.items }
    {
        Ids {
            held: Held::List(ids),
        }
    }

    /// A single id. It takes no memory.
    pub fn one(id: u32) -> Ids
        ensures { result ≡ id ∷ [] }
    {
        Ids {
            held: Held::One([id]),
        }
    }

    /// The ids in their order.
    pub fn as_slice(&self) -> &[u32]
        ensures { result.now ≡ self.now }
    {
        match &self.held {
            Held::One(id) => id,
            Held::List(ids) => ids,
        }
    }
}
