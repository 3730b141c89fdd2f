ghost use Rattle.std.specs.Prelude.{◌≡◌, ◌≤◌};
ghost use Rattle.sand_base.specs.Calls.{Begins, no_calls, one_fault};
ghost use Rattle.sand_base.specs.Faults.{HasCause};

use crate::Failed;
use std::marker::Model;

/// The calls of an object in memory, numbered from 1, with a list that names those that fail. At the
/// greatest u64 the number stays, and from then on no call fails by the list.
#[derive(Drop)]
pub struct Calls {
    fails: Vec<u64>,
    made: u64,
    faults: u64,
}

impl Model for Calls {
    ghost use Rattle.sand_base.specs.Calls.{CallsState};

    ghost Value = { CallsState };

    ghost view = { λ a. record { fails = a.fails.items; made = a.made; faults = a.faults } };
}

impl Calls {
    /// No call was made yet.
    pub fn new(fails: Vec<u64>) -> Calls
        ensures { result ≡ no_calls fails.items }
    {
        Calls {
            fails,
            made: 0,
            faults: 0,
        }
    }

    /// The number of the last call, and 0 before the first.
    pub fn made(&self) -> u64
        ensures { result ≡ self.now.made }
    {
        self.made
    }

    /// Begins a call. `Failed` comes exactly where the list names it, and is counted.
    pub fn begin(&mut self) -> Result<(), Failed>
        ensures begins { Begins self.old self.new result }
        ensures cause { HasCause self.old.faults self.new.faults result }
    {
        self.made = self.made.saturating_add(1);
        if self.made < u64::MAX && self.fails.contains(&self.made) {
            return Err(self.fault());
        }
        Ok(())
    }

    /// Counts a fault of the call that was begun last.
    pub fn fault(&mut self) -> Failed
        ensures counted { self.new ≡ one_fault self.old }
        ensures later { self.old.faults ≤ self.new.faults }
    {
        self.faults = self.faults.saturating_add(1);
        Failed {}
    }
}
