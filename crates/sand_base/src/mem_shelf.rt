ghost use Rattle.std.specs.Prelude.{◌≡◌, None, Some, length, map, OnOk, OnErr, IsSome};
ghost use Rattle.std.specs.Io.{ReadsAtMost};
ghost use Rattle.std.specs.Io.KnownBytes.{ReadConsumes};
ghost use Rattle.sand_base.specs.Calls.{no_calls};
ghost use Rattle.sand_base.specs.Faults.{HasCause};
ghost use Rattle.sand_base.specs.MemShelf.{Chooses, ReadsFile, file_named};
ghost use Rattle.sand_base.specs.Shelf.{Opens};

use crate::files::DataFiles;
use crate::{Calls, Failed, Label, Shelf};
use std::alloc::Global;
use std::marker::Model;

/// Data files in memory that fail at the calls that a list names, and at names that they don't have.
#[derive(Drop)]
pub struct MemShelf {
    files: DataFiles,
    calls: Calls,
}

impl Model for MemShelf {
    ghost use Rattle.sand_base.specs.MemShelf.{ShelfState};

    ghost Value = { ShelfState };

    ghost view = { λ a. record { files = a.files; calls = a.calls } };
}

impl MemShelf {
    /// A shelf of these files, by their names; of equal names the first counts. A call fails where `fails` has its
    /// number, which counts from 1.
    pub fn new(_alloc: Global, files: Vec<(Label, Vec<u8>)>, fails: Vec<u64>) -> MemShelf
        ensures { result ≡ record { files = record { files = map (λ f. (f.0, f.1.items)) files.items; left = None }; calls = no_calls fails.items } }
    {
        MemShelf {
            files: DataFiles::new(files),
            calls: Calls::new(fails),
        }
    }
}

impl Shelf for MemShelf {
    ghost files = { λ s. Some (file_named s.files.files) };

    ghost left = { λ s. s.files.left };

    ghost chosen = { λ s. IsSome s.files.left };

    ghost faults = { λ s. s.calls.faults };

    fn choose(&mut self, name: &str) -> Result<(), Failed>
        ensures files { Some (file_named self.new.files.files) ≡ Some (file_named self.old.files.files) }
        ensures opened { OnOk result (Opens (Some (file_named self.old.files.files)) name.now self.new.files.left) }
        ensures chosen { OnOk result (IsSome self.new.files.left) }
        ensures none { OnErr result (IsSome self.new.files.left → ⊥) }
        ensures cause { HasCause self.old.calls.faults self.new.calls.faults result }
        ensures step { Chooses self.old self.new result name.now }
    {
        self.files.close();
        self.calls.begin()?;
        if !self.files.open(name) {
            return Err(self.calls.fault());
        }
        Ok(())
    }

    fn read(&mut self, piece: &mut [u8]) -> Result<usize, Failed>
        requires { IsSome self.old.files.left }
        ensures files { Some (file_named self.new.files.files) ≡ Some (file_named self.old.files.files) }
        ensures chosen { IsSome self.new.files.left }
        ensures bound { ReadsAtMost result piece.new }
        ensures bytes { ReadConsumes self.old.files.left self.new.files.left result piece.new }
        ensures cause { HasCause self.old.calls.faults self.new.calls.faults result }
        ensures step { ReadsFile self.old self.new result (length piece.old) }
    {
        self.calls.begin()?;
        Ok(self.files.read(piece))
    }
}
