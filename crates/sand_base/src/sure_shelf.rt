ghost use Rattle.std.specs.Prelude.{◌≡◌, None, Some, Ok, length, map, OnOk, OnErr, IsSome};
ghost use Rattle.std.specs.Io.{ReadsAtMost};
ghost use Rattle.std.specs.Io.KnownBytes.{ReadConsumes};
ghost use Rattle.sand_base.specs.Faults.{HasCause};
ghost use Rattle.sand_base.specs.MemShelf.{SureChooses, file_named, read_count, read_on};
ghost use Rattle.sand_base.specs.Shelf.{Opens};

use crate::files::DataFiles;
use crate::{Failed, Label, Shelf};
use std::alloc::Global;
use std::marker::Model;

/// Data files in memory that fail only at names that they don't have.
#[derive(Drop)]
pub struct SureShelf {
    files: DataFiles,
    faults: u64,
}

impl Model for SureShelf {
    ghost use Rattle.sand_base.specs.MemShelf.{SureShelfState};

    ghost Value = { SureShelfState };

    ghost view = { λ a. record { files = a.files; faults = a.faults } };
}

impl SureShelf {
    /// A shelf of these files, by their names; of equal names the first counts.
    pub fn new(_alloc: Global, files: Vec<(Label, Vec<u8>)>) -> SureShelf
        ensures { result ≡ record { files = record { files = map (λ f. (f.0, f.1.items)) files.items; left = None }; faults = 0 } }
    {
        SureShelf {
            files: DataFiles::new(files),
            faults: 0,
        }
    }
}

impl Shelf for SureShelf {
    ghost files = { λ s. Some (file_named s.files.files) };

    ghost left = { λ s. s.files.left };

    ghost chosen = { λ s. IsSome s.files.left };

    ghost faults = { λ s. s.faults };

    fn choose(&mut self, name: &str) -> Result<(), Failed>
        ensures files { Some (file_named self.new.files.files) ≡ Some (file_named self.old.files.files) }
        ensures opened { OnOk result (Opens (Some (file_named self.old.files.files)) name.now self.new.files.left) }
        ensures chosen { OnOk result (IsSome self.new.files.left) }
        ensures none { OnErr result (IsSome self.new.files.left → ⊥) }
        ensures cause { HasCause self.old.faults self.new.faults result }
        ensures step { SureChooses self.old self.new result name.now }
    {
        if !self.files.open(name) {
            self.faults = self.faults.saturating_add(1);
            return Err(Failed {});
        }
        Ok(())
    }

    fn read(&mut self, piece: &mut [u8]) -> Result<usize, Failed>
        requires { IsSome self.old.files.left }
        ensures files { Some (file_named self.new.files.files) ≡ Some (file_named self.old.files.files) }
        ensures chosen { IsSome self.new.files.left }
        ensures bound { ReadsAtMost result piece.new }
        ensures bytes { ReadConsumes self.old.files.left self.new.files.left result piece.new }
        ensures cause { HasCause self.old.faults self.new.faults result }
        ensures count { result ≡ Ok (read_count self.old.files (length piece.old)) }
        ensures step { self.new ≡ record self.old { files = read_on self.old.files (read_count self.old.files (length piece.old)) } }
    {
        Ok(self.files.read(piece))
    }
}
