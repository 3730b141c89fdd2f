ghost use Rattle.std.specs.Prelude.{◌≡◌, ⊤, [], Some, OnOk, OnErr};
ghost use Rattle.std.specs.Io.{ReadsAtMost};
ghost use Rattle.std.specs.Io.KnownBytes.{ReadConsumes};
ghost use Rattle.sand_base.specs.Faults.{HasCause};
ghost use Rattle.sand_base.specs.Shelf.{Opens};
ghost use Rattle.work_gen.specs.EmptyFiles.{empty_files};

use sand_base::{Failed, Shelf};

/// A shelf on which each file is empty, and which never fails: for a workload, which loads no file.
#[derive(Drop)]
pub struct EmptyShelf {}

impl Shelf for EmptyShelf {
    ghost files = { λ s. Some empty_files };

    ghost left = { λ s. Some [] };

    ghost chosen = { λ s. ⊤ };

    ghost faults = { λ s. 0 };

    fn choose(&mut self, _name: &str) -> Result<(), Failed>
        ensures files { Some empty_files ≡ Some empty_files }
        ensures opened { OnOk result (Opens (Some empty_files) _name.now (Some [])) }
        ensures chosen { OnOk result ⊤ }
        ensures none { OnErr result (⊤ → ⊥) }
        ensures cause { HasCause 0 0 result }
    {
        Ok(())
    }

    fn read(&mut self, _piece: &mut [u8]) -> Result<usize, Failed>
        requires { ⊤ }
        ensures files { Some empty_files ≡ Some empty_files }
        ensures chosen { ⊤ }
        ensures bound { ReadsAtMost result _piece.new }
        ensures bytes { ReadConsumes (Some []) (Some []) result _piece.new }
        ensures cause { HasCause 0 0 result }
    {
        Ok(0)
    }
}
