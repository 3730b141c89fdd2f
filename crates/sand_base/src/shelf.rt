ghost use Rattle.std.specs.Prelude.{◌≡◌, ℕ, List, Option, IfOk, OnOk, OnErr};
ghost use Rattle.std.specs.Io.{ReadsAtMost};
ghost use Rattle.std.specs.Io.KnownBytes.{ReadConsumes};
ghost use Rattle.sand_base.specs.Faults.{HasCause};
ghost use Rattle.sand_base.specs.Shelf.{Files, Opens};

use crate::Failed;

/// Where data files come from: one is chosen by its name, and then read to its end.
pub trait Shelf {
    /// The bytes of each file by its name, where the shelf tells them. They never change.
    ghost files: { Self → Option Files };

    /// The bytes that are left of the chosen file, where the shelf tells them.
    ghost left: { Self → Option (List ℕ) };

    /// A file is chosen.
    ghost chosen: { Self → Type 0 };

    /// How often a call failed.
    ghost faults: { Self → ℕ };

    /// Chooses the file of this name, from its beginning. A name that the shelf doesn't have is `Failed`. After
    /// `Failed` no file is chosen.
    fn choose(&mut self, name: &str) -> Result<(), Failed>
        ensures files { files self.new ≡ files self.old }
        ensures opened { OnOk result (Opens (files self.old) name.now (left self.new)) }
        ensures chosen { OnOk result (chosen self.new) }
        ensures none { OnErr result (chosen self.new → ⊥) }
        ensures cause { HasCause (faults self.old) (faults self.new) result };

    /// Takes the next bytes of the chosen file into the front of the piece and says how many. 0 for a piece that
    /// isn't empty means the end. After `Failed` nothing was taken.
    fn read(&mut self, piece: &mut [u8]) -> Result<usize, Failed>
        requires { chosen self.old }
        ensures files { files self.new ≡ files self.old }
        ensures chosen { chosen self.new }
        ensures bound { ReadsAtMost result piece.new }
        ensures bytes { ReadConsumes (left self.old) (left self.new) result piece.new }
        ensures cause { HasCause (faults self.old) (faults self.new) result };
}
