ghost use Rattle.std.specs.Prelude.{◌≡◌, ◌≤◌, ℕ, List, IsTrue, length};
ghost use Rattle.sand_journal.specs.Tape.{TapeView, StartsTape, ReadsTape, WritesTape, SyncsTape};

use sand_base::Failed;

/// A file of bytes of which a crash may leave other images, until a sync.
///
/// Until a sync succeeds, each written range and all past the old end may hold any bytes, and the file may end
/// anywhere from the old end on. All other bytes stay.
pub trait Tape {
    /// The bytes that a read gives and the images that crashes leave, where the tape tells them, and how often a
    /// call failed.
    ghost seen: { Self → TapeView };

    /// Takes the file of this name, with its contents.
    fn start(&mut self, name: &str) -> Result<(), Failed>
        ensures { StartsTape (seen self.old) (seen self.new) result };

    /// Reads as many bytes from `at` on as the file has, up to the piece's length, into the front of the piece,
    /// and says how many: none at the end and past it.
    fn read_at(&mut self, at: u64, piece: &mut [u8]) -> Result<usize, Failed>
        ensures { ReadsTape (seen self.old) (seen self.new) at piece.new result };

    /// Writes over what stands from `at` on, and past the end. After `Failed` the range and what is past the old
    /// end may hold any bytes.
    fn write_at(&mut self, at: u64, bytes: &[u8]) -> Result<(), Failed>
        requires { IsTrue (seen self.old).told → at ≤ length (seen self.old).bytes }
        ensures { WritesTape (seen self.old) (seen self.new) at bytes.now result };

    /// After a sync that is accepted, a crash leaves what a read gives.
    fn sync(&mut self) -> Result<(), Failed>
        ensures { SyncsTape (seen self.old) (seen self.new) result };

    /// What is read is one of the images.
    ghost reads_an_image: { (tape : Self) → IsTrue (seen tape).told → (seen tape).leaves (seen tape).bytes };

    /// This moment is one of those since an earlier one.
    ghost now_counts: { (tape : Self) (t : ℕ) (image : List ℕ) → IsTrue (seen tape).told → t ≤ (seen tape).clock → (seen tape).leaves image → (seen tape).since t image };

    /// Since this moment there is no other.
    ghost now_is_all: { (tape : Self) (image : List ℕ) → IsTrue (seen tape).told → (seen tape).since (seen tape).clock image → (seen tape).leaves image };
}
