ghost use Rattle.std.specs.Prelude.{◌<◌, ◌≤◌, ℕ, List, length, IfOk};
ghost use Rattle.sand_base.specs.Faults.{HasCause};
ghost use Rattle.sand_base.specs.Streams.{TakesFront};

use crate::Failed;

/// Where the answers go.
pub trait Sink {
    /// These are the bytes taken so far, where the sink tells them. (A relation, since a sink that keeps
    /// a digest alone can tell it in no other form.)
    ghost took: { Self → List ℕ → Type 0 };

    /// How often a write failed.
    ghost faults: { Self → ℕ };

    /// Takes bytes from the front of the piece, at least one, and says how many. After `Failed` nothing was taken.
    fn write(&mut self, piece: &[u8]) -> Result<usize, Failed>
        requires { 0 < length piece.now }
        ensures count { IfOk result (λ n. (1 ≤ n) × (n ≤ length piece.now)) }
        ensures bytes { TakesFront (took self.old) (took self.new) result piece.now }
        ensures cause { HasCause (faults self.old) (faults self.new) result };
}
