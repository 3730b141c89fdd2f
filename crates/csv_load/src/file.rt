ghost use Rattle.std.specs.Prelude.{◌≡◌, ◌≤◌, IfOk, IfErr, Err, length};
ghost use Rattle.std.specs.Io.KnownBytes.{ReadConsumes};
ghost use Rattle.sand_base.specs.Faults.{HasCause};
ghost use Rattle.sand_model.specs.StatementChecks.{longest_file};
ghost use Rattle.csv_load.specs.declared.fault.LoadFault.TheVariants as fault;
ghost use Rattle.csv_load.specs.FileBytes.{IsLoadCaused, IsOfTheOutside, IsTooLong, IsWholeFile, TakesBytes, TakesFew, TakesOn};

use crate::{LONGEST_FILE, LoadFault};
use sand_base::{Failed, Shelf};
use std::alloc::Global;

/// How many bytes of a file are asked for at a time.
const PIECE: usize = 4_096;

// Reads the next bytes into the front of the piece, at most as many as are wanted.
fn read_piece<H: Shelf>(shelf: &mut H, piece: &mut [u8], want: usize) -> Result<usize, Failed>
    requires chosen { H.chosen shelf.old }
    requires some { 1 ≤ want }
    requires room { want ≤ length piece.old }
    ensures files { H.files shelf.new ≡ H.files shelf.old }
    ensures chosen { H.chosen shelf.new }
    ensures bound { IfOk result (λ n. n ≤ want) }
    ensures bytes { ReadConsumes (H.left shelf.old) (H.left shelf.new) result piece.new }
    ensures cause { HasCause (H.faults shelf.old) (H.faults shelf.new) result }
{
    let n = shelf.read(&mut piece[..want])?;
    Ok(n)
}

// Reads the next bytes of the chosen file behind the others, at most one more than a file may have, and says how many.
fn read_more<H: Shelf>(shelf: &mut H, bytes: &mut Vec<u8>) -> Result<usize, LoadFault>
    requires chosen { H.chosen shelf.old }
    requires short { length bytes.old.items ≤ longest_file }
    ensures files { H.files shelf.new ≡ H.files shelf.old }
    ensures chosen { H.chosen shelf.new }
    ensures takes { IfOk result (λ n. TakesBytes (H.left shelf.old) (H.left shelf.new) bytes.old.items bytes.new.items n) }
    ensures few { TakesOn (H.left shelf.old) (H.left shelf.new) bytes.old.items }
    ensures outside { IfErr result IsOfTheOutside }
    ensures cause { IsLoadCaused (H.faults shelf.old) (H.faults shelf.new) result }
{
    let mut piece = [0; PIECE];
    let want = PIECE.min(LONGEST_FILE + 1 - bytes.len());
    let count = read_piece(shelf, &mut piece, want)?;
    bytes.extend_from_slice(&piece[..count])?;
    Ok(count)
}

/// All bytes of the file with this name, at most 67,108,864. `File` comes where the shelf failed, which a name that it does not
/// have is too, `FileTooLong` where the file has more bytes, of which one too many was read. Nothing else is refused but memory.
pub fn read_file<H: Shelf>(alloc: Global, shelf: &mut H, name: &str) -> Result<Vec<u8>, LoadFault>
    ensures files { H.files shelf.new ≡ H.files shelf.old }
    ensures short { IfOk result (λ bytes. length bytes.items ≤ longest_file) }
    ensures whole { IfOk result (λ bytes. IsWholeFile (H.files shelf.old) name.now bytes.items) }
    ensures long { result ≡ Err fault.FileTooLong → IsTooLong (H.files shelf.old) name.now (H.left shelf.new) }
    ensures few { H.chosen shelf.new → TakesFew (H.files shelf.old) name.now (H.left shelf.new) }
    ensures cause { IsLoadCaused (H.faults shelf.old) (H.faults shelf.new) result }
{
    shelf.choose(name)?;
    let mut bytes = Vec::new(alloc);
    'pieces: loop {
        let count = read_more(shelf, &mut bytes)?;
        if count == 0 {
            return Ok(bytes);
        }
        if bytes.len() > LONGEST_FILE {
            return Err(LoadFault::FileTooLong);
        }
    }
}
