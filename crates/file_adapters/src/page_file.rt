// Pages of 4,096 bytes in an open file: page `n` stands at byte 4,096 · n.
ghost use Rattle.std.specs.Prelude.{◌≡◌, ◌*◌, ◌^◌, ◌≤◌, IfOk, OnErr};

use std::fs::{Files, OpenOptions};
use std::io;
use std::io::{ErrorKind, Read, Seek, SeekFrom, Write};

// The byte at which page `n` begins. An error where no u64 counts it.
fn offset(n: u64) -> io::Result<u64>
    ensures at { IfOk result (λ at. at ≡ 4096 * n) }
    ensures far { OnErr result (2 ^ 64 ≤ 4096 * n) }
{
    match n.checked_mul(4096) {
        Some(at) => Ok(at),
        None => Err(ErrorKind::InvalidInput.into()),
    }
}

// Makes the file of this name, or empties it, and opens it to be read and written.
pub(crate) fn create<R: Files>(files: &R, name: &str) -> io::Result<R::File> {
    let mut options = OpenOptions::new();
    options.read(true).write(true).create(true).truncate(true);
    options.open(files, name)
}

// Reads page `n`. A file that ends before the page does is an error.
pub(crate) fn read_page<F: Read + Seek>(
    file: &mut F,
    n: u64,
    page: &mut [u8; 4096],
) -> io::Result<()> {
    file.seek(SeekFrom::Start(offset(n)?))?;
    file.read_exact(page)
}

// Writes page `n`, and makes the file longer where it ends before that.
pub(crate) fn write_page<F: Write + Seek>(
    file: &mut F,
    n: u64,
    page: &[u8; 4096],
) -> io::Result<()> {
    file.seek(SeekFrom::Start(offset(n)?))?;
    file.write_all(page)
}
