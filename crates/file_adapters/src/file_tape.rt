ghost use Rattle.std.specs.Prelude.{◌≡◌, ◌≤◌, None, is_some, is_none, IsOk, IsErr};
ghost use Rattle.std.specs.Io.{ReadsAtMost};
ghost use Rattle.sand_base.specs.Faults.{next_count};
ghost use Rattle.file_adapters.specs.FileTapeView.{file_tape_view, nothing_told};

use sand_base::Failed;
use sand_journal::Tape;
use std::fs::{File, Files, OpenFile, OpenOptions};
use std::io;
use std::io::{Read, Seek, SeekFrom, Write};
use std::path::Path;

/// A file of a file system as the tape of a journal: the runtime's in the program. A name is a path, as the system
/// takes it. It tells nothing of the bytes, and counts its faults.
#[derive(Drop)]
pub struct FileTape<R: Files> {
    files: R,
    file: Option<R::File>,
    faults: u64,
}

// The folder in which a file of this name stands.
fn folder_of(name: &str) -> &str {
    match Path::new(name).parent() {
        Some(folder) if !folder.as_str().is_empty() => folder.as_str(),
        _ => ".",
    }
}

// Opens the file of this name, and makes it where there is none. Its folder is synced, since a crash may lose the name
// of a file that was made, by this process or an earlier one.
fn open<R: Files>(files: &R, name: &str) -> io::Result<R::File> {
    let mut options = OpenOptions::new();
    options.read(true).write(true).create(true);
    let file = options.open(files, name)?;
    File::open(files, folder_of(name))?.sync_all()?;
    Ok(file)
}

// Reads what the file has from this place on, up to the piece's length, and says how many bytes these are.
fn read_at<F: Read + Seek + OpenFile>(file: &mut F, at: u64, piece: &mut [u8]) -> io::Result<usize>
    ensures { ReadsAtMost result piece.new }
{
    let left = file.metadata()?.len().saturating_sub(at);
    let count = piece.len().min(usize::try_from(left).unwrap_or(usize::MAX));
    file.seek(SeekFrom::Start(at))?;
    file.read_exact(&mut piece[..count])?;
    Ok(count)
}

// Writes the bytes at this place.
fn write_at<F: Write + Seek>(file: &mut F, at: u64, bytes: &[u8]) -> io::Result<()> {
    file.seek(SeekFrom::Start(at))?;
    file.write_all(bytes)
}

impl<R: Files> FileTape<R> {
    /// A tape of the files of this system, with none taken.
    pub fn new(files: R) -> FileTape<R>
        ensures file { result.file ≡ None }
        ensures faults { result.faults ≡ 0 }
    {
        FileTape {
            files,
            file: None,
            faults: 0,
        }
    }

    // Counts a fault.
    fn fault(&mut self) -> Failed
        ensures counted { self.new ≡ record self.old { faults = next_count self.old.faults } }
        ensures later { self.old.faults ≤ self.new.faults }
    {
        self.faults = self.faults.saturating_add(1);
        Failed {}
    }
}

impl<R: Files> Tape for FileTape<R> {
    ghost seen = { λ s. file_tape_view (is_some s.file) s.faults };

    ghost reads_an_image = { λ s told. nothing_told told };

    ghost now_counts = { λ s t image told le left. nothing_told told };

    ghost now_is_all = { λ s image told since. nothing_told told };

    fn start(&mut self, name: &str) -> Result<(), Failed> {
        self.file = open(&self.files, name).ok();
        if self.file.is_none() {
            return Err(self.fault());
        }
        Ok(())
    }

    fn read_at(&mut self, at: u64, piece: &mut [u8]) -> Result<usize, Failed> {
        if let Some(file) = &mut self.file
            && let Ok(count) = read_at(file, at, piece)
        {
            return Ok(count);
        }
        Err(self.fault())
    }

    fn write_at(&mut self, at: u64, bytes: &[u8]) -> Result<(), Failed> {
        if let Some(file) = &mut self.file
            && write_at(file, at, bytes).is_ok()
        {
            return Ok(());
        }
        Err(self.fault())
    }

    fn sync(&mut self) -> Result<(), Failed> {
        if let Some(file) = &self.file
            && file.sync_all().is_ok()
        {
            return Ok(());
        }
        Err(self.fault())
    }
}

#[cfg(test)]
mod tests {
    use super::*;
    use std::fs;
    use std::test::Fail;

    const NAME: &str = "file_tape_test.journal";

    #[test]
    fn what_was_written_is_read_by_a_later_tape(rt: HostRuntime) -> Result<(), Fail> {
        let mut tape = FileTape::new(&rt);
        let mut piece = [7; 4];
        assert_eq!(rt; tape.start(NAME), Ok(()));
        assert_eq!(rt; tape.read_at(0, &mut piece), Ok(0));
        assert_eq!(rt; tape.write_at(0, b"abcde"), Ok(()));
        assert_eq!(rt; tape.write_at(1, b"XY"), Ok(()));
        assert_eq!(rt; tape.sync(), Ok(()));
        let mut later = FileTape::new(&rt);
        assert_eq!(rt; later.start(NAME), Ok(()));
        assert_eq!(rt; later.read_at(2, &mut piece), Ok(3));
        assert_eq!(rt; piece, [b'Y', b'd', b'e', 7]);
        assert_eq!(rt; later.read_at(9, &mut piece), Ok(0));
        assert_eq!(rt; later.faults + tape.faults, 0);
        fs::remove_file(&rt, NAME)?;
        Ok(())
    }

    #[test]
    fn a_file_that_cannot_be_had_is_a_fault(rt: HostRuntime) {
        let mut tape = FileTape::new(&rt);
        for name in ["", ".", "no folder/x.journal", "a NUL \0"] {
            assert_eq!(rt; tape.start(name), Err(Failed {}), "{name}");
        }
        assert_eq!(rt; tape.read_at(0, &mut [0]), Err(Failed {}));
        assert_eq!(rt; tape.write_at(0, &[0]), Err(Failed {}));
        assert_eq!(rt; tape.sync(), Err(Failed {}));
        assert_eq!(rt; tape.faults, 7);
    }
}
