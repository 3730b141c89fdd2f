ghost use Rattle.std.specs.Prelude.{◌≡◌, ◌≤◌, None, IsSome};
ghost use Rattle.sand_base.specs.Faults.{next_count};
ghost use Rattle.file_adapters.specs.Chosen.{bytes_left_of};

use sand_base::{Failed, Shelf};
use std::fs::{File, Files, OpenFile};
use std::io;
use std::io::Read;

/// The plain files of a file system as data files: the runtime's in the program. A name is a path, as the system takes
/// it. What the opened file tells of the bytes to come is what the shelf tells (a file of the system tells nothing). It
/// counts its faults.
#[derive(Drop)]
pub struct FileShelf<R: Files> {
    files: R,
    chosen: Option<R::File>,
    faults: u64,
}

// The file of this name, opened to be read. A folder, which the system would open too, is an error.
fn open<R: Files>(files: &R, name: &str) -> io::Result<R::File> {
    let file = File::open(files, name)?;
    if file.metadata()?.is_dir() {
        return Err(io::ErrorKind::IsADirectory.into());
    }
    Ok(file)
}

impl<R: Files> FileShelf<R> {
    /// A shelf of the files of this system, with none chosen.
    pub fn new(files: R) -> FileShelf<R>
        ensures chosen { result.chosen ≡ None }
        ensures faults { result.faults ≡ 0 }
    {
        FileShelf {
            files,
            chosen: None,
            faults: 0,
        }
    }

    // Counts a fault.
    fn fault(&mut self) -> Failed
        ensures counted { self.new ≡ record self.old { faults = next_count self.old.faults } }
        ensures later { self.old.faults ≤ self.new.faults }
    {
        self.faults = self.faults.saturating_add(1);
        Failed {}
    }
}

impl<R: Files> Shelf for FileShelf<R> {
    ghost files = { λ _. None };

    ghost left = { λ s. bytes_left_of R.File.Read.remaining s.chosen };

    ghost chosen = { λ s. IsSome s.chosen };

    ghost faults = { λ s. s.faults };

    fn choose(&mut self, name: &str) -> Result<(), Failed> {
        self.chosen = open(&self.files, name).ok();
        if self.chosen.is_none() {
            return Err(self.fault());
        }
        Ok(())
    }

    fn read(&mut self, piece: &mut [u8]) -> Result<usize, Failed> {
        let Some(file) = &mut self.chosen else {
            return Err(self.fault());
        };
        match file.read(piece) {
            Ok(n) => Ok(n),
            Err(_) => Err(self.fault()),
        }
    }
}

#[cfg(test)]
mod tests {
    use super::*;
    use std::fs;
    use std::test::Fail;

    const NAME: &str = "file_shelf_test.csv";

    #[test]
    fn a_file_is_read_from_its_beginning_to_its_end(rt: HostRuntime) -> Result<(), Fail> {
        fs::write(&rt, NAME, b"(1 1),5\n".as_slice())?;
        let mut shelf = FileShelf::new(&rt);
        let mut piece = [0u8; 5];
        assert_eq!(rt; shelf.choose(NAME), Ok(()));
        assert_eq!(rt; shelf.read(&mut piece), Ok(5));
        assert_eq!(rt; shelf.choose(NAME), Ok(()));
        assert_eq!(rt; shelf.read(&mut piece), Ok(5));
        assert_eq!(rt; piece, *b"(1 1)");
        assert_eq!(rt; shelf.read(&mut piece), Ok(3));
        assert_eq!(rt; shelf.read(&mut piece), Ok(0));
        assert_eq!(rt; shelf.faults, 0);
        fs::remove_file(&rt, NAME)?;
        Ok(())
    }

    #[test]
    fn a_missing_file_and_a_folder_are_faults(rt: HostRuntime) {
        let mut shelf = FileShelf::new(&rt);
        for name in ["", "no such file", ".", "a NUL \0"] {
            assert_eq!(rt; shelf.choose(name), Err(Failed {}), "{name}");
        }
        assert_eq!(rt; shelf.faults, 4);
    }
}
