ghost use Rattle.std.specs.Prelude.{◌≡◌, ◌+◌, ◌^◌, ◌<◌, ◌≤◌, Some, None, [], min, map, nat_eq, position, length, take};
ghost use Rattle.std.specs.Cmp.Lexicographic.{pointwise};
ghost use Rattle.sand_base.specs.MemShelf.{FilesState, bytes_from, none_chosen, has_file, left_bytes, opened, read_count, read_on};

use crate::Label;
use std::marker::Model;

// A place in a file: that of the file in the list, and how many of its bytes were read.
#[derive(Clone, Copy)]
struct Place {
    file: usize,
    read: usize,
}

// Data files by their names, one of which may be chosen.
#[derive(Drop)]
pub(crate) struct DataFiles {
    files: Vec<(Label, Vec<u8>)>,
    chosen: Option<Place>,
}

impl Model for DataFiles {
    ghost use Rattle.std.specs.Prelude.{map, option_map};
    ghost use Rattle.sand_base.specs.MemShelf.{FilesState, bytes_from};

    ghost Value = { FilesState };

    ghost view = { λ a. record { files = map (λ f. (f.0, f.1.items)) a.files.items; left = option_map (λ c. bytes_from (map (λ f. (f.0, f.1.items)) a.files.items) c.file c.read) a.chosen } };
}

// The place of the first file of the name.
fn place_of(files: &[(Label, Vec<u8>)], name: &str) -> Option<usize>
    ensures { result ≡ position (λ f. pointwise nat_eq f.0 name.now) files.now }
{
    files.iter().position(|file| file.0.as_str() == name)
}

// The bytes behind a place.
fn rest(files: &[(Label, Vec<u8>)], place: Place) -> &[u8]
    ensures bytes { result.now ≡ bytes_from (map (λ f. (f.0, f.1.items)) files.now) place.file place.read }
    ensures fits { place.read + length result.now < 2 ^ 64 }
{
    let Some(file) = files.get(place.file) else {
        return &[];
    };
    file.1.get(place.read..).unwrap_or(&[])
}

// Copies as many bytes as fit into the front of the piece, and says how many.
fn copy_front(bytes: &[u8], piece: &mut [u8]) -> usize
    ensures count { result ≡ min (length piece.old) (length bytes.now) }
    ensures bytes { take result piece.new ≡ take result bytes.now }
{
    let count = piece.len().min(bytes.len());
    piece[..count].copy_from_slice(&bytes[..count]);
    count
}

impl DataFiles {
    // No file is chosen.
    pub(crate) fn new(files: Vec<(Label, Vec<u8>)>) -> DataFiles
        ensures { result ≡ record { files = map (λ f. (f.0, f.1.items)) files.items; left = None } }
    {
        DataFiles {
            files,
            chosen: None,
        }
    }

    // Chooses no file.
    pub(crate) fn close(&mut self)
        ensures { self.new ≡ none_chosen self.old }
    {
        self.chosen = None;
    }

    // Chooses the first file of the name, or none where there is none, and says whether there is one.
    pub(crate) fn open(&mut self, name: &str) -> bool
        ensures there { result ≡ has_file self.old name.now }
        ensures opened { self.new ≡ opened self.old name.now }
    {
        let Some(file) = place_of(&self.files, name) else {
            self.chosen = None;
            return false;
        };
        self.chosen = Some(Place { file, read: 0 });
        true
    }

    // Takes the next bytes of the chosen file into the front of the piece, and says how many.
    pub(crate) fn read(&mut self, piece: &mut [u8]) -> usize
        ensures count { result ≡ read_count self.old (length piece.old) }
        ensures left { self.new ≡ read_on self.old result }
        ensures bytes { take result piece.new ≡ take result (left_bytes self.old) }
    {
        let Some(place) = self.chosen else {
            return 0;
        };
        let count = copy_front(rest(&self.files, place), piece);
        self.chosen = Some(Place {
            file: place.file,
            read: place.read + count,
        });
        count
    }
}
