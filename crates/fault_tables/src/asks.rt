// How many bytes of a script a run asks for.
ghost use Rattle.std.specs.Prelude.{None};

use page_pool::MemDisk;
use sand_base::{Failed, MemShelf, MemSink, NoMemory, Source};
use session::{Status, run};
use std::alloc::Global;
use std::io;

/// The bytes of a script of blank lines: the longest that is read to its end, and one byte more.
static LENGTHS: [usize; 2] = [16_777_216, 16_777_217];

/// A source of so many bytes, which fills each piece with a blank line as far as it can, and notes what it is asked for.
#[derive(Drop)]
struct BlankLines {
    left: usize,
    asked: u64,
    longest: usize,
}

impl BlankLines {
    // A source of so many bytes, which was asked for none.
    fn new(left: usize) -> BlankLines {
        BlankLines {
            left,
            asked: 0,
            longest: 0,
        }
    }
}

impl Source for BlankLines {
    ghost left = { λ s. None };

    ghost faults = { λ s. 0 };

    fn read(&mut self, piece: &mut [u8]) -> Result<usize, Failed> {
        let asked = piece.len();
        self.asked = self.asked.saturating_add(asked as u64);
        self.longest = self.longest.max(asked);
        piece.fill(b' ');
        if let Some(last) = piece.last_mut() {
            *last = b'\n';
        }
        let given = asked.min(self.left);
        self.left -= given;
        Ok(given)
    }
}

// How a run over this source ends.
fn status_over(alloc: Global, script: &mut BlankLines) -> Result<Status, NoMemory> {
    let mut shelf = MemShelf::new(alloc, Vec::new(alloc), Vec::new(alloc));
    let disk = MemDisk::new(alloc, Vec::new(alloc));
    let mut sink = MemSink::new(alloc, 16, Vec::new(alloc))?;
    let (status, _disk) = run(alloc, &[], script, &mut shelf, disk, &mut sink);
    Ok(status)
}

// Prints what a run over so many bytes asked for.
fn told_of(rt: &(impl Print + AllocGlobal), length: usize) -> io::Result<()> {
    let mut script = BlankLines::new(length);
    match status_over(rt.alloc(), &mut script) {
        Ok(status) => rt.println(format_args!(
            "a script of {length} bytes: asked for {}, at most {} at a time, status {}",
            script.asked,
            script.longest,
            status.code()
        )),
        Err(NoMemory {}) => rt.println(format_args!(
            "a script of {length} bytes: memory was short"
        )),
    }
}

/// Prints a line for each of these scripts.
pub fn told(rt: &(impl Print + AllocGlobal)) -> io::Result<()> {
    for length in &LENGTHS {
        told_of(rt, *length)?;
    }
    Ok(())
}
