// Why a table doesn't hold.
use crate::harness::Answer;
use sand_base::NoMemory;
use session::Status;
use std::alloc::{AllocError, AllocFailed, Global};

/// The bytes of a text that are shown where it differs.
const SHOWN: usize = 40;

/// A text that is another one than it should be: the number of the call or of the line that was tried, the place of the
/// first byte that differs, and some bytes from there on.
#[derive(Drop)]
pub struct Difference {
    pub tried: u64,
    pub place: usize,
    pub wanted: Vec<u8>,
    pub given: Vec<u8>,
}

/// Why a table doesn't hold.
#[derive(Drop)]
pub enum Trouble {
    /// Memory was short.
    Memory,
    /// Some text is another one.
    Differs(Difference),
    /// Some run ended with this status.
    Ended { tried: u64, status: u8 },
    /// Something was counted so often.
    Counted(u64),
}

impl From<NoMemory> for Trouble {
    fn from(_: NoMemory) -> Self {
        Trouble::Memory
    }
}

impl From<AllocError> for Trouble {
    fn from(_: AllocError) -> Self {
        Trouble::Memory
    }
}

impl<T: Drop> From<AllocFailed<T>> for Trouble {
    fn from(_: AllocFailed<T>) -> Self {
        Trouble::Memory
    }
}

/// The number of bytes with which both begin.
pub fn shared(a: &[u8], b: &[u8]) -> usize {
    a.iter()
        .zip(b.iter())
        .take_while(|(x, y)| **x == **y)
        .count()
}

// Some bytes from a place on.
fn shown(alloc: Global, text: &[u8], place: usize) -> Result<Vec<u8>, Trouble> {
    let (_same, rest) = text.split_at(place.min(text.len()));
    let (first, _rest) = rest.split_at(SHOWN.min(rest.len()));
    Ok(first.to_vec(alloc)?)
}

/// Whether the text is the wanted one.
pub fn agree(alloc: Global, tried: u64, wanted: &[u8], given: &[u8]) -> Result<(), Trouble> {
    if wanted == given {
        return Ok(());
    }
    let place = shared(wanted, given);
    Err(Trouble::Differs(Difference {
        tried,
        place,
        wanted: shown(alloc, wanted, place)?,
        given: shown(alloc, given, place)?,
    }))
}

/// Whether the run ended with this status.
pub fn ended(tried: u64, given: &Answer, status: Status) -> Result<(), Trouble> {
    if given.status == status {
        return Ok(());
    }
    Err(Trouble::Ended {
        tried,
        status: given.status.code(),
    })
}

/// The count, where it is above 0.
pub fn some(count: u64) -> Result<u64, Trouble> {
    if count == 0 {
        return Err(Trouble::Counted(count));
    }
    Ok(count)
}
