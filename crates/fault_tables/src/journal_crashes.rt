// The images that crashes of a run of appends leave.
ghost use Rattle.std.specs.Prelude.{◌≡◌, true, IfOk};
ghost use Rattle.sand_journal.specs.ChangeBody.{IsChange, change_value};
ghost use Rattle.sand_journal.specs.Journal.{IsReading, IsReady};

use crate::journal_files::{Sample, make_sample};
use crate::journal_reading::{Trouble, read_all, started};
use sand_base::NoMemory;
use sand_journal::{Change, Journal, MemTape, Record, Tape};
use std::alloc::Global;

// Appends the record of a change, where there is room for it, and says whether it was appended.
fn append<T: Tape>(
    alloc: Global,
    target: &mut Journal<T>,
    change: &Change,
) -> Result<bool, NoMemory>
    requires ready { IsReady T.seen target.old }
    requires change { IsChange (change_value change.now) }
    ensures { IfOk result (λ is_appended. is_appended ≡ true → IsReady T.seen target.new) }
{
    if target.end() > 1 << 40 {
        return Ok(false);
    }
    let entry = Record::of(alloc, change)?;
    match target.append(&entry) {
        Ok(()) => Ok(true),
        Err(_) => Ok(false),
    }
}

// Appends the records of a journal to another, up to the first that fails, and says how many.
fn copied<S: Tape, T: Tape>(
    alloc: Global,
    source: &mut Journal<S>,
    target: &mut Journal<T>,
) -> Result<u32, NoMemory>
    requires { IsReady T.seen target.old }
{
    let mut count = 0u32;
    'records: for _ in 0..100u32 {
        let change = match source.next(alloc) {
            Ok(Some(change)) => change,
            Ok(None) => break,
            Err(_) => break,
        };
        let is_appended = append(alloc, target, &change);
        drop(change);
        if !is_appended? {
            break;
        }
        count = count.saturating_add(1);
    }
    Ok(count)
}

// Whether a journal has no record to read.
fn is_empty<T: Tape>(alloc: Global, journal: &mut Journal<T>) -> bool
    ensures { result ≡ true → IsReading T.seen journal.old → IsReady T.seen journal.new }
{
    match journal.next(alloc) {
        Ok(None) => true,
        Ok(Some(change)) => {
            drop(change);
            false
        }
        Err(_) => false,
    }
}

// How many records were appended before call `k` of the tape failed, and the tape then.
fn run(alloc: Global, sample: &Sample, k: u64) -> Result<Option<(u32, MemTape)>, NoMemory> {
    let Some(from) = started(
        alloc,
        sample.bytes.as_slice().to_vec(alloc)?,
        Vec::new(alloc),
    ) else {
        return Ok(None);
    };
    let Ok(mut source) = Journal::open(from) else {
        return Ok(None);
    };
    let Some(to) = started(alloc, Vec::new(alloc), vec![in alloc; k]?) else {
        return Ok(None);
    };
    let Ok(mut target) = Journal::open(to) else {
        return Ok(None);
    };
    if !is_empty(alloc, &mut target) {
        return Ok(None);
    }
    let count = copied(alloc, &mut source, &mut target)?;
    Ok(Some((count, target.into_tape())))
}

// Whether the image is a front of the sample up to a gate, with so many records or one more.
fn is_image(alloc: Global, sample: &Sample, image: Vec<u8>, count: u32) -> Result<bool, NoMemory> {
    let front = image.as_slice().to_vec(alloc)?;
    let found = read_all(alloc, image)?;
    let end = found.end as usize;
    let is_there = found.count == count || found.count == count.saturating_add(1);
    Ok(is_there && found.bad == 0 && front.get(..end) == sample.bytes.get(..end))
}

// Reads the images that a run leaves whose call `k` fails: their number, or None where one is another.
fn images(alloc: Global, sample: &Sample, k: u64) -> Result<Option<u32>, NoMemory> {
    let Some((count, tape)) = run(alloc, sample, k)? else {
        return Ok(Some(0));
    };
    for writes in 0..3usize {
        let image = tape.image(alloc, writes)?;
        if !is_image(alloc, sample, image, count)? {
            return Ok(None);
        }
    }
    Ok(Some(3))
}

/// The images of 50 runs of appends, each disturbed at each call and then not.
pub fn tried(alloc: Global) -> Result<u32, Trouble> {
    let mut count = 0u32;
    for seed in 0..50u32 {
        let sample = make_sample(alloc, seed, 1 + seed % 5)?;
        for k in 1..32u64 {
            let Some(more) = images(alloc, &sample, k)? else {
                return Err(Trouble::Differs { tried: count });
            };
            count = count.saturating_add(more);
        }
    }
    Ok(count)
}
