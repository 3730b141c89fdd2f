// A pool over disks that fail or give other bytes: each call of a disk fails in turn, and a page comes back with a flipped bit.
ghost use Rattle.std.specs.Prelude.{IfOk};
ghost use Rattle.page_pool.specs.Pool.{IsClosed};

use crate::filled_pool::filled;
use crate::pool_commands::{GIVEN, Seen, Trial, carry_out_all, started};
use crate::shy_disk::ShyDisk;
use page_pool::{PageFault, Pages};
use std::alloc::Global;
use std::io;

// What is seen before the commands.
fn unseen(refused: u64) -> Seen {
    Seen {
        bytes: [0; 256],
        given: [0; 45],
        givens: 0,
        refused,
        is_right: true,
    }
}

// A trial over a disk that fails at these calls.
fn begun(alloc: Global, fails: Vec<u64>) -> Result<Trial, PageFault>
    ensures { IfOk result (λ run. IsClosed run.pool) }
{
    let (pool, refused) = started(alloc, fails)?;
    let seen = unseen(refused);
    Ok(Trial { pool, seen })
}

// What was seen, and how many calls the disk had.
fn ended(run: Trial) -> (Seen, u64) {
    let Trial { pool, seen } = run;
    (seen, pool.into_disk().calls())
}

// What is seen of the commands over a disk that fails at these calls, and how many calls it had.
fn tried(alloc: Global, fails: Vec<u64>) -> Result<(Seen, u64), PageFault> {
    let mut run = begun(alloc, fails)?;
    carry_out_all(&mut run)?;
    Ok(ended(run))
}

// Whether a trial without a fault was given the freed numbers again, and saw what it must.
fn is_undisturbed(plain: &Seen) -> bool {
    plain.is_right && plain.refused == 0 && plain.given.get(40..) == Some(GIVEN.as_slice())
}

// Whether a trial with one fault was refused once, and ended as the one without.
fn ends_alike(disturbed: &Seen, plain: &Seen) -> bool {
    disturbed.is_right
        && disturbed.refused == 1
        && disturbed.bytes == plain.bytes
        && disturbed.given == plain.given
}

// The calls from the first number up to the one before the last, as those that fail.
fn calls_between(alloc: Global, first: u64, last: u64) -> Result<Vec<u64>, PageFault> {
    let mut fails = Vec::new(alloc);
    for call in first..last {
        let Ok(()) = fails.push(call) else {
            return Err(PageFault::Memory);
        };
    }
    Ok(fails)
}

// Whether a trial whose disk fails at this call alone ends as the one without a fault.
fn is_single(alloc: Global, call: u64, plain: &Seen) -> Result<bool, PageFault> {
    let fails = calls_between(alloc, call, call.saturating_add(1))?;
    let (disturbed, _calls) = tried(alloc, fails)?;
    Ok(ends_alike(&disturbed, plain))
}

// The number of calls of the disk, each of which failed once: it was refused, and the rest ran as undisturbed.
fn single_faults(alloc: Global) -> Result<Option<u64>, PageFault> {
    let (plain, calls) = tried(alloc, Vec::new(alloc))?;
    if !is_undisturbed(&plain) {
        return Ok(None);
    }
    for call in 1..=calls {
        if !is_single(alloc, call, &plain)? {
            return Ok(None);
        }
    }
    Ok(Some(calls))
}

// Whether in a trial whose disk fails from this call on each refusal is the disk's, and each page that can be read is
// what it must be.
fn is_lasting(alloc: Global, call: u64) -> Result<bool, PageFault> {
    let (disturbed, _calls) = tried(alloc, calls_between(alloc, call, 2_000)?)?;
    Ok(disturbed.is_right && disturbed.refused > 0)
}

// How many times the disk failed from one of its calls on.
fn lasting_faults(alloc: Global) -> Result<Option<u64>, PageFault> {
    let (_plain, calls) = tried(alloc, Vec::new(alloc))?;
    for call in 2..=calls {
        if !is_lasting(alloc, call)? {
            return Ok(None);
        }
    }
    Ok(calls.checked_sub(1))
}

// What reading page 1 gives, where a bit of this byte of it comes back flipped. It is on the disk alone.
fn damage(alloc: Global, flipped: usize) -> PageFault {
    let mut pool = match filled(alloc, ShyDisk::new(alloc, flipped, 0), 16, 17) {
        Ok(pool) => pool,
        Err(fault) => return fault,
    };
    match pool.live_page(1) {
        Ok(_) => PageFault::Memory,
        Err(fault) => fault,
    }
}

// Prints how reading page 1 is refused, where this byte of it comes back with a flipped bit.
fn tell_damage(rt: &(impl Print + AllocGlobal), name: &str, flipped: usize) -> io::Result<()> {
    match damage(rt.alloc(), flipped) {
        PageFault::Damaged { page, kept, read } => rt.println(format_args!(
            "a flipped bit in the {name} byte: page {page} is damaged, kept {} {} {} {}, read {} {} {} {}",
            kept[0], kept[1], kept[2], kept[3], read[0], read[1], read[2], read[3]
        )),
        _ => rt.println(format_args!("a flipped bit in the {name} byte: the damage was not seen")),
    }
}

// Prints what became of a pool each of whose disk's calls failed once.
fn tell_single_faults(rt: &(impl Print + AllocGlobal)) -> io::Result<()> {
    match single_faults(rt.alloc()) {
        Ok(Some(calls)) => rt.println(format_args!(
            "faults: {calls} calls of a disk failed once each; each was refused as the disk's, and the rest ran as undisturbed"
        )),
        _ => rt.println(format_args!("faults: a call that failed once shows, or memory was short")),
    }
}

// Prints what became of a pool whose disk failed from a call on.
fn tell_lasting_faults(rt: &(impl Print + AllocGlobal)) -> io::Result<()> {
    match lasting_faults(rt.alloc()) {
        Ok(Some(trials)) => rt.println(format_args!(
            "faults: a disk failed {trials} times from a call on; each refusal was the disk's, and every page was what it must be"
        )),
        _ => rt.println(format_args!("faults: a fault that stays shows, or memory was short")),
    }
}

// The bytes that come back with a flipped bit.
static FLIPPED: [(&str, usize); 3] = [("first", 0), ("middle", 2_048), ("last", 4_095)];

/// Prints what became of a pool over disks that fail and disks that give other bytes.
pub fn tell(rt: &(impl Print + AllocGlobal)) -> io::Result<()> {
    tell_single_faults(rt)?;
    tell_lasting_faults(rt)?;
    for (name, flipped) in &FLIPPED {
        tell_damage(rt, name, *flipped)?;
    }
    Ok(())
}
