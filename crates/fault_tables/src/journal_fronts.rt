// The fronts of files.
use crate::journal_files::{Sample, make_sample};
use crate::journal_reading::{Found, Trouble, read_all};
use sand_base::NoMemory;
use std::alloc::Global;

// What a front has: the records whose next gate is in it. Where that gate is the last, it is shut, and else open, with no
// record behind it.
fn wanted(sample: &Sample, length: usize) -> Found {
    let within = sample.gates.iter().filter(|gate| **gate < length).count();
    let count = u32::try_from(within.saturating_sub(1)).unwrap_or(0);
    let last = sample.gates.get(count as usize);
    let is_cut = 0 < length && within < sample.gates.len();
    Found {
        count,
        end: last.copied().unwrap_or(0) as u64,
        bad: if is_cut { count.saturating_add(1) } else { 0 },
    }
}

// Reads a front of a file.
fn is_read(alloc: Global, sample: &Sample, length: usize) -> Result<bool, NoMemory> {
    let front = sample.bytes.get(..length).unwrap_or(&[]);
    let found = read_all(alloc, front.to_vec(alloc)?)?;
    Ok(found == wanted(sample, length))
}

/// Reads each front of some files.
pub fn tried(alloc: Global) -> Result<u32, Trouble> {
    let mut count = 0u32;
    for seed in 0..12u32 {
        let sample = make_sample(alloc, seed, 5)?;
        for length in 0..sample.bytes.len() + 1 {
            if !is_read(alloc, &sample, length)? {
                return Err(Trouble::Differs { tried: count });
            }
            count = count.saturating_add(1);
        }
    }
    Ok(count)
}
