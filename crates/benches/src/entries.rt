// An index of whole numbers beside a set in memory: mixed entries that come and go, and look-ups.
use crate::draws::Draws;
use crate::open_pool::OpenPool;
use attr_index::AttrIndex;
use page_pool::PageFault;
use std::alloc::Global;
use std::collections::BTreeSet;

// The entries in memory: a number and an id.
type Twin = BTreeSet<(i64, u32)>;

// A small number that is drawn, below and above 0.
fn number(draws: &mut Draws) -> i64 {
    (draws.word() % 41) as i64 - 20
}

// Adds an entry that isn't there, and drops one that is.
fn toggle(
    pool: &mut OpenPool,
    index: &mut AttrIndex,
    twin: &mut Twin,
    entry: (i64, u32),
) -> Result<(), PageFault> {
    if twin.remove(&entry) {
        return pool.drop_entry(index, entry.0, entry.1);
    }
    let Ok(_new) = twin.insert(entry) else {
        return Err(PageFault::Memory);
    };
    pool.add(index, entry.0, entry.1)
}

// The least id in memory above this one with the number.
fn equal(twin: &Twin, number: i64, after: u32) -> Option<u32> {
    'entries: for entry in twin.iter() {
        if entry.0 == number && entry.1 > after {
            return Some(entry.1);
        }
    }
    None
}

// The least entry in memory after this one whose number is within the bounds.
fn between(twin: &Twin, low: i64, high: i64, after: (i64, u32)) -> Option<(i64, u32)> {
    'entries: for entry in twin.iter() {
        if *entry > after && entry.0 >= low && entry.0 <= high {
            return Some(*entry);
        }
    }
    None
}

// One drawn call; tells whether both answer the same.
fn call(
    pool: &mut OpenPool,
    index: &mut AttrIndex,
    twin: &mut Twin,
    draws: &mut Draws,
) -> Result<bool, PageFault> {
    let kind = draws.word() % 4;
    let first = number(draws);
    let second = number(draws);
    let id = (draws.word() % 50) as u32;
    if kind < 2 {
        toggle(pool, index, twin, (first, id))?;
        return Ok(true);
    }
    if kind == 2 {
        let found = pool.equal(index, first, id)?;
        return Ok(found == equal(twin, first, id));
    }
    let found = pool.between(index, first, second, Some((first, id)))?;
    Ok(found == between(twin, first, second, (first, id)))
}

/// So many drawn calls of an index and of a set in memory; gives the number of entries left where all answers were the
/// same.
pub fn mixed(alloc: Global, pool: &mut OpenPool, calls: u32) -> Result<Option<usize>, PageFault> {
    let mut index = pool.plant_index()?;
    let mut draws = Draws::begin(calls.into());
    let mut twin = BTreeSet::new(alloc);
    'calls: for _ in 0..calls {
        if !call(pool, &mut index, &mut twin, &mut draws)? {
            return Ok(None);
        }
    }
    Ok(Some(twin.len()))
}
