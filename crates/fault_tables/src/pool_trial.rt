// A pool over a disk in memory, what its pages should hold, and the commands that change them.
ghost use Rattle.std.specs.Prelude.{◌≡◌, ◌≤◌, IsTrue, false, IfOk, OnOk};
ghost use Rattle.page_pool.specs.Pool.{IsOpen, IsClosed};
ghost use Rattle.fault_tables.specs.Holding.{HoldsStill};

use crate::page_draws::Draws;
use crate::pool_filled::{Filled, change_value, fill};
use crate::pool_trouble::Trouble;
use page_pool::{MemDisk, PageFault, Pages, Pool};
use std::alloc::Global;

/// A pool with what its live pages should hold, the draws of its changes, how many changes there were, and how many calls
/// were refused.
#[derive(Drop)]
pub struct Trial {
    pub alloc: Global,
    pub pool: Pool<MemDisk>,
    pub pages: Vec<Filled>,
    pub draws: Draws,
    pub changes: u32,
    pub refused: u64,
}

// Starts over the same disk once more where the first time is refused.
fn started(alloc: Global, fails: Vec<u64>) -> Result<(Pool<MemDisk>, u64), PageFault>
    ensures { IfOk result (λ r. IsClosed r.0) }
{
    let disk = match Pool::start(alloc, MemDisk::new(alloc, fails), None, 16) {
        Ok(pool) => return Ok((pool, 0)),
        Err((PageFault::Device, disk)) => disk,
        Err((fault, _disk)) => return Err(fault),
    };
    match Pool::start(alloc, disk, None, 16) {
        Ok(pool) => Ok((pool, 1)),
        Err((fault, _disk)) => Err(fault),
    }
}

/// A pool with no page, over a disk that fails at these calls.
pub fn begun(alloc: Global, fails: Vec<u64>) -> Result<Trial, Trouble>
    ensures { IfOk result (λ run. IsClosed run.pool) }
{
    let (pool, refused) = started(alloc, fails)?;
    Ok(Trial {
        alloc,
        pool,
        pages: Vec::new(alloc),
        draws: Draws::new(41),
        changes: 0,
        refused,
    })
}

// Opens a command. False where that is refused.
fn begins(run: &mut Trial) -> bool
    requires { IsClosed run.old.pool }
    ensures opened { IsTrue result → IsOpen run.new.pool }
    ensures closed { result ≡ false → IsClosed run.new.pool }
    ensures still { HoldsStill run.old.pool run.new.pool }
{
    match run.pool.begin() {
        Ok(()) => true,
        Err(_) => {
            run.refused = run.refused.saturating_add(1);
            false
        }
    }
}

// Opens a command, by a second call where the first is refused.
fn opens(run: &mut Trial) -> Result<(), Trouble>
    requires { IsClosed run.old.pool }
    ensures opened { OnOk result (IsOpen run.new.pool) }
    ensures still { HoldsStill run.old.pool run.new.pool }
{
    if begins(run) {
        return Ok(());
    }
    if begins(run) {
        return Ok(());
    }
    Err(Trouble::Refused)
}

// Writes what waits. False where that is refused.
fn flushes(run: &mut Trial) -> bool
    requires { IsClosed run.old.pool }
    ensures closed { IsClosed run.new.pool }
    ensures still { HoldsStill run.old.pool run.new.pool }
{
    match run.pool.flush() {
        Ok(()) => true,
        Err(_) => {
            run.refused = run.refused.saturating_add(1);
            false
        }
    }
}

/// Writes what waits, by a second call where the first is refused.
pub fn settle(run: &mut Trial) -> Result<(), Trouble>
    requires { IsClosed run.old.pool }
    ensures closed { IsClosed run.new.pool }
    ensures still { HoldsStill run.old.pool run.new.pool }
{
    if flushes(run) {
        return Ok(());
    }
    if flushes(run) {
        return Ok(());
    }
    Err(Trouble::Refused)
}

// The number of the next change.
fn next_change(run: &mut Trial) -> u32
    ensures { run.new.pool ≡ run.old.pool }
{
    run.changes = run.changes.wrapping_add(1);
    run.changes
}

// A page that should be live, and its number, unless there is none.
fn drawn(run: &mut Trial) -> Option<Filled>
    ensures { run.new.pool ≡ run.old.pool }
{
    let place = run.draws.place(run.pages.len())?;
    run.pages.get(place).copied()
}

// Makes the page of the number.
fn put(run: &mut Trial, page: u64, value: u32) -> Result<(), Trouble>
    requires { IsOpen run.old.pool }
    ensures open { IsOpen run.new.pool }
    ensures stamps { run.new.pool.stamps ≡ run.old.pool.stamps }
{
    if !run.pool.is_live(page) {
        return Err(Trouble::Missing);
    }
    let mut bytes = [0; 4096];
    fill(&mut bytes, value);
    run.pool.put(page, &bytes)?;
    Ok(())
}

// Changes a drawn page.
fn change(run: &mut Trial) -> Result<(), Trouble>
    requires { IsOpen run.old.pool }
    ensures open { IsOpen run.new.pool }
    ensures stamps { run.new.pool.stamps ≡ run.old.pool.stamps }
{
    let value = next_change(run);
    let Some(filled) = drawn(run) else {
        return Ok(());
    };
    put(run, filled.page, value)?;
    change_value(&mut run.pages, filled.page, value);
    Ok(())
}

// Adds a page.
fn allocate(run: &mut Trial) -> Result<(), Trouble>
    requires { IsOpen run.old.pool }
    ensures open { IsOpen run.new.pool }
    ensures stamps { run.new.pool.stamps ≡ run.old.pool.stamps }
{
    let value = next_change(run);
    let page = run.pool.allocate()?;
    run.pages.push(Filled { page, value })?;
    put(run, page, value)
}

// Adds so many pages.
fn allocate_many(run: &mut Trial, count: u32) -> Result<(), Trouble>
    requires { IsOpen run.old.pool }
    ensures open { IsOpen run.new.pool }
    ensures stamps { run.new.pool.stamps ≡ run.old.pool.stamps }
{
    'pages: for _ in 0..count {
        allocate(run)?;
    }
    Ok(())
}

// Frees a drawn page.
fn free(run: &mut Trial) -> Result<(), Trouble>
    requires { IsOpen run.old.pool }
    ensures open { IsOpen run.new.pool }
    ensures stamps { run.new.pool.stamps ≡ run.old.pool.stamps }
{
    let Some(filled) = drawn(run) else {
        return Ok(());
    };
    if !run.pool.is_live(filled.page) {
        return Err(Trouble::Missing);
    }
    run.pool.free(filled.page)?;
    run.pages.retain(|other| other.page != filled.page);
    Ok(())
}

// Changes a page or two; now and then adds one, or frees one.
fn change_some(run: &mut Trial, most: usize) -> Result<(), Trouble>
    requires { IsOpen run.old.pool }
    ensures open { IsOpen run.new.pool }
    ensures stamps { run.new.pool.stamps ≡ run.old.pool.stamps }
{
    change(run)?;
    match run.draws.next() % 6 {
        0 | 1 => change(run),
        2 if run.pages.len() < most => allocate(run),
        3 if run.pages.len() + 8 > most => free(run),
        _ => Ok(()),
    }
}

/// A command that adds so many pages.
pub fn add_pages(run: &mut Trial, count: u32) -> Result<(), Trouble>
    requires { IsClosed run.old.pool }
    ensures closed { OnOk result (IsClosed run.new.pool) }
    ensures still { HoldsStill run.old.pool run.new.pool }
{
    opens(run)?;
    allocate_many(run, count)?;
    run.pool.commit();
    Ok(())
}

/// A command that changes a page or two, and now and then adds one or frees one, so that there are at most so many.
pub fn carry_out(run: &mut Trial, most: usize) -> Result<(), Trouble>
    requires { IsClosed run.old.pool }
    ensures closed { OnOk result (IsClosed run.new.pool) }
    ensures still { HoldsStill run.old.pool run.new.pool }
{
    opens(run)?;
    change_some(run, most)?;
    run.pool.commit();
    Ok(())
}
