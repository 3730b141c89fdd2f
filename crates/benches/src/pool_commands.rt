// Commands of a pool whose disk may fail: what is seen of its pages, and the refused calls that are made again.
ghost use Rattle.std.specs.Prelude.{◌≡◌, ◌≤◌, IsTrue, false, IfOk, OnOk};
ghost use Rattle.page_pool.specs.Pool.{IsOpen, IsClosed};

use page_pool::{MemDisk, PageFault, Pages, Pool};
use std::alloc::Global;

/// A call within a command, or the reading of pages.
enum Step {
    // So many pages, each filled with the number that it is given.
    Allocate(u8),
    // This page is filled with this byte.
    Put(u8, u8),
    Free(u8),
    // The pages from the first number to the last.
    Read(u8, u8),
}

use Step::{Allocate, Free, Put, Read};

/// The steps of a command, and whether it is committed.
struct Command {
    steps: &'static [Step],
    is_kept: bool,
}

/// 40 pages and more over 16 frames.
static COMMANDS: [Command; 5] = [
    Command {
        steps: &[Allocate(40)],
        is_kept: true,
    },
    Command {
        steps: &[
            Read(1, 40),
            Put(3, 103),
            Put(20, 120),
            Free(7),
            Free(8),
            Read(1, 9),
        ],
        is_kept: true,
    },
    Command {
        steps: &[Put(1, 201), Put(3, 203), Free(2), Allocate(2), Read(1, 41)],
        is_kept: false,
    },
    Command {
        steps: &[Read(1, 9), Allocate(3), Put(8, 208), Free(30), Put(40, 140)],
        is_kept: true,
    },
    Command {
        steps: &[Free(41), Put(39, 139), Read(1, 41)],
        is_kept: false,
    },
];

/// The numbers that the commands are given after the first 40: the freed ones twice, since the first time is undone,
/// and one more.
pub const GIVEN: [u8; 5] = [8, 7, 8, 7, 41];

/// What is seen of a trial: the byte of each page that must be there (0 where there is none), the numbers that were given, how
/// many calls were refused, and whether all that was seen is as it must be.
#[derive(Clone, Copy)]
pub struct Seen {
    pub bytes: [u8; 256],
    pub given: [u8; 45],
    pub givens: usize,
    pub refused: u64,
    pub is_right: bool,
}

/// A pool, and what is seen of it.
#[derive(Drop)]
pub struct Trial {
    pub pool: Pool<MemDisk>,
    pub seen: Seen,
}

/// Starts over the same disk once more where the first time is refused.
pub fn started(alloc: Global, fails: Vec<u64>) -> Result<(Pool<MemDisk>, u64), PageFault>
    ensures { IfOk result (λ r. IsClosed r.0) }
{
    let disk = match Pool::start(alloc, MemDisk::new(alloc, fails), None, 16) {
        Ok(pool) => return Ok((pool, 0)),
        Err((PageFault::Device, disk)) => disk,
        Err((fault, _disk)) => return Err(fault),
    };
    match Pool::start(alloc, disk, None, 16) {
        Ok(pool) => Ok((pool, 1)),
        Err((fault, _disk)) => Err(fault),
    }
}

/// Reads the page, which must be what it was made. False where the disk refuses it.
fn reads(run: &mut Trial, n: u8) -> bool
    ensures beginning { run.new.pool.beginning ≡ run.old.pool.beginning }
    ensures shown { run.new.pool.live ≡ run.old.pool.live }
{
    let byte = run.seen.bytes[usize::from(n)];
    match run.pool.live_page(u64::from(n)) {
        Ok(page) => {
            let is_same = byte != 0 && *page == [byte; 4096];
            run.seen.is_right &= is_same;
            true
        }
        Err(PageFault::Device) => {
            run.seen.refused = run.seen.refused.saturating_add(1);
            false
        }
        Err(_) => {
            run.seen.is_right &= byte == 0;
            true
        }
    }
}

/// Reads these pages, each a second time where it is refused.
fn read_all(run: &mut Trial, first: u8, last: u8)
    ensures beginning { run.new.pool.beginning ≡ run.old.pool.beginning }
    ensures shown { run.new.pool.live ≡ run.old.pool.live }
{
    'pages: for n in first..=last {
        if !reads(run, n) {
            reads(run, n);
        }
    }
}

// Opens a command. False where the disk refuses it.
fn begins(run: &mut Trial) -> bool
    requires { IsClosed run.old.pool }
    ensures opened { IsTrue result → IsOpen run.new.pool }
    ensures closed { result ≡ false → IsClosed run.new.pool }
{
    match run.pool.begin() {
        Ok(()) => true,
        Err(fault) => {
            run.seen.refused = run.seen.refused.saturating_add(1);
            run.seen.is_right &= fault == PageFault::Device;
            false
        }
    }
}

// Opens a command. Where that is refused, all pages must be what they were, and it is tried once more.
fn opens(run: &mut Trial) -> bool
    requires { IsClosed run.old.pool }
    ensures opened { IsTrue result → IsOpen run.new.pool }
    ensures closed { result ≡ false → IsClosed run.new.pool }
{
    if begins(run) {
        return true;
    }
    read_all(run, 1, 48);
    begins(run)
}

// Notes a number that was given.
fn note(seen: &mut Seen, n: u8) {
    match seen.given.get_mut(seen.givens) {
        Some(place) => *place = n,
        None => seen.is_right = false,
    }
    seen.givens = seen.givens.saturating_add(1);
}

// Allocates a page and fills it with its number.
fn allocate(run: &mut Trial) -> Result<(), PageFault>
    requires { IsOpen run.old.pool }
    ensures { IsOpen run.new.pool }
{
    let number = run.pool.allocate()?;
    let Ok(n) = u8::try_from(number) else {
        return Err(PageFault::Memory);
    };
    note(&mut run.seen, n);
    put(run, n, n)
}

// Allocates so many pages.
fn allocate_many(run: &mut Trial, count: u8) -> Result<(), PageFault>
    requires { IsOpen run.old.pool }
    ensures { IsOpen run.new.pool }
{
    'pages: for _ in 0..count {
        allocate(run)?;
    }
    Ok(())
}

// Fills the page, where it is live.
fn put(run: &mut Trial, n: u8, byte: u8) -> Result<(), PageFault>
    requires { IsOpen run.old.pool }
    ensures { IsOpen run.new.pool }
{
    if run.pool.is_live(u64::from(n)) {
        run.pool.put(u64::from(n), &[byte; 4096])?;
        run.seen.bytes[usize::from(n)] = byte;
    }
    Ok(())
}

// Frees the page, where it is live.
fn free(run: &mut Trial, n: u8) -> Result<(), PageFault>
    requires { IsOpen run.old.pool }
    ensures { IsOpen run.new.pool }
{
    if run.pool.is_live(u64::from(n)) {
        run.pool.free(u64::from(n))?;
        run.seen.bytes[usize::from(n)] = 0;
    }
    Ok(())
}

// Makes a step.
fn make(run: &mut Trial, step: &Step) -> Result<(), PageFault>
    requires { IsOpen run.old.pool }
    ensures { IsOpen run.new.pool }
{
    match step {
        Allocate(count) => allocate_many(run, *count),
        Put(n, byte) => put(run, *n, *byte),
        Free(n) => free(run, *n),
        Read(first, last) => {
            read_all(run, *first, *last);
            Ok(())
        }
    }
}

// Makes the steps of the command, if it can be opened.
fn carry_out(run: &mut Trial, command: &Command) -> Result<(), PageFault>
    requires { IsClosed run.old.pool }
    ensures { OnOk result (IsClosed run.new.pool) }
{
    let before = run.seen.bytes;
    if !opens(run) {
        return Ok(());
    }
    'steps: for step in command.steps {
        make(run, step)?;
    }
    if command.is_kept {
        run.pool.commit();
    } else {
        run.pool.abort();
        run.seen.bytes = before;
    }
    Ok(())
}

/// Carries out the commands. At the end all pages are read.
pub fn carry_out_all(run: &mut Trial) -> Result<(), PageFault>
    requires { IsClosed run.old.pool }
{
    'commands: for each in &COMMANDS {
        carry_out(run, each)?;
    }
    read_all(run, 1, 48);
    Ok(())
}
