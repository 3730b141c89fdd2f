// What `bench/pages.py` times of a pool of 10,000 pages: gets of pages in the frames and of pages on the disk, commands that put one
// page, and digests of a page, the least that a get from the disk and a writing cost. The stored run shows how many calls of the disk
// they take.
ghost use Rattle.std.specs.Prelude.{◌≤◌, ◌<◌, IfOk, OnOk};
ghost use Rattle.page_pool.specs.Pool.{IsClosed};

use crate::draws::Draws;
use crate::filled_pool::{byte_of, filled};
use page_pool::{MemDisk, PageFault, Pages, Pool};
use sha2::{Digest, Sha256};
use std::alloc::Global;
use std::io;

/// What is done with the pages.
#[derive(Clone, Copy)]
pub enum PoolPart {
    /// Gets of pages in the frames.
    Hits,
    /// Gets of all pages, of which few are in the frames.
    Misses,
    /// Commands that put one page.
    Puts,
    /// Digests of a page, without a pool.
    Digests,
}

/// How many calls were right, and how many calls of the disk they took.
#[derive(Clone, Copy)]
pub struct Tally {
    pub right: u64,
    pub disk_calls: u64,
}

const PAGES: u64 = 10_000;

// As many frames as a pool may have, and as few.
const MANY_FRAMES: u32 = 4_096;

const FEW_FRAMES: u32 = 16;

// The calls with which all pages come onto the disk: it starts, and each is written.
const FILLING_CALLS: u64 = PAGES + 1;

// The number of a drawn page of the last so many.
fn drawn(draws: &mut Draws, last: u64) -> u64
    requires some { 1 ≤ last }
    requires there { last ≤ 10000 }
{
    PAGES - draws.word() % last
}

// Whether a page is filled with its byte.
fn is_right(pool: &mut Pool<MemDisk>, number: u64) -> Result<bool, PageFault> {
    match pool.live_page(number) {
        Ok(page) => Ok(page[0] == byte_of(number)),
        Err(why) => Err(why),
    }
}

// Gets drawn pages of the last so many.
fn got(pool: &mut Pool<MemDisk>, last: u64, gets: u32) -> Result<u64, PageFault>
    requires some { 1 ≤ last }
    requires there { last ≤ 10000 }
{
    let mut draws = Draws::begin(4);
    let mut right = 0u64;
    'gets: for _ in 0..gets {
        let number = drawn(&mut draws, last);
        if is_right(pool, number)? {
            right = right.wrapping_add(1);
        }
    }
    Ok(right)
}

// A command that puts one page.
fn command(pool: &mut Pool<MemDisk>, number: u64) -> Result<bool, PageFault>
    requires { IsClosed pool.old }
    ensures { OnOk result (IsClosed pool.new) }
{
    pool.begin()?;
    let is_there = pool.is_live(number);
    if is_there {
        pool.put(number, &[byte_of(number); 4096])?;
    }
    pool.commit();
    Ok(is_there)
}

// Commands that put drawn pages, the last of which is written too.
fn put(pool: &mut Pool<MemDisk>, commands: u32) -> Result<u64, PageFault>
    requires { IsClosed pool.old }
{
    let mut draws = Draws::begin(5);
    let mut right = 0u64;
    'commands: for _ in 0..commands {
        let number = drawn(&mut draws, PAGES);
        if command(pool, number)? {
            right = right.wrapping_add(1);
        }
    }
    pool.flush()?;
    Ok(right)
}

// Digests of pages, each filled with the first byte of the digest before; gives how many had a byte that isn't 0.
fn digested(digests: u32) -> u64 {
    let mut byte = 0;
    let mut right = 0u64;
    'digests: for _ in 0..digests {
        let page = [byte; 4096];
        let digest = Sha256::digest(page.as_slice());
        if digest != [0; 32] {
            right = right.wrapping_add(1);
        }
        byte = digest[0];
    }
    right
}

// What was right, with the calls that the disk had after the filling.
fn tallied(pool: Pool<MemDisk>, right: u64) -> Tally {
    let calls = pool.into_disk().calls();
    Tally {
        right,
        disk_calls: calls.saturating_sub(FILLING_CALLS),
    }
}

// How many frames the pool of a part has.
fn frames_of(part: PoolPart) -> u32
    ensures least { 16 ≤ result }
    ensures most { result ≤ 4096 }
{
    match part {
        PoolPart::Misses => FEW_FRAMES,
        _ => MANY_FRAMES,
    }
}

// Makes so many calls of a pool.
fn called(pool: &mut Pool<MemDisk>, part: PoolPart, calls: u32) -> Result<u64, PageFault>
    requires { IsClosed pool.old }
{
    match part {
        PoolPart::Hits => got(pool, MANY_FRAMES.into(), calls),
        PoolPart::Misses => got(pool, PAGES, calls),
        PoolPart::Puts => put(pool, calls),
        PoolPart::Digests => Ok(digested(calls)),
    }
}

// The pool of a part, with its pages.
fn pool_of(alloc: Global, part: PoolPart) -> Result<Pool<MemDisk>, PageFault>
    ensures { IfOk result (λ pool. IsClosed pool) }
{
    let disk = MemDisk::new(alloc, Vec::new(alloc));
    filled(alloc, disk, frames_of(part), PAGES)
}

// Makes a part with so many calls of a pool.
fn made_in_pages(alloc: Global, part: PoolPart, calls: u32) -> Result<Tally, PageFault> {
    let mut pool = pool_of(alloc, part)?;
    let right = called(&mut pool, part, calls)?;
    Ok(tallied(pool, right))
}

/// Makes a part with so many calls.
pub fn made(alloc: Global, part: PoolPart, calls: u32) -> Result<Tally, PageFault> {
    match part {
        PoolPart::Digests => Ok(Tally {
            right: digested(calls),
            disk_calls: 0,
        }),
        _ => made_in_pages(alloc, part, calls),
    }
}

/// The part that a word names.
pub fn part_named(word: &str) -> Option<PoolPart> {
    match word {
        "hits" => Some(PoolPart::Hits),
        "misses" => Some(PoolPart::Misses),
        "puts" => Some(PoolPart::Puts),
        "digests" => Some(PoolPart::Digests),
        _ => None,
    }
}

// The parts of the stored run, with how many calls each makes.
static TOLD: [(&str, PoolPart, u32); 3] = [
    ("gets of pages in 4096 frames", PoolPart::Hits, 20_000),
    (
        "gets of 10000 pages over 16 frames",
        PoolPart::Misses,
        2_000,
    ),
    ("commands that put one page", PoolPart::Puts, 2_000),
];

/// Prints how many calls of the disk each part takes.
pub fn tell(rt: &(impl Print + AllocGlobal)) -> io::Result<()> {
    for (name, part, calls) in &TOLD {
        match made(rt.alloc(), *part, *calls) {
            Ok(tally) => rt.println(format_args!(
                "{calls} {name}: {} are right, with {} calls of the disk",
                tally.right, tally.disk_calls
            ))?,
            Err(_) => rt.println(format_args!("{name}: memory was short"))?,
        }
    }
    Ok(())
}
