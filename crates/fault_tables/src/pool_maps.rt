// The maps of a pool, read page by page.
ghost use Rattle.std.specs.Prelude.{◌≡◌};
ghost use Rattle.page_pool.specs.Pool.{IsClosed};
ghost use Rattle.page_pool.specs.Reads.{IsRead};
ghost use Rattle.fault_tables.specs.Holding.{HoldsStamp, HoldsStill};

use crate::pool_filled::{Filled, is_made_of, value_of};
use crate::pool_kept::Kept;
use page_pool::{Desk, MemDisk, PageFault, Pages, Pool};
use std::alloc::Global;

/// The numbers that are asked for in each map.
const NUMBERS: u64 = 64;

/// What comes of a get.
#[derive(Clone, Copy, PartialEq, Eq)]
enum Answer {
    /// The page has the bytes that it should have, or is missing as it should be.
    Right,
    /// It has others.
    Wrong,
    /// It was refused by the disk.
    Refused,
}

/// How many gets were refused, and whether each page was right.
#[derive(Clone, Copy)]
pub struct Seen {
    pub refused: u64,
    pub is_right: bool,
}

// Reads page `n`, which should be made of this number.
fn read_once(desk: &mut Desk<MemDisk>, n: u64, value: Option<u32>) -> Answer
    ensures { IsRead desk.old.pool desk.new.pool }
{
    match desk.live_page(n) {
        Ok(page) => match value {
            Some(value) if is_made_of(page, value) => Answer::Right,
            _ => Answer::Wrong,
        },
        Err(PageFault::Memory) if value.is_none() => Answer::Right,
        Err(PageFault::Device) => Answer::Refused,
        Err(_) => Answer::Wrong,
    }
}

// Reads page `n`, a second time where the first is refused.
fn read(desk: &mut Desk<MemDisk>, n: u64, value: Option<u32>, seen: &mut Seen)
    ensures { IsRead desk.old.pool desk.new.pool }
{
    let mut answer = read_once(desk, n, value);
    if answer == Answer::Refused {
        seen.refused = seen.refused.saturating_add(1);
        answer = read_once(desk, n, value);
    }
    seen.is_right &= answer == Answer::Right;
}

// Reads each page of a map, which should hold this.
fn read_all(desk: &mut Desk<MemDisk>, map: &[Filled], seen: &mut Seen)
    ensures { IsRead desk.old.pool desk.new.pool }
{
    'numbers: for n in 0..NUMBERS {
        read(desk, n, value_of(map, n), seen);
    }
}

/// Reads the live pages.
pub fn read_live(alloc: Global, pool: Pool<MemDisk>, map: &[Filled], seen: &mut Seen)
    requires { IsClosed pool }
{
    let mut desk = Desk::over(alloc, pool);
    read_all(&mut desk, map, seen);
}

/// Reads the pages of the stamp's map.
pub fn read_kept(alloc: Global, pool: Pool<MemDisk>, kept: &Kept, seen: &mut Seen) -> Pool<MemDisk>
    requires closed { IsClosed pool }
    requires held { HoldsStamp pool kept.now.stamp }
    ensures closed { IsClosed result }
    ensures still { HoldsStill pool result }
{
    let mut desk = Desk::at(alloc, pool, &kept.stamp);
    read_all(&mut desk, &kept.pages, seen);
    desk.close()
}
