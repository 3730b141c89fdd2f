// Pools whose pages are all on the disk.
ghost use Rattle.std.specs.Prelude.{◌≡◌, ◌≤◌, IsTrue, false, IfOk, OnOk};
ghost use Rattle.page_pool.specs.Pool.{IsClosed};

use crate::shy_disk::ShyDisk;
use page_pool::{Disk, PageFault, Pages, Pool};
use std::alloc::Global;

/// The byte with which a page is filled.
pub fn byte_of(number: u64) -> u8 {
    (number % 251) as u8
}

/// A pool over a disk with no page.
pub fn started<D: Disk + Drop>(alloc: Global, disk: D, frames: u32) -> Result<Pool<D>, PageFault>
    requires least { 16 ≤ frames }
    requires most { frames ≤ 4096 }
    ensures { IfOk result (λ pool. IsClosed pool) }
{
    match Pool::start(alloc, disk, None, frames) {
        Ok(pool) => Ok(pool),
        Err((fault, _disk)) => Err(fault),
    }
}

// Puts so many pages in one command, each filled with its byte, and has them written.
fn fill<D: Disk + Drop>(pool: &mut Pool<D>, pages: u64) -> Result<(), PageFault>
    requires { IsClosed pool.old }
    ensures { OnOk result (IsClosed pool.new) }
{
    pool.begin()?;
    'pages: for _ in 0..pages {
        let number = pool.allocate()?;
        if pool.is_live(number) {
            pool.put(number, &[byte_of(number); 4096])?;
        }
    }
    pool.commit();
    pool.flush()?;
    Ok(())
}

/// A pool whose pages are all on the disk, each filled with its byte. The last ones are in the frames too.
pub fn filled<D: Disk + Drop>(
    alloc: Global,
    disk: D,
    frames: u32,
    pages: u64,
) -> Result<Pool<D>, PageFault>
    requires least { 16 ≤ frames }
    requires most { frames ≤ 4096 }
    ensures { IfOk result (λ pool. IsClosed pool) }
{
    let mut pool = started(alloc, disk, frames)?;
    fill(&mut pool, pages)?;
    Ok(pool)
}

// That page 1 comes back damaged shows that the disk doesn't tell.
fn is_untold(pool: &mut Pool<ShyDisk>) -> bool
    ensures closed { pool.new.beginning ≡ pool.old.beginning }
    ensures shown { pool.new.live ≡ pool.old.live }
    ensures untold { IsTrue result → pool.new.disk.told ≡ false }
{
    if !pool.is_live(1) {
        return false;
    }
    match pool.get(1) {
        Err(PageFault::Damaged { .. }) => true,
        _ => false,
    }
}

/// A pool of so many frames with one page more, over a disk that fails at this call and doesn't tell its pages.
pub fn untold_pool(alloc: Global, frames: u32, fails: u32) -> Result<Pool<ShyDisk>, PageFault>
    requires least { 16 ≤ frames }
    requires most { frames ≤ 4096 }
    ensures closed { IfOk result (λ pool. IsClosed pool) }
    ensures untold { IfOk result (λ pool. pool.disk.told ≡ false) }
{
    let pages = u64::from(frames) + 1;
    let mut pool = filled(alloc, ShyDisk::new(alloc, 0, fails), frames, pages)?;
    if !is_untold(&mut pool) {
        return Err(PageFault::Memory);
    }
    Ok(pool)
}

// Reads a page, where it is live.
fn read(pool: &mut Pool<ShyDisk>, number: u64) -> Result<(), PageFault>
    ensures beginning { pool.new.beginning ≡ pool.old.beginning }
    ensures shown { pool.new.live ≡ pool.old.live }
    ensures told { pool.new.disk.told ≡ pool.old.disk.told }
{
    if !pool.is_live(number) {
        return Ok(());
    }
    match pool.get(number) {
        Ok(_page) => Ok(()),
        Err(why) => Err(why),
    }
}

/// Reads so many pages from the first on, so that the others are on the disk alone.
pub fn crowd(pool: &mut Pool<ShyDisk>, pages: u32) -> Result<(), PageFault>
    requires closed { IsClosed pool.old }
    requires untold { pool.old.disk.told ≡ false }
    ensures closed { IsClosed pool.new }
    ensures untold { pool.new.disk.told ≡ false }
{
    pool.flush()?;
    'pages: for number in 1..=u64::from(pages) {
        read(pool, number)?;
    }
    Ok(())
}
