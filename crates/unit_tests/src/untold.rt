// A desk over a disk that doesn't tell its pages, so that no contract of a search asks what the pages mean.
ghost use Rattle.std.specs.Prelude.{◌≡◌, IsTrue, false, IfOk};
ghost use Rattle.std.specs.FinMap as map;
ghost use Rattle.page_pool.specs.Pool.{IsClosed};

use page_pool::{Desk, Disk, DiskFault, PageFault, Pages, Pool};
use std::alloc::Global;

// A disk that gives zeros, whatever was written.
#[derive(Drop)]
pub struct ZeroDisk {
    given: [u8; 4096],
}

impl Disk for ZeroDisk {
    ghost seen = { λ d. record { told = false; pages = map.empty; given = d.given; faults = 0 } };

    fn start(&mut self, _name: Option<&str>) -> Result<(), DiskFault> {
        Ok(())
    }

    fn read_page(&mut self, _n: u64, page: &mut [u8; 4096]) -> Result<(), DiskFault> {
        *page = [0; 4096];
        self.given = *page;
        Ok(())
    }

    fn write_page(&mut self, _n: u64, _page: &[u8; 4096]) -> Result<(), DiskFault> {
        Ok(())
    }
}

// Writes 17 pages to the disk.
fn fill(pool: &mut Pool<ZeroDisk>) -> Result<(), PageFault>
    requires { IsClosed pool.old }
    ensures { IfOk result (λ _. IsClosed pool.new) }
{
    pool.begin()?;
    'pages: for _ in 0..17u8 {
        let number = pool.allocate()?;
        if pool.is_live(number) {
            pool.put(number, &[1; 4096])?;
        }
    }
    pool.commit();
    pool.flush()
}

// 17 pages over 16 frames, all written, so that page 1 is on the disk alone.
fn written(alloc: Global) -> Result<Pool<ZeroDisk>, PageFault>
    ensures { IfOk result (λ pool. IsClosed pool) }
{
    let mut pool = match Pool::start(alloc, ZeroDisk { given: [0; 4096] }, None, 16) {
        Ok(pool) => pool,
        Err((fault, _disk)) => return Err(fault),
    };
    fill(&mut pool)?;
    Ok(pool)
}

// That page 1 comes back damaged shows that the disk doesn't tell.
fn is_untold(pool: &mut Pool<ZeroDisk>) -> bool
    ensures closed { pool.new.beginning ≡ pool.old.beginning }
    ensures untold { IsTrue result → pool.new.disk.told ≡ false }
{
    if !pool.is_live(1) {
        return false;
    }
    match pool.get(1) {
        Err(PageFault::Damaged { .. }) => true,
        _ => false,
    }
}

// The desk, with no visits.
pub fn untold_desk(alloc: Global) -> Result<Desk<ZeroDisk>, PageFault>
    ensures { IfOk result (λ desk. desk.pool.disk.told ≡ false) }
{
    let mut pool = written(alloc)?;
    if !is_untold(&mut pool) {
        return Err(PageFault::Memory);
    }
    Ok(Desk::over(alloc, pool))
}
