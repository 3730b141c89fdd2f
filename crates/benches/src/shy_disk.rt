ghost use Rattle.std.specs.Prelude.{false};
ghost use Rattle.std.specs.FinMap as map;

use page_pool::{Disk, DiskFault};
use std::alloc::Global;
use std::collections::BTreeMap;

/// A disk in memory that doesn't tell its pages, so that no contract asks what they mean. Its first read gives a page with a
/// flipped bit, and one of its calls may fail.
#[derive(Drop)]
pub struct ShyDisk {
    pages: BTreeMap<u64, Box<[u8; 4096]>>,
    given: [u8; 4096],
    /// The byte with the flipped bit.
    flipped: usize,
    was_read: bool,
    /// The reads and writes so far.
    calls: u32,
    /// The one that fails, 0 for none.
    fails: u32,
    alloc: Global,
}

impl ShyDisk {
    /// A disk with no page. A bit of this byte is flipped, and this call fails, 0 for none.
    pub fn new(alloc: Global, flipped: usize, fails: u32) -> ShyDisk {
        ShyDisk {
            pages: BTreeMap::new(alloc),
            given: [0; 4096],
            flipped,
            was_read: false,
            calls: 0,
            fails,
            alloc,
        }
    }

    /// The reads and writes so far.
    pub fn calls(&self) -> u32 {
        self.calls
    }
}

// Flips the lowest bit of a byte of the page.
fn flip(page: &mut [u8; 4096], at: usize) {
    if let Some(byte) = page.get_mut(at) {
        *byte ^= 1;
    }
}

impl Disk for ShyDisk {
    ghost seen = { λ d. record { told = false; pages = map.empty; given = d.given; faults = 0 } };

    fn start(&mut self, _name: Option<&str>) -> Result<(), DiskFault> {
        Ok(())
    }

    fn read_page(&mut self, n: u64, page: &mut [u8; 4096]) -> Result<(), DiskFault> {
        self.calls = self.calls.saturating_add(1);
        if self.calls == self.fails {
            return Err(DiskFault::Memory);
        }
        let Some(found) = self.pages.get(&n) else {
            return Err(DiskFault::Memory);
        };
        *page = **found;
        if !self.was_read {
            flip(page, self.flipped);
        }
        self.was_read = true;
        self.given = *page;
        Ok(())
    }

    fn write_page(&mut self, n: u64, page: &[u8; 4096]) -> Result<(), DiskFault> {
        self.calls = self.calls.saturating_add(1);
        if self.calls == self.fails {
            return Err(DiskFault::Memory);
        }
        let Ok(copy) = Box::new(self.alloc, *page) else {
            return Err(DiskFault::Memory);
        };
        let Ok(_was) = self.pages.insert(n, copy) else {
            return Err(DiskFault::Memory);
        };
        Ok(())
    }
}
