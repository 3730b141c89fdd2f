use crate::{Disk, DiskFault};

// A disk at a place of its own: what holds it, a pool or a store, moves without it.
impl<D: Disk> Disk for Box<D> {
    ghost seen = { λ disk. D.seen disk.value };

    fn start(&mut self, name: Option<&str>) -> Result<(), DiskFault> {
        self.as_mut().start(name)
    }

    fn read_page(&mut self, n: u64, page: &mut [u8; 4096]) -> Result<(), DiskFault> {
        self.as_mut().read_page(n, page)
    }

    fn write_page(&mut self, n: u64, page: &[u8; 4096]) -> Result<(), DiskFault> {
        self.as_mut().write_page(n, page)
    }
}
