ghost use Rattle.std.specs.Prelude.{◌≡◌, ◌≤◌, ◌+◌, ◌&&◌, min, IsTrue, IfOk, OnErr};
ghost use Rattle.std.specs.FinMap as map;
ghost use Rattle.std.specs.FinSet as set;
ghost use Rattle.sand_base.specs.Faults.{last_count};
ghost use Rattle.page_pool.specs.Inside.{count_upto};
ghost use Rattle.page_pool.specs.Pool.{IsClosed, map_sizes};
ghost use Rattle.page_pool.specs.Stamps.{KeepsMap, LetsMapGo};

use crate::archive::Archive;
use crate::staged::Staged;
use crate::{Disk, Pages, Pool, Stamp};
use sand_base::NoMemory;

impl<D: Disk> Pool<D> {
    /// Holds the live pages under a stamp, whatever is written later. After a refusal all is as it was.
    pub fn keep(&mut self) -> Result<Stamp, NoMemory>
        requires { IsClosed self.old }
        ensures kept { IfOk result (KeepsMap self.old self.new) }
        ensures unchanged { OnErr result (self.new ≡ self.old) }
    {
        Ok(Stamp::new(self.archive.keep()?))
    }

    /// The stamp is held no more. It takes no memory.
    pub fn release(&mut self, stamp: Stamp)
        requires closed { IsClosed self.old }
        requires held { IsTrue (map.contains_key self.old.stamps stamp) }
        ensures { LetsMapGo self.old self.new stamp }
    {
        self.archive.release(stamp.slot());
    }

    /// How many images are kept, for the live pages and for the held stamps; it stays at the greatest u64. It takes no
    /// memory, and asks of each number that was given.
    pub fn places(&self) -> u64
        ensures places { result ≡ min self.now.places last_count }
        ensures least { map.len self.now.pages ≤ result }
        ensures most { result ≤ map.len self.now.pages + map_sizes self.now.stamps 16 }
    {
        let top = self.numbers.top();
        let live = self.count_live(top);
        let replaced = self.archive.seen_count() as u64;
        let waiting = count_shared(&self.archive, &self.staged, top);
        live.saturating_add(replaced).saturating_add(waiting)
    }

    // How many numbers up to this one have a live page.
    fn count_live(&self, top: u64) -> u64
        ensures { result ≡ count_upto (map.contains_key self.now.pages) top }
    {
        let mut count = 0;
        'numbers: for n in 0..top {
            if self.is_live(n + 1) {
                count += 1;
            }
        }
        count
    }
}

// How many numbers up to this one have an image that a stamp sees and that is about to be replaced.
fn count_shared<D: Disk>(archive: &Archive<D>, staged: &Staged, top: u64) -> u64
    ensures { result ≡ count_upto (λ n. set.contains archive.now.shared n && map.contains_key staged.now.changes n) top }
{
    let mut count = 0;
    'numbers: for n in 0..top {
        if waits_shared(archive, staged, n + 1) {
            count += 1;
        }
    }
    count
}

// Whether the number has a staged change, and a newest image that a stamp of an earlier command sees.
fn waits_shared<D: Disk>(archive: &Archive<D>, staged: &Staged, n: u64) -> bool
    ensures { result ≡ (set.contains archive.now.shared n && map.contains_key staged.now.changes n) }
{
    archive.is_shared(n) && staged.get(n).is_some()
}
