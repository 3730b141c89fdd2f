ghost use Rattle.std.specs.Prelude.{◌≡◌, [], ◌∷◌, ◌++◌, IsTrue, OnOk, OnErr};
ghost use Rattle.std.specs.Borrow.{sem, Lends};
ghost use Rattle.page_pool.specs.Pool.{IsClosed, back, seen_at};
ghost use Rattle.std.specs.FinMap as map;
ghost use Rattle.page_pool.specs.contracts.desk.Desk.{the_row};
ghost use Rattle.page_pool.specs.contracts.reader.PoolReader.{the_row as reader_row};

use crate::{Disk, PageFault, Pages, Pool, PoolReader, Stamp};
use sand_base::{NoMemory, Visit, VisitLog};
use std::alloc::Global;
use std::marker::Model;
use std::mem;

/// The pages of a pool, lent for reading, with a log of the visits that their reader notes.
#[derive(Drop)]
pub struct Desk<D: Disk> {
    reader: PoolReader<D>,
    log: VisitLog,
    alloc: Global,
}

impl<D: Disk> Model for Desk<D> {
    ghost use Rattle.page_pool.specs.Desk.{DeskState};
    ghost use Rattle.std.specs.Coded.{codes};
    ghost use Rattle.page_pool.specs.Inside.{pool_code};

    ghost Value = { DeskState };

    ghost coded = { Prim.hlevel (codes, pool_code) };

    ghost view = { λ a. record { pool = a.reader; visits = a.log } };
}

impl<D: Disk> Desk<D> {
    /// The same pages, with no visits.
    pub fn over(alloc: Global, pool: Pool<D>) -> Desk<D>
        requires { IsClosed pool }
        ensures { result ≡ record { pool = pool; visits = [] } }
    {
        Desk {
            reader: PoolReader::over(pool),
            log: VisitLog::new(alloc),
            alloc,
        }
    }

    /// The pages of the stamp's map, with no visits. It takes no memory.
    pub fn at(alloc: Global, pool: Pool<D>, stamp: &Stamp) -> Desk<D>
        requires closed { IsClosed pool }
        requires held { IsTrue (map.contains_key pool.stamps stamp.now) }
        ensures { result ≡ record { pool = seen_at pool stamp.now; visits = [] } }
    {
        Desk {
            reader: PoolReader::at(pool, stamp),
            log: VisitLog::new(alloc),
            alloc,
        }
    }

    /// Adds the visit to the log. After a refusal all is as it was.
    pub fn note(&mut self, visit: Visit) -> Result<(), NoMemory>
        ensures noted { OnOk result (self.new ≡ record self.old { visits = self.old.visits ++ visit ∷ [] }) }
        ensures unchanged { OnErr result (self.new ≡ self.old) }
    {
        self.log.push(visit)
    }

    /// The log, which is then empty.
    pub fn take_visits(&mut self) -> VisitLog
        ensures visits { result ≡ self.old.visits }
        ensures emptied { self.new ≡ record self.old { visits = [] } }
    {
        mem::replace(&mut self.log, VisitLog::new(self.alloc))
    }

    /// The pages alone, for a reader that notes its visits itself: the log stays. They are lent for reading, so that
    /// nothing is changed beside a desk.
    pub fn pages(&mut self) -> &mut PoolReader<D>
        ensures pool { result.now ≡ self.old.pool }
        ensures* log { sem 𝓛 (Lends (the_row D.row D.Disk) (reader_row D.row D.Disk) self.entry result (λ pool. record self.old { pool = pool })) }
    {
        &mut self.reader
    }

    /// The pool, which shows its live pages again.
    pub fn close(self) -> Pool<D>
        ensures { result ≡ back self.pool }
    {
        let Desk {
            reader,
            log: _,
            alloc: _,
        } = self;
        reader.into_pool()
    }
}

impl<D: Disk> Pages for Desk<D> {
    ghost shown = { λ s. s.pool };

    #[inline]
    fn page(&mut self, n: u64) -> Result<&[u8; 4096], PageFault> {
        self.reader.page(n)
    }

    #[inline]
    fn live_page(&mut self, n: u64) -> Result<&[u8; 4096], PageFault> {
        self.reader.live_page(n)
    }

    fn is_live(&self, n: u64) -> bool {
        self.reader.is_live(n)
    }

    fn gets(&self) -> u64 {
        self.reader.gets()
    }
}
