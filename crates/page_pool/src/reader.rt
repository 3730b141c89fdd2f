ghost use Rattle.std.specs.Prelude.{◌≡◌, IsTrue};
ghost use Rattle.std.specs.FinMap as map;
ghost use Rattle.page_pool.specs.Pool.{IsClosed, back, seen_at};

use crate::view::View;
use crate::{Disk, PageFault, Pages, Pool, Stamp};
use std::marker::Model;

/// A pool between commands that is lent for reading alone: its live pages or those of a stamp. No call of it changes a
/// page.
#[derive(Drop)]
pub struct PoolReader<D: Disk> {
    pool: Pool<D>,
    view: View,
}

impl<D: Disk> Model for PoolReader<D> {
    ghost use Rattle.page_pool.specs.Pool.{PoolState};
    ghost use Rattle.page_pool.specs.Inside.{pool_code};
    ghost use Rattle.page_pool.specs.Readers.{viewed, IsViewed};

    ghost Value = { PoolState };

    ghost coded = { pool_code };

    ghost view = { λ a. viewed a.pool a.view };

    ghost invariant = { λ a. IsViewed a.pool a.view };
}

impl<D: Disk> PoolReader<D> {
    // The live pages.
    pub(crate) fn over(pool: Pool<D>) -> PoolReader<D>
        requires { IsClosed pool }
        ensures { result ≡ pool }
    {
        PoolReader {
            pool,
            view: View::Live,
        }
    }

    // The pages of the stamp's map.
    pub(crate) fn at(pool: Pool<D>, stamp: &Stamp) -> PoolReader<D>
        requires closed { IsClosed pool }
        requires held { IsTrue (map.contains_key pool.stamps stamp.now) }
        ensures { result ≡ seen_at pool stamp.now }
    {
        let slot = stamp.slot();
        if pool.shows_live(slot) {
            return PoolReader {
                pool,
                view: View::Alike(slot),
            };
        }
        PoolReader {
            pool,
            view: View::Older(slot),
        }
    }

    // The pool, which shows its live pages.
    pub(crate) fn into_pool(self) -> Pool<D>
        ensures { result ≡ back self }
    {
        let PoolReader { pool, view: _ } = self;
        pool
    }
}

impl<D: Disk> Pages for PoolReader<D> {
    ghost shown = { λ s. s };

    #[inline]
    fn page(&mut self, n: u64) -> Result<&[u8; 4096], PageFault> {
        self.live_page(n)
    }

    #[inline]
    fn live_page(&mut self, n: u64) -> Result<&[u8; 4096], PageFault> {
        match self.view {
            View::Live => self.pool.live_page(n),
            View::Alike(slot) => self.pool.find_alike(slot, n),
            View::Older(slot) => self.pool.find_older(slot, n),
        }
    }

    fn is_live(&self, n: u64) -> bool {
        match self.view {
            View::Live | View::Alike(_) => self.pool.is_live(n),
            View::Older(slot) => self.pool.is_live_at(slot, n),
        }
    }

    fn gets(&self) -> u64 {
        self.pool.gets()
    }
}
