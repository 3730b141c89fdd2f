// Held stamps, and what the pages of their maps should hold.
ghost use Rattle.std.specs.Prelude.{◌≡◌, IfOk, OnOk};
ghost use Rattle.page_pool.specs.Pool.{IsClosed};
ghost use Rattle.fault_tables.specs.Holding.{TakesStamp};

use crate::pool_filled::{Filled, copy_of};
use crate::pool_trial::Trial;
use crate::pool_trouble::Trouble;
use page_pool::Stamp;

/// A held stamp, and what the pages of its map should hold.
#[derive(Drop)]
pub struct Kept {
    pub stamp: Stamp,
    pub pages: Vec<Filled>,
}

impl Kept {
    /// How many pages its map has.
    pub fn size(&self) -> u64 {
        self.pages.len() as u64
    }
}

/// Holds the live pages under a stamp.
pub fn keep(run: &mut Trial) -> Result<Kept, Trouble>
    requires { IsClosed run.old.pool }
    ensures closed { OnOk result (IsClosed run.new.pool) }
    ensures taken { IfOk result (λ kept. TakesStamp run.old.pool run.new.pool kept.stamp) }
{
    let pages = copy_of(run.alloc, &run.pages)?;
    let stamp = run.pool.keep()?;
    Ok(Kept { stamp, pages })
}
