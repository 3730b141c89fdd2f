// A run begins: its store is started over the disk.
ghost use Rattle.std.specs.Prelude.{◌≡◌, ◌≤◌, IfOk, IfErr};
ghost use Rattle.page_pool.specs.Pool.{new_pool};
ghost use Rattle.sand_store.specs.Catalog.{IsLimits, new_catalog};
ghost use Rattle.session.specs.Ends.{IsNotStarted, status_of};

use crate::Status;
use page_pool::{Disk, PageFault};
use run_words::Words;
use sand_base::Limits;
use sand_store::Store;
use std::alloc::Global;

// The status of a run whose store didn't start.
fn status_of(why: PageFault) -> Status
    ensures { result ≡ status_of why }
{
    match why {
        PageFault::Memory => Status::NoMemory,
        _ => Status::DiskNotStarted,
    }
}

/// A store of no relations over the disk, as the words ask for it. Where it doesn't start, the disk comes back.
pub(crate) fn start<D: Disk>(
    alloc: Global,
    disk: D,
    asked: &Words,
    limits: Limits,
) -> Result<Store<D>, (Status, D)>
    requires least { 16 ≤ asked.now.frames }
    requires most { asked.now.frames ≤ 4096 }
    requires limits { IsLimits limits }
    ensures begun { IfOk result (λ store. store ≡ record { catalog = new_catalog limits; pool = new_pool store.pool.disk asked.now.frames }) }
    ensures counted { IfOk result (λ store. store.pool.disk.faults ≡ (D.seen disk).faults) }
    ensures refused { IfErr result (λ e. IsNotStarted e.0 (D.seen disk).faults (D.seen e.1).faults) }
{
    let name = match &asked.store {
        Some(name) => Some(name.as_str()),
        None => None,
    };
    match Store::start(alloc, disk, name, asked.frames, limits) {
        Ok(store) => Ok(store),
        Err((why, disk)) => Err((status_of(why), disk)),
    }
}
