ghost use Rattle.std.specs.Prelude.{◌≡◌, ◌≤◌, IfOk, IfErr};
ghost use Rattle.page_pool.specs.Disk.{DiskView};
ghost use Rattle.page_pool.specs.Pool.{new_pool, IsPool, LosesNoNumber};
ghost use Rattle.page_pool.specs.Causes.{IsNoDamage, faults_at};

use crate::archive::Archive;
use crate::cache::Cache;
use crate::numbers::Numbers;
use crate::staged::Staged;
use crate::{Disk, PageFault};
use std::alloc::Global;
use std::marker::Model;

mod command;
mod reading;
mod seeing;
mod stamps;
mod writing;

/// Pages over a disk. A command changes them, and commits or leaves all as it was.
#[derive(Drop)]
pub struct Pool<D: Disk> {
    archive: Archive<D>,
    staged: Staged,
    frames: Cache,
    numbers: Numbers,
    is_open: bool,
    gets: u64,
    damages: u64,
    alloc: Global,
}

impl<D: Disk> Model for Pool<D> {
    ghost use Rattle.page_pool.specs.Pool.{PoolState};
    ghost use Rattle.page_pool.specs.Inside.{pool_code, state_of, IsWhole};

    ghost Value = { PoolState };

    ghost coded = { pool_code };

    ghost view = { λ a. state_of a.archive a.staged a.frames a.numbers a.is_open a.gets a.damages };

    ghost invariant = { λ a. IsWhole a.archive a.staged.changes a.frames a.numbers a.is_open };
}

impl<D: Disk> Pool<D> {
    /// A pool with no live page over the disk, which it starts with the name. After a refusal the disk comes
    /// back.
    pub fn start(
        alloc: Global,
        disk: D,
        name: Option<&str>,
        frames: u32,
    ) -> Result<Pool<D>, (PageFault, D)>
        requires least { 16 ≤ frames }
        requires most { frames ≤ 4096 }
        ensures begun { IfOk result (λ pool. pool ≡ new_pool pool.disk frames) }
        ensures counted { IfOk result (λ pool. pool.disk.faults ≡ (D.seen disk).faults) }
        ensures refused { IfErr result (λ e. (D.seen e.1).faults ≡ faults_at (D.seen disk).faults e.0) }
        ensures undamaged { IfErr result (λ e. IsNoDamage e.0) }
    {
        let archive = match Archive::start(alloc, disk, name) {
            Ok(archive) => archive,
            Err(refused) => return Err(refused),
        };
        let Ok(frames) = Cache::new(alloc, frames) else {
            return Err((PageFault::Memory, archive.into_disk()));
        };
        Ok(Pool {
            archive,
            staged: Staged::new(alloc),
            frames,
            numbers: Numbers::new(alloc),
            is_open: false,
            gets: 0,
            damages: 0,
            alloc,
        })
    }

    /// The number of pages kept in memory: at most the frames and the dirty pages together.
    pub fn held(&self) -> u64
        ensures held { result ≡ self.now.held }
        ensures whole { IsPool self.now }
        ensures numbers { LosesNoNumber self.now }
    {
        self.frames.count() as u64 + self.staged.count() as u64
    }

    /// The disk. Pages that are dirty were not written to it.
    pub fn into_disk(self) -> D
        ensures { D.seen result ≡ self.disk }
    {
        let Pool {
            archive,
            staged: _,
            frames: _,
            numbers: _,
            is_open: _,
            gets: _,
            damages: _,
            alloc: _,
        } = self;
        archive.into_disk()
    }
}
