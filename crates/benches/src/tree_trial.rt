// A quadtree in pages beside a plain one, over drawn changes of both.
ghost use Rattle.std.specs.Prelude.{◌≡◌, ◌≤◌, false, IfOk};
ghost use Rattle.page_pool.specs.Pool.{IsClosed};

use crate::draws::Draws;
use crate::filled_pool::{crowd, untold_pool};
use crate::plain_tree::{PlainTree, grown, listings, plain, shrunk};
use crate::shy_disk::ShyDisk;
use crate::tree_changes::{Change, commanded, is_same};
use page_pool::{PageFault, Pool};
use pmr_tree::{Pmr, PmrFault};
use sand_base::NoMemory;
use std::alloc::Global;
use std::collections::BTreeSet;

/// A run of changes: how many, of which ids, at which threshold, after how many the trees are compared, and which call of the disk
/// fails, 0 for none.
#[derive(Clone, Copy)]
pub struct Course {
    pub threshold: u8,
    pub changes: u32,
    pub ids: u32,
    pub every: u32,
    pub fails: u32,
}

/// A tree in pages and a plain one, which ids are there, whether the trees were the same each time, and how many calls were
/// refused.
#[derive(Drop)]
pub struct Trial {
    pub pool: Pool<ShyDisk>,
    pub tree: Pmr,
    pub plain: PlainTree,
    pub there: BTreeSet<u32>,
    pub same: bool,
    pub refused: u32,
}

const FRAMES: u32 = 16;

/// The calls with which a pool begins: it writes its first pages, one more than there are frames, and reads the first.
pub const FIRST_CALLS: u32 = FRAMES + 2;

// Plants a tree in a command of its own.
fn planted(pool: &mut Pool<ShyDisk>, threshold: u8) -> Result<Pmr, PageFault>
    requires closed { IsClosed pool.old }
    requires untold { pool.old.disk.told ≡ false }
    requires least { 1 ≤ threshold }
    requires most { threshold ≤ 64 }
    ensures closed { IfOk result (λ tree. IsClosed pool.new) }
    ensures untold { pool.new.disk.told ≡ false }
{
    pool.begin()?;
    let tree = Pmr::plant(pool, threshold, 1)?;
    pool.commit();
    Ok(tree)
}

// The tree in pages before the changes, with its pool.
fn begun_in_pages(alloc: Global, course: Course) -> Result<(Pool<ShyDisk>, Pmr), PageFault>
    ensures closed { IfOk result (λ both. IsClosed both.0) }
    ensures untold { IfOk result (λ both. both.0.disk.told ≡ false) }
{
    let mut pool = untold_pool(alloc, FRAMES, course.fails)?;
    let tree = planted(&mut pool, course.threshold.max(1).min(64))?;
    Ok((pool, tree))
}

// A tree in pages beside a plain one, where none of the ids is there.
fn beside(alloc: Global, pages: (Pool<ShyDisk>, Pmr), plain: PlainTree) -> Trial
    requires closed { IsClosed pages.0 }
    requires untold { pages.0.disk.told ≡ false }
    ensures closed { IsClosed result.pool }
    ensures untold { result.pool.disk.told ≡ false }
{
    let (pool, tree) = pages;
    Trial {
        pool,
        tree,
        plain,
        there: BTreeSet::new(alloc),
        same: true,
        refused: 0,
    }
}

/// Both trees before the changes.
pub fn begun(alloc: Global, course: Course) -> Result<Trial, PageFault>
    ensures closed { IfOk result (λ trial. IsClosed trial.pool) }
    ensures untold { IfOk result (λ trial. trial.pool.disk.told ≡ false) }
{
    let plain = plain(alloc, course.threshold)?;
    let pages = begun_in_pages(alloc, course)?;
    Ok(beside(alloc, pages, plain))
}

// Whether the trees are the same. False where the disk fails.
fn agrees(alloc: Global, trial: &mut Trial) -> bool
    requires untold { trial.old.pool.disk.told ≡ false }
    ensures beginning { trial.new.pool.beginning ≡ trial.old.pool.beginning }
    ensures shown { trial.new.pool.live ≡ trial.old.pool.live }
    ensures untold { trial.new.pool.disk.told ≡ false }
{
    match is_same(alloc, &mut trial.pool, &trial.tree, &trial.plain) {
        Ok(same) => same,
        Err(_why) => false,
    }
}

// Notes whether the trees are the same; where the disk fails, at the second look.
fn compare(alloc: Global, trial: &mut Trial)
    requires untold { trial.old.pool.disk.told ≡ false }
    ensures beginning { trial.new.pool.beginning ≡ trial.old.pool.beginning }
    ensures shown { trial.new.pool.live ≡ trial.old.pool.live }
    ensures untold { trial.new.pool.disk.told ≡ false }
{
    match is_same(alloc, &mut trial.pool, &trial.tree, &trial.plain) {
        Ok(same) => trial.same &= same,
        Err(_why) => {
            trial.refused = trial.refused.saturating_add(1);
            trial.same &= agrees(alloc, trial);
        }
    }
}

// Makes a change of the tree in pages. False where it is refused.
fn makes(alloc: Global, trial: &mut Trial, id: u32, change: Change) -> bool
    requires closed { IsClosed trial.old.pool }
    requires untold { trial.old.pool.disk.told ≡ false }
    requires id { 1 ≤ id }
    ensures closed { IsClosed trial.new.pool }
    ensures untold { trial.new.pool.disk.told ≡ false }
{
    match commanded(alloc, &mut trial.pool, &mut trial.tree, id, change) {
        Ok(()) => true,
        Err(_why) => false,
    }
}

// Makes a change, a second time where it was refused; the tree is as it was between.
fn insist(alloc: Global, trial: &mut Trial, id: u32, change: Change)
    requires closed { IsClosed trial.old.pool }
    requires untold { trial.old.pool.disk.told ≡ false }
    requires id { 1 ≤ id }
    ensures closed { IsClosed trial.new.pool }
    ensures untold { trial.new.pool.disk.told ≡ false }
{
    if makes(alloc, trial, id, change) {
        return;
    }
    trial.refused = trial.refused.saturating_add(1);
    compare(alloc, trial);
    trial.same &= makes(alloc, trial, id, change);
}

// An insertion with one listing too few is refused, and leaves the tree.
fn overfill(alloc: Global, trial: &mut Trial, id: u32, limit: u64)
    requires closed { IsClosed trial.old.pool }
    requires untold { trial.old.pool.disk.told ≡ false }
    requires id { 1 ≤ id }
    ensures closed { IsClosed trial.new.pool }
    ensures untold { trial.new.pool.disk.told ≡ false }
{
    let change = Change::Insert(limit);
    match commanded(alloc, &mut trial.pool, &mut trial.tree, id, change) {
        Err(PmrFault::IndexFull) => compare(alloc, trial),
        _ => trial.same = false,
    }
}

// Takes an id out of the tree in pages; gives the plain one without it.
fn delete(alloc: Global, trial: &mut Trial, id: u32) -> Result<PlainTree, NoMemory>
    requires closed { IsClosed trial.old.pool }
    requires untold { trial.old.pool.disk.told ≡ false }
    requires id { 1 ≤ id }
    ensures closed { IsClosed trial.new.pool }
    ensures untold { trial.new.pool.disk.told ≡ false }
{
    insist(alloc, trial, id, Change::Delete);
    shrunk(alloc, &trial.plain, id)
}

// Brings an id into the tree in pages; gives the plain one with it.
fn insert(alloc: Global, trial: &mut Trial, id: u32, overfills: bool) -> Result<PlainTree, NoMemory>
    requires closed { IsClosed trial.old.pool }
    requires untold { trial.old.pool.disk.told ≡ false }
    requires id { 1 ≤ id }
    ensures closed { IsClosed trial.new.pool }
    ensures untold { trial.new.pool.disk.told ≡ false }
{
    let next = grown(alloc, &trial.plain, id)?;
    let limit = listings(&next);
    if overfills {
        overfill(alloc, trial, id, limit.saturating_sub(1));
    }
    insist(alloc, trial, id, Change::Insert(limit));
    Ok(next)
}

// An id that was there leaves, and another one comes; tells whether it was there.
fn toggle(there: &mut BTreeSet<u32>, id: u32) -> Result<bool, NoMemory> {
    if there.remove(&id) {
        return Ok(true);
    }
    there.insert(id)?;
    Ok(false)
}

// One change of both trees.
fn turn(alloc: Global, trial: &mut Trial, id: u32, overfills: bool) -> Result<(), NoMemory>
    requires closed { IsClosed trial.old.pool }
    requires untold { trial.old.pool.disk.told ≡ false }
    requires id { 1 ≤ id }
    ensures closed { IsClosed trial.new.pool }
    ensures untold { trial.new.pool.disk.told ≡ false }
{
    if toggle(&mut trial.there, id)? {
        trial.plain = delete(alloc, trial, id)?;
    } else {
        trial.plain = insert(alloc, trial, id, overfills)?;
    }
    Ok(())
}

// Puts the pages of the tree on the disk alone.
fn empty_frames(trial: &mut Trial)
    requires closed { IsClosed trial.old.pool }
    requires untold { trial.old.pool.disk.told ≡ false }
    ensures closed { IsClosed trial.new.pool }
    ensures untold { trial.new.pool.disk.told ≡ false }
{
    match crowd(&mut trial.pool, FRAMES) {
        Ok(()) => {}
        Err(_why) => trial.refused = trial.refused.saturating_add(1),
    }
}

/// The changes of a course, with drawn ids.
pub fn change_all(alloc: Global, trial: &mut Trial, course: Course) -> Result<(), NoMemory>
    requires closed { IsClosed trial.old.pool }
    requires untold { trial.old.pool.disk.told ≡ false }
{
    let ids = course.ids.max(1);
    let every = course.every.max(1);
    let mut draws = Draws::begin(ids.into());
    'changes: for number in 1..=course.changes {
        if number % 8 == 0 {
            empty_frames(trial);
        }
        let id = (draws.word() % u64::from(ids)) as u32 + 1;
        turn(alloc, trial, id, course.fails == 0)?;
        if number % every == 0 {
            compare(alloc, trial);
        }
    }
    Ok(())
}
