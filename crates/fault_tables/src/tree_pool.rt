// Trees in a small pool: changes are made in commands, which are aborted where one is refused.
ghost use Rattle.std.specs.Prelude.{◌≡◌, ◌≤◌, IsTrue, false, IfOk, OnOk};
ghost use Rattle.page_pool.specs.Pool.{IsOpen, IsClosed};

use crate::tree_disk::ShyDisk;
use page_pool::{PageFault, Pages, Pool};
use r_tree::{RTree, TreeNode};
use sand_base::Rough;
use std::alloc::Global;
use std::marker::Model;

/// A member comes or leaves.
#[derive(Clone, Copy)]
pub enum Change {
    Insert(u32, Rough),
    Remove(u32, Rough),
}

/// The least frames of a pool.
pub const LEAST_FRAMES: u32 = 16;

/// A pool between commands.
#[derive(Drop)]
pub struct TreePool {
    pool: Pool<ShyDisk>,
}

impl Model for TreePool {
    ghost use Rattle.std.specs.Prelude.{◌≡◌, false};
    ghost use Rattle.std.specs.Coded.{codes};
    ghost use Rattle.page_pool.specs.Inside.{pool_code};
    ghost use Rattle.page_pool.specs.Pool.{PoolState, IsClosed};

    ghost Value = { PoolState };

    ghost coded = { Prim.hlevel (codes, pool_code) };

    ghost view = { λ a. a.pool };

    ghost invariant = { λ a. IsClosed a.pool × (a.pool.disk.told ≡ false) };
}

// A pool over a disk with no page.
fn started(alloc: Global, frames: u32, fails: u32) -> Result<Pool<ShyDisk>, PageFault>
    requires least { 16 ≤ frames }
    requires most { frames ≤ 4096 }
    ensures { IfOk result (λ pool. IsClosed pool) }
{
    match Pool::start(alloc, ShyDisk::new(alloc, fails), None, frames) {
        Ok(pool) => Ok(pool),
        Err((fault, _disk)) => Err(fault),
    }
}

// Puts so many pages of zeros in one command, and has them written.
fn fill(pool: &mut Pool<ShyDisk>, pages: u32) -> Result<(), PageFault>
    requires { IsClosed pool.old }
    ensures { OnOk result (IsClosed pool.new) }
{
    pool.begin()?;
    'pages: for _ in 0..pages {
        let number = pool.allocate()?;
        if pool.is_live(number) {
            pool.put(number, &[0; 4096])?;
        }
    }
    pool.commit();
    pool.flush()?;
    Ok(())
}

// That page 1 comes back damaged shows that the disk doesn't tell.
fn is_untold(pool: &mut Pool<ShyDisk>) -> bool
    ensures closed { pool.new.beginning ≡ pool.old.beginning }
    ensures untold { IsTrue result → pool.new.disk.told ≡ false }
{
    if !pool.is_live(1) {
        return false;
    }
    match pool.get(1) {
        Err(PageFault::Damaged { .. }) => true,
        _ => false,
    }
}

// Reads a page, where it is live.
fn read(pool: &mut Pool<ShyDisk>, number: u64) -> Result<(), PageFault>
    ensures beginning { pool.new.beginning ≡ pool.old.beginning }
    ensures live { pool.new.live ≡ pool.old.live }
    ensures told { pool.new.disk.told ≡ pool.old.disk.told }
{
    if !pool.is_live(number) {
        return Ok(());
    }
    match pool.get(number) {
        Ok(_page) => Ok(()),
        Err(why) => Err(why),
    }
}

// Reads the first pages, so that in the smallest pool those of trees are on the disk alone.
fn crowd(pool: &mut Pool<ShyDisk>) -> Result<(), PageFault>
    requires closed { IsClosed pool.old }
    requires untold { pool.old.disk.told ≡ false }
    ensures closed { IsClosed pool.new }
    ensures untold { pool.new.disk.told ≡ false }
{
    pool.flush()?;
    'pages: for number in 1..=u64::from(LEAST_FRAMES) {
        read(pool, number)?;
    }
    Ok(())
}

// Makes a change in an open command.
fn make(
    alloc: Global,
    pool: &mut Pool<ShyDisk>,
    tree: &mut RTree,
    change: Change,
) -> Result<(), PageFault>
    requires opened { IsOpen pool.old }
    requires untold { pool.old.disk.told ≡ false }
    ensures opened { IsOpen pool.new }
    ensures untold { pool.new.disk.told ≡ false }
{
    match change {
        Change::Insert(id, rough) => {
            tree.insert(alloc, pool, id, rough)?;
        }
        Change::Remove(id, rough) => {
            tree.remove(alloc, pool, id, rough)?;
        }
    }
    Ok(())
}

// Makes changes in an open command, one after the other.
fn make_all(
    alloc: Global,
    pool: &mut Pool<ShyDisk>,
    tree: &mut RTree,
    changes: &[Change],
) -> Result<(), PageFault>
    requires opened { IsOpen pool.old }
    requires untold { pool.old.disk.told ≡ false }
    ensures opened { IsOpen pool.new }
    ensures untold { pool.new.disk.told ≡ false }
{
    'changes: for change in changes {
        make(alloc, pool, tree, *change)?;
    }
    Ok(())
}

// Makes changes in a command of their own. Where one is refused, the tree is the one of before.
fn command(
    alloc: Global,
    pool: &mut Pool<ShyDisk>,
    tree: &mut RTree,
    changes: &[Change],
) -> Result<(), PageFault>
    requires closed { IsClosed pool.old }
    requires untold { pool.old.disk.told ≡ false }
    ensures closed { IsClosed pool.new }
    ensures untold { pool.new.disk.told ≡ false }
{
    let was = *tree;
    pool.begin()?;
    match make_all(alloc, pool, tree, changes) {
        Ok(()) => {
            pool.commit();
            Ok(())
        }
        Err(why) => {
            pool.abort();
            *tree = was;
            Err(why)
        }
    }
}

// Builds a tree in a command of its own.
fn built(alloc: Global, pool: &mut Pool<ShyDisk>, list: &[(u32, Rough)]) -> Result<RTree, PageFault>
    requires closed { IsClosed pool.old }
    requires untold { pool.old.disk.told ≡ false }
    ensures closed { IsClosed pool.new }
    ensures untold { pool.new.disk.told ≡ false }
{
    pool.begin()?;
    match RTree::build(alloc, pool, 1, list) {
        Ok(tree) => {
            pool.commit();
            Ok(tree)
        }
        Err(why) => {
            pool.abort();
            Err(why)
        }
    }
}

// Plants a tree in a command of its own.
fn planted(pool: &mut Pool<ShyDisk>) -> Result<RTree, PageFault>
    requires closed { IsClosed pool.old }
    requires untold { pool.old.disk.told ≡ false }
    ensures closed { IsClosed pool.new }
    ensures untold { pool.new.disk.told ≡ false }
{
    pool.begin()?;
    match RTree::plant(pool, 1) {
        Ok(tree) => {
            pool.commit();
            Ok(tree)
        }
        Err(why) => {
            pool.abort();
            Err(why)
        }
    }
}

impl TreePool {
    /// A pool of so many frames, over a disk that fails at this call, 0 for none.
    pub fn start(alloc: Global, frames: u32, fails: u32) -> Result<TreePool, PageFault> {
        let frames = frames.clamp(LEAST_FRAMES, 4_096);
        let mut pool = started(alloc, frames, fails)?;
        fill(&mut pool, frames + 1)?;
        if !is_untold(&mut pool) {
            return Err(PageFault::Memory);
        }
        Ok(TreePool { pool })
    }

    /// An empty tree.
    pub fn plant(&mut self) -> Result<RTree, PageFault> {
        planted(&mut self.pool)
    }

    /// The tree of a list.
    pub fn build(&mut self, alloc: Global, list: &[(u32, Rough)]) -> Result<RTree, PageFault> {
        built(alloc, &mut self.pool, list)
    }

    /// Makes changes of a tree, all of them or none.
    pub fn change(
        &mut self,
        alloc: Global,
        tree: &mut RTree,
        changes: &[Change],
    ) -> Result<(), PageFault> {
        command(alloc, &mut self.pool, tree, changes)
    }

    /// Puts the pages of trees on the disk alone, in the smallest pool.
    pub fn empty_frames(&mut self) -> Result<(), PageFault> {
        crowd(&mut self.pool)
    }

    /// A node of a tree.
    pub fn node(&mut self, alloc: Global, tree: &RTree, page: u64) -> Result<TreeNode, PageFault> {
        tree.node(alloc, &mut self.pool, page)
    }
}
