// Searches over the quadtrees of a pool whose disk doesn't tell its pages.
ghost use Rattle.std.specs.Prelude.{◌≡◌, ◌<◌, None, false, IfOk};
ghost use Rattle.sand_base.specs.InRange.{IsCeilingInRange};
ghost use Rattle.sand_base.specs.Plane.{IsGoalInClosedPlane};

use crate::shapes::Shapes;
use crate::shy_disk::ShyDisk;
use best_first::{BestFirst, Hierarchy, Hit, Item};
use dist_join::PairTree;
use page_pool::{Desk, PageFault};
use pmr_tree::Pmr;
use rank_cursor::RankTree;
use rank_queue::{PairQueue, Queue};
use sand_base::{Goal, NoMemory};
use semi_join::Semi;
use std::alloc::Global;
use std::marker::Model;
use z_code::Block;

/// The rows that a search gave, whether its end came, and the visits that it made.
#[derive(Drop)]
pub struct Found {
    pub rows: Vec<Hit>,
    pub ended: bool,
    pub visited: u64,
    pub fetched: u64,
}

/// The pages of trees, lent for reading.
#[derive(Drop)]
pub struct Readers {
    desk: Desk<ShyDisk>,
}

impl Model for Readers {
    ghost use Rattle.std.specs.Prelude.{◌≡◌, false};
    ghost use Rattle.std.specs.Coded.{codes};
    ghost use Rattle.page_pool.specs.Inside.{pool_code};
    ghost use Rattle.page_pool.specs.Desk.{DeskState};

    ghost Value = { DeskState };

    ghost coded = { Prim.hlevel (codes, pool_code) };

    ghost view = { λ a. a.desk };

    ghost invariant = { λ a. a.desk.pool.disk.told ≡ false };
}

// Adds a row.
fn push(rows: &mut Vec<Hit>, hit: Hit) -> Result<(), PageFault> {
    match rows.push(hit) {
        Ok(()) => Ok(()),
        Err(_full) => Err(PageFault::Memory),
    }
}

// Adds so many rows of a search; tells whether its end came.
fn add_rows<H: Hierarchy, Q: Queue<Item<H::Node>>>(
    rows: &mut Vec<Hit>,
    search: &mut BestFirst<H, Q>,
    desk: &mut Desk<ShyDisk>,
    most: u32,
) -> Result<bool, PageFault>
    requires { desk.old.pool.disk.told ≡ false }
    ensures { desk.new.pool.disk.told ≡ false }
{
    'rows: for _ in 0..most {
        let Some(hit) = search.next(desk)? else {
            return Ok(true);
        };
        push(rows, hit)?;
    }
    Ok(false)
}

// So many rows of a search.
fn first_rows<H: Hierarchy, Q: Queue<Item<H::Node>>>(
    alloc: Global,
    search: &mut BestFirst<H, Q>,
    desk: &mut Desk<ShyDisk>,
    most: u32,
) -> Result<Found, PageFault>
    requires { desk.old.pool.disk.told ≡ false }
    ensures { desk.new.pool.disk.told ≡ false }
{
    let mut rows = Vec::new(alloc);
    let ended = add_rows(&mut rows, search, desk, most)?;
    Ok(Found {
        rows,
        ended,
        visited: search.visited(),
        fetched: search.fetched(),
    })
}

// Adds so many pairs of a semi-join; tells whether its end came.
fn add_pairs<H: Hierarchy, Q: Queue<Item<H::Node>>>(
    rows: &mut Vec<Hit>,
    semi: &mut Semi<H, Q>,
    desk: &mut Desk<ShyDisk>,
    most: u32,
) -> Result<bool, PageFault>
    requires { desk.old.pool.disk.told ≡ false }
    ensures { desk.new.pool.disk.told ≡ false }
{
    'rows: for _ in 0..most {
        let Some(hit) = semi.next(desk)? else {
            return Ok(true);
        };
        push(rows, hit)?;
    }
    Ok(false)
}

// So many pairs of a semi-join.
fn first_pairs<H: Hierarchy, Q: Queue<Item<H::Node>>>(
    alloc: Global,
    semi: &mut Semi<H, Q>,
    desk: &mut Desk<ShyDisk>,
    most: u32,
) -> Result<Found, PageFault>
    requires { desk.old.pool.disk.told ≡ false }
    ensures { desk.new.pool.disk.told ≡ false }
{
    let mut rows = Vec::new(alloc);
    let ended = add_pairs(&mut rows, semi, desk, most)?;
    Ok(Found {
        rows,
        ended,
        visited: semi.engine().visited(),
        fetched: semi.engine().fetched(),
    })
}

// A search that has given nothing.
fn search<H: Hierarchy>(
    alloc: Global,
    hierarchy: H,
) -> Result<BestFirst<H, PairQueue<Item<H::Node>>>, PageFault>
    ensures { IfOk result (λ s. s.frontier.last ≡ None) }
{
    let queue: PairQueue<Item<H::Node>> = PairQueue::empty(alloc);
    match BestFirst::start(alloc, hierarchy, queue) {
        Ok(search) => Ok(search),
        Err(NoMemory {}) => Err(PageFault::Memory),
    }
}

impl Readers {
    /// The pages of a desk.
    pub fn over(desk: Desk<ShyDisk>) -> Readers
        requires { desk.pool.disk.told ≡ false }
    {
        Readers { desk }
    }

    /// The rows of a ranking from a goal.
    pub fn rank(
        &mut self,
        alloc: Global,
        tree: &Pmr,
        shapes: Shapes,
        goal: Goal,
        ceiling: Option<u32>,
        most: u32,
    ) -> Result<Found, PageFault>
        requires plane { IsGoalInClosedPlane goal }
        requires small { IsCeilingInRange ceiling }
    {
        let hierarchy = RankTree::over(*tree, shapes, goal, ceiling);
        let mut search = search(alloc, hierarchy)?;
        first_rows(alloc, &mut search, &mut self.desk, most)
    }

    /// The pairs of a join.
    pub fn join(
        &mut self,
        alloc: Global,
        left: (&Pmr, Shapes),
        right: (&Pmr, Shapes),
        most: u32,
    ) -> Result<Found, PageFault> {
        let hierarchy = PairTree::over(*left.0, left.1, *right.0, right.1, None);
        let mut search = search(alloc, hierarchy)?;
        first_rows(alloc, &mut search, &mut self.desk, most)
    }

    /// The first pair of each of the left rows, whose ids are those up to their number.
    pub fn semi(
        &mut self,
        alloc: Global,
        left: (&Pmr, Shapes),
        right: (&Pmr, Shapes),
        lefts: u32,
        most: u32,
    ) -> Result<Found, PageFault> {
        let hierarchy = PairTree::over(*left.0, left.1, *right.0, right.1, None);
        let search = search(alloc, hierarchy)?;
        let mut semi = match Semi::start(alloc, search, lefts, lefts) {
            Ok(semi) => semi,
            Err(NoMemory {}) => return Err(PageFault::Memory),
        };
        first_pairs(alloc, &mut semi, &mut self.desk, most)
    }
}
