// A tree in pages beside a plain list, over drawn changes.
use crate::tree_draws::Draws;
use crate::tree_nodes::{look_through, no_rows};
use crate::tree_pool::{Change, TreePool};
use page_pool::PageFault;
use r_tree::RTree;
use sand_base::{COORDINATE_BITS, NoMemory, Point, Rect, Rough, Segment};
use std::alloc::Global;

/// What shapes a course has.
#[derive(Clone, Copy)]
pub enum Kind {
    Points,
    OnePoint,
    OneLine,
    /// Rectangles that cover almost all of the plane.
    Covering,
    /// Points, segments and rectangles.
    Mixed,
}

// A drawn point.
fn point(draws: &mut Draws) -> Point {
    Point {
        x: draws.coordinate(),
        y: draws.coordinate(),
    }
}

// A point up to 1,000 away from another one.
fn near(draws: &mut Draws, p: Point) -> Point {
    Point {
        x: p.x.saturating_add(draws.below(1_000)),
        y: p.y.saturating_add(draws.below(1_000)),
    }
}

// A rectangle that covers all of the plane but its edges.
fn covering(draws: &mut Draws) -> Rect {
    let low = draws.below(4);
    let high = ((1 << COORDINATE_BITS) - 1u32).saturating_sub(draws.below(4));
    Rect {
        low: Point { x: low, y: low },
        high: Point { x: high, y: high },
    }
}

// A point, a segment or a rectangle.
fn mixed(draws: &mut Draws) -> Rough {
    let p = point(draws);
    let q = near(draws, p);
    match draws.below(3) {
        0 => Rough::Point(p),
        1 => Rough::Segment(Segment { a: q, b: p }),
        _ => Rough::Bound(Rect { low: p, high: q }),
    }
}

/// A drawn shape.
pub fn shape(kind: Kind, draws: &mut Draws) -> Rough {
    match kind {
        Kind::Points => Rough::Point(point(draws)),
        Kind::OnePoint => Rough::Point(Point { x: 500, y: 600 }),
        Kind::OneLine => Rough::Point(Point {
            x: draws.coordinate(),
            y: 77,
        }),
        Kind::Covering => Rough::Bound(covering(draws)),
        Kind::Mixed => mixed(draws),
    }
}

// So many drawn shapes with ids from 0 on.
fn drawn_list(alloc: Global, kind: Kind, rows: u32) -> Result<Vec<(u32, Rough)>, NoMemory> {
    let mut draws = Draws::begin(u64::from(rows));
    let mut list = Vec::with_capacity(alloc, rows as usize)?;
    'rows: for id in 0..rows {
        list.push((id, shape(kind, &mut draws)))?;
    }
    Ok(list)
}

/// A tree beside a plain list: the shape of each id, from 0 on. The changes that wait. Whether they were the same each time, how many calls were
/// refused, how high the tree was at most, and how many nodes it had.
#[derive(Drop)]
pub struct Trial {
    pool: TreePool,
    tree: RTree,
    plain: Vec<Option<Rough>>,
    waiting: Vec<Change>,
    pub same: bool,
    pub refused: u32,
    pub highest: u32,
    pub nodes: u64,
}

// An empty tree, and how many tries were refused: one at most.
fn planted(pool: &mut TreePool) -> Result<(RTree, u32), PageFault> {
    match pool.plant() {
        Ok(tree) => Ok((tree, 0)),
        Err(_why) => Ok((pool.plant()?, 1)),
    }
}

// An id has this shape in a plain list, or none. False where the list has no room for it.
fn put(plain: &mut [Option<Rough>], id: u32, row: Option<Rough>) -> bool {
    match plain.get_mut(id as usize) {
        Some(place) => {
            *place = row;
            true
        }
        None => false,
    }
}

// A change of a plain list.
fn put_change(plain: &mut [Option<Rough>], change: Change) -> bool {
    match change {
        Change::Insert(id, rough) => put(plain, id, Some(rough)),
        Change::Remove(id, _rough) => put(plain, id, None),
    }
}

impl Trial {
    /// Both of them empty, in a pool of so many frames, over a disk that fails at this call, for ids below this number.
    pub fn begin(alloc: Global, frames: u32, fails: u32, ids: u32) -> Result<Trial, PageFault> {
        let mut pool = TreePool::start(alloc, frames, fails)?;
        let (tree, refused) = planted(&mut pool)?;
        Ok(Trial {
            pool,
            tree,
            plain: no_rows(alloc, ids as usize)?,
            same: true,
            waiting: Vec::new(alloc),
            refused,
            highest: 1,
            nodes: 1,
        })
    }

    /// The height of the tree.
    pub fn height(&self) -> u32 {
        self.tree.height()
    }

    // Whether the tree lists what the plain list does, and is whole.
    fn is_same(&mut self, alloc: Global) -> Result<bool, PageFault> {
        let found = look_through(alloc, &mut self.pool, &self.tree, self.plain.len())?;
        self.nodes = self.nodes.max(found.nodes);
        Ok(found.is_right && found.rows.as_slice() == self.plain.as_slice())
    }

    /// Takes note of whether they are the same; where the disk fails, at the second look.
    pub fn compare(&mut self, alloc: Global) {
        match self.is_same(alloc) {
            Ok(same) => self.same &= same,
            Err(_why) => {
                self.refused = self.refused.saturating_add(1);
                self.same &= matches!(self.is_same(alloc), Ok(true));
            }
        }
    }

    /// Makes the changes that wait, in one command: a second time where one is refused, and the tree is as it was between.
    pub fn make_waiting(&mut self, alloc: Global) {
        if self
            .pool
            .change(alloc, &mut self.tree, &self.waiting)
            .is_err()
        {
            self.refused = self.refused.saturating_add(1);
            self.compare(alloc);
            let again = self.pool.change(alloc, &mut self.tree, &self.waiting);
            self.same &= again.is_ok();
        }
        self.highest = self.highest.max(self.tree.height());
        for change in &self.waiting {
            self.same &= put_change(&mut self.plain, *change);
        }
        self.waiting.clear();
    }

    /// The id is to come with this shape, or to leave where it is there.
    pub fn toggle(&mut self, id: u32, rough: Rough) -> Result<(), NoMemory> {
        let change = match self.plain.get(id as usize) {
            Some(Some(was)) => Change::Remove(id, *was),
            _ => Change::Insert(id, rough),
        };
        self.waiting.push(change)?;
        Ok(())
    }

    // The tree of a list, at the second try where the first is refused; the tree is as it was between.
    fn built(&mut self, alloc: Global, list: &[(u32, Rough)]) -> Result<RTree, PageFault> {
        if let Ok(tree) = self.pool.build(alloc, list) {
            return Ok(tree);
        }
        self.refused = self.refused.saturating_add(1);
        self.compare(alloc);
        self.pool.build(alloc, list)
    }

    /// The tree is built anew from a list of drawn shapes, with ids from 0 on.
    pub fn build(&mut self, alloc: Global, kind: Kind, rows: u32) -> Result<(), PageFault> {
        let list = drawn_list(alloc, kind, rows)?;
        self.tree = self.built(alloc, &list)?;
        self.highest = self.highest.max(self.tree.height());
        for (id, rough) in &list {
            self.same &= put(&mut self.plain, *id, Some(*rough));
        }
        Ok(())
    }

    /// Puts the pages of the tree on the disk alone.
    pub fn empty_frames(&mut self) {
        if self.pool.empty_frames().is_err() {
            self.refused = self.refused.saturating_add(1);
        }
    }
}
