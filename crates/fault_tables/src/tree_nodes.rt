// A whole tree, node by node: what it lists, and whether it is one.
use crate::tree_pool::TreePool;
use page_pool::PageFault;
use r_tree::{RTree, TreeNode};
use sand_base::{NoMemory, Point, Rect, Rough};
use std::alloc::Global;
use std::cmp::{max, min};

/// What a tree lists: the shape of each id, from 0 on. And whether all was as it should be.
#[derive(Drop)]
pub struct Listed {
    pub rows: Vec<Option<Rough>>,
    pub nodes: u64,
    pub is_right: bool,
}

/// A node that is to be looked at: its page, how high above the leaves it stands, the rectangle that leads to it, and how many
/// entries it has at least.
#[derive(Clone, Copy)]
struct Place {
    page: u64,
    level: u32,
    bound: Option<Rect>,
    least: usize,
}

// The rectangle between two corners.
fn between(p: Point, q: Point) -> Rect {
    Rect {
        low: Point {
            x: min(p.x, q.x),
            y: min(p.y, q.y),
        },
        high: Point {
            x: max(p.x, q.x),
            y: max(p.y, q.y),
        },
    }
}

// The least rectangle round a shape.
fn round(rough: Rough) -> Rect {
    match rough {
        Rough::Point(p) => between(p, p),
        Rough::Segment(s) => between(s.a, s.b),
        Rough::Bound(r) => r,
    }
}

// The least rectangle round another one and one more.
fn widened(bound: Option<Rect>, more: Rect) -> Option<Rect> {
    let Some(r) = bound else {
        return Some(more);
    };
    Some(Rect {
        low: between(r.low, more.low).low,
        high: between(r.high, more.high).high,
    })
}

/// No shape, for each id below this number.
pub fn no_rows(alloc: Global, ids: usize) -> Result<Vec<Option<Rough>>, NoMemory> {
    let mut rows = Vec::with_capacity(alloc, ids)?;
    'rows: for _ in 0..ids {
        rows.push(None)?;
    }
    Ok(rows)
}

impl Listed {
    // Nothing, of ids below this number.
    fn none(alloc: Global, ids: usize) -> Result<Listed, NoMemory> {
        Ok(Listed {
            rows: no_rows(alloc, ids)?,
            nodes: 0,
            is_right: true,
        })
    }

    // Takes note of a member, which isn't listed yet.
    fn note(&mut self, id: u32, rough: Rough) {
        match self.rows.get_mut(id as usize) {
            Some(row) if row.is_none() => *row = Some(rough),
            _ => self.is_right = false,
        }
    }

    // Takes note of a leaf.
    fn note_leaf(&mut self, place: Place, members: &[(u32, Rough)]) {
        let mut bound = None;
        for (id, rough) in members {
            bound = widened(bound, round(*rough));
            self.note(*id, *rough);
        }
        self.note_node(place, members.len(), bound);
    }

    // Takes note of how many entries a node has, and of the rectangle round them.
    fn note_node(&mut self, place: Place, entries: usize, bound: Option<Rect>) {
        self.nodes = self.nodes.saturating_add(1);
        if entries < place.least || entries > 126 || bound != place.bound {
            self.is_right = false;
        }
    }

    // Takes note of an inner node, and adds its children to those that are to be looked at.
    fn note_inner(
        &mut self,
        place: Place,
        branches: &[(Rect, u64)],
        rest: &mut Vec<Place>,
    ) -> Result<(), NoMemory> {
        let mut bound = None;
        for (rect, page) in branches {
            bound = widened(bound, *rect);
            rest.push(Place {
                page: *page,
                level: place.level.saturating_sub(1),
                bound: Some(*rect),
                least: 50,
            })?;
        }
        self.note_node(place, branches.len(), bound);
        Ok(())
    }
}

// Looks at a node.
fn look_at(
    alloc: Global,
    pool: &mut TreePool,
    tree: &RTree,
    place: Place,
    rest: &mut Vec<Place>,
    listed: &mut Listed,
) -> Result<(), PageFault> {
    match pool.node(alloc, tree, place.page)? {
        TreeNode::Leaf(members) if place.level == 0 => {
            listed.note_leaf(place, members.as_slice());
        }
        TreeNode::Inner(branches) if place.level > 0 => {
            listed.note_inner(place, branches.as_slice(), rest)?;
        }
        _ => listed.is_right = false,
    }
    Ok(())
}

// The root of a tree, as the first place to be looked at.
fn first_places(alloc: Global, tree: &RTree) -> Result<Vec<Place>, NoMemory> {
    let (bound, page) = tree.root();
    let level = tree.height().saturating_sub(1);
    let mut places = Vec::new(alloc);
    places.push(Place {
        page,
        level,
        bound,
        least: if level > 0 { 2 } else { 0 },
    })?;
    Ok(places)
}

/// What a tree lists, of ids below this number.
pub fn look_through(
    alloc: Global,
    pool: &mut TreePool,
    tree: &RTree,
    ids: usize,
) -> Result<Listed, PageFault> {
    let mut listed = Listed::none(alloc, ids)?;
    let mut rest = first_places(alloc, tree)?;
    'nodes: for _ in 0..100_000u32 {
        let Some(place) = rest.pop() else {
            break;
        };
        look_at(alloc, pool, tree, place, &mut rest, &mut listed)?;
    }
    Ok(listed)
}
