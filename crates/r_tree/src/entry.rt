ghost use Rattle.std.specs.Prelude.{◌≡◌};
ghost use Rattle.r_tree.specs.Entry.{rect_of_ends, box_of, rect_union, covers, branch};

use sand_base::{Point, Rect, Rough};
use std::cmp::{max, min};

/// An entry of a node: a rough shape with its id in a leaf, a rectangle with a child's page in an inner node.
#[derive(Clone, Copy, Debug, PartialEq, Eq)]
pub struct NodeEntry {
    pub rough: Rough,
    pub id: u32,
    pub child: u64,
}

// The least closed rectangle that has both points.
fn rect_of_ends(p: Point, q: Point) -> Rect
    ensures { result ≡ rect_of_ends p q }
{
    Rect {
        low: Point {
            x: min(p.x, q.x),
            y: min(p.y, q.y),
        },
        high: Point {
            x: max(p.x, q.x),
            y: max(p.y, q.y),
        },
    }
}

// The least closed rectangle round a rough shape.
pub fn box_of(rough: Rough) -> Rect
    ensures { result ≡ box_of rough }
{
    match rough {
        Rough::Point(p) => Rect { low: p, high: p },
        Rough::Segment(s) => rect_of_ends(s.a, s.b),
        Rough::Bound(r) => r,
    }
}

// The least closed rectangle that holds both rectangles.
pub fn rect_union(a: Rect, b: Rect) -> Rect
    ensures { result ≡ rect_union a b }
{
    Rect {
        low: Point {
            x: min(a.low.x, b.low.x),
            y: min(a.low.y, b.low.y),
        },
        high: Point {
            x: max(a.high.x, b.high.x),
            y: max(a.high.y, b.high.y),
        },
    }
}

// Whether the first rectangle holds the second.
pub fn covers(r: Rect, b: Rect) -> bool
    ensures { result ≡ covers r b }
{
    let below = r.low.x <= b.low.x && r.low.y <= b.low.y;
    let above = b.high.x <= r.high.x && b.high.y <= r.high.y;
    below && above
}

// The entry of an inner node for a child and the rectangle round it.
pub fn branch(bound: Rect, child: u64) -> NodeEntry
    ensures { result ≡ branch bound child }
{
    NodeEntry {
        rough: Rough::Bound(bound),
        id: 0,
        child,
    }
}
