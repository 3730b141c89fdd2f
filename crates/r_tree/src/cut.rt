ghost use Rattle.std.specs.Prelude.{◌≡◌, ◌+◌, ◌≤◌, length, IsPermutation};

use crate::entry::{NodeEntry, box_of};
use crate::hull::bound_of;
use crate::measure::{area, half_perimeter, overlap};
use sand_base::Rect;
use std::cmp::max;

// Twice the middle of a rectangle, along x or along y.
fn centre(r: Rect, along_x: bool) -> u64 {
    if along_x {
        return u64::from(r.low.x) + u64::from(r.high.x);
    }
    u64::from(r.low.y) + u64::from(r.high.y)
}

// Whether the rectangle round the entries is at least as wide as it is high.
fn is_wide(entries: &[NodeEntry]) -> bool {
    match bound_of(entries) {
        Some(r) => { r.high.y.saturating_sub(r.low.y) <= r.high.x.saturating_sub(r.low.x) }
        None => true,
    }
}

// Orders entries by their middles, along x or along y.
fn order_along(entries: &mut [NodeEntry], along_x: bool)
    ensures { IsPermutation entries.old entries.new }
{
    entries.sort_unstable_by_key(|entry| centre(box_of(entry.rough), along_x));
}

/// Orders entries by their middles along the longer side of the rectangle round them.
pub fn order(entries: &mut [NodeEntry])
    ensures { IsPermutation entries.old entries.new }
{
    let along_x = is_wide(entries);
    order_along(entries, along_x);
}

// The rectangles round the entries up to a place, and round those behind it.
fn halves(entries: &[NodeEntry], at: usize) -> Option<(Rect, Rect)>
    requires { at ≤ length entries.now }
{
    let (left, right) = entries.split_at(at);
    match (bound_of(left), bound_of(right)) {
        (Some(left_bound), Some(right_bound)) => Some((left_bound, right_bound)),
        _ => None,
    }
}

// The least place at which so many entries make two nodes. The greatest one is as far from their end.
fn least_place(count: usize) -> usize
    requires many { 100 ≤ count }
    requires few { count ≤ 252 }
    ensures full { 50 ≤ result }
    ensures fits { count ≤ result + 126 }
    ensures front { result + result ≤ count }
{
    max(50, count.saturating_sub(126))
}

// The half perimeters of both parts, summed over all places where the entries may be cut.
fn margins(entries: &[NodeEntry]) -> u64
    requires many { 100 ≤ length entries.now }
    requires few { length entries.now ≤ 252 }
{
    let first = least_place(entries.len());
    let mut sum: u64 = 0;
    'places: for at in first..entries.len() - first + 1 {
        if let Some((left, right)) = halves(entries, at) {
            sum = sum.saturating_add(half_perimeter(left));
            sum = sum.saturating_add(half_perimeter(right));
        }
    }
    sum
}

// What speaks against a place: how much the parts overlap, how large they are, and how unlike their sizes.
fn badness(entries: &[NodeEntry], at: usize) -> (u64, u64, usize)
    requires { at ≤ length entries.now }
{
    let rest = entries.len() - at;
    match halves(entries, at) {
        Some((left, right)) => {
            let size = area(left).saturating_add(area(right));
            (overlap(left, right), size, at.abs_diff(rest))
        }
        None => (u64::MAX, u64::MAX, usize::MAX),
    }
}

// The place that has least against it.
fn best_place(entries: &[NodeEntry]) -> usize
    requires many { 100 ≤ length entries.now }
    requires few { length entries.now ≤ 252 }
    ensures left_full { 50 ≤ result }
    ensures left_fits { result ≤ 126 }
    ensures right_full { result + 50 ≤ length entries.now }
    ensures right_fits { length entries.now ≤ result + 126 }
{
    let first = least_place(entries.len());
    let mut best = first;
    let mut least = badness(entries, first);
    'places: for at in first..entries.len() - first + 1 {
        let here = badness(entries, at);
        if here < least {
            least = here;
            best = at;
        }
    }
    best
}

/// Orders 100 to 252 entries such that those up to a place and those behind it make two nodes, and gives that place: along
/// the axis with the smaller perimeters, where the parts overlap least.
pub fn cut(entries: &mut [NodeEntry]) -> usize
    requires many { 100 ≤ length entries.old }
    requires few { length entries.old ≤ 252 }
    ensures order { IsPermutation entries.old entries.new }
    ensures left_full { 50 ≤ result }
    ensures left_fits { result ≤ 126 }
    ensures right_full { result + 50 ≤ length entries.new }
    ensures right_fits { length entries.new ≤ result + 126 }
{
    order_along(entries, true);
    let along_x = margins(entries);
    order_along(entries, false);
    let along_y = margins(entries);
    order_along(entries, along_x < along_y);
    best_place(entries)
}
