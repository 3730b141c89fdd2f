ghost use Rattle.std.specs.Prelude.{◌<◌, ◌≤◌, length};

use crate::entry::{NodeEntry, box_of, rect_union};
use crate::measure::half_perimeter;
use sand_base::Rect;

// The place of the entry whose rectangle grows least to take in another one, the smaller one of two that grow alike.
pub fn nearest(entries: &[NodeEntry], more: Rect) -> usize
    ensures { 1 ≤ length entries.now → result < length entries.now }
{
    let mut best = 0;
    let mut least = (u64::MAX, u64::MAX);
    'entries: for at in 0..entries.len() {
        let own = box_of(entries[at].rough);
        let size = half_perimeter(own);
        let grown = half_perimeter(rect_union(own, more)).saturating_sub(size);
        if (grown, size) < least {
            least = (grown, size);
            best = at;
        }
    }
    best
}
