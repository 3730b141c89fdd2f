ghost use Rattle.std.specs.Prelude.{◌≡◌, Some};
ghost use Rattle.r_tree.specs.Entry.{union_of, box_of, bound_of};

use crate::entry::{NodeEntry, box_of, rect_union};
use sand_base::Rect;

// The least rectangle round what was seen so far and one rectangle more.
fn widened(bound: Option<Rect>, more: Rect) -> Rect
    ensures { Some result ≡ union_of bound (Some more) }
{
    match bound {
        Some(rect) => rect_union(rect, more),
        None => more,
    }
}

// The least rectangle round the entries of a node, if it has any.
pub fn bound_of(entries: &[NodeEntry]) -> Option<Rect>
    ensures { result ≡ bound_of entries.now }
{
    let mut bound = None;
    'entries: for entry in entries {
        bound = Some(widened(bound, box_of(entry.rough)));
    }
    bound
}
