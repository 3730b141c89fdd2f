ghost use Rattle.best_first.specs.declared.item.Item.{Item};
ghost use Rattle.std.specs.Prelude.{[], ◌∷◌, ◌≡◌, ◌<◌, ◌≤◌, ◌++◌, IsPermutation};
ghost use Rattle.sand_base.specs.InRange.{IsCeilingInRange};
ghost use Rattle.best_first.specs.Item.{gap_of};
ghost use Rattle.best_first.specs.Reach.{within};
ghost use Rattle.best_first.specs.Hierarchy.{kept};
ghost use Rattle.best_first.specs.Inside.{AddsRow};

use crate::{Hit, Item};
use exact_frac::Frac;
use rank_queue::Queue;

// Whether the gap is within the ceiling.
fn is_within(ceiling: Option<u32>, gap: &Frac) -> bool
    requires { IsCeilingInRange ceiling }
    ensures { result ≡ within ceiling gap.now }
{
    match ceiling {
        None => true,
        Some(most) => gap.at_most_square(most),
    }
}

// Leaves in the list the items that are within the ceiling, which are all of them where there is no ceiling.
pub fn keep_within<N: Ord + Copy>(ceiling: Option<u32>, found: &mut Vec<Item<N>>)
    requires { IsCeilingInRange ceiling }
    ensures { found.new.items ≡ kept (within ceiling) found.old.items }
{
    if ceiling.is_some() {
        found.retain(
            |item|
                requires { IsCeilingInRange ceiling }
                ensures { result ≡ within ceiling (gap_of item.now) }
            { is_within(ceiling, &item.gap()) },
        );
    }
}

// Queues the root of a hierarchy, where it is within the ceiling.
pub fn push_root<N: Ord + Copy, Q: Queue<Item<N>>>(
    queue: &mut Q,
    ceiling: Option<u32>,
    gap: Frac,
    node: N,
)
    requires small { IsCeilingInRange ceiling }
    requires room { 1 ≤ Q.spare queue.old }
    ensures { IsPermutation (kept (within ceiling) (Item.Node gap node ∷ []) ++ Q.held queue.old) (Q.held queue.new) }
{
    if is_within(ceiling, &gap) {
        queue.push(Item::Node { gap, node });
    }
}

// Queues the row whose geometry was fetched. Where its gap is below the one under which it stood as rough, it was
// given already, since a leaf nearer by listed it too.
pub fn push_row<N: Ord + Copy, Q: Queue<Item<N>>>(
    queue: &mut Q,
    ceiling: Option<u32>,
    rough: &Frac,
    hit: Hit,
)
    requires small { IsCeilingInRange ceiling }
    requires room { 1 ≤ Q.spare queue.old }
    ensures { AddsRow ceiling rough.now hit (Q.held queue.old) (Q.held queue.new) }
{
    if rough.compare(&hit.gap).is_gt() {
        return;
    }
    if is_within(ceiling, &hit.gap) {
        queue.push(Item::Row {
            gap: hit.gap,
            left: hit.left,
            right: hit.right,
        });
    }
}
