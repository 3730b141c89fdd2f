ghost use Rattle.std.specs.Prelude.{◌≤◌};
ghost use Rattle.sand_base.specs.InRange.{IsCeilingInRange};
ghost use Rattle.best_first.specs.Wanted.{AddsFor};

use crate::push_within::push_row;
use crate::{Hit, Item, Wanted};
use exact_frac::Frac;
use rank_queue::Queue;

// Queues the row whose geometry was fetched, as `push_row` does, where its left id is wanted.
pub fn push_wanted<N: Ord + Copy, Q: Queue<Item<N>>, W: Wanted>(
    queue: &mut Q,
    wanted: &W,
    ceiling: Option<u32>,
    rough: &Frac,
    hit: Hit,
)
    requires small { IsCeilingInRange ceiling }
    requires room { 1 ≤ Q.spare queue.old }
    ensures { AddsFor (W.lefts wanted.now) ceiling rough.now hit (Q.held queue.old) (Q.held queue.new) }
{
    if wanted.wants(hit.left) {
        push_row(queue, ceiling, rough, hit);
    }
}
