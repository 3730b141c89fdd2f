ghost use Rattle.std.specs.Prelude.{◌≡◌, [], Some, MatchOption};
ghost use Rattle.best_first.specs.Order.{item_cmp};
ghost use Rattle.best_first.specs.Steps.{IsSettled};
ghost use Rattle.best_first.specs.Inside.{GivesRow};

use crate::take_equal::take_equal;
use crate::{Frontier, Hit, Item};
use rank_queue::Queue;

// Gives the row at the front, which is then the last one given, and takes all that is one with it. None where
// nothing is queued.
pub fn give_row<N: Ord + Copy, Q: Queue<Item<N>>>(frontier: &mut Frontier<Q>) -> Option<Hit>
    requires { IsSettled (item_cmp N.cmp) (Q.held frontier.old.queue) }
    ensures counts { frontier.new.counts ≡ frontier.old.counts }
    ensures last { MatchOption result (frontier.new.last ≡ frontier.old.last) (λ hit. frontier.new.last ≡ Some hit) }
    ensures queue { MatchOption result ((Q.held frontier.old.queue ≡ []) × (Q.held frontier.new.queue ≡ []))
        (λ hit. GivesRow (item_cmp N.cmp) hit (Q.held frontier.old.queue) (Q.held frontier.new.queue)) }
{
    let Hit { gap, left, right } = match frontier.queue.peek() {
        Some(Item::Row { gap, left, right }) => Hit {
            gap: *gap,
            left: *left,
            right: *right,
        },
        Some(Item::Node { .. }) => return None,
        Some(Item::Rough { .. }) => return None,
        None => return None,
    };
    take_equal(&mut frontier.queue, &Item::Row { gap, left, right });
    frontier.last = Some(Hit { gap, left, right });
    frontier.last
}
