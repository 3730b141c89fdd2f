ghost use Rattle.std.specs.Prelude.{◌≡◌, [], Some, MatchOption};
ghost use Rattle.best_first.specs.Inside.{GivesRow};
ghost use Rattle.best_first.specs.Order.{item_cmp};
ghost use Rattle.best_first.specs.ZeroItems.{items_of, AreRows};

use crate::zero_queue::ZeroQueue;
use crate::{Frontier, Hit};
use exact_frac::Frac;

// Gives the row of the least id, which is then the last one given. None where nothing is queued.
#[inline]
pub fn give_row<N: Ord + Copy + Drop>(frontier: &mut Frontier<ZeroQueue<N>>) -> Option<Hit>
    requires { AreRows frontier.old.queue }
    ensures counts { frontier.new.counts ≡ frontier.old.counts }
    ensures last { MatchOption result (frontier.new.last ≡ frontier.old.last) (λ hit. frontier.new.last ≡ Some hit) }
    ensures queue { MatchOption result ((items_of frontier.old.queue ≡ []) × (items_of frontier.new.queue ≡ []))
        (λ hit. GivesRow (item_cmp N.cmp) hit (items_of frontier.old.queue) (items_of frontier.new.queue)) }
{
    let id = frontier.queue.take_row()?;
    frontier.last = Some(Hit {
        gap: Frac::new(0, 1),
        left: id,
        right: 0,
    });
    frontier.last
}
