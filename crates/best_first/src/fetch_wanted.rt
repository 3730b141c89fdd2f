ghost use Rattle.std.specs.Prelude.{◌≡◌, ◌<◌, IfSome, MatchResult};
ghost use Rattle.page_pool.specs.Reads.{IsRead};
ghost use Rattle.page_pool.specs.Causes.{HasPageCause};
ghost use Rattle.rank_queue.specs.Least.{IsFirst};
ghost use Rattle.best_first.specs.declared.item.Item.{Item};
ghost use Rattle.best_first.specs.Order.{item_cmp};
ghost use Rattle.best_first.specs.Visits.{told_pages, state};
ghost use Rattle.best_first.specs.Steps.{steps};
ghost use Rattle.best_first.specs.Wanted.{StandsOverFor, GoesFor, FailsFor};

use crate::push_wanted::push_wanted;
use crate::take_equal::take_equal;
use crate::{Frontier, Hierarchy, Hit, Item, Wanted};
use exact_frac::Frac;
use page_pool::{Desk, Disk, PageFault};
use rank_queue::Queue;
use std::alloc::Global;

// Fetches the geometry of the rough object at the front, as `fetch_rough` does, whether its left id is wanted or not: the
// visits are those of the hierarchy. The row is queued where it is wanted.
pub fn fetch_wanted<H: Hierarchy, Q: Queue<Item<H::Node>>, W: Wanted, D: Disk>(
    alloc: Global,
    hierarchy: &H,
    wanted: &W,
    frontier: &mut Frontier<Q>,
    desk: &mut Desk<D>,
    gap: Frac,
    left: u32,
    right: u32,
) -> Result<(), PageFault>
    requires front { IsFirst (item_cmp H.Node.cmp) (Item.Rough gap left right) (Q.held frontier.old.queue) }
    requires stands { IfSome (told_pages desk.old) (λ p. StandsOverFor H.Node.cmp (H.meaning hierarchy.now p) (W.lefts wanted.now) (Q.held frontier.old.queue)) }
    ensures read { IsRead desk.old.pool desk.new.pool }
    ensures cause { HasPageCause desk.old.pool desk.new.pool result }
    ensures last { frontier.new.last ≡ frontier.old.last }
    ensures falls { MatchResult result (λ _. steps (H.weight hierarchy.now) (Q.held frontier.new.queue) < steps (H.weight hierarchy.now) (Q.held frontier.old.queue))
        (λ _. Q.held frontier.new.queue ≡ Q.held frontier.old.queue) }
    ensures moves { MatchResult result (λ _. IfSome (told_pages desk.old)
        (λ p. GoesFor H.Node.cmp (H.meaning hierarchy.now p) (H.note hierarchy.now) (W.lefts wanted.now)
        (state (Q.held frontier.old.queue) frontier.old.last frontier.old.counts desk.old)
        (state (Q.held frontier.new.queue) frontier.new.last frontier.new.counts desk.new))) (λ _. IfSome (told_pages desk.old) (λ p.
        FailsFor H.Node.cmp (H.meaning hierarchy.now p) (H.note hierarchy.now) (W.lefts wanted.now)
        (state (Q.held frontier.old.queue) frontier.old.last frontier.old.counts desk.old) (state (Q.held frontier.new.queue) frontier.new.last frontier.new.counts desk.new))) }
{
    let exact = hierarchy.resolve(alloc, desk, left, right)?;
    take_equal(&mut frontier.queue, &Item::Rough { gap, left, right });
    let hit = Hit {
        gap: exact,
        left,
        right,
    };
    push_wanted(&mut frontier.queue, wanted, hierarchy.ceiling(), &gap, hit);
    frontier.counts.fetched = frontier.counts.fetched.saturating_add(1);
    Ok(())
}
