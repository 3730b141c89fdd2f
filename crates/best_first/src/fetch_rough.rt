ghost use Rattle.std.specs.Prelude.{◌≡◌, ◌<◌, IfSome, MatchResult};
ghost use Rattle.page_pool.specs.Reads.{IsRead};
ghost use Rattle.page_pool.specs.Causes.{HasPageCause};
ghost use Rattle.rank_queue.specs.Least.{IsFirst};
ghost use Rattle.best_first.specs.declared.item.Item.{Item};
ghost use Rattle.best_first.specs.Order.{item_cmp};
ghost use Rattle.best_first.specs.Frontier.{StandsOver};
ghost use Rattle.best_first.specs.Visits.{told_pages, state, Goes, Fails};
ghost use Rattle.best_first.specs.Steps.{steps};

use crate::push_within::push_row;
use crate::take_equal::take_equal;
use crate::{Frontier, Hierarchy, Hit, Item};
use exact_frac::Frac;
use page_pool::{Desk, Disk, PageFault};
use rank_queue::Queue;
use std::alloc::Global;

// Fetches the geometry of the rough object at the front (refinement step): the row takes its place, and all that is
// one with the rough object leaves. A refusal leaves the frontier as it was.
pub fn fetch_rough<H: Hierarchy, Q: Queue<Item<H::Node>>, D: Disk>(
    alloc: Global,
    hierarchy: &H,
    frontier: &mut Frontier<Q>,
    desk: &mut Desk<D>,
    gap: Frac,
    left: u32,
    right: u32,
) -> Result<(), PageFault>
    requires front { IsFirst (item_cmp H.Node.cmp) (Item.Rough gap left right) (Q.held frontier.old.queue) }
    requires stands { IfSome (told_pages desk.old) (λ p. StandsOver H.Node.cmp (H.meaning hierarchy.now p) (Q.held frontier.old.queue) frontier.old.last) }
    ensures read { IsRead desk.old.pool desk.new.pool }
    ensures cause { HasPageCause desk.old.pool desk.new.pool result }
    ensures last { frontier.new.last ≡ frontier.old.last }
    ensures falls { MatchResult result (λ _. steps (H.weight hierarchy.now) (Q.held frontier.new.queue) < steps (H.weight hierarchy.now) (Q.held frontier.old.queue))
        (λ _. Q.held frontier.new.queue ≡ Q.held frontier.old.queue) }
    ensures moves { MatchResult result (λ _. IfSome (told_pages desk.old)
        (λ p. Goes H.Node.cmp (H.meaning hierarchy.now p) (H.note hierarchy.now) (state (Q.held frontier.old.queue) frontier.old.last frontier.old.counts desk.old)
        (state (Q.held frontier.new.queue) frontier.new.last frontier.new.counts desk.new))) (λ _. IfSome (told_pages desk.old) (λ p.
        Fails H.Node.cmp (H.meaning hierarchy.now p) (H.note hierarchy.now) (state (Q.held frontier.old.queue) frontier.old.last frontier.old.counts desk.old)
        (state (Q.held frontier.new.queue) frontier.new.last frontier.new.counts desk.new))) }
{
    let exact = hierarchy.resolve(alloc, desk, left, right)?;
    take_equal(&mut frontier.queue, &Item::Rough { gap, left, right });
    let hit = Hit {
        gap: exact,
        left,
        right,
    };
    push_row(&mut frontier.queue, hierarchy.ceiling(), &gap, hit);
    frontier.counts.fetched = frontier.counts.fetched.saturating_add(1);
    Ok(())
}
