ghost use Rattle.std.specs.Prelude.{◌≡◌, ◌<◌, IfSome, MatchResult};
ghost use Rattle.page_pool.specs.Reads.{IsRead};
ghost use Rattle.page_pool.specs.Causes.{HasPageCause};
ghost use Rattle.rank_queue.specs.Least.{IsFirst};
ghost use Rattle.best_first.specs.declared.item.Item.{Item};
ghost use Rattle.best_first.specs.Order.{item_cmp};
ghost use Rattle.best_first.specs.Frontier.{StandsOver};
ghost use Rattle.best_first.specs.Visits.{told_pages, state, Goes, Fails};
ghost use Rattle.best_first.specs.Steps.{steps};

use crate::push_within::keep_within;
use crate::{Frontier, Hierarchy, Item};
use exact_frac::Frac;
use page_pool::{Desk, Disk, PageFault};
use rank_queue::Queue;
use std::alloc::Global;

// Opens the node at the front: what it finds takes its place. It empties the list and reads into it, then reserves,
// and only then replaces the node, so that a refusal leaves the frontier as it was.
pub fn open_node<H: Hierarchy, Q: Queue<Item<H::Node>>, D: Disk>(
    alloc: Global,
    hierarchy: &H,
    frontier: &mut Frontier<Q>,
    near: &mut H::Near,
    found: &mut Vec<Item<H::Node>>,
    desk: &mut Desk<D>,
    gap: Frac,
    node: H::Node,
) -> Result<(), PageFault>
    requires front { IsFirst (item_cmp H.Node.cmp) (Item.Node gap node) (Q.held frontier.old.queue) }
    requires stands { IfSome (told_pages desk.old) (λ p. StandsOver H.Node.cmp (H.meaning hierarchy.now p) (Q.held frontier.old.queue) frontier.old.last) }
    requires near { IfSome (told_pages desk.old) (λ p. H.IsNear hierarchy.now p near.old) }
    ensures read { IsRead desk.old.pool desk.new.pool }
    ensures cause { HasPageCause desk.old.pool desk.new.pool result }
    ensures last { frontier.new.last ≡ frontier.old.last }
    ensures falls { MatchResult result (λ _. steps (H.weight hierarchy.now) (Q.held frontier.new.queue) < steps (H.weight hierarchy.now) (Q.held frontier.old.queue))
        (λ _. Q.held frontier.new.queue ≡ Q.held frontier.old.queue) }
    ensures moves { MatchResult result (λ _. IfSome (told_pages desk.old)
        (λ p. Goes H.Node.cmp (H.meaning hierarchy.now p) (H.note hierarchy.now) (state (Q.held frontier.old.queue) frontier.old.last frontier.old.counts desk.old)
        (state (Q.held frontier.new.queue) frontier.new.last frontier.new.counts desk.new))) (λ _. IfSome (told_pages desk.old) (λ p.
        Fails H.Node.cmp (H.meaning hierarchy.now p) (H.note hierarchy.now) (state (Q.held frontier.old.queue) frontier.old.last frontier.old.counts desk.old)
        (state (Q.held frontier.new.queue) frontier.new.last frontier.new.counts desk.new))) }
    ensures near { IfSome (told_pages desk.old) (λ p. H.IsNear hierarchy.now p near.new) }
{
    found.clear();
    hierarchy.expand_near(alloc, desk, gap, node, near, found)?;
    frontier.queue.reserve(found.len())?;
    keep_within(hierarchy.ceiling(), found);
    let Some(_opened) = frontier.queue.replace_first(found) else {
        return Ok(())
    };
    frontier.counts.visited = frontier.counts.visited.saturating_add(1);
    Ok(())
}
