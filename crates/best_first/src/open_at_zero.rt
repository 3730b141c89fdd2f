ghost use Rattle.std.specs.Prelude.{◌≡◌, ◌<◌, ◌++◌, ◌∷◌, [], List, IfSome, MatchResult};
ghost use Rattle.page_pool.specs.Reads.{IsRead};
ghost use Rattle.page_pool.specs.Causes.{HasPageCause};
ghost use Rattle.best_first.specs.Visits.{told_pages, state, Goes, Fails};
ghost use Rattle.best_first.specs.Steps.{steps};
ghost use Rattle.best_first.specs.ZeroItems.{items_of};
ghost use Rattle.best_first.specs.WithinZero.{StandsWithin};

use crate::{Frontier, ZeroHierarchy, ZeroQueue};
use page_pool::{Desk, Disk, PageFault};
use std::alloc::Global;

// Opens the node that is next: what the hierarchy finds at the distance 0 takes its place, and the visit is counted. A
// refusal leaves the frontier as it was.
pub fn open_node<H: ZeroHierarchy, D: Disk>(
    alloc: Global,
    hierarchy: &H,
    frontier: &mut Frontier<ZeroQueue<H::Node>>,
    near: &mut H::Near,
    desk: &mut Desk<D>,
    node: H::Node,
) -> Result<(), PageFault>
    requires next { (rest : List H.Node) × (frontier.old.queue.nodes ≡ rest ++ node ∷ []) }
    requires stands { IfSome (told_pages desk.old) (λ p. StandsWithin H.Node.cmp (H.meaning hierarchy.now p) (items_of frontier.old.queue) frontier.old.last) }
    requires near { IfSome (told_pages desk.old) (λ p. H.IsNear hierarchy.now p near.old) }
    ensures read { IsRead desk.old.pool desk.new.pool }
    ensures cause { HasPageCause desk.old.pool desk.new.pool result }
    ensures last { frontier.new.last ≡ frontier.old.last }
    ensures falls { MatchResult result (λ _. steps (H.weight hierarchy.now) (items_of frontier.new.queue) < steps (H.weight hierarchy.now) (items_of frontier.old.queue))
        (λ _. frontier.new.queue ≡ frontier.old.queue) }
    ensures moves { MatchResult result (λ _. IfSome (told_pages desk.old)
        (λ p. Goes H.Node.cmp (H.meaning hierarchy.now p) (H.note hierarchy.now) (state (items_of frontier.old.queue) frontier.old.last frontier.old.counts desk.old)
        (state (items_of frontier.new.queue) frontier.new.last frontier.new.counts desk.new))) (λ _. IfSome (told_pages desk.old) (λ p.
        Fails H.Node.cmp (H.meaning hierarchy.now p) (H.note hierarchy.now) (state (items_of frontier.old.queue) frontier.old.last frontier.old.counts desk.old)
        (state (items_of frontier.new.queue) frontier.new.last frontier.new.counts desk.new))) }
    ensures near { IfSome (told_pages desk.old) (λ p. H.IsNear hierarchy.now p near.new) }
{
    hierarchy.open_near(alloc, desk, node, near, &mut frontier.queue)?;
    frontier.counts.visited = frontier.counts.visited.saturating_add(1);
    Ok(())
}
