ghost use Rattle.std.specs.Prelude.{◌≡◌, ◌<◌, [], IfSome, MatchResult};
ghost use Rattle.page_pool.specs.Reads.{IsRead};
ghost use Rattle.page_pool.specs.Causes.{HasPageCause};
ghost use Rattle.best_first.specs.Visits.{told_pages, state, Goes, Fails};
ghost use Rattle.best_first.specs.Steps.{steps};
ghost use Rattle.best_first.specs.ZeroItems.{items_of, IsLeastOf};
ghost use Rattle.best_first.specs.WithinZero.{StandsWithin};

use crate::zero_queue::ZeroQueue;
use crate::{Frontier, Hierarchy};
use page_pool::{Desk, Disk, PageFault};
use std::alloc::Global;

// Fetches the geometry of the rough object that is next (refinement step): its row takes its place, where it is at the
// distance 0. A refusal leaves the frontier as it was.
pub fn fetch_rough<H: Hierarchy, D: Disk>(
    alloc: Global,
    hierarchy: &H,
    frontier: &mut Frontier<ZeroQueue<H::Node>>,
    desk: &mut Desk<D>,
    id: u32,
) -> Result<(), PageFault>
    requires opened { frontier.old.queue.nodes ≡ [] }
    requires next { IsLeastOf id frontier.old.queue.roughs }
    requires stands { IfSome (told_pages desk.old) (λ p. StandsWithin H.Node.cmp (H.meaning hierarchy.now p) (items_of frontier.old.queue) frontier.old.last) }
    ensures read { IsRead desk.old.pool desk.new.pool }
    ensures cause { HasPageCause desk.old.pool desk.new.pool result }
    ensures last { frontier.new.last ≡ frontier.old.last }
    ensures falls { MatchResult result (λ _. steps (H.weight hierarchy.now) (items_of frontier.new.queue) < steps (H.weight hierarchy.now) (items_of frontier.old.queue))
        (λ _. frontier.new.queue ≡ frontier.old.queue) }
    ensures moves { MatchResult result (λ _. IfSome (told_pages desk.old)
        (λ p. Goes H.Node.cmp (H.meaning hierarchy.now p) (H.note hierarchy.now) (state (items_of frontier.old.queue) frontier.old.last frontier.old.counts desk.old)
        (state (items_of frontier.new.queue) frontier.new.last frontier.new.counts desk.new))) (λ _. IfSome (told_pages desk.old) (λ p.
        Fails H.Node.cmp (H.meaning hierarchy.now p) (H.note hierarchy.now) (state (items_of frontier.old.queue) frontier.old.last frontier.old.counts desk.old)
        (state (items_of frontier.new.queue) frontier.new.last frontier.new.counts desk.new))) }
{
    let exact = hierarchy.resolve(alloc, desk, id, 0)?;
    frontier.queue.fetch(id, exact.num() == 0);
    frontier.counts.fetched = frontier.counts.fetched.saturating_add(1);
    Ok(())
}
