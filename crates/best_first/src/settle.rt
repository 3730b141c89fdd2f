ghost use Rattle.std.specs.Prelude.{◌≡◌, ◌≤◌, IfSome, OnOk, IsOk, MatchResult};
ghost use Rattle.page_pool.specs.Reads.{IsRead};
ghost use Rattle.page_pool.specs.Causes.{HasPageCause};
ghost use Rattle.best_first.specs.Order.{item_cmp};
ghost use Rattle.best_first.specs.Frontier.{StandsOver};
ghost use Rattle.best_first.specs.Visits.{told_pages, state, Goes, Fails};
ghost use Rattle.best_first.specs.Steps.{steps, IsSettled};

use crate::step::step;
use crate::{Frontier, Hierarchy, Item};
use page_pool::{Desk, Disk, PageFault};
use rank_queue::Queue;
use std::alloc::Global;

// Steps until a row is at the front or nothing is queued. The first expansion is given
// nothing, and each one after it what the one before has left.
pub fn settle<H: Hierarchy, Q: Queue<Item<H::Node>>, D: Disk>(
    alloc: Global,
    hierarchy: &H,
    frontier: &mut Frontier<Q>,
    found: &mut Vec<Item<H::Node>>,
    desk: &mut Desk<D>,
) -> Result<(), PageFault>
    requires { IfSome (told_pages desk.old) (λ p. StandsOver H.Node.cmp (H.meaning hierarchy.now p) (Q.held frontier.old.queue) frontier.old.last) }
    ensures read { IsRead desk.old.pool desk.new.pool }
    ensures cause { HasPageCause desk.old.pool desk.new.pool result }
    ensures last { frontier.new.last ≡ frontier.old.last }
    ensures falls { steps (H.weight hierarchy.now) (Q.held frontier.new.queue) ≤ steps (H.weight hierarchy.now) (Q.held frontier.old.queue) }
    ensures moves { MatchResult result (λ _. IfSome (told_pages desk.old)
        (λ p. Goes H.Node.cmp (H.meaning hierarchy.now p) (H.note hierarchy.now) (state (Q.held frontier.old.queue) frontier.old.last frontier.old.counts desk.old)
        (state (Q.held frontier.new.queue) frontier.new.last frontier.new.counts desk.new))) (λ _. IfSome (told_pages desk.old) (λ p.
        Fails H.Node.cmp (H.meaning hierarchy.now p) (H.note hierarchy.now) (state (Q.held frontier.old.queue) frontier.old.last frontier.old.counts desk.old)
        (state (Q.held frontier.new.queue) frontier.new.last frontier.new.counts desk.new))) }
    ensures settled { OnOk result (IsSettled (item_cmp H.Node.cmp) (Q.held frontier.new.queue)) }
    ensures still { IsSettled (item_cmp H.Node.cmp) (Q.held frontier.old.queue) → (desk.new ≡ desk.old) × IsOk result }
{
    let mut near = hierarchy.nowhere();
    'steps: loop {
        match step(alloc, hierarchy, frontier, &mut near, found, desk) {
            Ok(true) => {}
            Ok(false) => return Ok(()),
            Err(fault) => return Err(fault),
        }
    }
}
