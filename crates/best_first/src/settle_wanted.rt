ghost use Rattle.std.specs.Prelude.{◌≡◌, ◌≤◌, IfSome, OnOk, MatchResult};
ghost use Rattle.page_pool.specs.Reads.{IsRead};
ghost use Rattle.page_pool.specs.Causes.{HasPageCause};
ghost use Rattle.best_first.specs.Order.{item_cmp};
ghost use Rattle.best_first.specs.Visits.{told_pages, state};
ghost use Rattle.best_first.specs.Steps.{steps};
ghost use Rattle.best_first.specs.Wanted.{StandsOverFor, GoesFor, FailsFor, IsSettledFor};

use crate::step_wanted::step_wanted;
use crate::{Frontier, Hierarchy, Item, Wanted};
use page_pool::{Desk, Disk, PageFault};
use rank_queue::Queue;
use std::alloc::Global;

// Steps until a wanted row is at the front or nothing is queued.
pub fn settle_wanted<H: Hierarchy, Q: Queue<Item<H::Node>>, W: Wanted, D: Disk>(
    alloc: Global,
    hierarchy: &H,
    wanted: &W,
    frontier: &mut Frontier<Q>,
    found: &mut Vec<Item<H::Node>>,
    desk: &mut Desk<D>,
) -> Result<(), PageFault>
    requires { IfSome (told_pages desk.old) (λ p. StandsOverFor H.Node.cmp (H.meaning hierarchy.now p) (W.lefts wanted.now) (Q.held frontier.old.queue)) }
    ensures read { IsRead desk.old.pool desk.new.pool }
    ensures cause { HasPageCause desk.old.pool desk.new.pool result }
    ensures last { frontier.new.last ≡ frontier.old.last }
    ensures falls { steps (H.weight hierarchy.now) (Q.held frontier.new.queue) ≤ steps (H.weight hierarchy.now) (Q.held frontier.old.queue) }
    ensures moves { MatchResult result (λ _. IfSome (told_pages desk.old)
        (λ p. GoesFor H.Node.cmp (H.meaning hierarchy.now p) (H.note hierarchy.now) (W.lefts wanted.now)
        (state (Q.held frontier.old.queue) frontier.old.last frontier.old.counts desk.old)
        (state (Q.held frontier.new.queue) frontier.new.last frontier.new.counts desk.new))) (λ _. IfSome (told_pages desk.old) (λ p.
        FailsFor H.Node.cmp (H.meaning hierarchy.now p) (H.note hierarchy.now) (W.lefts wanted.now)
        (state (Q.held frontier.old.queue) frontier.old.last frontier.old.counts desk.old) (state (Q.held frontier.new.queue) frontier.new.last frontier.new.counts desk.new))) }
    ensures settled { OnOk result (IsSettledFor (item_cmp H.Node.cmp) (W.lefts wanted.now) (Q.held frontier.new.queue)) }
{
    let mut near = hierarchy.nowhere();
    'steps: loop {
        match step_wanted(alloc, hierarchy, wanted, frontier, &mut near, found, desk) {
            Ok(true) => {}
            Ok(false) => return Ok(()),
            Err(fault) => return Err(fault),
        }
    }
}
