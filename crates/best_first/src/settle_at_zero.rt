ghost use Rattle.std.specs.Prelude.{◌≡◌, ◌≤◌, IfSome, OnOk, IsOk, MatchResult};
ghost use Rattle.page_pool.specs.Reads.{IsRead};
ghost use Rattle.page_pool.specs.Causes.{HasPageCause};
ghost use Rattle.best_first.specs.Visits.{told_pages, state, Goes, Fails};
ghost use Rattle.best_first.specs.Steps.{steps};
ghost use Rattle.best_first.specs.ZeroItems.{items_of, AreRows};
ghost use Rattle.best_first.specs.WithinZero.{StandsWithin};

use crate::step_at_zero::step;
use crate::{Frontier, ZeroHierarchy, ZeroQueue};
use page_pool::{Desk, Disk, PageFault};
use std::alloc::Global;

// Steps until rows alone are left. The first expansion is given nothing, and each one after it what the one before has
// left.
pub fn settle<H: ZeroHierarchy, D: Disk>(
    alloc: Global,
    hierarchy: &H,
    frontier: &mut Frontier<ZeroQueue<H::Node>>,
    desk: &mut Desk<D>,
) -> Result<(), PageFault>
    requires { IfSome (told_pages desk.old) (λ p. StandsWithin H.Node.cmp (H.meaning hierarchy.now p) (items_of frontier.old.queue) frontier.old.last) }
    ensures read { IsRead desk.old.pool desk.new.pool }
    ensures cause { HasPageCause desk.old.pool desk.new.pool result }
    ensures last { frontier.new.last ≡ frontier.old.last }
    ensures falls { steps (H.weight hierarchy.now) (items_of frontier.new.queue) ≤ steps (H.weight hierarchy.now) (items_of frontier.old.queue) }
    ensures moves { MatchResult result (λ _. IfSome (told_pages desk.old)
        (λ p. Goes H.Node.cmp (H.meaning hierarchy.now p) (H.note hierarchy.now) (state (items_of frontier.old.queue) frontier.old.last frontier.old.counts desk.old)
        (state (items_of frontier.new.queue) frontier.new.last frontier.new.counts desk.new))) (λ _. IfSome (told_pages desk.old) (λ p.
        Fails H.Node.cmp (H.meaning hierarchy.now p) (H.note hierarchy.now) (state (items_of frontier.old.queue) frontier.old.last frontier.old.counts desk.old)
        (state (items_of frontier.new.queue) frontier.new.last frontier.new.counts desk.new))) }
    ensures settled { OnOk result (AreRows frontier.new.queue) }
    ensures still { AreRows frontier.old.queue → (desk.new ≡ desk.old) × IsOk result }
{
    let mut near = hierarchy.nowhere();
    'steps: loop {
        match step(alloc, hierarchy, frontier, &mut near, desk) {
            Ok(true) => {}
            Ok(false) => return Ok(()),
            Err(fault) => return Err(fault),
        }
    }
}
