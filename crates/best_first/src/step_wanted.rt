ghost use Rattle.std.specs.Prelude.{◌≡◌, IfSome};
ghost use Rattle.page_pool.specs.Reads.{IsRead};
ghost use Rattle.page_pool.specs.Causes.{HasPageCause};
ghost use Rattle.best_first.specs.Order.{item_cmp};
ghost use Rattle.best_first.specs.Visits.{told_pages, state};
ghost use Rattle.best_first.specs.Steps.{steps};
ghost use Rattle.best_first.specs.Inside.{StepFalls};
ghost use Rattle.best_first.specs.Wanted.{StandsOverFor, StepMovesFor, StepSettlesFor};

use crate::fetch_wanted::fetch_wanted;
use crate::open_wanted::open_wanted;
use crate::{Frontier, Hierarchy, Item, Wanted};
use page_pool::{Desk, Disk, PageFault};
use rank_queue::Queue;
use std::alloc::Global;

// One step: the front is opened or fetched, or it leaves, where it is a row whose left id isn't wanted. False where there
// is nothing to do, since a wanted row is at the front or nothing is queued.
pub fn step_wanted<H: Hierarchy, Q: Queue<Item<H::Node>>, W: Wanted, D: Disk>(
    alloc: Global,
    hierarchy: &H,
    wanted: &W,
    frontier: &mut Frontier<Q>,
    near: &mut H::Near,
    found: &mut Vec<Item<H::Node>>,
    desk: &mut Desk<D>,
) -> Result<bool, PageFault>
    requires stands { IfSome (told_pages desk.old) (λ p. StandsOverFor H.Node.cmp (H.meaning hierarchy.now p) (W.lefts wanted.now) (Q.held frontier.old.queue)) }
    requires near { IfSome (told_pages desk.old) (λ p. H.IsNear hierarchy.now p near.old) }
    ensures read { IsRead desk.old.pool desk.new.pool }
    ensures cause { HasPageCause desk.old.pool desk.new.pool result }
    ensures last { frontier.new.last ≡ frontier.old.last }
    ensures falls { StepFalls (steps (H.weight hierarchy.now) (Q.held frontier.old.queue)) (steps (H.weight hierarchy.now) (Q.held frontier.new.queue)) result }
    ensures moves { IfSome (told_pages desk.old) (λ p. StepMovesFor H.Node.cmp (H.meaning hierarchy.now p) (H.note hierarchy.now) (W.lefts wanted.now)
        (state (Q.held frontier.old.queue) frontier.old.last frontier.old.counts desk.old) (state (Q.held frontier.new.queue) frontier.new.last frontier.new.counts desk.new) result) }
    ensures settles { StepSettlesFor (item_cmp H.Node.cmp) (W.lefts wanted.now) (Q.held frontier.new.queue) result }
    ensures near { IfSome (told_pages desk.old) (λ p. H.IsNear hierarchy.now p near.new) }
{
    match frontier.queue.peek() {
        None => Ok(false),
        Some(Item::Row { left, .. }) => {
            if wanted.wants(*left) {
                return Ok(false);
            }
            let Some(_unwanted) = frontier.queue.pop() else {
                return Ok(false);
            };
            Ok(true)
        }
        Some(Item::Node { gap, node }) => {
            let (gap, node) = (*gap, *node);
            if let Err(fault) = open_wanted(
                alloc, hierarchy, wanted, frontier, near, found, desk, gap, node,
            ) {
                return Err(fault);
            }
            Ok(true)
        }
        Some(Item::Rough { gap, left, right }) => {
            let (gap, left, right) = (*gap, *left, *right);
            if let Err(fault) = fetch_wanted(
                alloc, hierarchy, wanted, frontier, desk, gap, left, right,
            ) {
                return Err(fault);
            }
            Ok(true)
        }
    }
}
