ghost use Rattle.std.specs.Prelude.{◌≡◌, true, false, IfSome, Ok};
ghost use Rattle.page_pool.specs.Reads.{IsRead};
ghost use Rattle.page_pool.specs.Causes.{HasPageCause};
ghost use Rattle.best_first.specs.Order.{item_cmp};
ghost use Rattle.best_first.specs.Frontier.{StandsOver};
ghost use Rattle.best_first.specs.Visits.{told_pages, state};
ghost use Rattle.best_first.specs.Steps.{steps, IsSettled};
ghost use Rattle.best_first.specs.Inside.{StepMoves, StepFalls, StepSettles};

use crate::fetch_rough::fetch_rough;
use crate::open_node::open_node;
use crate::{Frontier, Hierarchy, Item};
use page_pool::{Desk, Disk, PageFault};
use rank_queue::Queue;
use std::alloc::Global;

// One step: the front is opened or fetched. False where there is nothing to do, since a row is at the front or
// nothing is queued.
pub fn step<H: Hierarchy, Q: Queue<Item<H::Node>>, D: Disk>(
    alloc: Global,
    hierarchy: &H,
    frontier: &mut Frontier<Q>,
    near: &mut H::Near,
    found: &mut Vec<Item<H::Node>>,
    desk: &mut Desk<D>,
) -> Result<bool, PageFault>
    requires stands { IfSome (told_pages desk.old) (λ p. StandsOver H.Node.cmp (H.meaning hierarchy.now p) (Q.held frontier.old.queue) frontier.old.last) }
    requires near { IfSome (told_pages desk.old) (λ p. H.IsNear hierarchy.now p near.old) }
    ensures read { IsRead desk.old.pool desk.new.pool }
    ensures cause { HasPageCause desk.old.pool desk.new.pool result }
    ensures last { frontier.new.last ≡ frontier.old.last }
    ensures falls { StepFalls (steps (H.weight hierarchy.now) (Q.held frontier.old.queue)) (steps (H.weight hierarchy.now) (Q.held frontier.new.queue)) result }
    ensures moves { IfSome (told_pages desk.old) (λ p. StepMoves H.Node.cmp (H.meaning hierarchy.now p) (H.note hierarchy.now)
        (state (Q.held frontier.old.queue) frontier.old.last frontier.old.counts desk.old) (state (Q.held frontier.new.queue) frontier.new.last frontier.new.counts desk.new) result) }
    ensures settles { StepSettles (item_cmp H.Node.cmp) (state (Q.held frontier.old.queue) frontier.old.last frontier.old.counts desk.old)
        (state (Q.held frontier.new.queue) frontier.new.last frontier.new.counts desk.new) result }
    ensures near { IfSome (told_pages desk.old) (λ p. H.IsNear hierarchy.now p near.new) }
{
    match frontier.queue.peek() {
        None => Ok(false),
        Some(Item::Row { .. }) => Ok(false),
        Some(Item::Node { gap, node }) => {
            let (gap, node) = (*gap, *node);
            if let Err(fault) = open_node(
                alloc, hierarchy, frontier, near, found, desk, gap, node,
            ) {
                return Err(fault);
            }
            Ok(true)
        }
        Some(Item::Rough { gap, left, right }) => {
            let (gap, left, right) = (*gap, *left, *right);
            if let Err(fault) = fetch_rough(alloc, hierarchy, frontier, desk, gap, left, right) {
                return Err(fault);
            }
            Ok(true)
        }
    }
}
