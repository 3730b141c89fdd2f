ghost use Rattle.std.specs.Prelude.{IfSome, ◌≡◌};
ghost use Rattle.page_pool.specs.Reads.{IsRead};
ghost use Rattle.page_pool.specs.Causes.{HasPageCause};
ghost use Rattle.best_first.specs.Inside.{StepMoves, StepFalls};
ghost use Rattle.best_first.specs.Visits.{told_pages, state};
ghost use Rattle.best_first.specs.Steps.{steps};
ghost use Rattle.best_first.specs.ZeroItems.{items_of};
ghost use Rattle.best_first.specs.WithinZero.{StandsWithin};
ghost use Rattle.best_first.specs.InsideZero.{ZeroStepSettles};

use crate::fetch_at_zero::fetch_rough;
use crate::open_at_zero::open_node;
use crate::{Frontier, ZeroHierarchy, ZeroQueue};
use page_pool::{Desk, Disk, PageFault};
use std::alloc::Global;

// One step: the next node is opened, or where there is none the next rough object is fetched. False where there is neither.
pub fn step<H: ZeroHierarchy, D: Disk>(
    alloc: Global,
    hierarchy: &H,
    frontier: &mut Frontier<ZeroQueue<H::Node>>,
    near: &mut H::Near,
    desk: &mut Desk<D>,
) -> Result<bool, PageFault>
    requires stands { IfSome (told_pages desk.old) (λ p. StandsWithin H.Node.cmp (H.meaning hierarchy.now p) (items_of frontier.old.queue) frontier.old.last) }
    requires near { IfSome (told_pages desk.old) (λ p. H.IsNear hierarchy.now p near.old) }
    ensures read { IsRead desk.old.pool desk.new.pool }
    ensures cause { HasPageCause desk.old.pool desk.new.pool result }
    ensures last { frontier.new.last ≡ frontier.old.last }
    ensures falls { StepFalls (steps (H.weight hierarchy.now) (items_of frontier.old.queue)) (steps (H.weight hierarchy.now) (items_of frontier.new.queue)) result }
    ensures moves { IfSome (told_pages desk.old) (λ p. StepMoves H.Node.cmp (H.meaning hierarchy.now p) (H.note hierarchy.now)
        (state (items_of frontier.old.queue) frontier.old.last frontier.old.counts desk.old) (state (items_of frontier.new.queue) frontier.new.last frontier.new.counts desk.new) result) }
    ensures settles { ZeroStepSettles frontier.old frontier.new desk.old desk.new result }
    ensures near { IfSome (told_pages desk.old) (λ p. H.IsNear hierarchy.now p near.new) }
{
    if let Some(node) = frontier.queue.node() {
        if let Err(fault) = open_node(alloc, hierarchy, frontier, near, desk, node) {
            return Err(fault);
        }
        return Ok(true);
    }
    if let Some(id) = frontier.queue.rough() {
        if let Err(fault) = fetch_rough(alloc, hierarchy, frontier, desk, id) {
            return Err(fault);
        }
        return Ok(true);
    }
    Ok(false)
}
