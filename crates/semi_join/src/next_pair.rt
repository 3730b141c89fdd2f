ghost use Rattle.std.specs.Prelude.{◌≡◌, ◌<◌, IfSome};
ghost use Rattle.page_pool.specs.Reads.{IsRead};
ghost use Rattle.page_pool.specs.Causes.{HasPageCause};
ghost use Rattle.best_first.specs.Visits.{told_pages, state};
ghost use Rattle.best_first.specs.Steps.{steps, Falls};
ghost use Rattle.semi_join.specs.LeftRows.{GivesLeft};
ghost use Rattle.semi_join.specs.FirstPairs.{GivesFirstPair, SemiStands};
ghost use Rattle.semi_join.specs.Visits.{MakesPairVisits};

use crate::lefts::Lefts;
use best_first::{BestFirst, Hierarchy, Hit, Item};
use page_pool::{Desk, Disk, PageFault};
use rank_queue::Queue;

// The first row of the search whose left row waits, which is then given.
pub fn next_pair<H: Hierarchy, Q: Queue<Item<H::Node>>, D: Disk>(
    engine: &mut BestFirst<H, Q>,
    lefts: &mut Lefts,
    desk: &mut Desk<D>,
) -> Result<Option<Hit>, PageFault>
    requires waits { 0 < lefts.old.waiting }
    requires stands { IfSome (told_pages desk.old) (λ p. SemiStands H.Node.cmp (H.meaning engine.old.hierarchy p) (Q.held engine.old.frontier.queue) lefts.old) }
    ensures hierarchy { engine.new.hierarchy ≡ engine.old.hierarchy }
    ensures read { IsRead desk.old.pool desk.new.pool }
    ensures cause { HasPageCause desk.old.pool desk.new.pool result }
    ensures pair { IfSome (told_pages desk.old) (λ p. GivesFirstPair (H.meaning engine.old.hierarchy p) lefts.old.given result) }
    ensures lefts { GivesLeft lefts.old lefts.new result }
    ensures stands { IfSome (told_pages desk.old) (λ p. SemiStands H.Node.cmp (H.meaning engine.old.hierarchy p) (Q.held engine.new.frontier.queue) lefts.new) }
    ensures visits { IfSome (told_pages desk.old) (λ p. MakesPairVisits H.Node.cmp (H.meaning engine.old.hierarchy p) (H.note engine.old.hierarchy) lefts.old
        (state (Q.held engine.old.frontier.queue) engine.old.frontier.last engine.old.frontier.counts desk.old)
        (state (Q.held engine.new.frontier.queue) engine.new.frontier.last engine.new.frontier.counts desk.new) result) }
    ensures falls { Falls (steps (H.weight engine.old.hierarchy) (Q.held engine.old.frontier.queue)) (steps (H.weight engine.old.hierarchy) (Q.held engine.new.frontier.queue)) result }
{
    match engine.next_wanted(&*lefts, desk) {
        Ok(Some(hit)) => {
            lefts.give(hit.left);
            Ok(Some(hit))
        }
        Ok(None) => Ok(None),
        Err(fault) => Err(fault),
    }
}
