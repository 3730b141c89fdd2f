ghost use Rattle.std.specs.Prelude.{◌≡◌, ◌<◌, List, IfSome};
ghost use Rattle.page_pool.specs.Reads.{IsRead};
ghost use Rattle.page_pool.specs.Causes.{HasPageCause};
ghost use Rattle.sand_model.specs.Sources.{Found};
ghost use Rattle.best_first.specs.Visits.{told_pages, state};
ghost use Rattle.best_first.specs.Steps.{steps, Falls};
ghost use Rattle.semi_join.specs.Listed.{ListsAnswer, TakesFirst};
ghost use Rattle.knn_join.specs.PartnerCounts.{GivesPartner};
ghost use Rattle.knn_join.specs.Listed.{LeavesRest};
ghost use Rattle.knn_join.specs.Standing.{KnnStandsOn};
ghost use Rattle.knn_join.specs.Visits.{MakesPartnerVisits};

use crate::partners::Partners;
use best_first::{BestFirst, Hierarchy, Hit, Item};
use page_pool::{Desk, Disk, PageFault};
use rank_queue::Queue;

// The next row of the search whose left row had fewer partners than the most, which it is then given. Rows before it
// are passed over.
pub fn next_partner<H: Hierarchy, Q: Queue<Item<H::Node>>, D: Disk>(
    engine: &mut BestFirst<H, Q>,
    partners: &mut Partners,
    desk: &mut Desk<D>,
) -> Result<Option<Hit>, PageFault>
    requires waits { 0 < partners.old.waiting }
    requires stands { KnnStandsOn H.Node.cmp (H.meaning engine.old.hierarchy) (told_pages desk.old) (Q.held engine.old.frontier.queue) engine.old.frontier.last partners.old }
    ensures hierarchy { engine.new.hierarchy ≡ engine.old.hierarchy }
    ensures read { IsRead desk.old.pool desk.new.pool }
    ensures cause { HasPageCause desk.old.pool desk.new.pool result }
    ensures partners { GivesPartner partners.old partners.new result }
    ensures rest { LeavesRest (H.meaning engine.old.hierarchy) (told_pages desk.old) engine.old.frontier.last partners.old engine.new.frontier.last partners.new result }
    ensures stands { KnnStandsOn H.Node.cmp (H.meaning engine.old.hierarchy) (told_pages desk.old) (Q.held engine.new.frontier.queue) engine.new.frontier.last partners.new }
    ensures visits { IfSome (told_pages desk.old) (λ p. MakesPartnerVisits H.Node.cmp (H.meaning engine.old.hierarchy p) (H.note engine.old.hierarchy) partners.old
        (state (Q.held engine.old.frontier.queue) engine.old.frontier.last engine.old.frontier.counts desk.old)
        (state (Q.held engine.new.frontier.queue) engine.new.frontier.last engine.new.frontier.counts desk.new) result) }
    ensures falls { Falls (steps (H.weight engine.old.hierarchy) (Q.held engine.old.frontier.queue))
        (steps (H.weight engine.old.hierarchy) (Q.held engine.new.frontier.queue)) result }
{
    'rows: loop {
        match engine.next(desk) {
            Ok(Some(hit)) => {
                if partners.give(hit.left) {
                    return Ok(Some(hit));
                }
            }
            Ok(None) => return Ok(None),
            Err(fault) => return Err(fault),
        }
    }
}
