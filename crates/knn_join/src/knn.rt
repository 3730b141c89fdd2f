ghost use Rattle.std.specs.Prelude.{◌≡◌, ◌*◌, ◌≤◌, ◌<◌, min, List, IfSome, IfOk, None, Ok};
ghost use Rattle.page_pool.specs.Disk.{PageMap};
ghost use Rattle.page_pool.specs.Reads.{IsRead};
ghost use Rattle.page_pool.specs.Causes.{HasPageCause};
ghost use Rattle.sand_model.specs.Sources.{Found, first_of_each};
ghost use Rattle.best_first.specs.Frontier.{StandsOver};
ghost use Rattle.best_first.specs.Visits.{told_pages, state};
ghost use Rattle.best_first.specs.Steps.{steps, Falls};
ghost use Rattle.semi_join.specs.Listed.{ListsAnswer, TakesFirst};
ghost use Rattle.sand_model.specs.Sources.{nearest_of};
ghost use Rattle.knn_join.specs.PartnerCounts.{GivesPartner};
ghost use Rattle.knn_join.specs.Listed.{partners_left, LeavesRest};
ghost use Rattle.knn_join.specs.Standing.{HasSides, KnnStands, KnnStandsOn};
ghost use Rattle.knn_join.specs.Visits.{MakesPartnerVisits};

use crate::next_partner::next_partner;
use crate::partners::Partners;
use best_first::{BestFirst, Hierarchy, Hit, Item};
use page_pool::{Desk, Disk, PageFault};
use rank_queue::Queue;
use sand_base::NoMemory;
use std::alloc::Global;

/// A join with k partners over a best-first search: of the rows of its answer, in their order, the first k of each
/// left id. Of the rows given it keeps one byte for each left id.
#[derive(Drop)]
pub struct Knn<H: Hierarchy, Q> {
    engine: BestFirst<H, Q>,
    partners: Partners,
}

/// With one partner the rows are those of a semi-join, the first of each left id, for proofs of the crates above: a
/// call brings the law into scope, and does nothing when it runs.
pub fn knn_laws()
    ensures { (answer : List Found) → nearest_of 1 answer ≡ first_of_each answer }
{}

impl<H: Hierarchy, Q: Queue<Item<H::Node>> + Drop> Knn<H, Q> {
    /// A join that has given nothing, over a search that has given nothing. The two relations have `lefts` and
    /// `rights` rows, and `greatest` is at least each left id. It reserves one byte for each id and reads no page.
    /// After a refusal the search is dropped.
    pub fn start(
        alloc: Global,
        engine: BestFirst<H, Q>,
        k: u8,
        lefts: u32,
        rights: u32,
        greatest: u32,
    ) -> Result<Knn<H, Q>, NoMemory>
        requires some { 1 ≤ k }
        requires none_given { engine.frontier.last ≡ None }
        ensures engine { IfOk result (λ s. s.engine ≡ engine) }
        ensures most { IfOk result (λ s. s.partners.most ≡ k) }
        ensures all_wait { IfOk result (λ s. s.partners.waiting ≡ lefts * min k rights) }
        ensures rest { IfOk result (λ s. (answer : List Found) → partners_left s.engine.frontier.last s.partners answer ≡ nearest_of k answer) }
        ensures stands { IfOk result (λ s. (p : PageMap) → StandsOver H.Node.cmp (H.meaning engine.hierarchy p) (Q.held engine.frontier.queue) engine.frontier.last
            → HasSides (H.meaning engine.hierarchy p) lefts rights greatest
            → KnnStands H.Node.cmp (H.meaning engine.hierarchy p) (Q.held s.engine.frontier.queue) s.engine.frontier.last s.partners) }
    {
        let partners = Partners::new(alloc, k, lefts, rights, greatest)?;
        Ok(Knn { engine, partners })
    }
}

impl<H: Hierarchy, Q: Queue<Item<H::Node>>> Knn<H, Q> {
    /// The next partner: the first row of the answer, by gap, left id and right id, after those given and passed over,
    /// before which fewer than k have its left id. None exactly where none is left: where each left row was given as
    /// many as it can have, and then nothing is read and nothing visited, or where the search has given its whole
    /// answer. After a refusal the rows given are unchanged, and `next` may be called again.
    pub fn next<D: Disk>(&mut self, desk: &mut Desk<D>) -> Result<Option<Hit>, PageFault>
        requires { KnnStandsOn H.Node.cmp (H.meaning self.old.engine.hierarchy) (told_pages desk.old) (Q.held self.old.engine.frontier.queue) self.old.engine.frontier.last self.old.partners }
        ensures hierarchy { self.new.engine.hierarchy ≡ self.old.engine.hierarchy }
        ensures read { IsRead desk.old.pool desk.new.pool }
        ensures cause { HasPageCause desk.old.pool desk.new.pool result }
        ensures partners { GivesPartner self.old.partners self.new.partners result }
        ensures rest { LeavesRest (H.meaning self.old.engine.hierarchy) (told_pages desk.old) self.old.engine.frontier.last self.old.partners self.new.engine.frontier.last self.new.partners result }
        ensures stands { KnnStandsOn H.Node.cmp (H.meaning self.old.engine.hierarchy) (told_pages desk.old) (Q.held self.new.engine.frontier.queue) self.new.engine.frontier.last self.new.partners }
        ensures visits { 0 < self.old.partners.waiting → IfSome (told_pages desk.old) (λ p.
            MakesPartnerVisits H.Node.cmp (H.meaning self.old.engine.hierarchy p) (H.note self.old.engine.hierarchy) self.old.partners
            (state (Q.held self.old.engine.frontier.queue) self.old.engine.frontier.last self.old.engine.frontier.counts desk.old)
            (state (Q.held self.new.engine.frontier.queue) self.new.engine.frontier.last self.new.engine.frontier.counts desk.new) result) }
        ensures ended { self.old.partners.waiting ≡ 0 → (result ≡ Ok None) × (self.new ≡ self.old) × (desk.new ≡ desk.old) }
        ensures falls { Falls (steps (H.weight self.old.engine.hierarchy) (Q.held self.old.engine.frontier.queue))
            (steps (H.weight self.old.engine.hierarchy) (Q.held self.new.engine.frontier.queue)) result }
    {
        if self.partners.waiting() == 0 {
            return Ok(None);
        }
        next_partner(&mut self.engine, &mut self.partners, desk)
    }

    /// The search. It takes no memory.
    pub fn engine(&self) -> &BestFirst<H, Q>
        ensures { result.now ≡ self.now.engine }
    {
        &self.engine
    }
}
