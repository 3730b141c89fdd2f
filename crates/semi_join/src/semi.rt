ghost use Rattle.std.specs.Prelude.{◌≡◌, ◌<◌, List, IfSome, IfOk, None, Ok};
ghost use Rattle.std.specs.FinSet as set;
ghost use Rattle.page_pool.specs.Disk.{PageMap};
ghost use Rattle.page_pool.specs.Reads.{IsRead};
ghost use Rattle.page_pool.specs.Causes.{HasPageCause};
ghost use Rattle.sand_model.specs.Sources.{Found};
ghost use Rattle.best_first.specs.Frontier.{StandsOver};
ghost use Rattle.best_first.specs.Visits.{told_pages, state};
ghost use Rattle.best_first.specs.Steps.{steps, Falls};
ghost use Rattle.semi_join.specs.LeftRows.{GivesLeft};
ghost use Rattle.semi_join.specs.FirstPairs.{GivesFirstPair, HasLefts, SemiStands};
ghost use Rattle.semi_join.specs.Listed.{ListsAnswer, pairs_left, TakesFirst};
ghost use Rattle.semi_join.specs.Visits.{MakesPairVisits};

use crate::lefts::Lefts;
use crate::next_pair::next_pair;
use best_first::{BestFirst, Hierarchy, Hit, Item};
use page_pool::{Desk, Disk, PageFault};
use rank_queue::Queue;
use sand_base::NoMemory;
use std::alloc::Global;

/// A semi-join over a best-first search: of the rows of its answer, in their order, the first one of each left id.
/// Of the rows given it keeps one bit for each left id.
#[derive(Drop)]
pub struct Semi<H: Hierarchy, Q> {
    engine: BestFirst<H, Q>,
    lefts: Lefts,
}

impl<H: Hierarchy, Q: Queue<Item<H::Node>> + Drop> Semi<H, Q> {
    /// A semi-join that has given nothing, over a search that has given nothing. The left relation has `lefts`
    /// rows, and `greatest` is at least each of their ids. It reserves one bit for each id and reads no page. After
    /// a refusal the search is dropped.
    pub fn start(
        alloc: Global,
        engine: BestFirst<H, Q>,
        lefts: u32,
        greatest: u32,
    ) -> Result<Semi<H, Q>, NoMemory>
        requires { engine.frontier.last ≡ None }
        ensures engine { IfOk result (λ s. s.engine ≡ engine) }
        ensures none_given { IfOk result (λ s. s.lefts.given ≡ set.empty) }
        ensures all_wait { IfOk result (λ s. s.lefts.waiting ≡ lefts) }
        ensures stands { IfOk result (λ s. (p : PageMap) → StandsOver H.Node.cmp (H.meaning engine.hierarchy p) (Q.held engine.frontier.queue) engine.frontier.last
            → HasLefts (H.meaning engine.hierarchy p) lefts greatest → SemiStands H.Node.cmp (H.meaning engine.hierarchy p) (Q.held s.engine.frontier.queue) s.lefts) }
    {
        let lefts = Lefts::new(alloc, lefts, greatest)?;
        Ok(Semi { engine, lefts })
    }
}

impl<H: Hierarchy, Q: Queue<Item<H::Node>>> Semi<H, Q> {
    /// The next first pair: the first row of the answer, by gap, left id and right id, whose left id was not given
    /// before. None exactly where none is left: where every left row was given, and then nothing is read and
    /// nothing visited, or where the search has given its whole answer. After a refusal the rows given are
    /// unchanged, and `next` may be called again.
    pub fn next<D: Disk>(&mut self, desk: &mut Desk<D>) -> Result<Option<Hit>, PageFault>
        requires { IfSome (told_pages desk.old) (λ p. SemiStands H.Node.cmp (H.meaning self.old.engine.hierarchy p) (Q.held self.old.engine.frontier.queue) self.old.lefts) }
        ensures hierarchy { self.new.engine.hierarchy ≡ self.old.engine.hierarchy }
        ensures read { IsRead desk.old.pool desk.new.pool }
        ensures cause { HasPageCause desk.old.pool desk.new.pool result }
        ensures pair { IfSome (told_pages desk.old) (λ p. GivesFirstPair (H.meaning self.old.engine.hierarchy p) self.old.lefts.given result) }
        ensures lefts { GivesLeft self.old.lefts self.new.lefts result }
        ensures rest { IfSome (told_pages desk.old) (λ p. (answer : List Found) → ListsAnswer (H.meaning self.old.engine.hierarchy p) answer
            → TakesFirst (pairs_left self.old.lefts.given answer) (pairs_left self.new.lefts.given answer) result) }
        ensures stands { IfSome (told_pages desk.old) (λ p. SemiStands H.Node.cmp (H.meaning self.old.engine.hierarchy p) (Q.held self.new.engine.frontier.queue) self.new.lefts) }
        ensures visits { 0 < self.old.lefts.waiting → IfSome (told_pages desk.old)
            (λ p. MakesPairVisits H.Node.cmp (H.meaning self.old.engine.hierarchy p) (H.note self.old.engine.hierarchy) self.old.lefts
            (state (Q.held self.old.engine.frontier.queue) self.old.engine.frontier.last self.old.engine.frontier.counts desk.old)
            (state (Q.held self.new.engine.frontier.queue) self.new.engine.frontier.last self.new.engine.frontier.counts desk.new) result) }
        ensures ended { self.old.lefts.waiting ≡ 0 → (result ≡ Ok None) × (self.new ≡ self.old) × (desk.new ≡ desk.old) }
        ensures falls { Falls (steps (H.weight self.old.engine.hierarchy) (Q.held self.old.engine.frontier.queue))
            (steps (H.weight self.old.engine.hierarchy) (Q.held self.new.engine.frontier.queue)) result }
    {
        if self.lefts.waiting() == 0 {
            return Ok(None);
        }
        next_pair(&mut self.engine, &mut self.lefts, desk)
    }

    /// The search. It takes no memory.
    pub fn engine(&self) -> &BestFirst<H, Q>
        ensures { result.now ≡ self.now.engine }
    {
        &self.engine
    }
}
