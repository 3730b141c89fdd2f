ghost use Rattle.std.specs.Prelude.{◌≡◌, [], false, Ok, IfSome, IfOk, IsOk, None};
ghost use Rattle.page_pool.specs.Disk.{PageMap};
ghost use Rattle.page_pool.specs.Reads.{IsRead};
ghost use Rattle.page_pool.specs.Causes.{HasPageCause};
ghost use Rattle.best_first.specs.Order.{item_cmp};
ghost use Rattle.best_first.specs.Hierarchy.{MeetsLaws};
ghost use Rattle.best_first.specs.Frontier.{Stands, StandsOver};
ghost use Rattle.best_first.specs.Visits.{told_pages, state, IsCounted, GivesNext, last_after, MakesVisits};
ghost use Rattle.best_first.specs.Steps.{steps, Falls, IsSettled};
ghost use Rattle.best_first.specs.Wanted.{StandsOverFor, GivesWanted, IsWantedRow, MakesWantedVisits, wants_after};

use crate::give_row::give_row;
use crate::push_within::push_root;
use crate::settle::settle;
use crate::settle_wanted::settle_wanted;
use crate::{Counts, Frontier, Hierarchy, Hit, Item, Rows, Wanted};
use page_pool::{Desk, Disk, PageFault};
use rank_queue::Queue;
use sand_base::NoMemory;
use std::alloc::Global;

/// A best-first search over a hierarchy: it gives the rows of the answer one by one, nearest first, and visits no
/// node and fetches no geometry that the rows given so far do not need. It keeps one list, into which each node that
/// it opens is read; between two calls what stands in it means nothing.
#[derive(Drop)]
pub struct BestFirst<H: Hierarchy, Q> {
    hierarchy: H,
    frontier: Frontier<Q>,
    found: Vec<Item<H::Node>>,
    alloc: Global,
}

impl<H: Hierarchy, Q: Queue<Item<H::Node>> + Drop> BestFirst<H, Q> {
    /// A search that has given nothing. It stands over all pages over which the hierarchy meets its laws, and no
    /// page was read. After a refusal hierarchy and queue are dropped.
    pub fn start(alloc: Global, hierarchy: H, mut queue: Q) -> Result<BestFirst<H, Q>, NoMemory>
        requires { Q.held queue ≡ [] }
        ensures hierarchy { IfOk result (λ s. s.hierarchy ≡ hierarchy) }
        ensures none_given { IfOk result (λ s. s.frontier.last ≡ None) }
        ensures none_taken { IfOk result (λ s. IsCounted {N = H.Node} [] s.frontier.counts) }
        ensures stands { IfOk result (λ s. (p : PageMap) → MeetsLaws (H.meaning hierarchy p) → Stands H.Node.cmp (H.meaning hierarchy p) (Q.held s.frontier.queue) s.frontier.last []) }
    {
        queue.reserve(1)?;
        let (gap, node) = hierarchy.root();
        push_root(&mut queue, hierarchy.ceiling(), gap, node);
        let counts = Counts {
            visited: 0,
            fetched: 0,
        };
        let frontier = Frontier {
            queue,
            counts,
            last: None,
        };
        Ok(BestFirst {
            hierarchy,
            frontier,
            found: Vec::new(alloc),
            alloc,
        })
    }
}

impl<H: Hierarchy, Q: Queue<Item<H::Node>>> BestFirst<H, Q> {
    /// The next row of the answer, by gap, left id and right id, or None exactly where all are given. It visits
    /// nothing farther than the row that it gives. After a refusal the rows given are unchanged, and `next` may
    /// be called again. Where a row is at the front of the frontier it reads no page and takes no memory.
    pub fn next<D: Disk>(&mut self, desk: &mut Desk<D>) -> Result<Option<Hit>, PageFault>
        requires { IfSome (told_pages desk.old) (λ p. StandsOver H.Node.cmp (H.meaning self.old.hierarchy p) (Q.held self.old.frontier.queue) self.old.frontier.last) }
        ensures hierarchy { self.new.hierarchy ≡ self.old.hierarchy }
        ensures read { IsRead desk.old.pool desk.new.pool }
        ensures cause { HasPageCause desk.old.pool desk.new.pool result }
        ensures row { IfSome (told_pages desk.old) (λ p. GivesNext (H.meaning self.old.hierarchy p) self.old.frontier.last result) }
        ensures last { self.new.frontier.last ≡ last_after self.old.frontier.last result }
        ensures stands { IfSome (told_pages desk.old) (λ p. StandsOver H.Node.cmp (H.meaning self.old.hierarchy p) (Q.held self.new.frontier.queue) self.new.frontier.last) }
        ensures visits { IfSome (told_pages desk.old) (λ p. MakesVisits H.Node.cmp (H.meaning self.old.hierarchy p) (H.note self.old.hierarchy)
            (state (Q.held self.old.frontier.queue) self.old.frontier.last self.old.frontier.counts desk.old)
            (state (Q.held self.new.frontier.queue) self.new.frontier.last self.new.frontier.counts desk.new) result) }
        ensures falls { Falls (steps (H.weight self.old.hierarchy) (Q.held self.old.frontier.queue)) (steps (H.weight self.old.hierarchy) (Q.held self.new.frontier.queue)) result }
        ensures still { IsSettled (item_cmp H.Node.cmp) (Q.held self.old.frontier.queue) → (desk.new ≡ desk.old) × IsOk result }
    {
        match settle(
            self.alloc,
            &self.hierarchy,
            &mut self.frontier,
            &mut self.found,
            desk,
        ) {
            Ok(()) => return Ok(give_row(&mut self.frontier)),
            Err(fault) => return Err(fault),
        }
    }

    /// The first row of the answer whose left id is wanted, by gap, left id and right id, or None exactly where there is
    /// none. Left ids that were not wanted before are not from then on, nor is that of the row which this call gives: rows
    /// of such ids are not queued, and those that are queued are passed over. The visits are those of the hierarchy, and
    /// nothing is visited that is farther than the row. After a refusal it may be called again.
    pub fn next_wanted<W: Wanted, D: Disk>(
        &mut self,
        wanted: &W,
        desk: &mut Desk<D>,
    ) -> Result<Option<Hit>, PageFault>
        requires { IfSome (told_pages desk.old) (λ p. StandsOverFor H.Node.cmp (H.meaning self.old.hierarchy p) (W.lefts wanted.now) (Q.held self.old.frontier.queue)) }
        ensures hierarchy { self.new.hierarchy ≡ self.old.hierarchy }
        ensures read { IsRead desk.old.pool desk.new.pool }
        ensures cause { HasPageCause desk.old.pool desk.new.pool result }
        ensures row { IfSome (told_pages desk.old) (λ p. GivesWanted (H.meaning self.old.hierarchy p) (W.lefts wanted.now) result) }
        ensures wanted { IsWantedRow (W.lefts wanted.now) result }
        ensures stands { IfSome (told_pages desk.old) (λ p. StandsOverFor H.Node.cmp (H.meaning self.old.hierarchy p) (wants_after (W.lefts wanted.now) result) (Q.held self.new.frontier.queue)) }
        ensures visits { IfSome (told_pages desk.old) (λ p. MakesWantedVisits H.Node.cmp (H.meaning self.old.hierarchy p) (H.note self.old.hierarchy) (W.lefts wanted.now)
            (state (Q.held self.old.frontier.queue) self.old.frontier.last self.old.frontier.counts desk.old)
            (state (Q.held self.new.frontier.queue) self.new.frontier.last self.new.frontier.counts desk.new) result) }
        ensures falls { Falls (steps (H.weight self.old.hierarchy) (Q.held self.old.frontier.queue)) (steps (H.weight self.old.hierarchy) (Q.held self.new.frontier.queue)) result }
    {
        match settle_wanted(
            self.alloc,
            &self.hierarchy,
            wanted,
            &mut self.frontier,
            &mut self.found,
            desk,
        ) {
            Ok(()) => Ok(give_row(&mut self.frontier)),
            Err(fault) => Err(fault),
        }
    }

    /// The rows to come, as a lazy iterator that borrows the search and the desk. Nothing is done yet.
    pub fn rows<'c, 'd, D: Disk>(&'c mut self, desk: &'d mut Desk<D>) -> Rows<'c, 'd, H, Q, D>
        requires { IfSome (told_pages desk.old) (λ p. StandsOver H.Node.cmp (H.meaning self.old.hierarchy p) (Q.held self.old.frontier.queue) self.old.frontier.last) }
        ensures cursor { result.cursor.ghost_name ≡ self.entry.ghost_name }
        ensures same_cursor { result.cursor.now ≡ self.old }
        ensures desk { result.desk.ghost_name ≡ desk.entry.ghost_name }
        ensures same_desk { result.desk.now ≡ desk.old }
        ensures outcome { result.outcome ≡ Ok false }
    {
        Rows {
            cursor: self,
            desk,
            outcome: Ok(false),
        }
    }

    /// The hierarchy.
    pub fn hierarchy(&self) -> &H
        ensures { result.now ≡ self.now.hierarchy }
    {
        &self.hierarchy
    }

    /// The number of nodes that were visited, which stays at the greatest u64. It takes no memory.
    pub fn visited(&self) -> u64
        ensures { result ≡ self.now.frontier.counts.visited }
    {
        self.frontier.counts.visited
    }

    /// The number of rough objects whose geometry was fetched, which stays at the greatest u64. It takes no memory.
    pub fn fetched(&self) -> u64
        ensures { result ≡ self.now.frontier.counts.fetched }
    {
        self.frontier.counts.fetched
    }
}
