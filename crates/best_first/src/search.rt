ghost use Rattle.std.specs.Prelude.{◌≡◌, [], IfSome, IfOk, IsOk, None};
ghost use Rattle.page_pool.specs.Disk.{PageMap};
ghost use Rattle.page_pool.specs.Reads.{IsRead};
ghost use Rattle.page_pool.specs.Causes.{HasPageCause};
ghost use Rattle.best_first.specs.Frontier.{Stands};
ghost use Rattle.best_first.specs.Hierarchy.{MeetsLaws};
ghost use Rattle.best_first.specs.Steps.{steps, Falls};
ghost use Rattle.best_first.specs.Visits.{told_pages, state, IsCounted, GivesNext, last_after, MakesVisits};
ghost use Rattle.best_first.specs.ZeroItems.{items_of, AreRows};
ghost use Rattle.best_first.specs.WithinZero.{IsWithinZero, StandsWithin};

use crate::give_at_zero::give_row;
use crate::settle_at_zero::settle;
use crate::{Counts, Frontier, Hit, ZeroHierarchy, ZeroQueue};
use page_pool::{Desk, Disk, PageFault};
use sand_base::NoMemory;
use std::alloc::Global;

/// A best-first search over a hierarchy of single objects within the distance 0: it gives the rows of the answer one by
/// one, by their ids. Its first call opens each node at the distance 0 and fetches each rough object there, and no other;
/// those after it read nothing.
#[derive(Drop)]
pub struct ZeroSearch<H: ZeroHierarchy> {
    hierarchy: H,
    frontier: Frontier<ZeroQueue<H::Node>>,
    alloc: Global,
}

impl<H: ZeroHierarchy> ZeroSearch<H> {
    /// A search that has given nothing, for ids below `count`: a greater one is refused as out of memory. It stands over all
    /// pages over which the hierarchy meets its laws within the distance 0, and no page was read. After a refusal the hierarchy is dropped.
    pub fn start(alloc: Global, hierarchy: H, count: u32) -> Result<ZeroSearch<H>, NoMemory>
        ensures hierarchy { IfOk result (λ s. s.hierarchy ≡ hierarchy) }
        ensures none_given { IfOk result (λ s. s.frontier.last ≡ None) }
        ensures none_taken { IfOk result (λ s. IsCounted {N = H.Node} [] s.frontier.counts) }
        ensures stands { IfOk result (λ s. (p : PageMap) → MeetsLaws (H.meaning hierarchy p) → IsWithinZero (H.meaning hierarchy p)
            → Stands H.Node.cmp (H.meaning hierarchy p) (items_of s.frontier.queue) s.frontier.last []) }
    {
        let mut queue = ZeroQueue::below(alloc, count)?;
        let (gap, root) = hierarchy.root();
        if gap.num() == 0 {
            queue.add_node(root)?;
        }
        let counts = Counts {
            visited: 0,
            fetched: 0,
        };
        let frontier = Frontier {
            queue,
            counts,
            last: None,
        };
        Ok(ZeroSearch {
            hierarchy,
            frontier,
            alloc,
        })
    }

    /// The next row of the answer, by its id, or None exactly where all are given. After a refusal the rows given are
    /// unchanged, and `next` may be called again. Where rows alone are left it reads no page and takes no memory.
    pub fn next<D: Disk>(&mut self, desk: &mut Desk<D>) -> Result<Option<Hit>, PageFault>
        requires { IfSome (told_pages desk.old) (λ p. StandsWithin H.Node.cmp (H.meaning self.old.hierarchy p) (items_of self.old.frontier.queue) self.old.frontier.last) }
        ensures hierarchy { self.new.hierarchy ≡ self.old.hierarchy }
        ensures read { IsRead desk.old.pool desk.new.pool }
        ensures cause { HasPageCause desk.old.pool desk.new.pool result }
        ensures row { IfSome (told_pages desk.old) (λ p. GivesNext (H.meaning self.old.hierarchy p) self.old.frontier.last result) }
        ensures last { self.new.frontier.last ≡ last_after self.old.frontier.last result }
        ensures stands { IfSome (told_pages desk.old) (λ p. StandsWithin H.Node.cmp (H.meaning self.old.hierarchy p) (items_of self.new.frontier.queue) self.new.frontier.last) }
        ensures visits { IfSome (told_pages desk.old) (λ p. MakesVisits H.Node.cmp (H.meaning self.old.hierarchy p) (H.note self.old.hierarchy)
            (state (items_of self.old.frontier.queue) self.old.frontier.last self.old.frontier.counts desk.old)
            (state (items_of self.new.frontier.queue) self.new.frontier.last self.new.frontier.counts desk.new) result) }
        ensures falls { Falls (steps (H.weight self.old.hierarchy) (items_of self.old.frontier.queue)) (steps (H.weight self.old.hierarchy) (items_of self.new.frontier.queue)) result }
        ensures still { AreRows self.old.frontier.queue → (desk.new ≡ desk.old) × IsOk result }
    {
        match settle(self.alloc, &self.hierarchy, &mut self.frontier, desk) {
            Ok(()) => Ok(give_row(&mut self.frontier)),
            Err(fault) => Err(fault),
        }
    }

    /// The number of nodes that were visited, which stays at the greatest u64. It takes no memory.
    pub fn visited(&self) -> u64
        ensures { result ≡ self.now.frontier.counts.visited }
    {
        self.frontier.counts.visited
    }

    /// The number of rough objects whose geometry was fetched, which stays at the greatest u64. It takes no memory.
    pub fn fetched(&self) -> u64
        ensures { result ≡ self.now.frontier.counts.fetched }
    {
        self.frontier.counts.fetched
    }
}
