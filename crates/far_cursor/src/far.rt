ghost use Rattle.std.specs.Prelude.{◌≡◌, ◌⊎◌, List, IfSome, IfOk, IfErr};
ghost use Rattle.sand_base.specs.Plane.{IsInPlane};
ghost use Rattle.sand_base.specs.declared.refusal.Refusal.TheVariants as why;
ghost use Rattle.sand_store.specs.Catalog.{IsCatalog};
ghost use Rattle.page_pool.specs.Disk.{PageMap};
ghost use Rattle.page_pool.specs.Reads.{IsRead};
ghost use Rattle.page_pool.specs.Causes.{HasPageCause};
ghost use Rattle.best_first.specs.declared.item.Item.{Item};
ghost use Rattle.z_code.specs.declared.block.Block.{Block};
ghost use Rattle.best_first.specs.Frontier.{Stands};
ghost use Rattle.best_first.specs.Visits.{told_pages, state};
ghost use Rattle.rank_cursor.specs.Cursor.{visit_of};
ghost use Rattle.rank_cursor.specs.Ranking.{rank_meaning};
ghost use Rattle.far_cursor.specs.FarAnswer.{IsTurned, FarVisits};
ghost use Rattle.far_cursor.specs.FarCursor.{far_in, FarStands, GivesFarthest, LacksColumn, BeginsFar};

use crate::FarTree;
use crate::column::column_of;
use crate::keys::gap_of;
use best_first::{BestFirst, Hit, Item};
use page_pool::{Desk, Disk, PageFault};
use rank_queue::{CopyQueue, Queue};
use sand_base::{NoMemory, Point, Refusal};
use sand_store::{Catalog, FileShapes};
use std::alloc::Global;
use z_code::Block;

/// The rows of a column by their distance from a point, farthest first.
#[derive(Drop)]
pub struct Far {
    pub(crate) search: BestFirst<FarTree<FileShapes>, CopyQueue<Item<Block>>>,
}

// The row of the search with its distance in place of its key.
fn turned(key: Hit) -> Hit
    ensures { IsTurned key result }
{
    Hit {
        gap: gap_of(key.gap),
        left: key.left,
        right: key.right,
    }
}

impl Far {
    /// A cursor over the rows of a column from a point, which has given nothing. It stands over all pages in which the
    /// catalog stands, and no page is read. A refusal is the first check that fails: the relation is there, the column
    /// is there, it holds shapes, and it has a quadtree; or want of memory.
    pub fn start(
        alloc: Global,
        catalog: &Catalog,
        relation: &str,
        column: &str,
        goal: Point,
    ) -> Result<Far, Refusal>
        requires goal { IsInPlane goal }
        ensures begun { IfOk result (λ far. (pages : PageMap) → BeginsFar ⟦<Block as Ord>⟧.cmp catalog.now (record { relation = relation.now; column = column.now }) goal
            far.search.hierarchy far.search.frontier.queue.items far.search.frontier.last pages) }
        ensures refused { IfErr result (λ cause. (cause ≡ why.Memory)
            ⊎ (IsCatalog catalog.now → (pages : PageMap) → LacksColumn catalog.now (record { relation = relation.now; column = column.now }) cause pages)) }
    {
        let found = column_of(catalog, relation, column)?;
        let Ok(shapes) = found.relation.shapes(alloc, found.column) else {
            return Err(Refusal::Memory);
        };
        let tree = FarTree::over(found.tree, shapes, goal);
        match BestFirst::start(alloc, tree, CopyQueue::empty(alloc)) {
            Ok(search) => Ok(Far { search }),
            Err(NoMemory {}) => Err(Refusal::Memory),
        }
    }

    /// The next row by falling distance, equal ones by id, or None exactly where all are given. It visits no place that
    /// has no point at least as far as the row that it gives. After a refusal the rows given are unchanged, and `next`
    /// may be called again.
    pub fn next<D: Disk>(&mut self, desk: &mut Desk<D>) -> Result<Option<Hit>, PageFault>
        requires { IfSome (told_pages desk.old) (FarStands ⟦<Block as Ord>⟧.cmp self.old.search.hierarchy self.old.search.frontier.queue.items self.old.search.frontier.last) }
        ensures hierarchy { self.new.search.hierarchy ≡ self.old.search.hierarchy }
        ensures read { IsRead desk.old.pool desk.new.pool }
        ensures cause { HasPageCause desk.old.pool desk.new.pool result }
        ensures rows { IfSome (told_pages desk.old) (GivesFarthest self.old.search.hierarchy self.old.search.frontier.last self.new.search.frontier.last result) }
        ensures stands { IfSome (told_pages desk.old) (FarStands ⟦<Block as Ord>⟧.cmp self.old.search.hierarchy self.new.search.frontier.queue.items self.new.search.frontier.last) }
        ensures visits { IfSome (told_pages desk.old) (λ p. (done : List (Item Block))
            → Stands ⟦<Block as Ord>⟧.cmp (rank_meaning (far_in self.old.search.hierarchy p)) self.old.search.frontier.queue.items self.old.search.frontier.last done
            → FarVisits ⟦<Block as Ord>⟧.cmp (rank_meaning (far_in self.old.search.hierarchy p)) (visit_of self.old.search.hierarchy.pmr.number) self.old.search.hierarchy.goal done
            (state self.old.search.frontier.queue.items self.old.search.frontier.last self.old.search.frontier.counts desk.old)
            (state self.new.search.frontier.queue.items self.new.search.frontier.last self.new.search.frontier.counts desk.new) result) }
    {
        self.search.hierarchy().laws();
        match self.search.next(desk) {
            Ok(Some(key)) => return Ok(Some(turned(key))),
            Ok(None) => return Ok(None),
            Err(fault) => return Err(fault),
        }
    }

    /// The search. It takes no memory.
    pub fn search(&self) -> &BestFirst<FarTree<FileShapes>, CopyQueue<Item<Block>>>
        ensures { result.now ≡ self.now.search }
    {
        &self.search
    }
}
