ghost use Rattle.std.specs.Prelude.{◌≡◌, ◌++◌, ◌∷◌, [], List, IfSome, OnOk, OnErr};
ghost use Rattle.page_pool.specs.Reads.{IsRead};
ghost use Rattle.page_pool.specs.Causes.{HasPageCause};
ghost use Rattle.best_first.specs.Hierarchy.{MeetsLaws, IsNode};
ghost use Rattle.best_first.specs.Reach.{IsSameGap};
ghost use Rattle.best_first.specs.Visits.{told_pages, VisitsOne, RoseBy};
ghost use Rattle.best_first.specs.declared.item.Item.{Item};
ghost use Rattle.best_first.specs.RowsAtZero.{zero_gap};
ghost use Rattle.best_first.specs.OpensAs.{OpensAs};

use crate::{Hierarchy, ZeroQueue};
use page_pool::{Desk, Disk, PageFault};
use std::alloc::Global;

/// A hierarchy that puts what it finds at the distance 0 into a queue by itself.
pub trait ZeroHierarchy: Hierarchy {
    /// Expands the node that the queue has next, as `expand_near` does; what it finds at the distance 0 takes the
    /// node's place. An id with no bit is refused as out of memory. After a refusal the queue is as it was, and at most
    /// the visit was noted.
    fn open_near<D: Disk>(
        &self,
        alloc: Global,
        desk: &mut Desk<D>,
        node: Self::Node,
        near: &mut Self::Near,
        queue: &mut ZeroQueue<Self::Node>,
    ) -> Result<(), PageFault>
        requires next { (rest : List Self.Node) × (queue.old.nodes ≡ rest ++ node ∷ []) }
        requires node { IfSome (told_pages desk.old) (λ p. MeetsLaws (Self.meaning self.now p) × IsNode (Self.meaning self.now p) node × IsSameGap zero_gap ((Self.meaning self.now p).gap node)) }
        requires near { IfSome (told_pages desk.old) (λ p. Self.IsNear self.now p near.old) }
        ensures read { IsRead desk.old.pool desk.new.pool }
        ensures cause { HasPageCause desk.old.pool desk.new.pool result }
        ensures opened { OnOk result (OpensAs (Self.weight self.now) (Self.meaning self.now) (told_pages desk.old) node queue.old queue.new) }
        ensures refused { OnErr result (queue.new ≡ queue.old) }
        ensures visits { IfSome (told_pages desk.old) (λ p. VisitsOne (Self.note self.now) (Self.meaning self.now p).price (Item.Node zero_gap node) desk.old desk.new result) }
        ensures gets { IfSome (told_pages desk.old) (λ p. OnOk result (RoseBy 1 desk.old desk.new)) }
        ensures near { IfSome (told_pages desk.old) (λ p. Self.IsNear self.now p near.new) };
}
