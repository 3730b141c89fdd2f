ghost use Rattle.std.specs.Prelude.{◌≡◌, ℕ, ◌<◌, IfSome, IfOk, OnOk, OnErr};
ghost use Rattle.sand_base.specs.InRange.{IsCeilingInRange};
ghost use Rattle.std.specs.declared.cmp.Ordering.{Ordering};
ghost use Rattle.sand_base.specs.declared.visit.Visit.{Visit};
ghost use Rattle.page_pool.specs.Disk.{PageMap};
ghost use Rattle.page_pool.specs.Reads.{IsRead};
ghost use Rattle.page_pool.specs.Causes.{HasPageCause};
ghost use Rattle.best_first.specs.declared.item.Item.{Item};
ghost use Rattle.best_first.specs.Reach.{IsSameGap};
ghost use Rattle.best_first.specs.Hierarchy.{Meaning, MeetsLaws, HasRow, IsNode, IsRoughListed};
ghost use Rattle.best_first.specs.Visits.{told_pages, VisitsOne, RoseBy};
ghost use Rattle.best_first.specs.Steps.{Finds, AddsLess};

use crate::Item;
use exact_frac::Frac;
use page_pool::{Desk, Disk, PageFault};
use std::alloc::Global;

/// A finite tree of nodes under lower bounds of distances, with rows in its leaves.
pub trait Hierarchy: Drop {
    /// A place of the tree.
    type Node: Ord + Copy;

    /// What one expansion leaves to the next: where in the pages it has read.
    type Near: Copy;

    // The tree, the rows and the prices, over these pages.
    ghost meaning: { Self → PageMap → Meaning Self.Node };

    // The visit that is noted for a node or a rough object.
    ghost note: { Self → Item Self.Node → Visit };

    // A whole number for each node, whatever the pages: the children that an expansion finds have less together.
    ghost weight: { Self → Self.Node → ℕ };

    // Over these pages an expansion may be given this.
    ghost IsNear: { Self → PageMap → Self.Near → Type 0 };

    /// The root and its gap. It reads no page.
    fn root(&self) -> (Frac, Self::Node)
        ensures { (pages : PageMap) → (result.1 ≡ (meaning self.now pages).root) × IsSameGap result.0 ((meaning self.now pages).gap result.1) };

    /// The greatest distance of a row, None where there is no such ceiling.
    fn ceiling(&self) -> Option<u32>
        ensures value { (pages : PageMap) → result ≡ (meaning self.now pages).ceiling }
        ensures small { IsCeilingInRange result };

    /// What the first expansion is given, over any pages. It reads no page.
    fn nowhere(&self) -> Self::Near
        ensures { (pages : PageMap) → IsNear self.now pages result };

    /// Adds the node's children with their gaps, or the items of the leaf, at the end of `found`. It notes one
    /// visit of the node, and makes at least one page get where it is accepted. After a refusal `found` is as it
    /// was, and at most the visit was noted.
    fn expand<D: Disk>(
        &self,
        alloc: Global,
        desk: &mut Desk<D>,
        gap: Frac,
        node: Self::Node,
        found: &mut Vec<Item<Self::Node>>,
    ) -> Result<(), PageFault>
        requires { IfSome (told_pages desk.old) (λ p. MeetsLaws (meaning self.now p) × IsNode (meaning self.now p) node × IsSameGap gap ((meaning self.now p).gap node)) }
        ensures read { IsRead desk.old.pool desk.new.pool }
        ensures cause { HasPageCause desk.old.pool desk.new.pool result }
        ensures found { IfSome (told_pages desk.old) (λ p. Finds ((meaning self.now p).finds node) found.old.items found.new.items result) }
        ensures falls { OnOk result (AddsLess (weight self.now) node found.old.items found.new.items) }
        ensures refused { OnErr result (found.new.items ≡ found.old.items) }
        ensures visits { IfSome (told_pages desk.old) (λ p. VisitsOne (note self.now) (meaning self.now p).price (Item.Node gap node) desk.old desk.new result) }
        ensures gets { IfSome (told_pages desk.old) (λ p. OnOk result (RoseBy 1 desk.old desk.new)) }
    {
        let mut near = self.nowhere();
        self.expand_near(alloc, desk, gap, node, &mut near, found)
    }

    /// As `expand`, given what an expansion before has left: this may save page gets, and changes no answer. After a
    /// refusal too it leaves something.
    fn expand_near<D: Disk>(
        &self,
        alloc: Global,
        desk: &mut Desk<D>,
        gap: Frac,
        node: Self::Node,
        near: &mut Self::Near,
        found: &mut Vec<Item<Self::Node>>,
    ) -> Result<(), PageFault>
        requires node { IfSome (told_pages desk.old) (λ p. MeetsLaws (meaning self.now p) × IsNode (meaning self.now p) node × IsSameGap gap ((meaning self.now p).gap node)) }
        requires near { IfSome (told_pages desk.old) (λ p. IsNear self.now p near.old) }
        ensures read { IsRead desk.old.pool desk.new.pool }
        ensures cause { HasPageCause desk.old.pool desk.new.pool result }
        ensures found { IfSome (told_pages desk.old) (λ p. Finds ((meaning self.now p).finds node) found.old.items found.new.items result) }
        ensures falls { OnOk result (AddsLess (weight self.now) node found.old.items found.new.items) }
        ensures refused { OnErr result (found.new.items ≡ found.old.items) }
        ensures visits { IfSome (told_pages desk.old) (λ p. VisitsOne (note self.now) (meaning self.now p).price (Item.Node gap node) desk.old desk.new result) }
        ensures gets { IfSome (told_pages desk.old) (λ p. OnOk result (RoseBy 1 desk.old desk.new)) }
        ensures near { IfSome (told_pages desk.old) (λ p. IsNear self.now p near.new) };

    /// Fetches the geometry of a rough object (refinement step): its exact squared distance. It notes one visit
    /// of the geometry. After a refusal at most the visit was noted.
    fn resolve<D: Disk>(
        &self,
        alloc: Global,
        desk: &mut Desk<D>,
        left: u32,
        right: u32,
    ) -> Result<Frac, PageFault>
        requires { IfSome (told_pages desk.old) (λ p. MeetsLaws (meaning self.now p) × IsRoughListed (meaning self.now p) left right) }
        ensures read { IsRead desk.old.pool desk.new.pool }
        ensures cause { HasPageCause desk.old.pool desk.new.pool result }
        ensures value { IfSome (told_pages desk.old) (λ p. IfOk result (λ exact. HasRow (meaning self.now p) (record { gap = exact; left = left; right = right }))) }
        ensures visits { IfSome (told_pages desk.old) (λ p. (gap : Frac) → VisitsOne (note self.now) (meaning self.now p).price (Item.Rough gap left right) desk.old desk.new result) };

    // Nodes that compare equal are equal.
    ghost exact: { (a b : Self.Node) → Self.Node.cmp a b ≡ Ordering.Equal → a ≡ b };
}
