ghost use Rattle.std.specs.Prelude.{◌≡◌, ℕ, ◌<◌, ◌≤◌, ◌^◌, Bool, true, List, length, filter, take, option_to_list, IfOk, IfSome, OnOk, Option, None, Some};
ghost use Rattle.sand_base.specs.declared.TheConstants.{COORDINATE_BITS};
ghost use Rattle.z_code.specs.Block.{IsBlock};
ghost use Rattle.z_code.specs.declared.block.Block.{Block};
ghost use Rattle.sand_model.specs.Tree.{add, without};
ghost use Rattle.pmr_tree.specs.declared.fault.PmrFault.{PmrFault};
ghost use Rattle.pmr_tree.specs.declared.fault.PmrFault.TheVariants.{Memory};
ghost use Rattle.pmr_tree.specs.Parts.{AreQuarters};
ghost use Rattle.pmr_tree.specs.Lists.{is_from_to};
ghost use Rattle.pmr_tree.specs.Keys.{id_in};
ghost use Rattle.pmr_tree.specs.Leaves.{firsts, Passes, fault_of};
ghost use Rattle.pmr_tree.specs.Listing.{Pair};

use crate::PmrFault;
use crate::part::QuartersMet;
use std::alloc::Global;
use z_code::Block;

/// Entries in the order of their keys, and the shapes of the ids in them. They lie in pages `P` that each call
/// is lent, or in the value itself.
pub trait Ground<P> {
    // The entries, ascending.
    ghost pairs: { Self → P → List Pair };

    // The function tells which squares the shapes of these ids meet.
    ghost Tells: { Self → P → (Block → ℕ → Bool) → (ℕ → Bool) → Type 0 };

    // What each call asks of the pages.
    ghost IsReady: { Self → P → Type 0 };

    // The pages tell what they hold, so that the entries are known.
    ghost IsKnown: { Self → P → Type 0 };

    // From the first state calls lead to the second, the last of which had this refusal.
    ghost Leads: { Self → P → Self → P → Option PmrFault → Type 0 };

    /// The entries from `low` on and below `high`.
    fn between(
        &self,
        alloc: Global,
        pages: &mut P,
        low: u128,
        high: u128,
    ) -> Result<Vec<(u128, u128)>, PmrFault>
        requires { IsReady self.now pages.old }
        ensures leads { Leads self.now pages.old self.now pages.new (fault_of result) }
        ensures found { IfOk result (λ found. IsKnown self.now pages.old → found.items ≡ filter (λ e. is_from_to low high e.0) (pairs self.now pages.old)) }
        ensures same { OnOk result (IsKnown self.now pages.old → pairs self.now pages.new ≡ pairs self.now pages.old) };

    /// The first entry from `low` on and below `high`, if there is one.
    fn first(&self, pages: &mut P, low: u128, high: u128) -> Result<Option<(u128, u128)>, PmrFault>
        requires { IsReady self.now pages.old }
        ensures leads { Leads self.now pages.old self.now pages.new (fault_of result) }
        ensures found { IfOk result (λ found. IsKnown self.now pages.old → option_to_list found ≡ take 1 (filter (λ e. is_from_to low high e.0) (pairs self.now pages.old))) }
        ensures below { IfOk result (λ found. IfSome found (λ e. e.0 < high)) }
        ensures same { OnOk result (IsKnown self.now pages.old → pairs self.now pages.new ≡ pairs self.now pages.old) };

    /// Whether the shape of the id meets the square of the block.
    fn does_meet(
        &self,
        alloc: Global,
        pages: &mut P,
        block: Block,
        id: u32,
    ) -> Result<bool, PmrFault>
        requires ready { IsReady self.now pages.old }
        requires block { IsBlock block }
        ensures leads { Leads self.now pages.old self.now pages.new (fault_of result) }
        ensures value { IfOk result (λ met. IsKnown self.now pages.old → (m : Block → ℕ → Bool) (has : ℕ → Bool) → Tells self.now pages.old m has → has id ≡ true → met ≡ m block id) }
        ensures same { OnOk result (IsKnown self.now pages.old → pairs self.now pages.new ≡ pairs self.now pages.old) };

    /// The children of the block whose squares the shape of the id meets. The shape is read once.
    fn quarters_met(
        &self,
        alloc: Global,
        pages: &mut P,
        block: Block,
        id: u32,
    ) -> Result<QuartersMet, PmrFault>
        requires ready { IsReady self.now pages.old }
        requires block { IsBlock block }
        requires above_points { block.level < COORDINATE_BITS }
        ensures leads { Leads self.now pages.old self.now pages.new (fault_of result) }
        ensures value { IfOk result (λ met. IsKnown self.now pages.old → (m : Block → ℕ → Bool) (has : ℕ → Bool) → Tells self.now pages.old m has → has id ≡ true
            → AreQuarters (λ b. m b id) block met) }
        ensures same { OnOk result (IsKnown self.now pages.old → pairs self.now pages.new ≡ pairs self.now pages.old) };

    /// Puts an entry in its place, or in that of the entry with its key.
    fn put(&mut self, pages: &mut P, key: u128, value: u128) -> Result<(), PmrFault>
        requires { IsReady self.old pages.old }
        ensures leads { Leads self.old pages.old self.new pages.new (fault_of result) }
        ensures keys { OnOk result (IsKnown self.old pages.old → firsts (pairs self.new pages.new) ≡ add key (firsts (pairs self.old pages.old))) }
        ensures values { OnOk result (IsKnown self.old pages.old → (test : ℕ → ℕ → Bool) → (1 ≤ id_in key → test (id_in key) value ≡ true) → Passes test (pairs self.old pages.old)
            → Passes test (pairs self.new pages.new)) };

    /// Takes the entry of the key, if there is one.
    fn take(&mut self, pages: &mut P, key: u128) -> Result<(), PmrFault>
        requires { IsReady self.old pages.old }
        ensures leads { Leads self.old pages.old self.new pages.new (fault_of result) }
        ensures keys { OnOk result (IsKnown self.old pages.old → firsts (pairs self.new pages.new) ≡ without key (firsts (pairs self.old pages.old))) }
        ensures values { OnOk result (IsKnown self.old pages.old → (test : ℕ → ℕ → Bool) → Passes test (pairs self.old pages.old) → Passes test (pairs self.new pages.new)) };

    // No call at all.
    ghost still: { (a : Self) (p : P) → Leads a p a p None };

    // Memory is refused.
    ghost spent: { (a : Self) (p : P) → Leads a p a p (Some Memory) };

    // One call after another.
    ghost onward: { (a : Self) (p : P) (b : Self) (q : P) (c : Self) (r : P) (end : Option PmrFault) → Leads a p b q None → Leads b q c r end → Leads a p c r end };

    // Accepted calls leave the pages ready and known, and what tells of the shapes.
    ghost ready: { (a : Self) (p : P) (b : Self) (q : P) → Leads a p b q None → IsReady a p → IsReady b q };

    ghost known: { (a : Self) (p : P) (b : Self) (q : P) → Leads a p b q None → IsKnown a p → IsKnown b q };

    ghost knew: { (a : Self) (p : P) (b : Self) (q : P) → Leads a p b q None → IsKnown b q → IsKnown a p };

    ghost steady: { (a : Self) (p : P) (b : Self) (q : P) → Leads a p b q None → IsReady a p → IsKnown a p → (m : Block → ℕ → Bool) (has : ℕ → Bool) → Tells a p m has → Tells b q m has };
}
