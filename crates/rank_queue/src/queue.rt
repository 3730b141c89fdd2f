ghost use Rattle.std.specs.Prelude.{◌≡◌, ℕ, ◌+◌, ◌<◌, ◌≤◌, List, [], ◌∷◌, ◌++◌, length, OnOk, MatchOption, IsPermutation};
ghost use Rattle.rank_queue.specs.Least.{IsFirst, IsLeastItem};

use sand_base::NoMemory;
use std::alloc::Global;

/// A queue that gives the least of its items first. Items that compare equal are all kept, and come in any order.
pub trait Queue<T: Ord> {
    // The items that are queued, in no order that means anything.
    ghost held: { Self → List T };

    // How many pushes can't fail before the next `reserve`.
    ghost spare: { Self → ℕ };

    /// A queue with no item and no reserved place. It takes no memory.
    fn empty(alloc: Global) -> Self
        ensures items { held result ≡ [] }
        ensures spare { spare result ≡ 0 };

    /// Sees that so many places are reserved. The items stay as they are, and no reserved place is lost, after a refusal too.
    fn reserve(&mut self, count: usize) -> Result<(), NoMemory>
        ensures items { held self.new ≡ held self.old }
        ensures kept { spare self.old ≤ spare self.new }
        ensures spare { OnOk result (count ≤ spare self.new) };

    /// Adds an item in a reserved place.
    fn push(&mut self, item: T)
        requires { 0 < spare self.old }
        ensures items { IsPermutation (item ∷ held self.old) (held self.new) }
        ensures spare { spare self.new + 1 ≡ spare self.old };

    /// An item that no other comes before; None exactly where there is none.
    fn peek(&self) -> Option<&T>
        ensures { MatchOption result (held self.now ≡ []) (λ x. IsFirst T.cmp x.now (held self.now)) };

    /// Takes an item that no other comes before, whose place is reserved from then on; None exactly where there is none.
    fn pop(&mut self) -> Option<T>
        ensures items { MatchOption result ((held self.old ≡ []) × (held self.new ≡ [])) (λ x. IsPermutation (held self.old) (x ∷ held self.new)) }
        ensures least { MatchOption result (held self.old ≡ []) (λ x. IsLeastItem T.cmp x (held self.new)) }
        ensures spare { MatchOption result (spare self.new ≡ spare self.old) (λ _. spare self.new ≡ spare self.old + 1) };

    /// Takes an item that no other comes before, and adds those of the list, which is empty afterwards. None exactly
    /// where there is no item, and then none is added.
    fn replace_first(&mut self, items: &mut Vec<T>) -> Option<T>
        requires room { length items.old.items ≤ spare self.old }
        ensures items { MatchOption result ((held self.old ≡ []) × (held self.new ≡ [])) (λ x. IsPermutation (items.old.items ++ held self.old) (x ∷ held self.new)) }
        ensures first { MatchOption result (held self.old ≡ []) (λ x. IsFirst T.cmp x (held self.old)) }
        ensures added { MatchOption result (items.new.items ≡ items.old.items) (λ _. items.new.items ≡ []) }
        ensures spare { MatchOption result (spare self.new ≡ spare self.old) (λ _. spare self.new + length items.old.items ≡ spare self.old + 1) }
    {
        let first = self.pop()?;
        'items: while let Some(item) = items.pop() {
            self.push(item);
        }
        Some(first)
    }

    /// The number of items.
    fn len(&self) -> usize
        ensures { result ≡ length (held self.now) };

    /// The number of reserved places: so many pushes can't fail.
    fn spare(&self) -> usize
        ensures { result ≡ spare self.now };
}
