ghost use Rattle.std.specs.Prelude.{◌≡◌, ◌+◌, ◌<◌, ◌≤◌, [], ◌∷◌, ◌++◌, length, OnOk, MatchOption, IsPermutation};
ghost use Rattle.pair_heap.specs.Least.{IsFirst, IsLeastItem};

use crate::release::{release, release_slabs};
use crate::root::{as_trees, meld_in, replace_least, take_least};
use crate::slab::{SLAB_NODES, Slab, Slabs, put_slab};
use crate::spare::{Spares, put_fresh, put_spare, take_spare};
use crate::tree::Tree;
use crate::trees::Trees;
use sand_base::NoMemory;
use std::alloc::Global;
use std::marker::Model;
use std_alloc::room::{Vacant, may_hold};

/// A priority queue that gives the least item first, as one tree in heap order (a pairing heap). A node never moves:
/// growing copies no item, and a push in a spare slot can't fail. Items that compare equal are all kept, in any order.
pub struct PairHeap<T: Ord> {
    root: Option<Tree<T>>,
    spares: Spares<T>,
    slabs: Slabs<T>,
    len: usize,
    spare: usize,
    alloc: Global,
}

impl<T: Ord> Model for PairHeap<T> {
    ghost use Rattle.pair_heap.specs.Queued.{Queued};

    ghost Value = { Queued T };

    ghost use Rattle.pair_heap.specs.Tree.{root_items};
    ghost use Rattle.pair_heap.specs.Sound.{IsSoundHeap};

    ghost view = { λ h. record { items = root_items h.root; spare = h.spare } };

    ghost invariant = { IsSoundHeap T.cmp };
}

impl<T: Ord + Drop> PairHeap<T> {
    /// A heap with no item and no spare slot. It takes no memory.
    pub fn empty(alloc: Global) -> PairHeap<T>
        ensures items { result.items ≡ [] }
        ensures spare { result.spare ≡ 0 }
    {
        PairHeap {
            root: None,
            spares: Spares::none(),
            slabs: Slabs::none(),
            len: 0,
            spare: 0,
            alloc,
        }
    }

    /// Sees that there are so many spare slots. The items stay as they are, and no spare slot is lost, after a refusal too.
    pub fn reserve(&mut self, count: usize) -> Result<(), NoMemory>
        ensures items { self.new.items ≡ self.old.items }
        ensures kept { self.old.spare ≤ self.new.spare }
        ensures spare { OnOk result (count ≤ self.new.spare) }
    {
        while self.spare() < count {
            self.add_slab()?;
        }
        Ok(())
    }

    // One slab more, whose slots are spare.
    fn add_slab(&mut self) -> Result<(), NoMemory>
        ensures items { self.new.items ≡ self.old.items }
        ensures kept { self.old.spare ≤ self.new.spare }
        ensures spare { OnOk result (self.new.spare ≡ self.old.spare + 64) }
    {
        if usize::MAX - self.len - self.spare < SLAB_NODES || !may_hold::<Slab<T>>(1) {
            return Err(NoMemory {});
        }
        let Ok(block) = Vacant::take(self.alloc) else {
            return Err(NoMemory {});
        };
        let fresh = put_slab(&mut self.slabs, block);
        put_fresh(&mut self.spares, fresh);
        self.spare += SLAB_NODES;
        Ok(())
    }

    /// Adds an item in a spare slot.
    pub fn push(&mut self, item: T)
        requires { 0 < self.old.spare }
        ensures items { IsPermutation (item ∷ self.old.items) self.new.items }
        ensures spare { self.new.spare + 1 ≡ self.old.spare }
    {
        let Some(slot) = take_spare(&mut self.spares) else {
            unreachable!();
        };
        meld_in(&mut self.root, Tree::new(slot, item, Trees::end()));
        self.spare -= 1;
        self.len += 1;
    }

    /// The item at the root, which no other comes before; None exactly where there is none.
    pub fn peek(&self) -> Option<&T>
        ensures { MatchOption result (self.now.items ≡ []) (λ x. IsFirst T.cmp x.now self.now.items) }
    {
        match &self.root {
            None => None,
            Some(tree) => Some(tree.item()),
        }
    }

    /// Takes an item that no other comes before, whose slot is spare from then on; None exactly where there is none.
    pub fn pop(&mut self) -> Option<T>
        ensures items { MatchOption result ((self.old.items ≡ []) × (self.new.items ≡ [])) (λ x. IsPermutation self.old.items (x ∷ self.new.items)) }
        ensures least { MatchOption result (self.old.items ≡ []) (λ x. IsLeastItem T.cmp x self.new.items) }
        ensures spare { MatchOption result (self.new.spare ≡ self.old.spare) (λ _. self.new.spare ≡ self.old.spare + 1) }
    {
        let Some((item, slot)) = take_least(&mut self.root) else {
            return None;
        };
        put_spare(&mut self.spares, slot);
        self.len -= 1;
        self.spare += 1;
        Some(item)
    }

    /// Takes an item that no other comes before, and adds those of the list, which is empty afterwards. They are paired with
    /// the root's children, where pushed items would hang below the new root, to be paired at the next pop. None exactly
    /// where there is no item, and then none is added.
    pub fn replace_first(&mut self, items: &mut Vec<T>) -> Option<T>
        requires room { length items.old.items ≤ self.old.spare }
        ensures items { MatchOption result ((self.old.items ≡ []) × (self.new.items ≡ [])) (λ x. IsPermutation (items.old.items ++ self.old.items) (x ∷ self.new.items)) }
        ensures first { MatchOption result (self.old.items ≡ []) (λ x. IsFirst T.cmp x self.old.items) }
        ensures added { MatchOption result (items.new.items ≡ items.old.items) (λ _. items.new.items ≡ []) }
        ensures spare { MatchOption result (self.new.spare ≡ self.old.spare) (λ _. self.new.spare + length items.old.items ≡ self.old.spare + 1) }
    {
        let added = items.len();
        let item = replace_least(&mut self.root, items, &mut self.spares)?;
        self.len = self.len - 1 + added;
        self.spare = self.spare + 1 - added;
        Some(item)
    }

    /// The number of items.
    pub fn len(&self) -> usize
        ensures { result ≡ length self.now.items }
    {
        self.len
    }

    /// The number of spare slots: so many pushes can't fail.
    pub fn spare(&self) -> usize
        ensures { result ≡ self.now.spare }
    {
        self.spare
    }
}

impl<T: Ord + Drop> Drop for PairHeap<T> {
    fn drop(self) {
        let PairHeap {
            root,
            spares,
            slabs,
            len: _,
            spare: _,
            alloc,
        } = self;
        release_slabs(slabs, Trees::end(), release(as_trees(root), spares), alloc);
    }
}

impl<T: Ord + Copy> PairHeap<T> {
    /// Ends the heap and gives all of its slabs back. Items that are `Copy` need no drop, so no node is looked at.
    pub fn discard(self) {
        let PairHeap {
            root,
            spares,
            slabs,
            len: _,
            spare: _,
            alloc,
        } = self;
        release_slabs(slabs, as_trees(root), spares, alloc);
    }
}
