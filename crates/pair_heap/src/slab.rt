ghost use Rattle.std.specs.Prelude.{◌≡◌, ℕ, zero, suc, List, [], ◌∷◌, ◌++◌, length, IfSome, MatchOption, IsPermutation};
ghost use Rattle.std.specs.Coded.{coded_list};
ghost use denote.RawPtr.{Ptr, coded_ptr};
ghost use Rattle.pair_heap.specs.Chain.{chain_places};
ghost use Rattle.pair_heap.specs.Slab.{SlabFits, all_slots};

use crate::node::Node;
use crate::slot::Fresh;
use crate::spare::Spares;
use crate::trees::Trees;
use std::alloc::Global;
use std::marker::Model;
use std::mem::{ManuallyDrop, replace};
use std::ptr::null_mut;
use std_alloc::room::Vacant;

// How many nodes a slab has.
pub(crate) const SLAB_NODES: usize = 64;

// Nodes that are taken from the allocator together, behind a pointer to the slab that was taken before.
pub(crate) struct Slab<T> {
    pub(crate) next: *mut Slab<T>,
    pub(crate) nodes: [Node<T>; SLAB_NODES],
}

// The chain of all slabs, the last one first, without what stands in their slots; null where there is none.
pub(crate) struct Slabs<T> {
    pub(crate) ptr: *mut Slab<T>,
    pub(crate) ghost slots: { List (List Ptr) } by { coded_list (coded_list coded_ptr) },
}

impl<T> Model for Slabs<T> {
    ghost use Rattle.pair_heap.specs.Slab.{slabs_own};

    ghost also_owns = { λ s. slabs_own T.row s.slots s.ptr };
}

impl<T> Slabs<T> {
    // No slab.
    pub(crate) fn none() -> Slabs<T>
        ensures { result.slots ≡ [] }
    {
        Slabs { ptr: null_mut() }
    }

    // The chain with one more slab at its front, and that slab's slots.
    pub(crate) fn put(self, room: Vacant<Slab<T>, Global>) -> (Slabs<T>, Fresh<T>)
        ensures slots { result.0.slots ≡ result.1.places ∷ self.slots }
        ensures count { length result.1.places ≡ 64 }
    {
        let Slabs { ptr: next } = self;
        let Vacant { ptr, alloc: _ } = room;
        unsafe {
            (&raw mut (*ptr).next).write(next);
            let nodes = &raw mut (*ptr).nodes as *mut Node<T>;
            (Slabs { ptr }, Fresh { ptr: nodes })
        }
    }

    // The slabs as whole blocks again, since each of their slots is a node of the trees or is spare. Items are let go
    // where they stand.
    pub(crate) fn whole(self, trees: Trees<T>, spares: Spares<T>) -> Blocks<T>
        requires { IsPermutation (chain_places trees.chain ++ spares.places) (all_slots self.slots) }
        ensures { result.count ≡ length self.slots }
    {
        let Slabs { ptr } = self;
        let Trees { ptr: _ } = trees;
        let Spares { ptr: _ } = spares;
        Blocks { ptr }
    }
}

// A chain of slabs with nothing in their slots; null where there is none.
pub(crate) struct Blocks<T> {
    pub(crate) ptr: *mut Slab<T>,
    pub(crate) ghost count: { ℕ },
}

impl<T> Model for Blocks<T> {
    ghost use Rattle.pair_heap.specs.Slab.{blocks_own};

    ghost also_owns = { λ s. blocks_own T.row s.count s.ptr };
}

impl<T> Blocks<T> {
    // The first slab's block and the rest; None where there is none.
    pub(crate) fn take(self) -> Option<(Block<T>, Blocks<T>)>
        ensures count { MatchOption result (self.count ≡ zero) (λ r. self.count ≡ suc r.1.count) }
        ensures fits { IfSome result (λ _. SlabFits T.row) }
    {
        let Blocks { ptr } = self;
        if ptr.is_null() {
            return None;
        }
        unsafe {
            let next = (&raw mut (*ptr).next).read();
            Some((Block { ptr }, Blocks { ptr: next }))
        }
    }
}

// A slab's block with nothing in it.
pub(crate) struct Block<T> {
    pub(crate) ptr: *mut Slab<T>,
}

impl<T> Model for Block<T> {
    ghost use Rattle.pair_heap.specs.Slab.{block_owns};

    ghost also_owns = { λ s. block_owns T.row s.ptr };
}

impl<T> Block<T> {
    // The block as what goes back to the allocator.
    pub(crate) fn room(self, alloc: Global) -> Vacant<Slab<T>, Global> {
        let Block { ptr } = self;
        Vacant { ptr, alloc }
    }

    // Gives the block back.
    pub(crate) fn free(self, alloc: Global)
        requires { SlabFits T.row }
    {
        let _handle = self.room(alloc).free();
    }
}

// Adds a slab, and gives its slots.
pub(crate) fn put_slab<T>(slabs: &mut Slabs<T>, room: Vacant<Slab<T>, Global>) -> Fresh<T>
    ensures slots { slabs.new.slots ≡ result.places ∷ slabs.old.slots }
    ensures count { length result.places ≡ 64 }
{
    let (more, fresh) = replace(slabs, Slabs::none()).put(room);
    // The chain of no slab, which stood in the place, owns nothing.
    let _none = unsafe { ManuallyDrop::new_unchecked(replace(slabs, more)) };
    fresh
}
