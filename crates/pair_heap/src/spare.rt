ghost use Rattle.std.specs.Prelude.{◌≡◌, List, [], ◌∷◌, ◌++◌, length, MatchOption, IsPermutation};
ghost use Rattle.std.specs.Coded.{coded_list};
ghost use denote.RawPtr.{Ptr, coded_ptr};

use crate::node::Node;
use crate::slab::SLAB_NODES;
use crate::slot::{Fresh, Slot};
use std::marker::Model;
use std::mem::{ManuallyDrop, replace};
use std::ptr::null_mut;

// A chain of slots that hold no item, each of which leads on to the next; null where there is none.
pub(crate) struct Spares<T> {
    pub(crate) ptr: *mut Node<T>,
    pub(crate) ghost places: { List Ptr } by { coded_list coded_ptr },
}

impl<T> Model for Spares<T> {
    ghost use Rattle.pair_heap.specs.Spare.{spares_own};

    ghost also_owns = { λ s. spares_own T.row s.places s.ptr };
}

impl<T> Spares<T> {
    // No slot.
    #[inline(always)]
    pub(crate) fn none() -> Spares<T>
        ensures { result.places ≡ [] }
    {
        Spares { ptr: null_mut() }
    }

    // The chain with one more slot at its front.
    #[inline(always)]
    pub(crate) fn put(self, slot: Slot<T>) -> Spares<T>
        ensures { result.places ≡ slot.ptr ∷ self.places }
    {
        let Spares { ptr: next } = self;
        let Slot { ptr } = slot;
        unsafe {
            (&raw mut (*ptr).child).write(next);
        }
        Spares { ptr }
    }

    // The first slot and the rest; None where there is none.
    #[inline(always)]
    pub(crate) fn take(self) -> Option<(Slot<T>, Spares<T>)>
        ensures { MatchOption result (self.places ≡ []) (λ r. self.places ≡ r.0.ptr ∷ r.1.places) }
    {
        let Spares { ptr } = self;
        if ptr.is_null() {
            return None;
        }
        unsafe {
            let next = (&raw mut (*ptr).child).read();
            Some((Slot { ptr }, Spares { ptr: next }))
        }
    }
}

// Takes a slot off the chain; None where there is none.
#[inline(always)]
pub(crate) fn take_spare<T>(spares: &mut Spares<T>) -> Option<Slot<T>>
    ensures { MatchOption result ((spares.old.places ≡ []) × (spares.new.places ≡ [])) (λ s. spares.old.places ≡ s.ptr ∷ spares.new.places) }
{
    let Some((slot, rest)) = replace(spares, Spares::none()).take() else {
        return None;
    };
    end_empty(replace(spares, rest));
    Some(slot)
}

// Puts a slot on the chain.
#[inline(always)]
pub(crate) fn put_spare<T>(spares: &mut Spares<T>, slot: Slot<T>)
    ensures { spares.new.places ≡ slot.ptr ∷ spares.old.places }
{
    let rest = replace(spares, Spares::none());
    end_empty(replace(spares, rest.put(slot)));
}

// Puts all slots of a new slab on the chain.
pub(crate) fn put_fresh<T>(spares: &mut Spares<T>, fresh: Fresh<T>)
    requires { length fresh.places ≡ 64 }
    ensures { IsPermutation (fresh.places ++ spares.old.places) spares.new.places }
{
    let rest = replace(spares, Spares::none());
    end_empty(replace(spares, with_fresh(rest, fresh)));
}

// The chain with all slots of a new slab.
fn with_fresh<T>(spares: Spares<T>, fresh: Fresh<T>) -> Spares<T>
    requires { length fresh.places ≡ 64 }
    ensures { IsPermutation (fresh.places ++ spares.places) result.places }
{
    let mut all = spares;
    let mut rest = fresh;
    let mut left = SLAB_NODES;
    'slots: while left > 0 {
        let (slot, others) = rest.first();
        all = all.put(slot);
        rest = others;
        left -= 1;
    }
    // No slot is left, so nothing is owned.
    let _none = unsafe { ManuallyDrop::new_unchecked(rest) };
    all
}

// Ends a chain of no slot.
#[inline(always)]
fn end_empty<T>(spares: Spares<T>)
    requires { spares.places ≡ [] }
{
    match spares.take() {
        None => {}
        Some((_slot, _rest)) => unreachable!(),
    }
}
