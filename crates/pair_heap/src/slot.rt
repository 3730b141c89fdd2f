ghost use Rattle.std.specs.Prelude.{◌≡◌, ◌<◌, List, ◌∷◌, length};
ghost use Rattle.std.specs.Coded.{coded_list};
ghost use denote.RawPtr.{Ptr, coded_ptr};

use crate::node::Node;
use std::marker::Model;

// Room for a node in a slab, which holds no item.
pub(crate) struct Slot<T> {
    pub(crate) ptr: *mut Node<T>,
}

impl<T> Model for Slot<T> {
    ghost use Rattle.pair_heap.specs.Slot.{slot_owns};

    ghost also_owns = { λ s. slot_owns T.row s.ptr };
}

// Slots side by side that were never used, from the first one on.
pub(crate) struct Fresh<T> {
    pub(crate) ptr: *mut Node<T>,
    pub(crate) ghost places: { List Ptr } by { coded_list coded_ptr },
}

impl<T> Model for Fresh<T> {
    ghost use Rattle.pair_heap.specs.Slot.{fresh_own};

    ghost also_owns = { λ f. fresh_own T.row f.places f.ptr };
}

impl<T> Fresh<T> {
    // The first slot and the rest.
    pub(crate) fn first(self) -> (Slot<T>, Fresh<T>)
        requires { 0 < length self.places }
        ensures { self.places ≡ result.0.ptr ∷ result.1.places }
    {
        let Fresh { ptr } = self;
        unsafe { (Slot { ptr }, Fresh { ptr: ptr.add(1) }) }
    }
}
