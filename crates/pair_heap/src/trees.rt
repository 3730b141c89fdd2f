ghost use Rattle.std.specs.Prelude.{◌≡◌, MatchOption};
ghost use Rattle.pair_heap.specs.Chain.{Chain, end, link, chain_code};

use crate::node::Node;
use crate::tree::Tree;
use std::marker::Model;
use std::ptr::null_mut;

// A chain of trees, one after another, as a pointer to the first tree's node; null where there is none.
pub(crate) struct Trees<T> {
    pub(crate) ptr: *mut Node<T>,
    pub(crate) ghost chain: { Chain T } by { chain_code T.code },
}

impl<T> Model for Trees<T> {
    ghost use Rattle.pair_heap.specs.Ownership.{chain_owns};

    ghost also_owns = { λ t. chain_owns T.row t.chain t.ptr };
}

impl<T> Trees<T> {
    // No tree.
    #[inline(always)]
    pub(crate) fn end() -> Trees<T>
        ensures { result.chain ≡ end }
    {
        Trees { ptr: null_mut() }
    }

    // The first tree of the chain and the rest; None where there is none.
    #[inline(always)]
    pub(crate) fn first(self) -> Option<(Tree<T>, Trees<T>)>
        ensures { MatchOption result (self.chain ≡ end) (λ r. self.chain ≡ link r.0.ptr r.0.item r.0.kids r.1.chain) }
    {
        let Trees { ptr } = self;
        if ptr.is_null() {
            return None;
        }
        unsafe {
            let next = (*ptr).next;
            Some((Tree { ptr }, Trees { ptr: next }))
        }
    }
}
