ghost use Rattle.std.specs.Prelude.{◌≡◌};
ghost use Rattle.std.specs.Coded.{coded×};
ghost use denote.RawPtr.{Ptr, coded_ptr};
ghost use Rattle.pair_heap.specs.Chain.{Chain, end, link, chain_code};
ghost use Rattle.pair_heap.specs.Ownership.{tree_owns, tree_lent};

use crate::node::Node;
use crate::slot::Slot;
use crate::trees::Trees;
use std::marker::Model;
use std::ptr::null_mut;

// A tree in hand, as a pointer to its root's node, in which the item stays. Of the node's two links the second is out of use.
pub(crate) struct Tree<T> {
    pub(crate) ptr: *mut Node<T>,
    pub(crate) ghost item: { T },
    pub(crate) ghost kids: { Chain T } by { chain_code T.code },
    ghost links: { Ptr × Ptr } by { coded× coded_ptr coded_ptr },
}

impl<T> Model for Tree<T> {
    ghost also_owns = { λ t. tree_owns T.row t.links t.item t.kids t.ptr };

    ghost also_shares = { λ t _ κ. tree_lent T.row t.links t.item t.ptr κ };
}

impl<T> Tree<T> {
    // The tree of this item over these children. The item's node is made in the slot.
    #[inline(always)]
    pub(crate) fn new(slot: Slot<T>, item: T, kids: Trees<T>) -> Tree<T>
        ensures item { result.item ≡ item }
        ensures place { result.ptr ≡ slot.ptr }
        ensures kids { result.kids ≡ kids.chain }
    {
        let Slot { ptr } = slot;
        let Trees { ptr: child } = kids;
        unsafe {
            ptr.write(Node {
                child,
                next: null_mut(),
                item,
            });
        }
        Tree { ptr }
    }

    // The root's node.
    #[inline(always)]
    fn node(&self) -> &Node<T>
        ensures { result.now.item ≡ self.now.item }
    {
        unsafe { &*self.ptr }
    }

    // The root's item, in its node.
    #[inline(always)]
    pub(crate) fn item(&self) -> &T
        ensures { result.now ≡ self.now.item }
    {
        &self.node().item
    }

    // The chain of this tree and then the rest.
    #[inline(always)]
    pub(crate) fn before(self, rest: Trees<T>) -> Trees<T>
        ensures { result.chain ≡ link self.ptr self.item self.kids rest.chain }
    {
        let Tree { ptr } = self;
        let Trees { ptr: next } = rest;
        unsafe {
            (*ptr).next = next;
        }
        Trees { ptr }
    }

    // This tree with the other one as its first child.
    #[inline(always)]
    pub(crate) fn over(self, below: Tree<T>) -> Tree<T>
        ensures item { result.item ≡ self.item }
        ensures place { result.ptr ≡ self.ptr }
        ensures kids { result.kids ≡ link below.ptr below.item below.kids self.kids }
    {
        let Tree { ptr } = self;
        let Tree { ptr: child } = below;
        unsafe {
            (*child).next = (*ptr).child;
            (*ptr).child = child;
        }
        Tree { ptr }
    }

    // The root's item, the slot that it stood in, and its children.
    #[inline(always)]
    pub(crate) fn take(self) -> (T, Slot<T>, Trees<T>)
        ensures item { result.0 ≡ self.item }
        ensures place { result.1.ptr ≡ self.ptr }
        ensures kids { result.2.chain ≡ self.kids }
    {
        let Tree { ptr } = self;
        unsafe {
            let Node {
                child,
                next: _,
                item,
            } = ptr.read();
            (item, Slot { ptr }, Trees { ptr: child })
        }
    }
}
