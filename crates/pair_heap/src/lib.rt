//! A pairing heap in nodes of raw memory: a priority queue that grows without moving an item.
//!
//! Each item stands in a node of its own, linked to its first child and to the tree that follows it. A push is one
//! comparison; a pop joins the root's children in two passes. Items that replace the first one are paired with those
//! children, and none is left to the next pop. Nodes come from the allocator 64 at a time, as a slab, by `reserve`
//! alone, and their slots are counted as spares, so that a push can't fail. A push writes its item into a slot, where
//! it stays until its pop: a tree in hand is a pointer to its root's node, two trees are compared through references
//! into their nodes, and melding them writes two links. One type owns a tree behind a raw pointer, one a chain of
//! trees, one the spare slots, and one the slabs but for their slots. All else is safe code over trees in hand.
//! `discard` ends a heap of `Copy` items slab by slab, with no walk over its nodes.
//! Above: `rank_queue`. Below: `sand_base`, std. Contracts see a list, whose order says nothing, and the number of
//! spare slots; read `specs/Least.antt` first, then `specs/Chain.antt`.
//! After M. L. Fredman, R. Sedgewick, D. D. Sleator and R. E. Tarjan (1986), The pairing heap;
//! slabs after J. Bonwick (1994), The slab allocator.
#![tactic(auto)]

mod heap;
mod meld;
mod node;
mod release;
mod root;
mod slab;
mod slot;
mod spare;
mod tree;
mod trees;

pub use heap::PairHeap;
