ghost use Rattle.std.specs.Prelude.{◌++◌, IsPermutation};
ghost use Rattle.pair_heap.specs.Chain.{chain_places};
ghost use Rattle.pair_heap.specs.Slab.{all_slots};

use crate::slab::Slabs;
use crate::spare::Spares;
use crate::tree::Tree;
use crate::trees::Trees;
use std::alloc::Global;

// Drops all items and puts their slots on the chain of spare ones, with no recursion and no memory: a first child
// moves up beside its parent until there is none, and then the parent goes.
pub(crate) fn release<T: Drop>(trees: Trees<T>, spares: Spares<T>) -> Spares<T>
    ensures { IsPermutation (chain_places trees.chain ++ spares.places) result.places }
{
    let mut rest = trees;
    let mut all = spares;
    'nodes: loop {
        let Some((tree, beside)) = rest.first() else {
            return all;
        };
        let (item, slot, kids) = tree.take();
        match kids.first() {
            None => {
                all = all.put(slot);
                rest = beside;
            }
            Some((child, others)) => {
                rest = child.before(Tree::new(slot, item, others).before(beside));
            }
        }
    }
}

// Gives all slabs back, since each of their slots is a node of the trees or is spare. The nodes' items aren't dropped.
pub(crate) fn release_slabs<T>(slabs: Slabs<T>, trees: Trees<T>, spares: Spares<T>, alloc: Global)
    requires { IsPermutation (chain_places trees.chain ++ spares.places) (all_slots slabs.slots) }
{
    let mut rest = slabs.whole(trees, spares);
    'blocks: loop {
        let Some((block, others)) = rest.take() else {
            return;
        };
        block.free(alloc);
        rest = others;
    }
}
