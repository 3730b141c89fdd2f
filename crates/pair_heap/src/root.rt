ghost use Rattle.std.specs.Prelude.{◌≡◌, ◌+◌, ◌≤◌, [], ◌∷◌, ◌++◌, length, MatchOption, IsPermutation};
ghost use Rattle.pair_heap.specs.Chain.{items, chain_places};
ghost use Rattle.pair_heap.specs.Heap.{IsHeap};
ghost use Rattle.pair_heap.specs.Least.{IsFirst, IsLeastItem};
ghost use Rattle.pair_heap.specs.Tree.{IsHeapTree, IsRoot, heap_items, tree_places, root_items, root_places};

use crate::meld::{join, meld};
use crate::slot::Slot;
use crate::spare::{Spares, put_spare, take_spare};
use crate::tree::Tree;
use crate::trees::Trees;
use std::mem::replace;

// Melds the tree into the one that is there.
pub(crate) fn meld_in<T: Ord + Drop>(root: &mut Option<Tree<T>>, tree: Tree<T>)
    requires root { IsRoot T.cmp root.old }
    requires tree { IsHeapTree T.cmp tree }
    ensures root { IsRoot T.cmp root.new }
    ensures items { IsPermutation (root_items root.old ++ heap_items tree) (root_items root.new) }
    ensures slots { IsPermutation (root_places root.old ++ tree_places tree) (root_places root.new) }
{
    let whole = match replace(root, None) {
        None => tree,
        Some(top) => meld(top, tree),
    };
    end_none(replace(root, Some(whole)));
}

// Takes the root's item, and makes one tree of its children's.
pub(crate) fn take_least<T: Ord + Drop>(root: &mut Option<Tree<T>>) -> Option<(T, Slot<T>)>
    requires { IsRoot T.cmp root.old }
    ensures root { IsRoot T.cmp root.new }
    ensures items { MatchOption result ((root.old ≡ None) × (root.new ≡ None)) (λ r. IsPermutation (root_items root.old) (r.0 ∷ root_items root.new)) }
    ensures slots { MatchOption result (root.old ≡ None) (λ r. IsPermutation (root_places root.old) (r.1.ptr ∷ root_places root.new)) }
    ensures least { MatchOption result (root.old ≡ None) (λ r. IsLeastItem T.cmp r.0 (root_items root.new)) }
{
    let Some(tree) = replace(root, None) else {
        return None;
    };
    let (item, slot, kids) = tree.take();
    end_none(replace(root, join(kids)));
    Some((item, slot))
}

// Takes the root's item, whose slot is spare from then on, and makes one tree of the added items and its children's.
pub(crate) fn replace_least<T: Ord + Drop>(
    root: &mut Option<Tree<T>>,
    added: &mut Vec<T>,
    spares: &mut Spares<T>,
) -> Option<T>
    requires root { IsRoot T.cmp root.old }
    requires room { length added.old.items ≤ length spares.old.places }
    ensures root { IsRoot T.cmp root.new }
    ensures items { MatchOption result ((root.old ≡ None) × (root.new ≡ None)) (λ x. IsPermutation (added.old.items ++ root_items root.old) (x ∷ root_items root.new)) }
    ensures first { MatchOption result (root.old ≡ None) (λ x. IsFirst T.cmp x (root_items root.old)) }
    ensures added { MatchOption result (added.new.items ≡ added.old.items) (λ _. added.new.items ≡ []) }
    ensures slots { IsPermutation (root_places root.old ++ spares.old.places) (root_places root.new ++ spares.new.places) }
    ensures spares { MatchOption result (spares.new.places ≡ spares.old.places) (λ _. length spares.new.places + length added.old.items ≡ length spares.old.places + 1) }
{
    let Some(tree) = replace(root, None) else {
        return None;
    };
    let (item, slot, kids) = tree.take();
    put_spare(spares, slot);
    end_none(replace(root, join(with_items(kids, added, spares))));
    Some(item)
}

// The chain with a tree of each added item before it, in spare slots.
#[inline]
fn with_items<T: Ord + Drop>(
    trees: Trees<T>,
    added: &mut Vec<T>,
    spares: &mut Spares<T>,
) -> Trees<T>
    requires heap { IsHeap T.cmp trees.chain }
    requires room { length added.old.items ≤ length spares.old.places }
    ensures heap { IsHeap T.cmp result.chain }
    ensures items { IsPermutation (added.old.items ++ items trees.chain) (items result.chain) }
    ensures added { added.new.items ≡ [] }
    ensures slots { IsPermutation (chain_places trees.chain ++ spares.old.places) (chain_places result.chain ++ spares.new.places) }
    ensures spares { length spares.new.places + length added.old.items ≡ length spares.old.places }
{
    let mut all = trees;
    'items: while let Some(item) = added.pop() {
        let Some(slot) = take_spare(spares) else {
            unreachable!();
        };
        all = Tree::new(slot, item, Trees::end()).before(all);
    }
    all
}

// The only tree as a chain.
pub(crate) fn as_trees<T>(root: Option<Tree<T>>) -> Trees<T>
    ensures { chain_places result.chain ≡ root_places root }
{
    match root {
        None => Trees::end(),
        Some(tree) => tree.before(Trees::end()),
    }
}

// Ends what no tree is left in.
fn end_none<T>(none: Option<Tree<T>>)
    requires { none ≡ None }
{
    match none {
        None => {}
        Some(_tree) => unreachable!(),
    }
}
