ghost use Rattle.std.specs.Prelude.{◌≡◌, ◌++◌, MatchOption, IsPermutation};
ghost use Rattle.pair_heap.specs.Chain.{end, items, chain_places};
ghost use Rattle.pair_heap.specs.Heap.{IsHeap};
ghost use Rattle.pair_heap.specs.Tree.{IsHeapTree, heap_items, tree_places};

use crate::tree::Tree;
use crate::trees::Trees;

// One tree of both: the one of them whose item comes later becomes the other's first child. Which of them it is can't be
// foreseen: in a call of its own it is chosen without a branch.
#[inline(never)]
pub(crate) fn meld<T: Ord + Drop>(one: Tree<T>, other: Tree<T>) -> Tree<T>
    requires one { IsHeapTree T.cmp one }
    requires other { IsHeapTree T.cmp other }
    ensures tree { IsHeapTree T.cmp result }
    ensures items { IsPermutation (heap_items one ++ heap_items other) (heap_items result) }
    ensures slots { IsPermutation (tree_places one ++ tree_places other) (tree_places result) }
{
    let (top, below) = if one.item().cmp(other.item()).is_gt() {
        (other, one)
    } else {
        (one, other)
    };
    top.over(below)
}

// The first pass: each two neighbours become one tree, and the last of an odd row stays alone.
#[inline]
fn pair_up<T: Ord + Drop>(trees: Trees<T>) -> Trees<T>
    requires { IsHeap T.cmp trees.chain }
    ensures heap { IsHeap T.cmp result.chain }
    ensures items { IsPermutation (items trees.chain) (items result.chain) }
    ensures slots { IsPermutation (chain_places trees.chain) (chain_places result.chain) }
{
    let mut rest = trees;
    let mut pairs = Trees::end();
    'pairs: loop {
        let Some((one, others)) = rest.first() else {
            return pairs;
        };
        let Some((other, others)) = others.first() else {
            return one.before(pairs);
        };
        rest = others;
        pairs = meld(one, other).before(pairs);
    }
}

// The second pass: all trees become one.
#[inline]
fn gather<T: Ord + Drop>(first: Tree<T>, trees: Trees<T>) -> Tree<T>
    requires first { IsHeapTree T.cmp first }
    requires trees { IsHeap T.cmp trees.chain }
    ensures tree { IsHeapTree T.cmp result }
    ensures items { IsPermutation (heap_items first ++ items trees.chain) (heap_items result) }
    ensures slots { IsPermutation (tree_places first ++ chain_places trees.chain) (tree_places result) }
{
    let mut all = first;
    let mut rest = trees;
    'trees: loop {
        let Some((next, others)) = rest.first() else {
            return all;
        };
        rest = others;
        all = meld(all, next);
    }
}

// One tree of all trees of the chain, in two passes; None where there is none.
pub(crate) fn join<T: Ord + Drop>(trees: Trees<T>) -> Option<Tree<T>>
    requires { IsHeap T.cmp trees.chain }
    ensures tree { MatchOption result (trees.chain ≡ end) (λ t. IsHeapTree T.cmp t) }
    ensures items { MatchOption result (trees.chain ≡ end) (λ t. IsPermutation (items trees.chain) (heap_items t)) }
    ensures slots { MatchOption result (trees.chain ≡ end) (λ t. IsPermutation (chain_places trees.chain) (tree_places t)) }
{
    let Some((first, rest)) = pair_up(trees).first() else {
        return None;
    };
    Some(gather(first, rest))
}
