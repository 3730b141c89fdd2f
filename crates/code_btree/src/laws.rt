ghost use Rattle.std.specs.Prelude.{◌≡◌, ℕ, ◌≤◌};
ghost use Rattle.code_btree.specs.declared.map.Tree.{Tree};
ghost use Rattle.code_btree.specs.Tree.{Store, tree_pages, times};
ghost use Rattle.code_btree.specs.Calls.{Unmoved};

/// A tree depends only on its own pages: where these stay, its pairs and its pages stay, and it is a tree still.
/// So a change of one tree leaves every other tree of the pool as it is.
pub fn own_pages_decide()
    ensures { (m w : Store) (t : Tree) → ((q : ℕ) → 1 ≤ times q (tree_pages m t) → w q ≡ m q) → Unmoved m w t }
{}
