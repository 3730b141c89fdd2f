ghost use Rattle.std.specs.Prelude.{◌≡◌, ℕ, ℤ, ◌<◌, ◌≤◌, ◌<ℤ◌, ◌↔◌};
ghost use Rattle.sand_base.specs.InRange.{IsIntInRange};
ghost use Rattle.sand_base.specs.declared.value.Value.TheVariants as value;
ghost use Rattle.code_btree.specs.Tree.{Store, times};
ghost use Rattle.attr_index.specs.declared.index.AttrIndex.{AttrIndex};
ghost use Rattle.attr_index.specs.Key.{value_key, int_of};
ghost use Rattle.attr_index.specs.Entries.{IsInOrder};
ghost use Rattle.attr_index.specs.Index.{IsAttrIndex, index_entries, index_pages};
ghost use Rattle.attr_index.specs.Calls.{IndexUnmoved};

/// An index depends only on its own pages: where these stay, its list and its pages stay, and it is an index
/// still. So a change of one index leaves every other one of the pool as it is.
pub fn own_pages_decide()
    ensures { (m w : Store) (x : AttrIndex) → ((q : ℕ) → 1 ≤ times q (index_pages m x) → w q ≡ m q) → IndexUnmoved m w x }
{}

/// The entries of an index are in order, so the first one that a look-up finds is the least.
pub fn entries_are_in_order()
    ensures { (m : Store) (x : AttrIndex) → IsAttrIndex m x → IsInOrder (index_entries m x) }
{}

/// Ints are in the order of their keys, and an int is known by its key.
pub fn keys_of_ints_are_in_order()
    ensures order { (v u : ℤ) → IsIntInRange v → IsIntInRange u → (v <ℤ u) ↔ (value_key (value.Int v) < value_key (value.Int u)) }
    ensures back { (v : ℤ) → IsIntInRange v → int_of (value_key (value.Int v)) ≡ v }
{}
