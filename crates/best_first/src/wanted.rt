ghost use Rattle.std.specs.Prelude.{◌≡◌, ℕ, Bool};
ghost use Rattle.best_first.specs.Wanted.{is_wanted, wanted_of};

use crate::Item;

/// The left ids whose rows are wanted of a search.
pub trait Wanted {
    // Whether rows of this left id are wanted.
    ghost lefts: { Self → ℕ → Bool };

    /// Whether rows of this left id are wanted. It takes no memory.
    fn wants(&self, left: u32) -> bool
        ensures { result ≡ lefts self.now left };
}

// Whether the item is of use: it is no row, or a row of a wanted left id.
#[inline]
fn is_wanted<N, W: Wanted>(item: &Item<N>, wanted: &W) -> bool
    ensures { result ≡ is_wanted (W.lefts wanted.now) item.now }
{
    match item {
        Item::Row { left, .. } => wanted.wants(*left),
        Item::Node { .. } => true,
        Item::Rough { .. } => true,
    }
}

// Leaves out of the list the rows whose left ids aren't wanted.
pub fn keep_wanted<N: Ord + Copy, W: Wanted>(wanted: &W, found: &mut Vec<Item<N>>)
    ensures { found.new.items ≡ wanted_of (W.lefts wanted.now) found.old.items }
{
    found.retain(
        |item|
            ensures { result ≡ is_wanted (W.lefts wanted.entry.now) item.now }
        { is_wanted(item, wanted) },
    );
}
