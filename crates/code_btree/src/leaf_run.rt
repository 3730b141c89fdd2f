ghost use Rattle.std.specs.Prelude.{◌≡◌, ◌*◌, ◌+◌, length};
ghost use Rattle.std.specs.Iterator.{YieldsFirstBy, item_count};
ghost use Rattle.code_btree.specs.Node.{IsLeaf, IsLeafOf, entry_of, node_of, entries_of, entries_on};
ghost use Rattle.code_btree.specs.Items.{Ascending, items_from};

use crate::bytes::{Page, half_at, number_at};
use crate::leaf::rank;

/// An entry of a leaf page, as its 32 bytes.
#[derive(Clone, Copy)]
pub struct Entry<'p> {
    pub(crate) bytes: &'p [u8],
    ghost sized: { length bytes.now ≡ 32 },
}

/// The entries of a leaf page from a place on, in order. None comes exactly after the last.
#[derive(Drop)]
pub struct PageRun<'p> {
    pub(crate) page: &'p Page,
    pub(crate) count: usize,
    pub(crate) place: usize,
    ghost counted: { IsLeafOf page.now count },
}

impl Entry<'_> {
    /// Its key.
    pub fn key(&self) -> u128
        ensures { result ≡ (entry_of self.now.bytes.now).0 }
    {
        number_at(self.bytes, 0)
    }

    /// Its value.
    pub fn value(&self) -> u128
        ensures { result ≡ (entry_of self.now.bytes.now).1 }
    {
        number_at(self.bytes, 16)
    }
}

/// The entries of a leaf page from a key on.
pub fn page_run<'p>(page: &'p Page, from: u128) -> PageRun<'p>
    requires { IsLeaf page.now }
    ensures page { result.page.now ≡ page.now }
    ensures left { Ascending (entries_of (node_of page.now)) → entries_on page.now result.place ≡ items_from from (entries_of (node_of page.now)) }
{
    let count = usize::from(half_at(page, 2));
    let place = rank(page, count, from);
    PageRun { page, count, place }
}

impl<'p> Iterator for PageRun<'p> {
    type Item = Entry<'p>;

    ghost next_gives = { YieldsFirstBy (λ e. entry_of e.bytes.now) (λ r. entries_on r.page.now r.place) };

    ghost remaining = { item_count (λ r. entries_on r.page.now r.place) };

    fn next(&mut self) -> Option<Entry<'p>> {
        if self.place >= self.count {
            return None;
        }
        let at = 32 + 32 * self.place;
        let page = self.page;
        let bytes = &page[at..at + 32];
        self.place += 1;
        Some(Entry { bytes })
    }
}
