ghost use Rattle.std.specs.Prelude.{◌≡◌, ◌<◌, ◌≤◌, ◌+◌, ◌^◌, ◌⊎◌, ℕ, List, Some, OnOk, IfOk, cond, true, false};
ghost use Rattle.std.specs.FinMap as map;
ghost use Rattle.std.specs.Option.{option_copied};

use crate::frames::Frames;
use crate::page::Page;
use sand_base::NoMemory;
use std::alloc::Global;
use std::marker::Model;

/// The clean pages in frames: newest images by the numbers of their pages, and replaced ones, which only stamps see, by
/// the places where they lie. Together they take no more frames than there are.
#[derive(Drop)]
pub(crate) struct Cache {
    newest: Frames,
    past: Frames,
}

impl Model for Cache {
    ghost use Rattle.page_pool.specs.Inside.{CacheState, cache_code, cache_of, FitTogether};

    ghost Value = { CacheState };

    ghost coded = { cache_code };

    ghost view = { λ a. cache_of a.newest a.past };

    ghost invariant = { λ a. FitTogether a.newest a.past };
}

impl Cache {
    // So many frames, all free.
    pub(crate) fn new(alloc: Global, most: u32) -> Result<Cache, NoMemory>
        ensures { IfOk result (λ s. s ≡ record { newest = map.empty; past = map.empty; count = 0; most = most }) }
    {
        Ok(Cache {
            newest: Frames::new(alloc, most)?,
            past: Frames::new(alloc, most)?,
        })
    }

    // The newest image of page `n`, which is marked as used.
    #[inline]
    pub(crate) fn used(&self, n: u64) -> Option<&Page>
        ensures { option_copied result ≡ map.get self.now.newest n }
    {
        self.newest.used(n)
    }

    #[inline]
    pub(crate) fn get(&self, n: u64) -> Option<&Page>
        ensures { option_copied result ≡ map.get self.now.newest n }
    {
        self.newest.get(n)
    }

    // Puts the newest image of page `n` in, where memory is left. What is there afterwards was there before or is this
    // page.
    pub(crate) fn put(&mut self, n: u64, page: Page) -> Result<(), NoMemory>
        ensures sound { (q : ℕ) (bytes : List ℕ) → map.get self.new.newest q ≡ Some bytes
            → ((q ≡ n) × (bytes ≡ page)) ⊎ (map.get self.old.newest q ≡ Some bytes) }
        ensures past { (q : ℕ) (bytes : List ℕ) → map.get self.new.past q ≡ Some bytes → map.get self.old.past q ≡ Some bytes }
        ensures added { OnOk result (map.get self.new.newest n ≡ Some page) }
        ensures most { self.new.most ≡ self.old.most }
    {
        self.make_room(true);
        self.newest.put(n, page)
    }

    // Puts the replaced image at this place in, as `put` does.
    pub(crate) fn put_past(&mut self, place: u64, page: Page) -> Result<(), NoMemory>
        ensures sound { (q : ℕ) (bytes : List ℕ) → map.get self.new.past q ≡ Some bytes
            → ((q ≡ place) × (bytes ≡ page)) ⊎ (map.get self.old.past q ≡ Some bytes) }
        ensures newest { (q : ℕ) (bytes : List ℕ) → map.get self.new.newest q ≡ Some bytes → map.get self.old.newest q ≡ Some bytes }
        ensures added { OnOk result (map.get self.new.past place ≡ Some page) }
        ensures most { self.new.most ≡ self.old.most }
    {
        self.make_room(false);
        self.past.put(place, page)
    }

    // Whether the image of page `n` that lies at this place, newest or replaced, is in a frame.
    #[inline]
    pub(crate) fn has_image(&self, n: u64, place: u64, is_newest: bool) -> bool {
        if is_newest {
            self.newest.get(n).is_some()
        } else {
            self.past.get(place).is_some()
        }
    }

    // The image of page `n` that lies at this place, newest or replaced, which is marked as used.
    #[inline]
    pub(crate) fn used_image(&self, n: u64, place: u64, is_newest: bool) -> Option<&Page>
        ensures { option_copied result ≡ cond is_newest (map.get self.now.newest n) (map.get self.now.past place) }
    {
        if is_newest {
            self.newest.used(n)
        } else {
            self.past.used(place)
        }
    }

    // Puts the image of page `n` in that lies at this place, newest or replaced, as `put` does.
    pub(crate) fn put_image(
        &mut self,
        n: u64,
        place: u64,
        is_newest: bool,
        page: Page,
    ) -> Result<(), NoMemory>
        ensures newest { (q : ℕ) (bytes : List ℕ) → map.get self.new.newest q ≡ Some bytes
            → ((is_newest ≡ true) × ((q ≡ n) × (bytes ≡ page))) ⊎ (map.get self.old.newest q ≡ Some bytes) }
        ensures past { (q : ℕ) (bytes : List ℕ) → map.get self.new.past q ≡ Some bytes
            → ((is_newest ≡ false) × ((q ≡ place) × (bytes ≡ page))) ⊎ (map.get self.old.past q ≡ Some bytes) }
        ensures most { self.new.most ≡ self.old.most }
    {
        if is_newest {
            self.put(n, page)
        } else {
            self.put_past(place, page)
        }
    }

    // Lets a page go where no frame is free: one of the other kind, where any is there. So each kind gets the more
    // frames the more often it misses one.
    fn make_room(&mut self, is_newest: bool)
        ensures newest { (q : ℕ) (bytes : List ℕ) → map.get self.new.newest q ≡ Some bytes → map.get self.old.newest q ≡ Some bytes }
        ensures past { (q : ℕ) (bytes : List ℕ) → map.get self.new.past q ≡ Some bytes → map.get self.old.past q ≡ Some bytes }
        ensures room { self.new.count < self.new.most }
        ensures most { self.new.most ≡ self.old.most }
    {
        if self.count() < self.newest.most() {
            return;
        }
        if leaves_past(self.newest.count(), self.past.count(), is_newest) {
            self.past.drop_last();
        } else {
            self.newest.drop_last();
        }
    }

    // Keeps a page that was written, where memory is left.
    pub(crate) fn keep(&mut self, n: u64, change: Option<Option<Page>>)
        ensures sound { (q : ℕ) (bytes : List ℕ) → map.get self.new.newest q ≡ Some bytes
            → ((q ≡ n) × (change ≡ Some (Some bytes))) ⊎ (map.get self.old.newest q ≡ Some bytes) }
        ensures past { (q : ℕ) (bytes : List ℕ) → map.get self.new.past q ≡ Some bytes → map.get self.old.past q ≡ Some bytes }
        ensures most { self.new.most ≡ self.old.most }
    {
        if let Some(Some(page)) = change {
            let _ = self.put(n, page);
        }
    }

    // Lets the newest image of page `n` go.
    pub(crate) fn forget(&mut self, n: u64)
        ensures newest { self.new.newest ≡ map.remove self.old.newest n }
        ensures past { self.new.past ≡ self.old.past }
        ensures most { self.new.most ≡ self.old.most }
    {
        self.newest.forget(n);
    }

    // Lets the replaced image at this place go.
    pub(crate) fn forget_past(&mut self, place: u64)
        ensures past { self.new.past ≡ map.remove self.old.past place }
        ensures newest { self.new.newest ≡ self.old.newest }
        ensures most { self.new.most ≡ self.old.most }
    {
        self.past.forget(place);
    }

    // How many pages are there.
    pub(crate) fn count(&self) -> usize
        ensures count { result ≡ self.now.count }
        ensures few { self.now.count ≤ self.now.most }
        ensures small { result < 2 ^ 63 }
    {
        self.newest.count() + self.past.count()
    }
}

// Whether a replaced image leaves, where so many of either kind are there.
fn leaves_past(newest: usize, past: usize, is_newest: bool) -> bool
    ensures past { result ≡ true → 0 < newest + past → 0 < past }
    ensures newest { result ≡ false → 0 < newest + past → 0 < newest }
{
    if is_newest { past > 0 } else { newest == 0 }
}
