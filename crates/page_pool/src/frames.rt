ghost use Rattle.std.specs.Prelude.{◌≡◌, ◌<◌, ◌≤◌, ◌+◌, ◌^◌, ◌⊎◌, ℕ, List, Some, OnOk, IfOk, IfSome, IfNone, IsTrue};
ghost use Rattle.std.specs.FinMap as map;
ghost use Rattle.std.specs.Option.{option_copied};
ghost use Rattle.page_pool.specs.Inside.{queued};

use crate::frame::Frame;
use crate::page::Page;
use crate::table::Table;
use lru::LruCache;
use sand_base::NoMemory;
use std::alloc::Global;
use std::marker::Model;
use std::num::NonZeroUsize;

/// Clean pages in a table by place, with their places in a queue. Where a new page needs a frame, the one leaves
/// that was queued longest ago; one that was used since is queued again instead (a second chance).
#[derive(Drop)]
pub(crate) struct Frames {
    table: Table<Frame>,
    queue: LruCache<u64, ()>,
}

impl Model for Frames {
    ghost use Rattle.std.specs.FinMap as map;
    ghost use Rattle.page_pool.specs.Inside.{FramesState, frames_code, IsQueueOf};

    ghost Value = { FramesState };

    ghost coded = { frames_code };

    ghost view = { λ a. record {
      pages = a.table;
      count = map.len a.table;
      most = a.queue.cap;
    } };

    ghost invariant = { λ a. IsQueueOf a.table a.queue };
}

impl Frames {
    // So many frames, all free.
    pub(crate) fn new(alloc: Global, most: u32) -> Result<Frames, NoMemory>
        ensures { IfOk result (λ s. s ≡ record { pages = map.empty; count = 0; most = most }) }
    {
        let Some(most) = NonZeroUsize::new(most as usize) else {
            return Err(NoMemory {});
        };
        Ok(Frames {
            table: Table::new(alloc),
            queue: LruCache::new(alloc, most)?,
        })
    }

    // The page, which is marked as used.
    #[inline]
    pub(crate) fn used(&self, place: u64) -> Option<&Page>
        ensures { option_copied result ≡ map.get self.now.pages place }
    {
        match self.table.get(place) {
            Some(frame) => {
                frame.mark();
                Some(frame.page())
            }
            None => None,
        }
    }

    #[inline]
    pub(crate) fn get(&self, place: u64) -> Option<&Page>
        ensures { option_copied result ≡ map.get self.now.pages place }
    {
        match self.table.get(place) {
            Some(frame) => Some(frame.page()),
            None => None,
        }
    }

    // Puts the page in, where memory is left. What is there afterwards was there before or is this page.
    pub(crate) fn put(&mut self, place: u64, page: Page) -> Result<(), NoMemory>
        ensures sound { (q : ℕ) (bytes : List ℕ) → map.get self.new.pages q ≡ Some bytes
            → ((q ≡ place) × (bytes ≡ page)) ⊎ (map.get self.old.pages q ≡ Some bytes) }
        ensures added { OnOk result (map.get self.new.pages place ≡ Some page) }
        ensures count { self.new.count ≤ self.old.count + 1 }
        ensures most { self.new.most ≡ self.old.most }
    {
        self.make_room();
        self.table.insert(place, Frame::new(page))?;
        let _count = self.queue.len(); // (its contract says that the places differ)
        match self.queue.put(place, ()) {
            Ok(_) => Ok(()),
            Err(_) => {
                self.table.take(place);
                Err(NoMemory {})
            }
        }
    }

    // Lets a page go where no frame is free.
    fn make_room(&mut self)
        ensures sound { (q : ℕ) (bytes : List ℕ) → map.get self.new.pages q ≡ Some bytes → map.get self.old.pages q ≡ Some bytes }
        ensures room { self.new.count < self.new.most }
        ensures count { self.new.count ≤ self.old.count }
        ensures most { self.new.most ≡ self.old.most }
    {
        if self.queue.len() < self.queue.cap().get() {
            return;
        }
        self.drop_last();
    }

    // Lets the page go that was queued longest ago, where one is there.
    pub(crate) fn drop_last(&mut self)
        ensures sound { (q : ℕ) (bytes : List ℕ) → map.get self.new.pages q ≡ Some bytes → map.get self.old.pages q ≡ Some bytes }
        ensures fewer { 0 < self.old.count → self.new.count < self.old.count }
        ensures count { self.new.count ≤ self.old.count }
        ensures most { self.new.most ≡ self.old.most }
    {
        queue_used(&self.table, &mut self.queue);
        if let Some(place) = self.last() {
            self.forget(place);
        }
    }

    // The place that was queued longest ago.
    fn last(&self) -> Option<u64>
        ensures found { IfSome result (λ place. IsTrue (map.contains_key self.now.pages place)) }
        ensures none { IfNone result (self.now.count ≡ 0) }
    {
        let _count = self.queue.len(); // (its contract says that the places differ)
        match self.queue.peek_lru() {
            Some(last) => Some(*last.0),
            None => None,
        }
    }

    // Lets the page go.
    pub(crate) fn forget(&mut self, place: u64)
        ensures pages { self.new.pages ≡ map.remove self.old.pages place }
        ensures fewer { IsTrue (map.contains_key self.old.pages place) → self.new.count < self.old.count }
        ensures count { self.new.count ≤ self.old.count }
        ensures most { self.new.most ≡ self.old.most }
    {
        let _count = self.queue.len(); // (its contract says that the places differ)
        self.queue.pop(&place);
        self.table.take(place);
    }

    // How many pages may be there.
    pub(crate) fn most(&self) -> usize
        ensures most { result ≡ self.now.most }
        ensures positive { 0 < result }
    {
        self.queue.cap().get()
    }

    // How many pages are there.
    pub(crate) fn count(&self) -> usize
        ensures count { result ≡ self.now.count }
        ensures few { self.now.count ≤ self.now.most }
        ensures small { result < 2 ^ 63 }
    {
        self.queue.len()
    }
}

// Queues again what was used, until the page that leaves next was not. In one round each mark is taken off.
fn queue_used(table: &Table<Frame>, queue: &mut LruCache<u64, ()>)
    ensures same { queued queue.new ≡ queued queue.old }
    ensures cap { queue.new.cap ≡ queue.old.cap }
{
    'round: for _ in 0..queue.len() {
        let Some(place) = last_used(table, queue) else {
            return;
        };
        let _count = queue.len(); // (its contract says that the places differ)
        queue.promote(&place);
    }
}

// The place that leaves next, where its page has the mark, which is taken off.
fn last_used(table: &Table<Frame>, queue: &LruCache<u64, ()>) -> Option<u64> {
    let place = *queue.peek_lru()?.0;
    let frame = table.get(place)?;
    if frame.unmark() { Some(place) } else { None }
}
