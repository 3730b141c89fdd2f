ghost use Rattle.std.specs.Prelude.{◌≡◌, Some, true, false, IsTrue, IfSome, IfOk, IfErr, OnOk};
ghost use Rattle.std.specs.Borrow.{sem};
ghost use Rattle.std.specs.Io.BufRead.{Rests};
ghost use Rattle.std.specs.FinMap as map;
ghost use Rattle.page_pool.specs.Pool.{IsLive, IsPage, seen_at, shown_of};
ghost use Rattle.page_pool.specs.Causes.{IsMemory};
ghost use Rattle.page_pool.specs.Reads.{IsRead, Gets};

use super::reading::damages_by;
use crate::{Disk, PageFault, Pages, Pool};

// The pages of the map that a held stamp has.
impl<D: Disk> Pool<D> {
    ghost use Rattle.page_pool.specs.contracts.pool.Pool.{the_row};

    // Whether no command began since the stamp was taken, so that its map is the live one.
    pub(crate) fn shows_live(&self, slot: u64) -> bool
        requires { IsTrue (map.contains_key self.now.stamps slot) }
        ensures { result ≡ true → map.get self.now.stamps slot ≡ Some (shown_of self.now) }
    {
        !self.archive.is_older(slot)
    }

    // Page `n` of the stamp's map, which is the live one, if it is there: one get.
    #[inline]
    pub(crate) fn find_alike(&mut self, slot: u64, n: u64) -> Result<&[u8; 4096], PageFault>
        requires { map.get self.old.stamps slot ≡ Some (shown_of self.old) }
        ensures live { OnOk result (IsLive (seen_at self.old slot) n) }
        ensures missing { map.contains_key (seen_at self.old slot).pages n ≡ false → IfErr result IsMemory }
        ensures value { IfOk result (λ page. IsPage (seen_at self.old slot) n page.now) }
        ensures* after { sem 𝓛 (Rests (the_row D.row D.Disk) self.entry (λ new.
            IsRead self.old new × Gets (seen_at self.old slot) (seen_at new slot) n result)) }
    {
        self.live_page(n)
    }

    // Page `n` of the older stamp's map, if it is there: one get. The place of its image is found once, and then one look
    // at a frame is enough.
    pub(crate) fn find_older(&mut self, slot: u64, n: u64) -> Result<&[u8; 4096], PageFault>
        requires { IsTrue (map.contains_key self.old.stamps slot) }
        ensures live { OnOk result (IsLive (seen_at self.old slot) n) }
        ensures missing { map.contains_key (seen_at self.old slot).pages n ≡ false → IfErr result IsMemory }
        ensures value { IfOk result (λ page. IsPage (seen_at self.old slot) n page.now) }
        ensures* after { sem 𝓛 (Rests (the_row D.row D.Disk) self.entry (λ new.
            IsRead self.old new × Gets (seen_at self.old slot) (seen_at new slot) n result)) }
    {
        self.gets = self.gets.saturating_add(1);
        let Some(place) = self.archive.older_place(slot, n) else {
            return Err(PageFault::Memory);
        };
        let is_newest = self.archive.lies_at(n, place);
        if !self.frames.has_image(n, place, is_newest) {
            let read = self.archive.read_seen(slot, n);
            self.damages = damages_by(self.damages, &read);
            self.frames.put_image(n, place, is_newest, read?)?;
        }
        match self.frames.used_image(n, place, is_newest) {
            Some(page) => Ok(page.bytes()),
            None => Err(PageFault::Memory),
        }
    }

    // Whether `n` is in the stamp's map.
    pub(crate) fn is_live_at(&self, slot: u64, n: u64) -> bool
        requires { IsTrue (map.contains_key self.now.stamps slot) }
        ensures { result ≡ map.contains_key (seen_at self.now slot).pages n }
    {
        if self.archive.is_older(slot) {
            return self.archive.seen_place(slot, n).is_some();
        }
        self.is_live(n)
    }
}
