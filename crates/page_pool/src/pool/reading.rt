ghost use Rattle.std.specs.Prelude.{◌≡◌, IfSome, IfOk, IfErr, OnOk, false};
ghost use Rattle.std.specs.Borrow.{sem};
ghost use Rattle.std.specs.Io.BufRead.{Rests};
ghost use Rattle.std.specs.FinMap as map;
ghost use Rattle.page_pool.specs.Inside.{IsUnstaged, ReadsIn, Compares};
ghost use Rattle.page_pool.specs.Pool.{IsLive, IsPage};
ghost use Rattle.page_pool.specs.Causes.{IsMemory, damages_after};
ghost use Rattle.page_pool.specs.Reads.{Gets};

use crate::page::Page;
use crate::{Disk, PageFault, Pages, Pool};

impl<D: Disk> Pool<D> {
    ghost use Rattle.page_pool.specs.contracts.pool.Pool.{the_row};

    /// Page `n`: one get. Nothing changes but the frames and the counts, whatever the answer.
    pub fn get(&mut self, n: u64) -> Result<&[u8; 4096], PageFault>
        requires { IsLive self.old n }
        ensures value { IfOk result (λ page. IsPage self.old n page.now) }
        ensures* after { sem 𝓛 (Rests (the_row D.row D.Disk) self.entry (λ new.
            Gets self.old new n result)) }
    {
        self.find(n)
    }

    // Page `n`, if it is live: one get. A page that is held is found by one look or two, and no fault is built for it.
    #[inline]
    fn find(&mut self, n: u64) -> Result<&[u8; 4096], PageFault>
        ensures live { OnOk result (IsLive self.old n) }
        ensures missing { map.contains_key self.old.pages n ≡ false → IfErr result IsMemory }
        ensures value { IfOk result (λ page. IsPage self.old n page.now) }
        ensures* after { sem 𝓛 (Rests (the_row D.row D.Disk) self.entry (λ new.
            Gets self.old new n result)) }
    {
        self.gets = self.gets.saturating_add(1);
        if self.staged.get(n).is_some() {
            match self.staged_page(n) {
                Some(page) => return Ok(page),
                None => return Err(PageFault::Memory),
            }
        }
        if self.frames.get(n).is_some() {
            match self.used_page(n) {
                Some(page) => return Ok(page),
                None => return Err(PageFault::Memory),
            }
        }
        return self.read_in(n);
    }

    // Page `n`, which is neither staged nor in a frame, if it is live. Its get was counted.
    #[cold]
    #[inline(never)]
    fn read_in(&mut self, n: u64) -> Result<&[u8; 4096], PageFault>
        requires { IsUnstaged self.old n }
        ensures live { OnOk result (IsLive self.old n) }
        ensures missing { map.contains_key self.old.pages n ≡ false → IfErr result IsMemory }
        ensures value { IfOk result (λ page. IsPage self.old n page.now) }
        ensures* after { sem 𝓛 (Rests (the_row D.row D.Disk) self.entry (λ new.
            ReadsIn self.old new n result)) }
    {
        match self.load(n) {
            Ok(()) => match self.framed_page(n) {
                Some(page) => Ok(page),
                None => Err(PageFault::Memory),
            },
            Err(why) => Err(why),
        }
    }

    // Page `n`, which isn't staged, read from the disk into a frame. Its get was counted, and its damage is.
    fn load(&mut self, n: u64) -> Result<(), PageFault>
        requires { IsUnstaged self.old n }
        ensures missing { map.contains_key self.old.pages n ≡ false → IfErr result IsMemory }
        ensures read_in { ReadsIn self.old self.new n result }
    {
        let read = self.read_compared(n);
        self.damages = damages_by(self.damages, &read);
        read
    }

    // Page `n`, which isn't staged, read from the disk into a frame, if it has the kept digest.
    fn read_compared(&mut self, n: u64) -> Result<(), PageFault>
        requires { IsUnstaged self.old n }
        ensures missing { map.contains_key self.old.pages n ≡ false → IfErr result IsMemory }
        ensures read { Compares self.old self.new n result }
    {
        let page = self.archive.read(n)?;
        self.frames.put(n, page)?;
        Ok(())
    }

    // The page, where it is staged.
    #[inline]
    fn staged_page(&self, n: u64) -> Option<&[u8; 4096]>
        ensures live { IfSome result (λ _. IsLive self.now n) }
        ensures value { IfSome result (λ page. IsPage self.now n page.now) }
    {
        match self.staged.get(n) {
            Some(Some(page)) => Some(page.bytes()),
            _ => None,
        }
    }

    // The page, where it is in a frame, which is marked as used.
    #[inline]
    fn used_page(&self, n: u64) -> Option<&[u8; 4096]>
        requires { IsUnstaged self.now n }
        ensures live { IfSome result (λ _. IsLive self.now n) }
        ensures value { IfSome result (λ page. IsPage self.now n page.now) }
    {
        match self.frames.used(n) {
            Some(page) => Some(page.bytes()),
            None => None,
        }
    }

    // The page, where it is in a frame.
    fn framed_page(&self, n: u64) -> Option<&[u8; 4096]>
        requires { IsUnstaged self.now n }
        ensures live { IfSome result (λ _. IsLive self.now n) }
        ensures value { IfSome result (λ page. IsPage self.now n page.now) }
    {
        match self.frames.get(n) {
            Some(page) => Some(page.bytes()),
            None => None,
        }
    }
}

impl<D: Disk> Pages for Pool<D> {
    ghost shown = { λ s. s };

    #[inline]
    fn page(&mut self, n: u64) -> Result<&[u8; 4096], PageFault> {
        self.find(n)
    }

    #[inline]
    fn live_page(&mut self, n: u64) -> Result<&[u8; 4096], PageFault> {
        self.find(n)
    }

    fn is_live(&self, n: u64) -> bool {
        match self.staged.get(n) {
            Some(change) => change.is_some(),
            None => self.archive.place(n).is_some(),
        }
    }

    fn gets(&self) -> u64 {
        self.gets
    }
}

// The number of damaged pages after this reading: one more where it found one.
pub(super) fn damages_by<T>(damages: u64, read: &Result<T, PageFault>) -> u64
    ensures { result ≡ damages_after damages read.now }
{
    match read {
        Err(PageFault::Damaged { .. }) => damages.saturating_add(1),
        _ => damages,
    }
}
