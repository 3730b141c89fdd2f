ghost use Rattle.std.specs.Prelude.{◌≡◌, OnOk, OnErr, IfOk, IfErr};
ghost use Rattle.page_pool.specs.Pool.{IsLive, IsOpen};
ghost use Rattle.page_pool.specs.Causes.{IsMemory};
ghost use Rattle.page_pool.specs.Commands.{Puts, Allocates, Frees, Commits, Aborts};

use crate::page::Page;
use crate::{Disk, PageFault, Pool};

impl<D: Disk> Pool<D> {
    /// Page `n` has these bytes from now on. After a refusal all is as it was.
    pub fn put(&mut self, n: u64, bytes: &[u8; 4096]) -> Result<(), PageFault>
        requires open { IsOpen self.old }
        requires live { IsLive self.old n }
        ensures put { OnOk result (Puts self.old self.new n bytes.now) }
        ensures unchanged { OnErr result (self.new ≡ self.old) }
        ensures memory { IfErr result IsMemory }
    {
        self.staged.put(self.alloc, n, bytes)?;
        Ok(())
    }

    /// A new page of zeros, under the number of a freed page where one waits. After a refusal all is as it was.
    pub fn allocate(&mut self) -> Result<u64, PageFault>
        requires { IsOpen self.old }
        ensures allocated { IfOk result (Allocates self.old self.new) }
        ensures unchanged { OnErr result (self.new ≡ self.old) }
        ensures memory { IfErr result IsMemory }
    {
        let Some(n) = self.numbers.next() else {
            return Err(PageFault::Memory);
        };
        let page = Page::new(self.alloc, &[0; 4096])?;
        self.staged.insert(n, Some(page))?;
        self.numbers.take();
        Ok(n)
    }

    /// Page `n` is live no more. Its number is given again after the next writing. After a refusal all is as it
    /// was.
    pub fn free(&mut self, n: u64) -> Result<(), PageFault>
        requires open { IsOpen self.old }
        requires live { IsLive self.old n }
        ensures freed { OnOk result (Frees self.old self.new n) }
        ensures unchanged { OnErr result (self.new ≡ self.old) }
        ensures memory { IfErr result IsMemory }
    {
        self.staged.insert(n, None)?;
        Ok(())
    }

    /// Ends the command and keeps its pages.
    pub fn commit(&mut self)
        requires { IsOpen self.old }
        ensures { Commits self.old self.new }
    {
        self.numbers.settle();
        self.is_open = false;
    }

    /// Ends the command; the pages are those of its beginning.
    pub fn abort(&mut self)
        requires { IsOpen self.old }
        ensures { Aborts self.old self.new }
    {
        self.staged.clear();
        self.numbers.restore();
        self.is_open = false;
    }
}
