ghost use Rattle.std.specs.Prelude.{◌≡◌, ◌≤◌, ℕ, Some, None, true, IsTrue, ◌⊎◌, OnOk, OnErr, IfSome, IfNone};
ghost use Rattle.std.specs.FinSet as set;
ghost use Rattle.page_pool.specs.Pool.{IsClosed, IsDirty};
ghost use Rattle.page_pool.specs.Commands.{WritesAll, WritesOne, IsWritten};

use crate::{Disk, PageFault, Pool};

impl<D: Disk> Pool<D> {
    /// Writes all dirty pages in ascending order and opens a command. After a refusal the pages stay, and those
    /// that were not written are kept.
    pub fn begin(&mut self) -> Result<(), PageFault>
        requires { IsClosed self.old }
        ensures writes { WritesAll self.old self.new result }
        ensures opened { OnOk result (self.new.beginning ≡ Some self.new.pages) }
        ensures closed { OnErr result (self.new.beginning ≡ None) }
    {
        self.flush()?;
        self.archive.advance()?;
        self.numbers.settle();
        self.is_open = true;
        Ok(())
    }

    /// Writes all dirty pages in ascending order. After a refusal the pages stay, and those that were not
    /// written are kept.
    pub fn flush(&mut self) -> Result<(), PageFault>
        requires { IsClosed self.old }
        ensures writes { WritesAll self.old self.new result }
        ensures closed { self.new.beginning ≡ None }
    {
        'waiting: while let Some(n) = self.first_waiting() {
            self.write_one(n)?;
        }
        Ok(())
    }

    // The least number that waits for the next writing.
    fn first_waiting(&self) -> Option<u64>
        ensures found { IfSome result (λ n. IsDirty self.now n ⊎ IsTrue (set.contains self.now.freed n)) }
        ensures least { IfSome result (λ n. (q : ℕ) → IsDirty self.now q → n ≤ q) }
        ensures none { IfNone result (IsWritten self.now) }
    {
        self.staged.first()
    }

    // Writes a page that waits, or lets a freed number go.
    fn write_one(&mut self, n: u64) -> Result<(), PageFault>
        requires closed { IsClosed self.old }
        requires waiting { IsDirty self.old n ⊎ IsTrue (set.contains self.old.freed n) }
        ensures { WritesOne self.old self.new n result }
    {
        match self.staged.get(n) {
            Some(Some(_)) => self.write_page(n),
            Some(None) => self.let_go(n),
            None => Ok(()),
        }
    }

    // Writes page `n`, which moves into a frame. A failed writing may spoil its image, so a frame with its old bytes
    // is let go before; so is one with what lay at the place where it is written.
    fn write_page(&mut self, n: u64) -> Result<(), PageFault>
        requires closed { IsClosed self.old }
        requires dirty { IsDirty self.old n }
        ensures { WritesOne self.old self.new n result }
    {
        let Some(Some(page)) = self.staged.get(n) else {
            return Err(PageFault::Memory);
        };
        self.frames.forget(n);
        let place = self.archive.write(n, page)?;
        self.frames.forget_past(place);
        let change = self.staged.take(n);
        self.frames.keep(n, change);
        Ok(())
    }

    // The number `n` of a page that was freed is given again from now on.
    fn let_go(&mut self, n: u64) -> Result<(), PageFault>
        requires closed { IsClosed self.old }
        requires freed { IsTrue (set.contains self.old.freed n) }
        ensures { WritesOne self.old self.new n result }
    {
        self.frames.forget(n);
        self.archive.leave(n)?;
        self.numbers.add(n)?;
        self.staged.take(n);
        Ok(())
    }
}
