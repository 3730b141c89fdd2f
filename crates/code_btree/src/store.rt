ghost use Rattle.std.specs.Prelude.{◌≡◌, Some, IfOk, OnOk};
ghost use Rattle.page_pool.specs.Pool.{IsOpen, IsTold};
ghost use Rattle.page_pool.specs.Causes.{HasPageCause};
ghost use Rattle.page_pool.specs.Steps.{InCommand};
ghost use Rattle.code_btree.specs.Tree.{pages_in};
ghost use Rattle.code_btree.specs.Steps.{Wrote, Gained, Freed};

use crate::bytes::Page;
use page_pool::{Disk, PageFault, Pages, Pool};

// Copies page `n` into a buffer. A number that isn't live is refused as out of memory: no tree over a disk that
// tells leads there.
pub fn read<D: Disk>(pool: &mut Pool<D>, n: u64, into: &mut Page) -> Result<(), PageFault>
    ensures value { OnOk result (IsTold pool.old → pages_in pool.old n ≡ Some into.new) }
    ensures same { pool.new.pages ≡ pool.old.pages }
    ensures within { InCommand pool.old pool.new }
    ensures cause { HasPageCause pool.old pool.new result }
{
    let page = pool.live_page(n)?;
    *into = *page;
    Ok(())
}

// Page `n` has these bytes.
pub fn write<D: Disk>(pool: &mut Pool<D>, n: u64, page: &Page) -> Result<(), PageFault>
    requires { IsOpen pool.old }
    ensures value { OnOk result (Wrote (pages_in pool.old) (pages_in pool.new) n page.now) }
    ensures within { InCommand pool.old pool.new }
    ensures cause { HasPageCause pool.old pool.new result }
{
    if !pool.is_live(n) {
        return Err(PageFault::Memory);
    }
    pool.put(n, page)?;
    Ok(())
}

// A new page of these bytes.
pub fn gain<D: Disk>(pool: &mut Pool<D>, page: &Page) -> Result<u64, PageFault>
    requires { IsOpen pool.old }
    ensures value { IfOk result (λ n. Gained (pages_in pool.old) (pages_in pool.new) n page.now) }
    ensures within { InCommand pool.old pool.new }
    ensures cause { HasPageCause pool.old pool.new result }
{
    let n = pool.allocate()?;
    write(pool, n, page)?;
    Ok(n)
}

// Page `n` is no more.
pub fn release<D: Disk>(pool: &mut Pool<D>, n: u64) -> Result<(), PageFault>
    requires { IsOpen pool.old }
    ensures value { OnOk result (Freed (pages_in pool.old) (pages_in pool.new) n) }
    ensures within { InCommand pool.old pool.new }
    ensures cause { HasPageCause pool.old pool.new result }
{
    if !pool.is_live(n) {
        return Err(PageFault::Memory);
    }
    pool.free(n)?;
    Ok(())
}
