ghost use Rattle.std.specs.Prelude.{◌≡◌, ◌≤◌, length, IfOk, IfSome};
ghost use Rattle.page_pool.specs.Pool.{IsOpen, IsTold};
ghost use Rattle.page_pool.specs.Causes.{HasPageCause};
ghost use Rattle.page_pool.specs.Steps.{InCommand};
ghost use Rattle.code_btree.specs.Tree.{pages_in};
ghost use Rattle.tuple_file.specs.Page.{IsTuples};
ghost use Rattle.tuple_file.specs.File.{bytes_of};
ghost use Rattle.tuple_file.specs.Steps.{Begun, Settled, Emptied};

use crate::page::{add_tuple, blank, clear, has_room, is_bare};
use crate::store::{gain, read, release, write};
use page_pool::{Disk, PageFault, Pool};

/// Where a tuple was put: the page, its slot there, and where its bytes begin.
#[derive(Clone, Copy)]
pub struct Spot {
    pub page: u64,
    pub slot: u16,
    pub start: u16,
}

// Puts a tuple into a new page; its spot there.
fn begin_page<D: Disk>(pool: &mut Pool<D>, bytes: &[u8]) -> Result<Spot, PageFault>
    requires opened { IsOpen pool.old }
    requires short { length bytes.now ≤ 3900 }
    ensures value { IfOk result (λ spot. Begun (pages_in pool.old) (pages_in pool.new) spot.page spot.slot spot.start bytes.now) }
    ensures within { InCommand pool.old pool.new }
    ensures cause { HasPageCause pool.old pool.new result }
{
    let mut page = blank();
    let (slot, start) = add_tuple(&mut page, bytes);
    let n = gain(pool, &page)?;
    Ok(Spot {
        page: n,
        slot,
        start,
    })
}

/// Puts a tuple into the newest page, where it fits, and else into a new one; its spot.
pub fn settle<D: Disk>(
    pool: &mut Pool<D>,
    newest: Option<u64>,
    bytes: &[u8],
) -> Result<Spot, PageFault>
    requires opened { IsOpen pool.old }
    requires short { length bytes.now ≤ 3900 }
    requires sound { IfSome newest (λ n. IsTold pool.old → IsTuples (bytes_of (pages_in pool.old n))) }
    ensures value { IfOk result (λ spot. IsTold pool.old → Settled (pages_in pool.old) (pages_in pool.new) newest spot.page spot.slot spot.start bytes.now) }
    ensures within { InCommand pool.old pool.new }
    ensures cause { HasPageCause pool.old pool.new result }
{
    let Some(n) = newest else {
        let spot = begin_page(pool, bytes)?;
        return Ok(spot);
    };
    let mut page = [0; 4096];
    read(pool, n, &mut page)?;
    if !has_room(&page, bytes.len()) {
        let spot = begin_page(pool, bytes)?;
        return Ok(spot);
    }
    let (slot, start) = add_tuple(&mut page, bytes);
    write(pool, n, &page)?;
    Ok(Spot {
        page: n,
        slot,
        start,
    })
}

/// Takes the tuple of a slot of page `n`, and frees the page where it was the last one; whether it did.
pub fn empty<D: Disk>(pool: &mut Pool<D>, n: u64, slot: u16) -> Result<bool, PageFault>
    requires opened { IsOpen pool.old }
    requires sound { IsTold pool.old → IsTuples (bytes_of (pages_in pool.old n)) }
    ensures value { IfOk result (λ freed. IsTold pool.old → Emptied (pages_in pool.old) (pages_in pool.new) n slot freed) }
    ensures within { InCommand pool.old pool.new }
    ensures cause { HasPageCause pool.old pool.new result }
{
    let mut page = [0; 4096];
    read(pool, n, &mut page)?;
    clear(&mut page, slot);
    if is_bare(&page) {
        release(pool, n)?;
        return Ok(true);
    }
    write(pool, n, &page)?;
    Ok(false)
}
