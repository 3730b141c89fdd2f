// Searches over a tree in a table, whose rows are those of a sorted list whatever is refused on the way.
ghost use Rattle.std.specs.Prelude.{◌≡◌, [], false};

mod refusing_queue;
mod table;

use crate::untold::{ZeroDisk, untold_desk};
use best_first::{BestFirst, Hit, Item};
use page_pool::{Desk, PageFault};
use rank_queue::{PairQueue, PlainQueue, Queue};
use refusing_queue::RefusingQueue;
use sand_base::NoMemory;
use std::alloc::Global;
use std::process::Abort;
use std::test::Fail;
use table::{ROWS, Table};

// The rows of a search with their gaps, and how many of its calls were refused.
#[derive(Drop)]
struct Answer {
    rows: Vec<(u128, u32)>,
    refused: u64,
}

// Notes what a call of the search gave, and tells whether it was the end.
fn is_end(
    rt: &impl Abort,
    answer: &mut Answer,
    given: Result<Option<Hit>, PageFault>,
) -> Result<bool, Fail> {
    match given {
        Ok(Some(hit)) => answer.rows.push((hit.gap.num(), hit.left))?,
        Ok(None) => return Ok(true),
        Err(fault) => {
            assert_eq!(rt; fault, PageFault::Memory);
            answer.refused = answer.refused.saturating_add(1);
        }
    }
    Ok(false)
}

// Asks for the next row until none is left, again where it is refused.
fn answer_of<Q: Queue<Item<u32>> + Drop>(
    rt: &impl Abort,
    alloc: Global,
    table: Table,
    queue: Q,
    desk: &mut Desk<ZeroDisk>,
) -> Result<Answer, Fail>
    requires queue { Q.held queue ≡ [] }
    requires desk { desk.old.pool.disk.told ≡ false }
    ensures { desk.new.pool.disk.told ≡ false }
{
    let mut search = BestFirst::start(alloc, table, queue)?;
    let mut answer = Answer {
        rows: Vec::new(alloc),
        refused: 0,
    };
    'rows: for _ in 0..100u8 {
        let given = search.next(desk);
        if is_end(rt, &mut answer, given)? {
            return Ok(answer);
        }
    }
    panic!(rt; "the search does not end")
}

// The search gave these rows, and so many of its calls were refused.
fn gave(
    rt: &impl Abort,
    answer: &Answer,
    rows: &[(u128, u32)],
    refused: u64,
    name: &str,
    number: u64,
) {
    assert_eq!(rt; answer.rows.as_slice(), rows, "{name} {number}");
    assert_eq!(rt; answer.refused, refused, "{name} {number}");
}

// A search through the plain queue gives all rows.
fn plain_gives(
    rt: &impl Abort,
    alloc: Global,
    table: Table,
    desk: &mut Desk<ZeroDisk>,
    number: u64,
) -> Result<(), Fail>
    requires { desk.old.pool.disk.told ≡ false }
    ensures { desk.new.pool.disk.told ≡ false }
{
    let queue: PlainQueue<Item<u32>> = PlainQueue::empty(alloc);
    let answer = answer_of(rt, alloc, table, queue, desk)?;
    gave(rt, &answer, &ROWS, 0, "plain", number);
    Ok(())
}

// And through the pairing heap these.
fn pair_gives(
    rt: &impl Abort,
    alloc: Global,
    table: Table,
    desk: &mut Desk<ZeroDisk>,
    rows: &[(u128, u32)],
    number: u64,
) -> Result<(), Fail>
    requires { desk.old.pool.disk.told ≡ false }
    ensures { desk.new.pool.disk.told ≡ false }
{
    let queue: PairQueue<Item<u32>> = PairQueue::empty(alloc);
    let answer = answer_of(rt, alloc, table, queue, desk)?;
    gave(rt, &answer, rows, 0, "paired", number);
    Ok(())
}

// The rows come sorted where these nodes list their items the other way round, all of them and the near ones.
fn come_sorted(
    rt: &impl Abort,
    alloc: Global,
    desk: &mut Desk<ZeroDisk>,
    turned: u16,
) -> Result<(), Fail>
    requires { desk.old.pool.disk.told ≡ false }
    ensures { desk.new.pool.disk.told ≡ false }
{
    let number = u64::from(turned);
    let all = Table::new(turned, false);
    plain_gives(rt, alloc, all, desk, number)?;
    let all = Table::new(turned, false);
    pair_gives(rt, alloc, all, desk, &ROWS, number)?;
    let near = Table::new(turned, true);
    pair_gives(rt, alloc, near, desk, &ROWS[..6], number)
}

// And so in each of the 256 orders.
fn come_sorted_in_each_order(
    rt: &impl Abort,
    alloc: Global,
    desk: &mut Desk<ZeroDisk>,
) -> Result<(), Fail>
    requires { desk.old.pool.disk.told ≡ false }
    ensures { desk.new.pool.disk.told ≡ false }
{
    'orders: for turned in 0..256u16 {
        come_sorted(rt, alloc, desk, turned)?;
    }
    Ok(())
}

#[test]
fn rows_come_sorted_in_whatever_order_the_nodes_list_them(rt: HostRuntime) -> Result<(), Fail> {
    let alloc = rt.alloc();
    let mut desk = untold_desk(alloc)?;
    come_sorted_in_each_order(&rt, alloc, &mut desk)
}

// No search begins where its first reservation is refused.
fn is_refused_at_the_start(alloc: Global) -> Result<bool, NoMemory> {
    let queue = RefusingQueue::new(alloc, 1)?;
    Ok(BestFirst::start(alloc, Table::new(0, false), queue).is_err())
}

// No row is lost or repeated where this reservation is refused. (Each of the eight nodes reserves places once.)
fn survives_a_reservation(
    rt: &impl Abort,
    alloc: Global,
    desk: &mut Desk<ZeroDisk>,
    call: u64,
) -> Result<(), Fail>
    requires { desk.old.pool.disk.told ≡ false }
    ensures { desk.new.pool.disk.told ≡ false }
{
    let queue = RefusingQueue::new(alloc, call)?;
    let answer = answer_of(rt, alloc, Table::new(0, false), queue, desk)?;
    let refused = u64::from(call < 10);
    gave(rt, &answer, &ROWS, refused, "reservation", call);
    Ok(())
}

// And so where any reservation after the first is.
fn survives_each_reservation(
    rt: &impl Abort,
    alloc: Global,
    desk: &mut Desk<ZeroDisk>,
) -> Result<(), Fail>
    requires { desk.old.pool.disk.told ≡ false }
    ensures { desk.new.pool.disk.told ≡ false }
{
    'calls: for call in 2..=10u64 {
        survives_a_reservation(rt, alloc, desk, call)?;
    }
    Ok(())
}

#[test]
fn a_refused_reservation_loses_no_row_and_repeats_none(rt: HostRuntime) -> Result<(), Fail> {
    let alloc = rt.alloc();
    assert!(rt; is_refused_at_the_start(alloc)?);
    let mut desk = untold_desk(alloc)?;
    survives_each_reservation(&rt, alloc, &mut desk)
}
