// So many inserts, look-ups or steps of a run of a map in pages, or of the same in memory.
ghost use Rattle.std.specs.Prelude.{◌≡◌};
ghost use Rattle.page_pool.specs.Pool.{IsClosed, IsTold};
ghost use Rattle.code_btree.specs.Tree.{IsTree, pages_in};

use crate::filled_pool::started;
use crate::speed::{
    Twin, filled, filled_twin, looked_up, looked_up_twin, run_through, run_through_twin,
};
use code_btree::Tree;
use page_pool::{PageFault, Pool, SureDisk};
use std::alloc::Global;
use std::io;

/// What is counted: pairs that were put, keys that were found again, or pairs that a run gave.
#[derive(Clone, Copy)]
enum Part {
    Insert,
    Look,
    Run,
}

// Makes one kind of calls of a map.
fn called(pool: &mut Pool<SureDisk>, part: Part, tree: Tree, lots: u32) -> Result<u64, PageFault>
    requires { IsTold pool.old → IsTree (pages_in pool.old) tree }
{
    match part {
        Part::Insert => Ok(tree.entries),
        Part::Look => looked_up(pool, tree, lots),
        Part::Run => Ok(run_through(pool, tree)),
    }
}

// The same after the inserts.
fn filled_and_called(pool: &mut Pool<SureDisk>, part: Part, lots: u32) -> Result<u64, PageFault>
    requires { IsClosed pool.old }
{
    let tree = filled(pool, lots)?;
    called(pool, part, tree, lots)
}

// The same in a pool of its own.
fn in_pages(alloc: Global, part: Part, lots: u32) -> Result<u64, PageFault> {
    let mut pool = started(alloc, SureDisk::new(alloc), 4_096)?;
    filled_and_called(&mut pool, part, lots)
}

// Makes one kind of calls of a map in memory.
fn called_in_memory(twin: &Twin, part: Part, lots: u32) -> u64 {
    match part {
        Part::Insert => twin.len() as u64,
        Part::Look => looked_up_twin(twin, lots),
        Part::Run => run_through_twin(twin),
    }
}

// The same in memory.
fn in_memory(alloc: Global, part: Part, lots: u32) -> Option<u64> {
    let twin = filled_twin(alloc, lots)?;
    Some(called_in_memory(&twin, part, lots))
}

// The part that a word names.
fn part_named(word: &str) -> Option<Part> {
    match word {
        "insert" => Some(Part::Insert),
        "look" => Some(Part::Look),
        "run" => Some(Part::Run),
        _ => None,
    }
}

// The count of the calls that three words ask for: where, which and how many lots.
fn asked(alloc: Global, place: &str, kind: &str, count: &str) -> Option<u64> {
    let part = part_named(kind)?;
    let lots = count.parse().ok()?;
    match place {
        "pages" => in_pages(alloc, part, lots).ok(),
        "memory" => in_memory(alloc, part, lots),
        _ => None,
    }
}

/// Prints how many calls were made: where (`pages`, `memory`), of which kind (`insert`, `look`, `run`), over so many lots of 50,000 keys.
pub fn measure(
    rt: &(impl Print + AllocGlobal),
    place: &str,
    kind: &str,
    count: &str,
) -> io::Result<()> {
    match asked(rt.alloc(), place, kind, count) {
        Some(count) => rt.println(format_args!("{count} calls")),
        None => rt.println("no such part, or memory was short"),
    }
}
