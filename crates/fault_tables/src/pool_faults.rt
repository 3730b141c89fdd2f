// Runs of a pool with three stamps, in each of which one call of the disk fails.
ghost use Rattle.std.specs.Prelude.{◌≡◌, IfOk, OnOk};
ghost use Rattle.page_pool.specs.Pool.{IsClosed};
ghost use Rattle.fault_tables.specs.Holding.{HoldsStamp, HoldsStill, TakesStamp};

use crate::pool_filled::Filled;
use crate::pool_kept::{Kept, keep};
use crate::pool_maps::{Seen, read_kept, read_live};
use crate::pool_trial::{Trial, add_pages, begun, carry_out, settle};
use crate::pool_trouble::Trouble;
use page_pool::{MemDisk, Pool};
use std::alloc::Global;

/// How many live pages there are at most.
const MOST_PAGES: usize = 28;

/// How many runs are made at most.
const MOST_RUNS: u64 = 10_000;

/// How many runs were made, how many calls were refused, and how many runs ended otherwise than the one without a fault.
#[derive(Clone, Copy)]
pub struct Counts {
    pub runs: u64,
    pub refused: u64,
    pub otherwise: u64,
}

/// Three held stamps.
#[derive(Drop)]
struct Three {
    first: Kept,
    second: Kept,
    third: Kept,
}

/// How a run ended: what the maps should hold, the live one first, and what was seen of them.
#[derive(Drop)]
struct Ending {
    maps: [Vec<Filled>; 4],
    seen: Seen,
}

// Six commands, then a stamp.
fn change_and_keep(run: &mut Trial) -> Result<Kept, Trouble>
    requires { IsClosed run.old.pool }
    ensures closed { OnOk result (IsClosed run.new.pool) }
    ensures taken { IfOk result (λ kept. TakesStamp run.old.pool run.new.pool kept.stamp) }
{
    change(run)?;
    keep(run)
}

// Six commands.
fn change(run: &mut Trial) -> Result<(), Trouble>
    requires { IsClosed run.old.pool }
    ensures closed { OnOk result (IsClosed run.new.pool) }
    ensures still { HoldsStill run.old.pool run.new.pool }
{
    'commands: for _ in 0..6u32 {
        carry_out(run, MOST_PAGES)?;
    }
    Ok(())
}

// Commands with three stamps between them, and the writing of what waits.
fn carry_out_all(run: &mut Trial) -> Result<Three, Trouble>
    requires { IsClosed run.old.pool }
    ensures closed { OnOk result (IsClosed run.new.pool) }
    ensures first { IfOk result (λ three. HoldsStamp run.new.pool three.first.stamp) }
    ensures second { IfOk result (λ three. HoldsStamp run.new.pool three.second.stamp) }
    ensures third { IfOk result (λ three. HoldsStamp run.new.pool three.third.stamp) }
{
    add_pages(run, 24)?;
    let first = change_and_keep(run)?;
    let second = change_and_keep(run)?;
    let third = change_and_keep(run)?;
    change(run)?;
    settle(run)?;
    Ok(Three {
        first,
        second,
        third,
    })
}

// Reads all four maps.
fn read_maps(alloc: Global, pool: Pool<MemDisk>, live: &[Filled], three: &Three, seen: &mut Seen)
    requires closed { IsClosed pool }
    requires first { HoldsStamp pool three.now.first.stamp }
    requires second { HoldsStamp pool three.now.second.stamp }
    requires third { HoldsStamp pool three.now.third.stamp }
{
    let pool = read_kept(alloc, pool, &three.first, seen);
    let pool = read_kept(alloc, pool, &three.second, seen);
    let pool = read_kept(alloc, pool, &three.third, seen);
    read_live(alloc, pool, live, seen);
}

// Reads the maps of a run to its end.
fn ended(run: Trial, three: Three) -> Ending
    requires closed { IsClosed run.pool }
    requires first { HoldsStamp run.pool three.first.stamp }
    requires second { HoldsStamp run.pool three.second.stamp }
    requires third { HoldsStamp run.pool three.third.stamp }
{
    let mut seen = Seen {
        refused: run.refused,
        is_right: true,
    };
    let Trial {
        alloc,
        pool,
        pages,
        ..
    } = run;
    read_maps(alloc, pool, &pages, &three, &mut seen);
    Ending {
        maps: [
            pages,
            three.first.pages,
            three.second.pages,
            three.third.pages,
        ],
        seen,
    }
}

// A run over a disk that fails at these calls.
fn ran(alloc: Global, fails: Vec<u64>) -> Result<Ending, Trouble> {
    let mut run = begun(alloc, fails)?;
    let three = carry_out_all(&mut run)?;
    Ok(ended(run, three))
}

// Whether a run's maps are those of the run without a fault, and each page had its bytes.
fn is_alike(ending: &Ending, plain: &Ending) -> bool {
    ending.seen.is_right && ending.maps == plain.maps
}

/// The counts of runs in which the first call of the disk fails, then the second, until no call fails.
pub fn tried(alloc: Global) -> Result<Counts, Trouble> {
    let plain = ran(alloc, Vec::new(alloc))?;
    let mut counts = Counts {
        runs: 0,
        refused: 0,
        otherwise: 0,
    };
    'calls: for call in 1..MOST_RUNS {
        let ending = ran(alloc, vec![in alloc; call]?)?;
        if ending.seen.refused == 0 {
            break;
        }
        counts.runs = counts.runs.saturating_add(1);
        counts.refused = counts.refused.saturating_add(ending.seen.refused);
        if !is_alike(&ending, &plain) {
            counts.otherwise = counts.otherwise.saturating_add(1);
        }
    }
    Ok(counts)
}
