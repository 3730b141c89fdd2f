// Drawn calls of a map, of quadtrees, and of a file with an index, beside the same in memory; and small searches.
ghost use Rattle.std.specs.Prelude.{◌≤◌, IfOk};
ghost use Rattle.page_pool.specs.Pool.{IsOpen};

use crate::filled_pool::started;
use crate::open_pool::OpenPool;
use crate::readers::Found;
use crate::searches::{SEARCHES, Search};
use crate::trees::LeafDigest;
use crate::{entries, searches, trees, tuples, twins};
use best_first::Hit;
use code_btree::Tree;
use page_pool::{PageFault, Pool, SureDisk};
use std::alloc::Global;
use std::io;

// A pool of so many frames, in a command.
fn opened(alloc: Global, frames: u32) -> Result<Pool<SureDisk>, PageFault>
    requires least { 16 ≤ frames }
    requires most { frames ≤ 4096 }
    ensures { IfOk result (λ pool. IsOpen pool) }
{
    let mut pool = started(alloc, SureDisk::new(alloc), frames)?;
    pool.begin()?;
    Ok(pool)
}

// The number of pairs left after the calls, where all answers and all pairs were the same.
fn compared(alloc: Global, calls: u32, keys: u64) -> Result<Option<u64>, PageFault> {
    let mut pool = opened(alloc, 64)?;
    twins::mixed(alloc, &mut pool, calls, keys.max(1))
}

// The tree that is left of one that was filled and emptied again.
fn emptied(alloc: Global, keys: u32) -> Result<Tree, PageFault> {
    let mut pool = opened(alloc, 64)?;
    twins::emptied(&mut pool, keys)
}

// Compares so many calls of keys below this number.
fn compare(rt: &(impl Print + AllocGlobal), calls: u32, keys: u64) -> io::Result<()> {
    match compared(rt.alloc(), calls, keys) {
        Ok(Some(left)) => rt.println(format_args!(
            "{calls} calls with {keys} keys agree, and {left} pairs are left"
        )),
        _ => rt.println(format_args!("calls with {keys} keys differ, or memory was short")),
    }
}

// Empties a map.
fn empty(rt: &(impl Print + AllocGlobal)) -> io::Result<()> {
    match emptied(rt.alloc(), 40_000) {
        Ok(tree) => rt.println(format_args!(
            "40000 keys put and taken leave {} pairs at height {}",
            tree.entries, tree.height
        )),
        Err(_) => rt.println(format_args!("memory was short")),
    }
}

// How many calls are compared, and of how many keys: few, many, and so many that the tree has three levels.
static COMPARED: [(u32, u64); 3] = [(5_000, 64), (5_000, 1_000), (200_000, 40_000)];

// Compares maps, and empties one.
fn maps(rt: &(impl Print + AllocGlobal)) -> io::Result<()> {
    for (calls, keys) in &COMPARED {
        compare(rt, *calls, *keys)?;
    }
    empty(rt)
}

// The listings and the leaves of a quadtree of a pool after so many drawn calls.
fn changed_in(
    alloc: Global,
    pool: &mut OpenPool,
    threshold: u8,
    calls: u32,
    ids: u32,
) -> Result<(u64, LeafDigest), PageFault> {
    let tree = trees::mixed(alloc, pool, threshold.max(1).min(64), calls, ids.max(1))?;
    let leaves = trees::leaves(alloc, pool, &tree)?;
    Ok((tree.listings(), leaves))
}

// The same in a pool of its own.
fn changed(
    alloc: Global,
    threshold: u8,
    calls: u32,
    ids: u32,
) -> Result<(u64, LeafDigest), PageFault> {
    let mut pool = OpenPool::start(alloc, 64)?;
    changed_in(alloc, &mut pool, threshold, calls, ids)
}

// Changes a quadtree.
fn change(rt: &(impl Print + AllocGlobal), threshold: u8, calls: u32, ids: u32) -> io::Result<()> {
    match changed(rt.alloc(), threshold, calls, ids) {
        Ok((listings, leaves)) => rt.println(format_args!(
            "{calls} calls of a quadtree at threshold {threshold} leave {listings} listings in {} leaves, told as {}",
            leaves.count, leaves.digest
        )),
        Err(_) => rt.println(format_args!("memory was short")),
    }
}

// The thresholds of quadtrees, their calls, and of how many ids: few and many in a leaf.
static CHANGED: [(u8, u32, u32); 3] = [(1, 2_000, 40), (3, 2_000, 300), (64, 2_000, 1_000)];

// Changes quadtrees.
fn quadtrees(rt: &(impl Print + AllocGlobal)) -> io::Result<()> {
    for (threshold, calls, ids) in &CHANGED {
        change(rt, *threshold, *calls, *ids)?;
    }
    Ok(())
}

// The rows left of a file after so many drawn calls, and the entries of an index.
fn changed_file_in(
    alloc: Global,
    pool: &mut OpenPool,
    calls: u32,
) -> Result<(Option<usize>, Option<usize>), PageFault> {
    let rows = tuples::mixed(alloc, pool, calls)?;
    let entries = entries::mixed(alloc, pool, calls)?;
    Ok((rows, entries))
}

// The same in a pool of its own.
fn changed_file(alloc: Global, calls: u32) -> Result<(Option<usize>, Option<usize>), PageFault> {
    let mut pool = OpenPool::start(alloc, 16)?;
    changed_file_in(alloc, &mut pool, calls)
}

// Compares a file and an index with the same in memory.
fn keep(rt: &(impl Print + AllocGlobal)) -> io::Result<()> {
    match changed_file(rt.alloc(), 2_000) {
        Ok((Some(rows), Some(entries))) => rt.println(format_args!(
            "2000 calls of a file and of an index agree, and {rows} rows and {entries} entries are left"
        )),
        _ => rt.println(format_args!("calls of a file or of an index differ, or memory was short")),
    }
}

// Prints a row.
fn tell_row(rt: &impl Print, hit: &Hit) -> io::Result<()> {
    let gap = hit.gap.lowest();
    rt.println(format_args!("  {}/{} {} {}", gap.num(), gap.den(), hit.left, hit.right))
}

// Prints what a search finds.
fn tell(rt: &impl Print, name: &str, found: &Found) -> io::Result<()> {
    rt.println(format_args!(
        "{name}: {} nodes and {} geometries are visited",
        found.visited, found.fetched
    ))?;
    for hit in &found.rows {
        tell_row(rt, hit)?;
    }
    if found.ended {
        return rt.println(format_args!("  end"));
    }
    Ok(())
}

// Makes a small search.
fn search(rt: &(impl Print + AllocGlobal), name: &str, search: Search) -> io::Result<()> {
    match &searches::found(rt.alloc(), search) {
        Ok(found) => tell(rt, name, found),
        Err(_) => rt.println(format_args!("{name}: memory was short")),
    }
}

// Makes the small searches.
fn small_searches(rt: &(impl Print + AllocGlobal)) -> io::Result<()> {
    for (name, each) in &SEARCHES {
        search(rt, name, *each)?;
    }
    Ok(())
}

/// Compares all that is kept in pages with the same in memory, and makes small searches.
pub fn tell_all(rt: &(impl Print + AllocGlobal)) -> io::Result<()> {
    maps(rt)?;
    quadtrees(rt)?;
    keep(rt)?;
    small_searches(rt)
}
