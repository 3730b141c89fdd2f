ghost use Rattle.std.specs.Prelude.{◌≡◌, OnOk, IfOk};
ghost use Rattle.page_pool.specs.Pool.{IsClosed, IsOpen, IsTold};
ghost use Rattle.code_btree.specs.Tree.{IsTree, pages_in};

use crate::draws::Draws;
use code_btree::Tree;
use page_pool::{PageFault, Pool, SureDisk};
use std::alloc::Global;
use std::collections::BTreeMap;

/// How many inserts one command makes.
pub const LOT: u32 = 50_000;

/// How often each key is looked up.
pub const ROUNDS: u32 = 10;

// One command of inserts.
fn command(pool: &mut Pool<SureDisk>, tree: &mut Tree, draws: &mut Draws) -> Result<(), PageFault>
    requires closed { IsClosed pool.old }
    requires tree { IsTold pool.old → IsTree (pages_in pool.old) tree.old }
    ensures closed { OnOk result (IsClosed pool.new) }
    ensures tree { OnOk result (IsTold pool.new → IsTree (pages_in pool.new) tree.new) }
{
    pool.begin()?;
    'inserts: for _ in 0..LOT {
        let key = draws.key();
        tree.insert(pool, key, key)?;
    }
    pool.commit();
    Ok(())
}

/// A map in pages of so many lots of drawn keys.
pub fn filled(pool: &mut Pool<SureDisk>, lots: u32) -> Result<Tree, PageFault>
    requires { IsClosed pool.old }
    ensures closed { OnOk result (IsClosed pool.new) }
    ensures tree { IfOk result (λ tree. IsTold pool.new → IsTree (pages_in pool.new) tree) }
{
    pool.begin()?;
    let mut tree = Tree::plant(pool)?;
    pool.commit();
    let mut draws = Draws::begin(1);
    'commands: for _ in 0..lots {
        command(pool, &mut tree, &mut draws)?;
    }
    Ok(tree)
}

// Looks up a lot of drawn keys; gives how many were there.
fn look_lot(pool: &mut Pool<SureDisk>, tree: Tree, draws: &mut Draws) -> Result<u64, PageFault>
    requires { IsTold pool.old → IsTree (pages_in pool.old) tree }
    ensures { OnOk result (IsTold pool.new → IsTree (pages_in pool.new) tree) }
{
    let mut there = 0u64;
    'keys: for _ in 0..LOT {
        if tree.get(pool, draws.key())?.is_some() {
            there = there.wrapping_add(1);
        }
    }
    Ok(there)
}

// Looks up the drawn keys again; gives how many were there.
fn look(pool: &mut Pool<SureDisk>, tree: Tree, lots: u32) -> Result<u64, PageFault>
    requires { IsTold pool.old → IsTree (pages_in pool.old) tree }
    ensures { OnOk result (IsTold pool.new → IsTree (pages_in pool.new) tree) }
{
    let mut draws = Draws::begin(1);
    let mut there = 0u64;
    'lots: for _ in 0..lots {
        there = there.wrapping_add(look_lot(pool, tree, &mut draws)?);
    }
    Ok(there)
}

/// Looks up each key some rounds; gives how often one was there.
pub fn looked_up(pool: &mut Pool<SureDisk>, tree: Tree, lots: u32) -> Result<u64, PageFault>
    requires { IsTold pool.old → IsTree (pages_in pool.old) tree }
{
    let mut there = 0u64;
    'rounds: for _ in 0..ROUNDS {
        there = there.wrapping_add(look(pool, tree, lots)?);
    }
    Ok(there)
}

/// Runs over all pairs; gives how many there were.
pub fn run_through(pool: &mut Pool<SureDisk>, tree: Tree) -> u64
    requires { IsTold pool.old → IsTree (pages_in pool.old) tree }
{
    let mut pairs = 0u64;
    let mut run = tree.run(pool, 0);
    for _ in &mut run {
        pairs = pairs.wrapping_add(1);
    }
    pairs
}

/// The same in memory.
pub type Twin = BTreeMap<u128, u128>;

// Fills the map with so many drawn keys, where memory suffices.
fn fill_twin(twin: &mut Twin, keys: u64) -> Option<()> {
    let mut draws = Draws::begin(1);
    'keys: for _ in 0..keys {
        let key = draws.key();
        twin.insert(key, key).ok()?;
    }
    Some(())
}

/// A map of so many lots of drawn keys in memory.
pub fn filled_twin(alloc: Global, lots: u32) -> Option<Twin> {
    let mut twin = BTreeMap::new(alloc);
    fill_twin(&mut twin, u64::from(lots) * u64::from(LOT))?;
    Some(twin)
}

// The keys looked up again in memory; gives how many were there.
fn look_twin(twin: &Twin, lots: u32) -> u64 {
    let mut draws = Draws::begin(1);
    let mut there = 0u64;
    'keys: for _ in 0..u64::from(lots) * u64::from(LOT) {
        if twin.get(&draws.key()).is_some() {
            there = there.wrapping_add(1);
        }
    }
    there
}

/// Each key looked up some rounds in memory; gives how often one was there.
pub fn looked_up_twin(twin: &Twin, lots: u32) -> u64 {
    let mut there = 0u64;
    'rounds: for _ in 0..ROUNDS {
        there = there.wrapping_add(look_twin(twin, lots));
    }
    there
}

/// All pairs in memory; gives how many there were.
pub fn run_through_twin(twin: &Twin) -> u64 {
    let mut pairs = 0u64;
    for (key, value) in twin.iter() {
        if *key == *value {
            pairs = pairs.wrapping_add(1);
        }
    }
    pairs
}
