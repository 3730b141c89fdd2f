// A thousand rounds, in each of which a stamp is kept and another is released.
ghost use Rattle.std.specs.Prelude.{◌≡◌, ◌≤◌, IfOk, OnOk};
ghost use Rattle.page_pool.specs.Pool.{IsClosed};
ghost use Rattle.fault_tables.specs.Holding.{HoldsStamp, HoldsOtherStamps, HoldsBoth, TakesStamp};

use crate::pool_kept::{Kept, keep};
use crate::pool_trial::{Trial, add_pages, begun, carry_out, settle};
use crate::pool_trouble::Trouble;
use std::alloc::Global;

/// How many live pages there are at most.
const MOST_PAGES: usize = 44;

/// How many rounds are made.
const ROUNDS: u32 = 1_000;

/// A number of kept images that is out of its bounds.
#[derive(Clone, Copy)]
pub struct Outside {
    pub places: u64,
    pub least: u64,
    pub most: u64,
}

/// The rounds so far, the greatest number of kept images and its greatest bound, those at the end, and the first number that
/// was out of its bounds.
#[derive(Clone, Copy)]
pub struct Figures {
    pub rounds: u32,
    pub most_places: u64,
    pub most_bound: u64,
    pub last_places: u64,
    pub live: u64,
    pub outside: Option<Outside>,
}

/// Two held stamps: one is older than the other.
#[derive(Drop)]
struct Pair {
    older: Kept,
    younger: Kept,
}

// The figures before the first round.
fn no_figures() -> Figures {
    Figures {
        rounds: 0,
        most_places: 0,
        most_bound: 0,
        last_places: 0,
        live: 0,
        outside: None,
    }
}

// Asks how many images are kept, while the maps of the held stamps have so many pages.
fn note(run: &Trial, figures: &mut Figures, held: u64) {
    let least = run.pages.len() as u64;
    let most = least.saturating_add(held);
    let places = run.pool.places();
    figures.most_places = figures.most_places.max(places);
    figures.most_bound = figures.most_bound.max(most);
    figures.last_places = places;
    figures.live = least;
    if (places < least || most < places) && figures.outside.is_none() {
        figures.outside = Some(Outside {
            places,
            least,
            most,
        });
    }
}

// Releases the stamp, while the maps of the other held ones have so many pages.
fn let_go(run: &mut Trial, figures: &mut Figures, kept: Kept, others: u64)
    requires closed { IsClosed run.old.pool }
    requires held { HoldsStamp run.old.pool kept.stamp }
    ensures closed { IsClosed run.new.pool }
    ensures others { HoldsOtherStamps run.old.pool run.new.pool kept.stamp }
{
    note(run, figures, others.saturating_add(kept.size()));
    let Kept { stamp, pages: _ } = kept;
    run.pool.release(stamp);
    note(run, figures, others);
}

// Keeps a stamp, and changes pages behind it.
fn keep_and_change(run: &mut Trial) -> Result<Kept, Trouble>
    requires { IsClosed run.old.pool }
    ensures closed { OnOk result (IsClosed run.new.pool) }
    ensures taken { IfOk result (λ kept. TakesStamp run.old.pool run.new.pool kept.stamp) }
{
    let newest = keep(run)?;
    carry_out(run, MOST_PAGES)?;
    settle(run)?;
    Ok(newest)
}

// Releases one of two stamps, the younger one or the older; the newest is held beside the other.
fn replace(
    run: &mut Trial,
    figures: &mut Figures,
    held: Pair,
    newest: Kept,
    is_younger: bool,
) -> Pair
    requires closed { IsClosed run.old.pool }
    requires older { HoldsBoth run.old.pool held.older.stamp newest.stamp }
    requires younger { HoldsBoth run.old.pool held.younger.stamp newest.stamp }
    requires both { HoldsBoth run.old.pool held.older.stamp held.younger.stamp }
    ensures closed { IsClosed run.new.pool }
    ensures both { HoldsBoth run.new.pool result.older.stamp result.younger.stamp }
{
    let Pair { older, younger } = held;
    let (gone, older) = if is_younger {
        (younger, older)
    } else {
        (older, younger)
    };
    let others = older.size().saturating_add(newest.size());
    let_go(run, figures, gone, others);
    Pair {
        older,
        younger: newest,
    }
}

// A round: keeps a stamp, changes pages, and releases one of the two stamps that were held before.
fn round(
    run: &mut Trial,
    figures: &mut Figures,
    held: Pair,
    is_younger: bool,
) -> Result<Pair, Trouble>
    requires closed { IsClosed run.old.pool }
    requires both { HoldsBoth run.old.pool held.older.stamp held.younger.stamp }
    ensures closed { OnOk result (IsClosed run.new.pool) }
    ensures both { IfOk result (λ pair. HoldsBoth run.new.pool pair.older.stamp pair.younger.stamp) }
{
    let newest = keep_and_change(run)?;
    figures.rounds = figures.rounds.saturating_add(1);
    Ok(replace(run, figures, held, newest, is_younger))
}

// Keeps two stamps.
fn keep_two(run: &mut Trial) -> Result<Pair, Trouble>
    requires { IsClosed run.old.pool }
    ensures closed { OnOk result (IsClosed run.new.pool) }
    ensures both { IfOk result (λ pair. HoldsBoth run.new.pool pair.older.stamp pair.younger.stamp) }
{
    let older = keep_and_change(run)?;
    let younger = keep_and_change(run)?;
    Ok(Pair { older, younger })
}

// Makes the rounds. In three of them stamps are released that were kept one, three and two rounds before.
fn make_rounds(run: &mut Trial, figures: &mut Figures) -> Result<Pair, Trouble>
    requires { IsClosed run.old.pool }
    ensures closed { OnOk result (IsClosed run.new.pool) }
    ensures both { IfOk result (λ pair. HoldsBoth run.new.pool pair.older.stamp pair.younger.stamp) }
{
    let mut held = keep_two(run)?;
    'rounds: for number in 0..ROUNDS {
        held = round(run, figures, held, number % 3 == 0)?;
    }
    Ok(held)
}

// Releases two stamps.
fn let_both_go(run: &mut Trial, figures: &mut Figures, held: Pair)
    requires closed { IsClosed run.old.pool }
    requires both { HoldsBoth run.old.pool held.older.stamp held.younger.stamp }
{
    let Pair { older, younger } = held;
    let_go(run, figures, older, younger.size());
    let_go(run, figures, younger, 0);
}

/// The figures of the rounds, over a pool of some forty pages and sixteen frames.
pub fn tried(alloc: Global) -> Result<Figures, Trouble> {
    let mut figures = no_figures();
    let mut run = begun(alloc, Vec::new(alloc))?;
    add_pages(&mut run, 40)?;
    let held = make_rounds(&mut run, &mut figures)?;
    let_both_go(&mut run, &mut figures, held);
    Ok(figures)
}
