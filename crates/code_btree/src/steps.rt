ghost use Rattle.std.specs.Prelude.{◌≡◌, ◌+◌, ◌<◌, ◌≤◌, ◌^◌, ◌∷◌, [], ◌↔◌, true, false, Ok, IfOk, IfSome, OnOk, IsTrue, MatchOption};
ghost use Rattle.std.specs.Iterator.{at_most};
ghost use Rattle.sand_base.specs.Faults.{next_count};
ghost use Rattle.page_pool.specs.Pool.{IsTold};
ghost use Rattle.code_btree.specs.Tree.{IsTree, pages_in};
ghost use Rattle.code_btree.specs.Run.{CanRun, RunsOn, StandsAt, first_spot, keys_left, least_left, pairs_to_come, run_view, step_gets};
ghost use Rattle.code_btree.specs.Chain.{IsFirstOf, IsStep};
ghost use Rattle.code_btree.specs.Calls.{Peeks};

use crate::Tree;
use crate::chain::{Given, first, give_on};
use page_pool::{PageFault, Pages};

/// Where a run stands: its tree, the key that was asked for or the one of its last pair, whether a pair was given,
/// and then the leaf and the place in it of the next one. Leaf 0 is no leaf.
#[derive(Clone, Copy, Debug)]
pub struct Spot {
    pub(crate) tree: Tree,
    pub(crate) from: u128,
    pub(crate) begun: bool,
    pub(crate) leaf: u64,
    pub(crate) place: usize,
}

/// The pairs of a tree from a key on, as a lazy iterator: nothing is read before it is asked, and each step after
/// the first makes one page get at most. It gives None at the end and after a fault, which `outcome` tells apart.
#[derive(Drop)]
pub struct Run<'d, P> {
    pub(crate) pages: &'d mut P,
    pub(crate) spot: Spot,
    pub(crate) outcome: Result<bool, PageFault>,
}

impl Tree {
    /// The pairs from a key on, in ascending order. Nothing is read yet.
    pub fn run<'d, P: Pages>(&self, pages: &'d mut P, from: u128) -> Run<'d, P>
        requires { IsTold (P.shown pages.old) → IsTree (pages_in (P.shown pages.old)) self.now }
        ensures same_reference { result.pages.ghost_name ≡ pages.entry.ghost_name }
        ensures view { (run_view P.shown result) ≡ record { pool = P.shown pages.old; spot = first_spot self.now from; outcome = Ok false } }
        ensures can { CanRun (run_view P.shown result) }
    {
        Run {
            pages,
            spot: Spot {
                tree: *self,
                from,
                begun: false,
                leaf: 0,
                place: 0,
            },
            outcome: Ok(false),
        }
    }
}

// What stands at the run's next place.
fn given_at<P: Pages>(pages: &mut P, spot: Spot) -> Result<Given, PageFault>
    requires { IsTold (P.shown pages.old) → StandsAt (pages_in (P.shown pages.old)) spot }
    ensures value { IfOk result (λ given. IsTold (P.shown pages.old) → IsFirstOf (pages_in (P.shown pages.old)) spot.tree (pairs_to_come (pages_in (P.shown pages.old)) spot) given) }
    ensures peeks { Peeks (P.shown pages.old) (P.shown pages.new) (step_gets spot) result }
    ensures some { spot.begun ≡ false → OnOk result (next_count (P.shown pages.old).gets ≤ (P.shown pages.new).gets) }
{
    if spot.begun {
        let given = give_on(pages, spot.leaf, spot.place)?;
        return Ok(given);
    }
    let given = first(pages, spot.tree, spot.from)?;
    Ok(given)
}

// Whether a key may come next.
fn may_come(spot: Spot, key: u128) -> bool
    ensures may { IsTrue result ↔ least_left spot ≤ key }
    ensures small { key < 2 ^ 128 }
{
    if spot.begun {
        key > spot.from
    } else {
        key >= spot.from
    }
}

// The next pair, and where the run stands after it. Over a disk that tells, keys rise; over any other one, a key
// that doesn't is the end.
fn step<P: Pages>(pages: &mut P, spot: Spot) -> Result<Option<((u128, u128), Spot)>, PageFault>
    requires { IsTold (P.shown pages.old) → StandsAt (pages_in (P.shown pages.old)) spot }
    ensures value { IfOk result (λ r. IsStep (P.shown pages.old) spot r) }
    ensures peeks { Peeks (P.shown pages.old) (P.shown pages.new) (step_gets spot) result }
    ensures some { spot.begun ≡ false → OnOk result (next_count (P.shown pages.old).gets ≤ (P.shown pages.new).gets) }
{
    let given = given_at(pages, spot)?;
    let Some(pair) = given.pair else {
        return Ok(None);
    };
    if !may_come(spot, pair.0) {
        return Ok(None);
    }
    let after = Spot {
        tree: spot.tree,
        from: pair.0,
        begun: true,
        leaf: given.leaf,
        place: given.place,
    };
    Ok(Some((pair, after)))
}

impl<P: Pages> Run<'_, P> {
    /// `Ok(true)` exactly where a step found no further pair, `Ok(false)` exactly where no step has given None,
    /// and the fault where one came.
    pub fn outcome(&self) -> Result<bool, PageFault>
        ensures { result ≡ self.now.outcome }
    {
        self.outcome
    }
}

impl<P: Pages> Iterator for Run<'_, P> {
    type Item = (u128, u128);

    ghost can_next = { λ a. CanRun (run_view P.shown a) };

    ghost next_gives = { λ a r b. (b.pages.ghost_name ≡ a.pages.ghost_name) × RunsOn (run_view P.shown a) r (run_view P.shown b) };

    ghost remaining = { λ a. at_most (keys_left a.spot) };

    fn next(&mut self) -> Option<(u128, u128)> {
        let Ok(over) = self.outcome else {
            return None;
        };
        if over {
            return None;
        }
        match step(self.pages, self.spot) {
            Ok(Some((pair, spot))) => {
                self.spot = spot;
                Some(pair)
            }
            Ok(None) => {
                self.outcome = Ok(true);
                None
            }
            Err(fault) => {
                self.outcome = Err(fault);
                None
            }
        }
    }
}
