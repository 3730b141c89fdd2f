ghost use Rattle.std.specs.Prelude.{◌≡◌, List, [], false};
ghost use Rattle.sand_model.specs.Database.{Database};
ghost use Rattle.statements.specs.declared.column.Place.{Place};
ghost use Rattle.statements.specs.declared.column.Column.{Column};
ghost use Rattle.plan_names.specs.Indexed.{IsLookUp};
ghost use Rattle.plan_names.specs.Spots.{IsSpot};
ghost use Rattle.plan_stages.specs.Matches.{MatchStands, match_waits, match_steps};
ghost use Rattle.plan_stages.specs.MatchPrices.{match_row_price, match_owed};

use crate::probe::Probe;
use page_pool::{Desk, Disk, PageFault};
use plan_iterator::{Answer, RowStage, Step};
use plan_names::{LookUp, Spot};
use std::alloc::Global;

/// The row that a match holds: its value at the place is still to be read, or its matches are looked up.
#[derive(Drop)]
pub enum Held {
    Fresh(Answer),
    Probing(Probe),
}

/// `match`: each row with each row of a column whose value equals the one at the place. It holds a row until no more
/// match, reads its value once, and keeps its place.
#[derive(Drop)]
pub struct Match {
    spot: Spot,
    look_up: LookUp,
    held: Option<Held>,
}

impl Match {
    ghost use Rattle.page_pool.specs.Disk.{PageMap};
    ghost use Rattle.sand_model.specs.Operators.{relations_of};
    ghost use Rattle.statements.specs.Plan as plan;
    ghost use Rattle.statements.specs.Plan.{Plan};

    /// The stage of a match of this place with this column.
    pub fn new(spot: Spot, look_up: LookUp) -> Match
        ensures { (pages : PageMap) (d : Database) (below : Plan) (place : Place) (column : Column) → IsSpot d (relations_of below) place spot pages
            → IsLookUp d column look_up pages → MatchStands result pages d (plan.Match below place column) [] [] }
    {
        Match {
            spot,
            look_up,
            held: None,
        }
    }
}

impl RowStage for Match {
    ghost Stands = { MatchStands };

    ghost waits = { match_waits };

    ghost closed = { λ m. false };

    ghost price = { match_row_price };

    ghost owed = { match_owed };

    ghost steps = { match_steps };

    fn is_busy(&self) -> bool {
        self.held.is_some()
    }

    fn hold(&mut self, row: Answer) {
        self.held = Some(Held::Fresh(row));
    }

    fn finish(&mut self, _alloc: Global) -> Result<Step, PageFault> {
        Ok(Step::End)
    }

    fn work<D: Disk>(&mut self, alloc: Global, desk: &mut Desk<D>) -> Result<Step, PageFault> {
        match self.held.take() {
            Some(Held::Fresh(row)) => match self
                .spot
                .value(alloc, desk.pages(), row.ids.as_slice())
            {
                Ok(Some(value)) => {
                    self.held = Some(Held::Probing(Probe {
                        row,
                        value,
                        last: 0,
                    }));
                    Ok(Step::Pass)
                }
                Ok(None) => Ok(Step::Pass),
                Err(fault) => {
                    self.held = Some(Held::Fresh(row));
                    Err(fault)
                }
            },
            Some(Held::Probing(mut probe)) => match probe.next(alloc, desk.pages(), &self.look_up) {
                Ok(Some(row)) => {
                    self.held = Some(Held::Probing(probe));
                    Ok(Step::Row(row))
                }
                Ok(None) => Ok(Step::Pass),
                Err(fault) => {
                    self.held = Some(Held::Probing(probe));
                    Err(fault)
                }
            },
            None => Ok(Step::Pass),
        }
    }

    ghost use Rattle.sand_model.specs.Operators.{relations_of};
    ghost use Rattle.plan_stages.specs.Matches.{matches_to_come};
    ghost use Rattle.plan_stages.specs.SplitLaws.{front_of, late_of, open_of};
    ghost use Rattle.plan_stages.specs.MatchLaws.{match_rises};

    ghost outermost = { λ s pages d p taken given f. f.splits.operator };

    ghost front = { λ s pages d p taken given all f b whole. front_of d p taken given (matches_to_come d (relations_of f.below) f.place f.column s.held) all f.splits b };

    ghost late = { λ s pages d p taken given f. late_of d p taken given (matches_to_come d (relations_of f.below) f.place f.column s.held) _ f.splits };

    ghost closed_waits = { λ s. open_of _ };

    ghost rises = { match_rises };
}
