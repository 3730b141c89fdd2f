ghost use Rattle.std.specs.Prelude.{false};
ghost use Rattle.plan_stages.specs.Fetches.{FetchStands, fetch_waits, fetch_steps};
ghost use Rattle.plan_stages.specs.Prices.{spots_price, if_waiting};

use crate::values::with_values;
use page_pool::{Desk, Disk, PageFault};
use plan_iterator::{Answer, RowStage, Step};
use plan_names::Spot;
use std::alloc::Global;

/// `fetch`: the rows with the values at places. It holds a row until these are read.
#[derive(Drop)]
pub struct Fetch {
    spots: Vec<Spot>,
    held: Option<Answer>,
}

impl Fetch {
    ghost use Rattle.std.specs.Prelude.{◌≡◌, List, []};
    ghost use Rattle.page_pool.specs.Disk.{PageMap};
    ghost use Rattle.sand_model.specs.Database.{Database};
    ghost use Rattle.sand_model.specs.Operators.{relations_of};
    ghost use Rattle.statements.specs.Plan as plan;
    ghost use Rattle.statements.specs.Plan.{Plan};
    ghost use Rattle.statements.specs.declared.column.Place.{Place};
    ghost use Rattle.plan_stages.specs.Fetches.{AreSpots};

    /// The stage of a fetch of these places.
    pub fn new(spots: Vec<Spot>) -> Fetch
        ensures { (pages : PageMap) (d : Database) (below : Plan) (places : List Place) → AreSpots d (relations_of below) pages spots.items places
            → FetchStands result pages d (plan.Fetch below places) [] [] }
    {
        Fetch { spots, held: None }
    }
}

impl RowStage for Fetch {
    ghost Stands = { FetchStands };

    ghost waits = { fetch_waits };

    ghost closed = { λ f. false };

    ghost price = { λ f pages d p row. spots_price f.spots.items };

    ghost owed = { λ f pages d p. if_waiting f.held (spots_price f.spots.items) };

    ghost steps = { fetch_steps };

    fn is_busy(&self) -> bool {
        self.held.is_some()
    }

    fn hold(&mut self, row: Answer) {
        self.held = Some(row);
    }

    fn finish(&mut self, _alloc: Global) -> Result<Step, PageFault> {
        Ok(Step::End)
    }

    fn work<D: Disk>(&mut self, alloc: Global, desk: &mut Desk<D>) -> Result<Step, PageFault> {
        let Some(row) = self.held.take() else {
            return Ok(Step::Pass);
        };
        match with_values(alloc, desk.pages(), &self.spots, &row) {
            Ok(values) => Ok(Step::Row(Answer {
                gap: row.gap,
                ids: row.ids,
                values,
            })),
            Err(fault) => {
                self.held = Some(row);
                Err(fault)
            }
        }
    }

    ghost use Rattle.std.specs.Prelude.{map};
    ghost use Rattle.sand_model.specs.Operators.{with_fetched, relations_of};
    ghost use Rattle.plan_stages.specs.Splits.{waiting, wait_count};
    ghost use Rattle.plan_stages.specs.SplitLaws.{front_of, late_of, open_of, rises_of};

    ghost outermost = { λ s pages d p taken given f. f.splits.operator };

    ghost front = { λ s pages d p taken given all f b whole. front_of d p taken given (map (with_fetched d (relations_of f.below) f.places) (waiting s.held)) all f.splits b };

    ghost late = { λ s pages d p taken given f. late_of d p taken given (map (with_fetched d (relations_of f.below) f.places) (waiting s.held)) _ f.splits };

    ghost closed_waits = { λ s. open_of _ };

    ghost rises = { λ s. rises_of (wait_count s.held) };
}
