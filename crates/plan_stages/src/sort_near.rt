ghost use Rattle.plan_stages.specs.Gaps.{SortNearStands};
ghost use Rattle.plan_stages.specs.SortPrices.{key_price, if_waiting};
ghost use Rattle.plan_stages.specs.Sorting.{sort_waits, sort_steps};

use crate::keys::gap;
use crate::{Keyed, RowSort};
use exact_frac::Frac;
use page_pool::{Desk, Disk, PageFault};
use plan_iterator::{Answer, RowStage, Step};
use plan_names::Spot;
use sand_base::{NoMemory, Shape};
use std::alloc::Global;

/// `sort near`: all rows, by the gap of the shape at a place from a goal, which each then has as its own. It holds a row
/// until this shape is read.
#[derive(Drop)]
pub struct SortNear {
    spot: Spot,
    goal: Shape,
    held: Option<Answer>,
    rows: RowSort<Option<Frac>>,
    closed: bool,
}

impl SortNear {
    ghost use Rattle.std.specs.Prelude.{◌≡◌, false, []};
    ghost use Rattle.sand_base.specs.Plane.{IsShapeInPlane};
    ghost use Rattle.page_pool.specs.Disk.{PageMap};
    ghost use Rattle.sand_model.specs.Database.{Database};
    ghost use Rattle.sand_model.specs.Operators.{relations_of};
    ghost use Rattle.statements.specs.Plan as plan;
    ghost use Rattle.statements.specs.Plan.{Plan};
    ghost use Rattle.statements.specs.declared.column.Place.{Place};
    ghost use Rattle.plan_names.specs.Spots.{IsSpot};

    /// The stage of a sort by the gaps of what stands at this place from the goal. It takes no memory.
    pub fn new(alloc: Global, spot: Spot, goal: Shape) -> SortNear
        ensures open { result.closed ≡ false }
        ensures begun { IsShapeInPlane goal → (pages : PageMap) (d : Database) (below : Plan) (place : Place) → IsSpot d (relations_of below) place spot pages
            → SortNearStands result pages d (plan.SortNear below place goal) [] [] }
    {
        SortNear {
            spot,
            goal,
            held: None,
            rows: RowSort::new(alloc),
            closed: false,
        }
    }
}

impl RowStage for SortNear {
    ghost Stands = { SortNearStands };

    ghost waits = { λ s. sort_waits s.held s.closed };

    ghost closed = { λ s. s.closed };

    ghost price = { λ s pages d p row. key_price s.spot };

    ghost owed = { λ s pages d p. if_waiting s.held (key_price s.spot) };

    ghost steps = { λ s. sort_steps s.held s.rows s.closed };

    fn is_busy(&self) -> bool {
        self.held.is_some() || self.closed
    }

    fn hold(&mut self, row: Answer) {
        self.held = Some(row);
    }

    fn finish(&mut self, alloc: Global) -> Result<Step, PageFault> {
        match self.rows.sort(alloc) {
            Ok(()) => {
                self.closed = true;
                Ok(Step::Pass)
            }
            Err(NoMemory {}) => Err(PageFault::Memory),
        }
    }

    fn work<D: Disk>(&mut self, alloc: Global, desk: &mut Desk<D>) -> Result<Step, PageFault> {
        let Some(row) = self.held.take() else {
            return match self.rows.next() {
                Some(Keyed { key, row }) => Ok(Step::Row(Answer {
                    gap: key,
                    ids: row.ids,
                    values: row.values,
                })),
                None => Ok(Step::End),
            };
        };
        match gap(
            alloc,
            desk.pages(),
            &self.spot,
            &self.goal,
            row.ids.as_slice(),
        ) {
            Ok(key) => match self.rows.push(key, row) {
                Ok(()) => Ok(Step::Pass),
                Err(row) => {
                    self.held = Some(row);
                    Err(PageFault::Memory)
                }
            },
            Err(fault) => {
                self.held = Some(row);
                Err(fault)
            }
        }
    }

    ghost use Rattle.plan_stages.specs.Keyed.{gapped_row};
    ghost use Rattle.sand_model.specs.Operators.{relations_of};
    ghost use Rattle.plan_stages.specs.Gaps.{HasGapKey};
    ghost use Rattle.plan_stages.specs.SortLaws.{near_outermost, front_of, late_of, closed_waits_of, rises_of};

    ghost outermost = { λ s pages d p taken given f. near_outermost f.below f.place s.goal f.is };

    ghost front = { λ s pages d p taken given all f b whole. front_of s.closed (HasGapKey d (relations_of f.below) f.place s.goal) gapped_row d p s.held s.rows taken given all f.sorts b whole };

    ghost late = { λ s pages d p taken given f sort. late_of s.closed (HasGapKey d (relations_of f.below) f.place s.goal) gapped_row d p s.held s.rows taken given f.sorts };

    ghost closed_waits = { λ s. closed_waits_of s.held s.closed };

    ghost rises = { λ s. rises_of s.held s.rows s.closed };
}
