ghost use Rattle.std.specs.Prelude.{false};
ghost use Rattle.plan_stages.specs.Filters.{FilterStands, filter_waits, filter_steps};
ghost use Rattle.plan_stages.specs.Prices.{tests_price, if_waiting};

use crate::SpotTest;
use crate::tests::passes_all;
use page_pool::{Desk, Disk, PageFault};
use plan_iterator::{Answer, RowStage, Sifted, Step};
use std::alloc::Global;

/// `filter`: the rows that pass all tests. It holds a row until its tests are read.
#[derive(Drop)]
pub struct Filter {
    tests: Vec<SpotTest>,
    held: Option<Answer>,
}

impl Filter {
    ghost use Rattle.std.specs.Prelude.{◌≡◌, List, []};
    ghost use Rattle.page_pool.specs.Disk.{PageMap};
    ghost use Rattle.sand_model.specs.Database.{Database};
    ghost use Rattle.sand_model.specs.Operators.{relations_of};
    ghost use Rattle.statements.specs.Plan as plan;
    ghost use Rattle.statements.specs.Plan.{Plan};
    ghost use Rattle.statements.specs.declared.test.Test.{Test};
    ghost use Rattle.plan_stages.specs.Tests.{AreTests};

    /// The stage of a filter by these tests.
    pub fn new(tests: Vec<SpotTest>) -> Filter
        ensures { (pages : PageMap) (d : Database) (below : Plan) (asked : List Test) → AreTests d (relations_of below) pages tests.items asked
            → FilterStands result pages d (plan.Filter below asked) [] [] }
    {
        Filter { tests, held: None }
    }
}

impl RowStage for Filter {
    ghost Stands = { FilterStands };

    ghost waits = { filter_waits };

    ghost closed = { λ f. false };

    ghost price = { λ f pages d p row. tests_price f.tests.items };

    ghost owed = { λ f pages d p. if_waiting f.held (tests_price f.tests.items) };

    ghost steps = { filter_steps };

    fn is_busy(&self) -> bool {
        self.held.is_some()
    }

    fn hold(&mut self, row: Answer) {
        self.held = Some(row);
    }

    fn finish(&mut self, _alloc: Global) -> Result<Step, PageFault> {
        Ok(Step::End)
    }

    fn work<D: Disk>(&mut self, alloc: Global, desk: &mut Desk<D>) -> Result<Step, PageFault> {
        let passes = match &self.held {
            None => return Ok(Step::Pass),
            Some(row) => passes_all(alloc, desk.pages(), &self.tests, row.ids.as_slice())?,
        };
        match self.held.take() {
            Some(row) if passes => Ok(Step::Row(row)),
            _ => Ok(Step::Pass),
        }
    }

    #[inline]
    fn sift<D: Disk>(
        &self,
        alloc: Global,
        desk: &mut Desk<D>,
        row: &Answer,
    ) -> Result<Sifted, PageFault> {
        match passes_all(alloc, desk.pages(), &self.tests, row.ids.as_slice()) {
            Ok(true) => return Ok(Sifted::Given),
            Ok(false) => return Ok(Sifted::Lost),
            Err(fault) => return Err(fault),
        }
    }

    ghost use Rattle.std.specs.Prelude.{filter};
    ghost use Rattle.sand_model.specs.Operators.{passes_all, relations_of};
    ghost use Rattle.plan_stages.specs.Splits.{waiting, wait_count};
    ghost use Rattle.plan_stages.specs.SplitLaws.{front_of, late_of, open_of, rises_of};

    ghost outermost = { λ s pages d p taken given f. f.splits.operator };

    ghost front = { λ s pages d p taken given all f b whole. front_of d p taken given (filter (passes_all d (relations_of f.below) f.asked) (waiting s.held)) all f.splits b };

    ghost late = { λ s pages d p taken given f. late_of d p taken given (filter (passes_all d (relations_of f.below) f.asked) (waiting s.held)) _ f.splits };

    ghost closed_waits = { λ s. open_of _ };

    ghost rises = { λ s. rises_of (wait_count s.held) };
}
