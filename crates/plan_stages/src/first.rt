ghost use Rattle.std.specs.Prelude.{false};
ghost use Rattle.plan_stages.specs.Firsts.{FirstStands, first_waits, first_steps};

use page_pool::{Desk, Disk, PageFault};
use plan_iterator::{Answer, RowStage, Step};
use std::alloc::Global;

/// `first n`: the first rows of the plan beneath. Once it has them it asks for none.
#[derive(Drop)]
pub struct First {
    left: u32,
    opens: bool,
    held: Option<Answer>,
}

impl First {
    ghost use Rattle.std.specs.Prelude.{◌≡◌, true, not, ◌&&◌, nat_eq, []};
    ghost use Rattle.page_pool.specs.Disk.{PageMap};
    ghost use Rattle.sand_model.specs.Database.{Database};
    ghost use Rattle.statements.specs.Plan as plan;
    ghost use Rattle.statements.specs.Plan.{Plan};
    ghost use Rattle.sand_model.specs.Taken.{is_lazy};

    /// The stage of `first count` over a plan, which `opens` its sort where it has one and no row is asked.
    pub fn new(count: u32, opens: bool) -> First
        ensures { (pages : PageMap) (d : Database) (below : Plan) → opens ≡ (nat_eq count 0 && not (is_lazy below)) → FirstStands result pages d (plan.First count below) [] [] }
    {
        First {
            left: count,
            opens,
            held: None,
        }
    }
}

impl RowStage for First {
    ghost Stands = { FirstStands };

    ghost waits = { first_waits };

    ghost closed = { λ f. false };

    ghost price = { λ f pages d p row. 0 };

    ghost owed = { λ f pages d p. 0 };

    ghost steps = { first_steps };

    fn is_busy(&self) -> bool {
        self.held.is_some() || (self.left == 0 && !self.opens)
    }

    fn hold(&mut self, row: Answer) {
        if self.left == 0 {
            self.opens = false;
            return;
        }
        self.left -= 1;
        self.held = Some(row);
    }

    fn finish(&mut self, _alloc: Global) -> Result<Step, PageFault> {
        Ok(Step::End)
    }

    fn work<D: Disk>(&mut self, _alloc: Global, _desk: &mut Desk<D>) -> Result<Step, PageFault> {
        match self.held.take() {
            Some(row) => Ok(Step::Row(row)),
            None => Ok(Step::End),
        }
    }

    ghost use Rattle.plan_stages.specs.Splits.{waiting, wait_count};
    ghost use Rattle.plan_stages.specs.SplitLaws.{front_of, late_of, open_of, rises_of};

    ghost outermost = { λ s pages d p taken given f. f.splits.operator };

    ghost front = { λ s pages d p taken given all f b whole. front_of d p taken given (waiting s.held) all f.splits b };

    ghost late = { λ s pages d p taken given f. late_of d p taken given (waiting s.held) _ f.splits };

    ghost closed_waits = { λ s. open_of _ };

    ghost rises = { λ s. rises_of (wait_count s.held) };
}
