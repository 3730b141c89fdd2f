ghost use Rattle.plan_ops.specs.Stages.{StageStands, stage_waits, is_closed, stage_steps, stage_price, stage_owed};

use page_pool::{Desk, Disk, PageFault};
use plan_iterator::{Answer, RowStage, Sifted, Step};
use plan_stages::{Fetch, Filter, First, Match, SortBy, SortNear};
use std::alloc::Global;

/// A stage of any kind.
#[derive(Drop)]
pub enum Stage {
    First(First),
    Filter(Filter),
    Fetch(Fetch),
    Match(Match),
    SortBy(SortBy),
    SortNear(SortNear),
}

impl RowStage for Stage {
    ghost Stands = { StageStands };

    ghost waits = { stage_waits };

    ghost closed = { is_closed };

    ghost price = { stage_price };

    ghost owed = { stage_owed };

    ghost steps = { stage_steps };

    fn is_busy(&self) -> bool {
        match self {
            Stage::First(stage) => stage.is_busy(),
            Stage::Filter(stage) => stage.is_busy(),
            Stage::Fetch(stage) => stage.is_busy(),
            Stage::Match(stage) => stage.is_busy(),
            Stage::SortBy(stage) => stage.is_busy(),
            Stage::SortNear(stage) => stage.is_busy(),
        }
    }

    fn hold(&mut self, row: Answer) {
        match self {
            Stage::First(stage) => stage.hold(row),
            Stage::Filter(stage) => stage.hold(row),
            Stage::Fetch(stage) => stage.hold(row),
            Stage::Match(stage) => stage.hold(row),
            Stage::SortBy(stage) => stage.hold(row),
            Stage::SortNear(stage) => stage.hold(row),
        }
    }

    fn finish(&mut self, alloc: Global) -> Result<Step, PageFault> {
        match self {
            Stage::First(stage) => stage.finish(alloc),
            Stage::Filter(stage) => stage.finish(alloc),
            Stage::Fetch(stage) => stage.finish(alloc),
            Stage::Match(stage) => stage.finish(alloc),
            Stage::SortBy(stage) => stage.finish(alloc),
            Stage::SortNear(stage) => stage.finish(alloc),
        }
    }

    fn work<D: Disk>(&mut self, alloc: Global, desk: &mut Desk<D>) -> Result<Step, PageFault> {
        match self {
            Stage::First(stage) => return stage.work(alloc, desk),
            Stage::Filter(stage) => return stage.work(alloc, desk),
            Stage::Fetch(stage) => return stage.work(alloc, desk),
            Stage::Match(stage) => return stage.work(alloc, desk),
            Stage::SortBy(stage) => return stage.work(alloc, desk),
            Stage::SortNear(stage) => return stage.work(alloc, desk),
        }
    }

    #[inline]
    fn sift<D: Disk>(
        &self,
        alloc: Global,
        desk: &mut Desk<D>,
        row: &Answer,
    ) -> Result<Sifted, PageFault> {
        match self {
            Stage::Filter(stage) => return stage.sift(alloc, desk, row),
            _ => return Ok(Sifted::Wanted),
        }
    }

    ghost use Rattle.plan_ops.specs.StageLaws.{stage_outermost, stage_front, stage_late, stage_closed_waits, stage_rises};

    ghost outermost = { stage_outermost };

    ghost front = { stage_front };

    ghost late = { stage_late };

    ghost closed_waits = { stage_closed_waits };

    ghost rises = { stage_rises };
}
