ghost use Rattle.plan_ops.specs.Sources.{source_at, source_seen, source_steps, source_heights, source_step_price, source_owed};

use page_pool::{Desk, Disk, PageFault};
use plan_iterator::{Answer, RowSource, SourceCounts};
use plan_sources::{
    JoinSource, KnnSource, NearSource, PickBetween, PickEqual, RankSource, Scan, SemiSource,
};
use std::alloc::Global;

/// The source of any plan. A window is a ranking within the distance 0.
#[derive(Drop)]
pub enum Source {
    Scan(Scan),
    PickEqual(PickEqual),
    PickBetween(PickBetween),
    Rank(RankSource),
    Near(NearSource),
    Join(JoinSource),
    Semi(SemiSource),
    Knn(KnnSource),
}

impl RowSource for Source {
    ghost At = { source_at };

    ghost seen = { source_seen };

    ghost heights = { source_heights };

    ghost step_price = { source_step_price };

    ghost owed = { source_owed };

    ghost steps = { source_steps };

    fn next<D: Disk>(
        &mut self,
        alloc: Global,
        desk: &mut Desk<D>,
    ) -> Result<Option<Answer>, PageFault> {
        match self {
            Source::Scan(source) => return source.next(alloc, desk),
            Source::PickEqual(source) => return source.next(alloc, desk),
            Source::PickBetween(source) => return source.next(alloc, desk),
            Source::Rank(source) => return source.next(alloc, desk),
            Source::Near(source) => return source.next(alloc, desk),
            Source::Join(source) => return source.next(alloc, desk),
            Source::Semi(source) => return source.next(alloc, desk),
            Source::Knn(source) => return source.next(alloc, desk),
        }
    }

    fn counts(&self) -> SourceCounts {
        match self {
            Source::Scan(source) => source.counts(),
            Source::PickEqual(source) => source.counts(),
            Source::PickBetween(source) => source.counts(),
            Source::Rank(source) => source.counts(),
            Source::Near(source) => source.counts(),
            Source::Join(source) => source.counts(),
            Source::Semi(source) => source.counts(),
            Source::Knn(source) => source.counts(),
        }
    }
}
