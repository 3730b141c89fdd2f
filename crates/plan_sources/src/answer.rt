ghost use Rattle.std.specs.Prelude.{◌≡◌, ◌<◌};
ghost use Rattle.sand_model.specs.Answer.{plain_row};
ghost use Rattle.plan_iterator.specs.Rows.{row_of};

use plan_iterator::{Answer, SourceCounts};
use sand_base::{Ids, Row};
use std::alloc::Global;

/// What a source of rows without distance has visited.
pub(crate) const NO_VISITS: SourceCounts = SourceCounts {
    blocks: 0,
    pairs: 0,
    geometries: 0,
};

/// The row of one id, without a distance. It takes no memory.
pub(crate) fn plain_answer(alloc: Global, id: u32) -> Answer
    ensures row { row_of result ≡ plain_row id }
    ensures fits { id < 4294967296 }
{
    Answer {
        gap: None,
        ids: Ids::one(id),
        values: Row::new(Vec::new(alloc)),
    }
}
