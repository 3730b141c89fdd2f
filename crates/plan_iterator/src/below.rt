ghost use Rattle.std.specs.Prelude.{◌≡◌};
ghost use Rattle.plan_iterator.specs.Following.{source_of};

use crate::{Operator, RowSource, RowStage, SourceCounts};

// What the source at the innermost place has visited.
pub fn counts_below<S: RowSource, T: RowStage>(operator: &Operator<S, T>) -> SourceCounts
    ensures { result ≡ S.seen (source_of operator.now) }
{
    match operator {
        Operator::Source(source) => source.counts(),
        Operator::Over(over) => counts_below(&over.below),
    }
}
