ghost use Rattle.rank_cursor.specs.Laws.{RowIsReach, CeilingIsReach, NothingIsCounted};

/// How the search's tests of gaps and the model's reaches agree, for proofs of the crates above: a call brings
/// the laws into scope, and does nothing when it runs.
pub fn reach_laws()
    ensures row { RowIsReach }
    ensures ceiling { CeilingIsReach }
    ensures nothing { NothingIsCounted }
{}
