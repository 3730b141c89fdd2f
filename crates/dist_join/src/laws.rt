ghost use Rattle.dist_join.specs.Laws.{NoPairIsCounted};

/// What a join counts before anything was taken, for proofs of the crates above: a call brings the law into scope,
/// and does nothing when it runs.
pub fn join_laws()
    ensures { NoPairIsCounted }
{}
