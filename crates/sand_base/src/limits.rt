ghost use Rattle.std.specs.Prelude.{◌≡◌};

/// How many ids a relation gives out, and how many listings a quadtree has at most (each id of each leaf,
/// an empty leaf counting one). Tests reach a limit by a smaller one.
#[derive(Clone, Copy, Debug, PartialEq, Eq)]
pub struct Limits {
    pub ids: u32,
    pub listings: u64,
}

impl Limits {
    /// The limits of a plain run.
    pub fn standard() -> Limits
        ensures ids { result.ids ≡ 1000000 }
        ensures listings { result.listings ≡ 16000000 }
    {
        Limits {
            ids: 1_000_000,
            listings: 16_000_000,
        }
    }
}
