ghost use Rattle.std.specs.Prelude.{◌≡◌};

use crate::past::Past;

/// The newest image of a page: where it lies, and how many commands had begun as it was written.
#[derive(Clone, Copy)]
pub(crate) struct Home {
    pub(crate) place: u64,
    pub(crate) made: u64,
}

impl Home {
    // The image of page `n` as one that was replaced when so many commands had begun.
    pub(crate) fn replaced(self, n: u64, until: u64) -> Past
        ensures { result ≡ record { number = n; made = self.made; until = until } }
    {
        Past {
            number: n,
            made: self.made,
            until,
        }
    }
}
