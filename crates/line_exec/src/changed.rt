ghost use Rattle.std.specs.Prelude.{◌≡◌, Err, None};

use sand_base::Refusal;
use sand_journal::Record;
use statement_exec::Reply;

/// What came of a statement that changes relations: its answer, and the record of its change where one was made.
#[derive(Drop)]
pub(crate) struct Changed {
    pub(crate) answer: Result<Reply, Refusal>,
    pub(crate) kept: Option<Record>,
}

impl Changed {
    /// The statement was refused before the store was asked.
    pub(crate) fn refused(why: Refusal) -> Changed
        ensures { result ≡ record { answer = Err why; kept = None } }
    {
        Changed {
            answer: Err(why),
            kept: None,
        }
    }
}
