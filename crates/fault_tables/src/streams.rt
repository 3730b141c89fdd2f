// A script whose source, sink or data file fails at one call.
use crate::harness::{Answer, Case, Fault, answer_of};
use crate::trouble::{Trouble, agree, ended};
use session::Status;
use std::alloc::Global;

/// The most calls that are tried.
const MOST: u64 = 10_000;

/// Which calls fail.
#[derive(Clone, Copy)]
pub enum Stream {
    Source,
    Sink,
    Shelf,
}

impl Stream {
    // The failing call of the number.
    fn fault(self, call: u64) -> Fault {
        match self {
            Stream::Source => Fault::Source(call),
            Stream::Sink => Fault::Sink(call),
            Stream::Shelf => Fault::Shelf(call),
        }
    }

    // The status of a run in which a call fails.
    fn status(self) -> Status {
        match self {
            Stream::Source => Status::ReadFault,
            Stream::Sink => Status::WriteFault,
            Stream::Shelf => Status::SomeRefused,
        }
    }
}

// Whether the text begins the other one.
fn begins(alloc: Global, call: u64, text: &[u8], whole: &[u8]) -> Result<(), Trouble> {
    let (front, _rest) = whole.split_at(text.len().min(whole.len()));
    agree(alloc, call, front, text)
}

/// What is written where a call fails.
#[derive(Clone, Copy)]
pub enum Wanted<'a> {
    /// The first bytes of the text of the plain run.
    Front,
    /// This text.
    Text(&'a str),
}

// Looks at what came of a run. False where no call failed in it, so that it is the plain one.
fn has_failed(
    alloc: Global,
    stream: Stream,
    plain: &str,
    wanted: Wanted,
    call: u64,
    given: &Answer,
) -> Result<bool, Trouble> {
    if given.status == Status::Done {
        agree(alloc, call, plain.as_bytes(), given.text())?;
        return Ok(false);
    }
    ended(call, given, stream.status())?;
    match wanted {
        Wanted::Front => begins(alloc, call, given.text(), plain.as_bytes())?,
        Wanted::Text(text) => agree(alloc, call, text.as_bytes(), given.text())?,
    }
    Ok(true)
}

// Makes the run with this call failing, and looks at it.
fn try_call(
    alloc: Global,
    case: &Case,
    stream: Stream,
    plain: &str,
    wanted: Wanted,
    call: u64,
) -> Result<bool, Trouble> {
    let given = answer_of(alloc, case, stream.fault(call))?;
    has_failed(alloc, stream, plain, wanted, call, &given)
}

/// The number of calls in the run, each of which was made to fail in a run of its own: the run ends with the status of the
/// stream's fault, and writes what is wanted. `plain` is the text of the run in which none fails.
pub fn tried(
    alloc: Global,
    case: &Case,
    stream: Stream,
    plain: &str,
    wanted: Wanted,
) -> Result<u64, Trouble> {
    for call in 1..MOST {
        if !try_call(alloc, case, stream, plain, wanted, call)? {
            return Ok(call.saturating_sub(1));
        }
    }
    Err(Trouble::Counted(MOST))
}
