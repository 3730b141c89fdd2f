ghost use Rattle.std.specs.Prelude.{◌≡◌, ◌+◌, ◌^◌, ◌<◌, ◌≤◌, ℕ, List, [], ◌∷◌, ◌++◌, length, min, IsTrue, IsSome, IfSome, IfNone, IfOk, IfErr, OnOk, OnErr};
ghost use Rattle.sand_base.specs.Faults.{HasCause, next_count};
ghost use Rattle.sand_journal.specs.declared.fault.JournalFault.TheVariants as fault;
ghost use Rattle.sand_journal.specs.Images.{HasBodies, LiesBetween, LeavesOnly};

use crate::ahead::{Ahead, look_ahead};
use crate::gate::HEAD_BYTES;
use crate::read_change::read_change;
use crate::steps::{begin, open_gate, stage};
use crate::{Change, JournalFault, Record, Tape};
use sand_base::Failed;
use std::alloc::Global;

/// Records on a tape, each behind a gate that is opened last. Contracts see the tape, the place of the gate that follows
/// the records passed so far, and how many these are.
#[derive(Drop)]
pub struct Journal<T: Tape> {
    tape: T,
    end: u64,
    count: u32,
}

impl<T: Tape> Journal<T> {
    ghost use Rattle.sand_journal.specs.Journal.{HasPassed, IsAtEnd, IsReading, IsReady, IsOnlyRead, WasOpened, HasOpened, HasFaultCause, GivesNextChange, IsWhy, last_number};
    ghost use Rattle.sand_journal.specs.ChangeBody.{IsChange, change_value};

    /// Opens the file of a tape. It is synced first, so that what is read is what a crash leaves; an empty file gets its
    /// first gate. A fault gives the tape back.
    pub fn open(mut tape: T) -> Result<Journal<T>, (JournalFault, T)>
        requires { IsTrue (T.seen tape).started }
        ensures passed { IfOk result (λ journal. HasPassed T.seen journal []) }
        ensures opened { IfOk result (λ journal. HasOpened (T.seen tape) (T.seen journal.tape)) }
        ensures done { IfOk result (λ journal. (T.seen journal.tape).faults ≡ (T.seen tape).faults) }
        ensures failed { IfErr result (λ why. why.0 ≡ fault.Failed) }
        ensures given_back { IfErr result (λ why. WasOpened (T.seen tape) (T.seen why.1)) }
        ensures cause { IfErr result (λ why. (T.seen why.1).faults ≡ next_count (T.seen tape).faults) }
    {
        match begin(&mut tape) {
            Ok(()) => Ok(Journal {
                tape,
                end: 0,
                count: 0,
            }),
            Err(Failed {}) => Err((JournalFault::Failed, tape)),
        }
    }

    // The fault of the next record.
    fn bad(&self) -> JournalFault
        ensures { result ≡ fault.Bad (min (self.now.count + 1) last_number) }
    {
        JournalFault::Bad {
            number: self.count.saturating_add(1),
        }
    }

    /// The change of the next record, None where all are read. A refusal changes nothing but the tape's count of faults.
    pub fn next(&mut self, alloc: Global) -> Result<Option<Change>, JournalFault>
        ensures next { IfOk result (λ found. (bodies : List (List ℕ)) → HasPassed T.seen self.old bodies → GivesNextChange T.seen self.new bodies found) }
        ensures form { IfOk result (λ found. IfSome found (λ change. IsChange (change_value change))) }
        ensures ready { IfOk result (λ found. IfNone found (IsReading T.seen self.old → IsReady T.seen self.new)) }
        ensures reading { OnOk result (IsReading T.seen self.old → IsReading T.seen self.new) }
        ensures near { IfOk result (λ found. IsSome found → self.new.end ≤ 2 ^ 62) }
        ensures why { IfErr result (λ why. (bodies : List (List ℕ)) → HasPassed T.seen self.old bodies
            → IsTrue (T.seen self.old.tape).told → IsWhy why (T.seen self.old.tape).bytes bodies) }
        ensures stays { OnErr result ((self.new.end ≡ self.old.end) × (self.new.count ≡ self.old.count)) }
        ensures read { IsOnlyRead (T.seen self.old.tape) (T.seen self.new.tape) }
        ensures cause { HasFaultCause (T.seen self.old.tape).faults (T.seen self.new.tape).faults result }
    {
        let body = match look_ahead(alloc, &mut self.tape, self.end)? {
            Ahead::End => return Ok(None),
            Ahead::Bad => return Err(self.bad()),
            Ahead::Body(body) => body,
        };
        let Some(change) = read_change(alloc, &body)? else {
            return Err(self.bad());
        };
        self.end += HEAD_BYTES + body.len() as u64;
        self.count = self.count.saturating_add(1);
        Ok(Some(change))
    }

    /// Appends a record. It is written behind the gate, which is opened only once the record is durable, so a crash at
    /// any moment leaves the records from before, with this one or without. After `Ok` each crash leaves it. After
    /// `Failed` open the tape again.
    pub fn append(&mut self, entry: &Record) -> Result<(), Failed>
        requires ready { IsReady T.seen self.old }
        requires room { self.old.end + length entry.now < 2 ^ 63 }
        ensures appended { OnOk result ((bodies : List (List ℕ)) → IsAtEnd T.seen self.old bodies → IsAtEnd T.seen self.new (bodies ++ entry.now ∷ [])) }
        ensures ready { OnOk result (IsReady T.seen self.new) }
        ensures any_moment { (bodies : List (List ℕ)) → IsAtEnd T.seen self.old bodies → IsTrue (T.seen self.old.tape).told
            → LeavesOnly (T.seen self.old.tape) (T.seen self.new.tape) (LiesBetween bodies (bodies ++ entry.now ∷ [])) }
        ensures end { OnOk result (self.new.end ≡ self.old.end + length entry.now + 5) }
        ensures told { (T.seen self.new.tape).told ≡ (T.seen self.old.tape).told }
        ensures cause { HasCause (T.seen self.old.tape).faults (T.seen self.new.tape).faults result }
    {
        stage(&mut self.tape, self.end, entry)?;
        open_gate(&mut self.tape, self.end)?;
        self.end += entry.step();
        self.count = self.count.saturating_add(1);
        Ok(())
    }

    /// The place of the gate that follows the records read and appended so far.
    pub fn end(&self) -> u64
        ensures { result ≡ self.now.end }
    {
        self.end
    }

    /// The tape.
    pub fn into_tape(self) -> T
        ensures { result ≡ self.tape }
    {
        self.tape
    }
}
