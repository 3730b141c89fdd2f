ghost use Rattle.std.specs.Prelude.{◌≡◌, ◌+◌, ◌-◌, ◌≤◌, ◌++◌, ◌∷◌, ◌^◌, ◌<◌, [], true, false, IsTrue, IfOk, OnOk, OnErr, Some, None, length, min, take, drop};
ghost use Rattle.sand_base.specs.Calls.{no_calls};
ghost use Rattle.sand_journal.specs.Tape.{StartsTape, ReadsTape, WritesTape, SyncsTape};
ghost use Rattle.sand_journal.specs.MemTape.{TapeContents, after_event, contents_of, held_by, image_of, put_over, read_of, mem_tape_view, IsLeft};
ghost use Rattle.sand_journal.specs.MemTapeEvents.{event_of, events_of, latest_or};
ghost use Rattle.sand_journal.specs.Replay.{IsReplay};
ghost use Rattle.sand_journal.specs.MemTapeLaws.{written_is_torn, left_now, left_since_now};

use crate::Tape;
use crate::tape_call::TapeCall;
use sand_base::{Calls, Failed, NoMemory};
use std::alloc::Global;
use std::marker::Model;

/// A tape in memory that fails at the calls that a list names, tells everything, and keeps each write and sync. Its
/// contents are those of one file, whatever name it is started by.
#[derive(Drop)]
pub struct MemTape {
    alloc: Global,
    first: Vec<u8>,
    latest: Option<Vec<u8>>,
    made: Vec<TapeCall>,
    started: bool,
    calls: Calls,
}

impl Model for MemTape {
    ghost use Rattle.sand_journal.specs.MemTape.{MemTapeState};
    ghost use Rattle.sand_journal.specs.MemTapeCode.{mem_tape_code};
    ghost use Rattle.sand_journal.specs.MemTapeEvents.{events_of as kept_events, IsCurrent};

    ghost Value = { MemTapeState };

    ghost coded = { mem_tape_code };

    ghost view = { λ a. record { first = a.first.items; events = kept_events a.made.items; started = a.started; calls = a.calls } };

    ghost invariant = { λ a. IsCurrent a.first.items a.latest a.made.items };
}

// What a read gives: the bytes at first, until a write has changed them.
fn current<'a>(first: &'a Vec<u8>, latest: &'a Option<Vec<u8>>) -> &'a [u8]
    ensures { result.now ≡ latest_or first.now.items latest.now }
{
    match latest {
        Some(bytes) => bytes,
        None => first,
    }
}

// The bytes with others over them from this place on.
fn put_over(alloc: Global, bytes: &[u8], at: usize, piece: &[u8]) -> Result<Vec<u8>, NoMemory>
    ensures { IfOk result (λ all. all.items ≡ put_over (at, piece.now) bytes.now) }
{
    let mut all = bytes[..at.min(bytes.len())].to_vec(alloc)?;
    all.extend_from_slice(piece)?;
    let behind = at.saturating_add(piece.len());
    if behind < bytes.len() {
        all.extend_from_slice(&bytes[behind..])?;
    }
    Ok(all)
}

// Copies what the bytes have from this place on into the front of the piece, and says how many they are.
fn copy_from(bytes: &[u8], at: u64, piece: &mut [u8]) -> usize
    ensures count { result ≡ min (length piece.new) (length bytes.now - at) }
    ensures given { take result piece.new ≡ take result (drop at bytes.now) }
{
    if at >= bytes.len() as u64 {
        return 0;
    }
    let rest = &bytes[at as usize..];
    let count = piece.len().min(rest.len());
    piece[..count].copy_from_slice(&rest[..count]);
    count
}

// Carries out a write and keeps it.
fn write(
    alloc: Global,
    first: &Vec<u8>,
    latest: &mut Option<Vec<u8>>,
    made: &mut Vec<TapeCall>,
    at: usize,
    piece: &[u8],
) -> Result<(), NoMemory>
    ensures bytes { OnOk result (latest_or first.now.items latest.new ≡ put_over (at, piece.now) (latest_or first.now.items latest.old)) }
    ensures kept { OnOk result (events_of made.new.items ≡ events_of made.old.items ++ Some (at, piece.now) ∷ []) }
    ensures bytes_stay { OnErr result (latest_or first.now.items latest.new ≡ latest_or first.now.items latest.old) }
    ensures calls_stay { OnErr result (made.new.items ≡ made.old.items) }
{
    let next = put_over(alloc, current(first, latest), at, piece)?;
    let bytes = piece.to_vec(alloc)?;
    made.push(TapeCall::Write { at, bytes })?;
    *latest = Some(next);
    Ok(())
}

// Keeps a sync.
fn keep_sync(made: &mut Vec<TapeCall>) -> Result<(), NoMemory>
    ensures kept { OnOk result (events_of made.new.items ≡ events_of made.old.items ++ None ∷ []) }
    ensures calls_stay { OnErr result (made.new.items ≡ made.old.items) }
{
    made.push(TapeCall::Sync)?;
    Ok(())
}

// The calls of a tape carried out again: what a read gives, the image after some of the writes behind the last sync, and
// how many writes are behind it.
#[derive(Drop)]
struct Replay {
    read: Vec<u8>,
    image: Vec<u8>,
    later: usize,
}

// Carries out one more call. A write is carried out in the image too, as long as it is one of the first of the later ones.
fn carry_out(
    alloc: Global,
    replay: &mut Replay,
    call: &TapeCall,
    writes: usize,
) -> Result<(), NoMemory>
    ensures { OnOk result ((held : TapeContents) → IsReplay replay.old held writes → IsReplay replay.new (after_event held (event_of call.now)) writes) }
{
    match call {
        TapeCall::Write { at, bytes } => {
            if replay.later < writes {
                replay.image = put_over(alloc, &replay.image, *at, bytes)?;
            }
            replay.read = put_over(alloc, &replay.read, *at, bytes)?;
            replay.later = replay.later.saturating_add(1);
        }
        TapeCall::Sync => {
            replay.image = replay.read.to_vec(alloc)?;
            replay.later = 0;
        }
    }
    Ok(())
}

// The image after these calls over these bytes.
fn image_after(
    alloc: Global,
    first: &[u8],
    made: &[TapeCall],
    writes: usize,
) -> Result<Vec<u8>, NoMemory>
    ensures { IfOk result (λ image. image.items ≡ image_of (contents_of first.now (events_of made.now)) writes) }
{
    let mut replay = Replay {
        read: first.to_vec(alloc)?,
        image: first.to_vec(alloc)?,
        later: 0,
    };
    'calls: for call in made {
        carry_out(alloc, &mut replay, call, writes)?;
    }
    Ok(replay.image)
}

impl MemTape {
    /// A tape that holds these bytes, all of them durable. A call fails where `fails` has its number, which counts from 1.
    pub fn new(alloc: Global, bytes: Vec<u8>, fails: Vec<u64>) -> MemTape
        ensures { result ≡ record { first = bytes.items; events = []; started = false; calls = no_calls fails.items } }
    {
        MemTape {
            alloc,
            first: bytes,
            latest: None,
            made: Vec::new(alloc),
            started: false,
            calls: Calls::new(fails),
        }
    }

    /// An image that a crash now may leave: the bytes after the last sync, or those at first where there was none, with
    /// the first `writes` later writes carried out and the others not.
    pub fn image(&self, alloc: Global, writes: usize) -> Result<Vec<u8>, NoMemory>
        ensures image { IfOk result (λ bytes. bytes.items ≡ image_of (held_by self.now) writes) }
        ensures left { IfOk result (λ bytes. IsLeft (held_by self.now) bytes.items) }
    {
        let image = image_after(alloc, &self.first, &self.made, writes)?;
        Ok(image)
    }

    /// The bytes that a read gives.
    pub fn bytes(&self) -> &[u8]
        ensures { result.now ≡ read_of (held_by self.now) }
    {
        current(&self.first, &self.latest)
    }
}

impl Tape for MemTape {
    ghost seen = { mem_tape_view };

    ghost reads_an_image = { λ s told. written_is_torn (held_by s).base (held_by s).writes };

    ghost now_counts = { λ s t image told le left. left_now s t image le left };

    ghost now_is_all = { λ s image told since. left_since_now s image since };

    fn start(&mut self, name: &str) -> Result<(), Failed>
        ensures { StartsTape (mem_tape_view self.old) (mem_tape_view self.new) result }
    {
        match self.calls.begin() {
            Ok(()) => {
                self.started = true;
                Ok(())
            }
            Err(why) => Err(why),
        }
    }

    fn read_at(&mut self, at: u64, piece: &mut [u8]) -> Result<usize, Failed>
        ensures { ReadsTape (mem_tape_view self.old) (mem_tape_view self.new) at piece.new result }
    {
        match self.calls.begin() {
            Ok(()) => Ok(copy_from(current(&self.first, &self.latest), at, piece)),
            Err(why) => Err(why),
        }
    }

    fn write_at(&mut self, at: u64, bytes: &[u8]) -> Result<(), Failed>
        ensures { WritesTape (mem_tape_view self.old) (mem_tape_view self.new) at bytes.now result }
    {
        match self.calls.begin() {
            Ok(()) => {}
            Err(why) => return Err(why),
        }
        match write(
            self.alloc,
            &self.first,
            &mut self.latest,
            &mut self.made,
            at as usize,
            bytes,
        ) {
            Ok(()) => Ok(()),
            Err(_) => Err(self.calls.fault()),
        }
    }

    fn sync(&mut self) -> Result<(), Failed>
        ensures { SyncsTape (mem_tape_view self.old) (mem_tape_view self.new) result }
    {
        match self.calls.begin() {
            Ok(()) => {}
            Err(why) => return Err(why),
        }
        match keep_sync(&mut self.made) {
            Ok(()) => Ok(()),
            Err(_) => Err(self.calls.fault()),
        }
    }
}
