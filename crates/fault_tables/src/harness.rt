// One run over streams, data files and a disk in memory, in which one call may fail.
ghost use Rattle.sand_store.specs.Catalog.{IsLimits};

use page_pool::MemDisk;
use sand_base::{Label, Limits, MemShelf, MemSink, MemSource, NoMemory};
use sand_journal::MemTape;
use session::{Status, run_kept, run_within};
use std::alloc::Global;

/// The bytes that the source gives at a time.
const CHUNK: usize = 16;

/// The bytes for which the sink has room, where it isn't short of it.
const ROOM: usize = 1 << 18;

/// The call that fails, by its number from 1, or the room that is short.
#[derive(Clone, Copy)]
pub enum Fault {
    /// No call fails.
    Nothing,
    /// A read of the script.
    Source(u64),
    /// A write of the answers.
    Sink(u64),
    /// A choice or a read of a data file.
    Shelf(u64),
    /// A call of the disk.
    Disk(u64),
    /// The answers have room for so many bytes.
    Room(usize),
}

/// What a run is over: its words, its script, and its data files with their names.
#[derive(Clone, Copy)]
pub struct Case<'a> {
    pub words: &'a [&'a str],
    pub script: &'a [u8],
    pub files: &'a [(&'a str, &'a [u8])],
}

/// How a run ended, what it wrote, and the calls of its disk.
#[derive(Drop)]
pub struct Answer {
    sink: MemSink,
    pub status: Status,
    pub calls: u64,
}

impl Answer {
    /// What the run wrote.
    pub fn text(&self) -> &[u8] {
        self.sink.bytes()
    }
}

// The numbers of the failing calls of the source, the sink, the shelf and the disk.
fn failing(fault: Fault) -> [Option<u64>; 4] {
    match fault {
        Fault::Nothing | Fault::Room(_) => [None, None, None, None],
        Fault::Source(call) => [Some(call), None, None, None],
        Fault::Sink(call) => [None, Some(call), None, None],
        Fault::Shelf(call) => [None, None, Some(call), None],
        Fault::Disk(call) => [None, None, None, Some(call)],
    }
}

// The room of the sink.
fn room(fault: Fault) -> usize {
    match fault {
        Fault::Room(bytes) => bytes,
        _ => ROOM,
    }
}

// The list of a number, where there is one.
fn listed(alloc: Global, number: Option<u64>) -> Result<Vec<u64>, NoMemory> {
    let mut list = Vec::new(alloc);
    if let Some(number) = number {
        list.push(number)?;
    }
    Ok(list)
}

// The words as the run takes them.
fn labels(alloc: Global, words: &[&str]) -> Result<Vec<Label>, NoMemory> {
    let mut labels = Vec::new(alloc);
    for word in words {
        labels.push(Label::new(alloc, word)?)?;
    }
    Ok(labels)
}

// A data file with its name, as a shelf takes it.
fn named(alloc: Global, name: &str, bytes: &[u8]) -> Result<(Label, Vec<u8>), NoMemory> {
    let label = Label::new(alloc, name)?;
    Ok((label, bytes.to_vec(alloc)?))
}

// Data files, as a shelf takes them.
fn kept(alloc: Global, files: &[(&str, &[u8])]) -> Result<Vec<(Label, Vec<u8>)>, NoMemory> {
    let mut kept = Vec::new(alloc);
    for (name, bytes) in files {
        kept.push(named(alloc, name, bytes)?)?;
    }
    Ok(kept)
}

// A source of the script, with the call that fails.
fn source(alloc: Global, script: &[u8], fails: Option<u64>) -> Result<MemSource, NoMemory> {
    let bytes = script.to_vec(alloc)?;
    Ok(MemSource::new(alloc, bytes, CHUNK, listed(alloc, fails)?))
}

// A shelf with these files, with the call that fails.
fn shelf(alloc: Global, files: &[(&str, &[u8])], fails: Option<u64>) -> Result<MemShelf, NoMemory> {
    let kept = kept(alloc, files)?;
    Ok(MemShelf::new(alloc, kept, listed(alloc, fails)?))
}

// A disk, with the call that fails.
fn disk(alloc: Global, fails: Option<u64>) -> Result<MemDisk, NoMemory> {
    Ok(MemDisk::new(alloc, listed(alloc, fails)?))
}

// A sink with so much room, with the call that fails.
fn sink(alloc: Global, room: usize, fails: Option<u64>) -> Result<MemSink, NoMemory> {
    MemSink::new(alloc, room, listed(alloc, fails)?)
}

// All that a run reads and writes but its words.
#[derive(Drop)]
struct Streams {
    source: MemSource,
    shelf: MemShelf,
    disk: MemDisk,
    sink: MemSink,
}

// Both values, where memory sufficed for both.
fn both<A: Drop, B: Drop>(
    first: Result<A, NoMemory>,
    second: Result<B, NoMemory>,
) -> Result<(A, B), NoMemory> {
    Ok((first?, second?))
}

// The streams of a run, with this fault.
fn streams_of(alloc: Global, case: &Case, fault: Fault) -> Result<Streams, NoMemory> {
    let [source_fails, sink_fails, shelf_fails, disk_fails] = failing(fault);
    let inputs = both(
        source(alloc, case.script, source_fails),
        shelf(alloc, case.files, shelf_fails),
    );
    let outputs = both(
        disk(alloc, disk_fails),
        sink(alloc, room(fault), sink_fails),
    );
    let ((source, shelf), (disk, sink)) = both(inputs, outputs)?;
    Ok(Streams {
        source,
        shelf,
        disk,
        sink,
    })
}

// What comes of a run over these streams.
fn ran(alloc: Global, limits: Limits, words: &[Label], streams: Streams) -> Answer
    requires { IsLimits limits }
{
    let Streams {
        mut source,
        mut shelf,
        disk,
        mut sink,
    } = streams;
    let (status, disk) = run_within(
        alloc,
        limits,
        words,
        &mut source,
        &mut shelf,
        disk,
        &mut sink,
    );
    Answer {
        sink,
        status,
        calls: disk.calls(),
    }
}

/// What comes of a run within these limits, with this fault.
pub fn answer_within(
    alloc: Global,
    limits: Limits,
    case: &Case,
    fault: Fault,
) -> Result<Answer, NoMemory>
    requires { IsLimits limits }
{
    let words = labels(alloc, case.words)?;
    let streams = streams_of(alloc, case, fault)?;
    Ok(ran(alloc, limits, words.as_slice(), streams))
}

/// What comes of a run within the limits of a plain one, with this fault.
pub fn answer_of(alloc: Global, case: &Case, fault: Fault) -> Result<Answer, NoMemory> {
    answer_within(alloc, Limits::standard(), case, fault)
}

// A tape of these bytes, whose call of this number fails.
fn tape(alloc: Global, bytes: &[u8], call: u64) -> Result<MemTape, NoMemory> {
    let fails = listed(alloc, Some(call))?;
    Ok(MemTape::new(alloc, bytes.to_vec(alloc)?, fails))
}

// What comes of a run over these streams and this tape, and the tape then.
fn ran_kept(alloc: Global, words: &[Label], streams: Streams, tape: MemTape) -> (Answer, MemTape) {
    let Streams {
        mut source,
        mut shelf,
        disk,
        mut sink,
    } = streams;
    let (status, disk, tape) = run_kept(
        alloc,
        Limits::standard(),
        words,
        &mut source,
        &mut shelf,
        disk,
        tape,
        &mut sink,
    );
    let answer = Answer {
        sink,
        status,
        calls: disk.calls(),
    };
    (answer, tape)
}

/// What comes of a run over a tape of these bytes, whose call of this number fails, and the tape then.
pub fn answer_kept(
    alloc: Global,
    case: &Case,
    bytes: &[u8],
    call: u64,
) -> Result<(Answer, MemTape), NoMemory> {
    let words = labels(alloc, case.words)?;
    let (streams, tape) = both(
        streams_of(alloc, case, Fault::Nothing),
        tape(alloc, bytes, call),
    )?;
    Ok(ran_kept(alloc, words.as_slice(), streams, tape))
}
