ghost use Rattle.std.specs.Prelude.{◌≡◌, [], false, is_err, IsTrue, IsErr, IfOk, OnOk};
ghost use Rattle.std.specs.Io.{ReadsAtMost, WritesAtMost};
ghost use Rattle.std.specs.Io.KnownBytes.{Keeps, ReadConsumes, WriteAppends};
ghost use Rattle.std.specs.Io.Buffered.{writer_buffer, writer_contents, writer_inner};

use sand_base::{Failed, NoMemory};
use std::alloc::Global;
use std::cell::RefCell;
use std::io::{BufWriter, Error, ErrorKind, Read, Result as IoResult, Write};

/// A writer whose bytes are gathered, up to 8,192 of them, until they are handed on. Once that has failed every write
/// fails.
#[derive(Drop)]
pub struct Outbox<W: Write + Drop> {
    gathered: BufWriter<W>,
    is_broken: bool,
}

impl<W: Write + Drop> Outbox<W> {
    /// An empty outbox. It takes the memory of its bytes.
    pub fn new(alloc: Global, output: W) -> Result<Outbox<W>, NoMemory>
        ensures output { IfOk result (λ outbox. writer_inner outbox.gathered ≡ output) }
        ensures empty { IfOk result (λ outbox. writer_buffer outbox.gathered ≡ []) }
        ensures whole { IfOk result (λ outbox. outbox.is_broken ≡ false) }
    {
        match BufWriter::new(alloc, output) {
            Ok(gathered) => Ok(Outbox {
                gathered,
                is_broken: false,
            }),
            Err(_) => Err(NoMemory {}),
        }
    }

    /// Hands on all that is gathered. After `Failed` the bytes that the output has not taken stay gathered, and the
    /// outbox is broken: it hands nothing on any more.
    pub fn hand_on(&mut self) -> Result<(), Failed>
        ensures empty { OnOk result (writer_buffer self.new.gathered ≡ []) }
        ensures kept { Keeps (writer_contents W.contents self.old.gathered) (writer_contents W.contents self.new.gathered) }
        ensures broken { self.new.is_broken ≡ is_err result }
        ensures stays { IsTrue self.old.is_broken → IsErr result }
    {
        if self.is_broken || self.gathered.flush().is_err() {
            self.is_broken = true;
            return Err(Failed {});
        }
        Ok(())
    }

    // Gathers bytes from the front of the piece, and hands on what was gathered before where there is no room.
    fn gather(&mut self, piece: &[u8]) -> IoResult<usize>
        ensures bound { WritesAtMost result piece.now }
        ensures bytes { WriteAppends (writer_contents W.contents self.old.gathered) (writer_contents W.contents self.new.gathered) result piece.now }
        ensures broken { self.new.is_broken ≡ is_err result }
        ensures stays { IsTrue self.old.is_broken → IsErr result }
    {
        if self.is_broken {
            return Err(Error::from(ErrorKind::BrokenPipe));
        }
        let gathered = self.gathered.write(piece);
        self.is_broken = gathered.is_err();
        gathered
    }
}

/// Writes into an outbox that a reader hands on. It tells nothing of the bytes.
pub struct OutboxWriter<'o, W: Write + Drop> {
    outbox: &'o RefCell<Outbox<W>>,
}

impl<'o, W: Write + Drop> OutboxWriter<'o, W> {
    /// A writer into this outbox. Others may share it.
    pub fn new(outbox: &'o RefCell<Outbox<W>>) -> OutboxWriter<'o, W> {
        OutboxWriter { outbox }
    }
}

impl<'o, W: Write + Drop> Drop for OutboxWriter<'o, W> {
    fn drop(self) {
        let OutboxWriter { outbox: _ } = self;
    }
}

impl<'o, W: Write + Drop> Write for OutboxWriter<'o, W> {
    fn write(&mut self, piece: &[u8]) -> IoResult<usize> {
        match self.outbox.try_borrow_mut() {
            Ok(mut outbox) => outbox.gather(piece),
            Err(_) => Err(Error::from(ErrorKind::Other)),
        }
    }

    fn flush(&mut self) -> IoResult<()> {
        Ok(())
    }
}

/// Reads once all that an outbox has gathered is handed on, so that who is asked for more has what came before. Where
/// that fails nothing more is read: the read fails, and so does each later one.
pub struct PromptReader<'o, R: Read + Drop, W: Write + Drop> {
    input: R,
    outbox: &'o RefCell<Outbox<W>>,
}

// What the input gives next, once all that is gathered is handed on.
fn read_behind<R: Read + Drop, W: Write + Drop>(
    outbox: &mut Outbox<W>,
    input: &mut R,
    piece: &mut [u8],
) -> IoResult<usize>
    ensures broken { IsTrue outbox.new.is_broken → IsErr result × (input.new ≡ input.old) }
    ensures stays { IsTrue outbox.old.is_broken → IsTrue outbox.new.is_broken }
    ensures empty { IfOk result (λ n. writer_buffer outbox.new.gathered ≡ []) }
    ensures bound { ReadsAtMost result piece.new }
    ensures bytes { ReadConsumes (R.remaining input.old) (R.remaining input.new) result piece.new }
{
    match outbox.hand_on() {
        Ok(()) => input.read(piece),
        Err(Failed {}) => Err(Error::from(ErrorKind::BrokenPipe)),
    }
}

impl<'o, R: Read + Drop, W: Write + Drop> PromptReader<'o, R, W> {
    /// A reader of this input, which hands on what this outbox has gathered.
    pub fn new(input: R, outbox: &'o RefCell<Outbox<W>>) -> PromptReader<'o, R, W>
        ensures input { result.input ≡ input }
    {
        PromptReader { input, outbox }
    }
}

impl<'o, R: Read + Drop, W: Write + Drop> Drop for PromptReader<'o, R, W> {
    fn drop(self) {
        let PromptReader {
            input: _input,
            outbox: _,
        } = self;
    }
}

impl<'o, R: Read + Drop, W: Write + Drop> Read for PromptReader<'o, R, W> {
    ghost remaining = { λ r. R.remaining r.input };

    fn read(&mut self, piece: &mut [u8]) -> IoResult<usize> {
        match self.outbox.try_borrow_mut() {
            Ok(mut outbox) => read_behind(&mut outbox, &mut self.input, piece),
            Err(_) => Err(Error::from(ErrorKind::Other)),
        }
    }
}
