ghost use Rattle.std.specs.Prelude.{◌≡◌, ◌≤◌, [], ℕ, List, Option, true, false, length, IfOk, IfSome};
ghost use Rattle.sand_base.specs.Faults.{HasCause};
ghost use Rattle.script_lines.specs.Parts.{BytesFall, FillsLine, SeeksStop};
ghost use Rattle.script_lines.specs.Reading.{EndsLines, LeavesLess, HasFound, Pulls, ReadsLines, found_line, hand_of};
ghost use Rattle.script_text.specs.declared.TheConstants.{LONGEST_LINE};

use crate::chunk::Chunk;
use crate::open_line::OpenLine;
use sand_base::{Failed, NoMemory, Source};
use std::alloc::Global;

/// What the next of a script is.
#[derive(Clone, Copy, Debug, PartialEq, Eq)]
pub enum Found {
    /// A line, which the reader has in hand.
    Line,
    /// A line of more bytes than a line may have.
    TooLong,
    /// The end of the script.
    End,
    /// One byte more than a script may have; no line is taken from there on.
    ScriptTooLong,
}

// Where the bytes of a line end.
#[derive(Clone, Copy, Debug, PartialEq, Eq)]
enum Stop {
    LineFeed,
    End,
    ScriptTooLong,
}

/// A reader of the lines of a script, without their line feeds.
#[derive(Drop)]
pub struct ScriptLines {
    chunk: Chunk,
    line: OpenLine,
    is_given: bool,
    is_ended: bool,
}

// The bytes ahead join the line in hand, up to a line feed. False where there is none.
fn fill_line(chunk: &mut Chunk, line: &mut OpenLine) -> bool
    ensures fills { FillsLine result line.old line.new chunk.old.ahead chunk.new.ahead }
    ensures count { chunk.new.count ≡ chunk.old.count }
{
    'bytes: while let Some(byte) = chunk.next() {
        if byte == b'\n' {
            return true;
        }
        line.push(byte);
    }
    false
}

// Reads on until a line feed is met or no more comes.
fn seek<S: Source>(chunk: &mut Chunk, line: &mut OpenLine, script: &mut S) -> Result<Stop, Failed>
    ensures seeks { SeeksStop result chunk.old chunk.new line.old line.new (S.left script.old) (S.left script.new) }
    ensures fall { BytesFall result chunk.old chunk.new }
    ensures cause { HasCause (S.faults script.old) (S.faults script.new) result }
{
    'pieces: loop {
        if fill_line(chunk, line) {
            return Ok(Stop::LineFeed);
        }
        if chunk.is_over() {
            return Ok(Stop::ScriptTooLong);
        }
        match chunk.refill(script) {
            Ok(true) => {}
            Ok(false) => return Ok(Stop::End),
            Err(Failed {}) => return Err(Failed {}),
        }
    }
}

impl ScriptLines {
    /// A reader before the first byte. It takes the memory for the longest line.
    pub fn new(alloc: Global) -> Result<ScriptLines, NoMemory>
        ensures { IfOk result (λ reader. (left : Option (List ℕ)) → ReadsLines reader left [] []) }
    {
        Ok(ScriptLines {
            chunk: Chunk::new(),
            line: OpenLine::new(alloc)?,
            is_given: false,
            is_ended: false,
        })
    }

    /// The next line. The source is read only where no line ends in the bytes in hand.
    pub fn next<S: Source>(&mut self, script: &mut S) -> Result<Found, Failed>
        ensures pulls { Pulls result self.old self.new (S.left script.old) (S.left script.new) }
        ensures found { HasFound result self.new.line }
        ensures falls { LeavesLess result self.old self.new }
        ensures cause { HasCause (S.faults script.old) (S.faults script.new) result }
    {
        if self.is_ended {
            return Ok(Found::End);
        }
        self.begin_line();
        match seek(&mut self.chunk, &mut self.line, script) {
            Ok(Stop::LineFeed) => Ok(self.give()),
            Ok(Stop::End) => Ok(self.end()),
            Ok(Stop::ScriptTooLong) => Ok(Found::ScriptTooLong),
            Err(Failed {}) => Err(Failed {}),
        }
    }

    /// The bytes of the line that was found.
    pub fn line(&self) -> &[u8]
        ensures value { IfSome self.now.line (λ line. result.now ≡ line) }
        ensures short { length result.now ≤ LONGEST_LINE }
    {
        self.line.bytes()
    }

    // A line that was given is in hand no more.
    fn begin_line(&mut self)
        ensures { self.new ≡ record self.old { line = hand_of self.old; is_given = false } }
    {
        if self.is_given {
            self.line.clear();
            self.is_given = false;
        }
    }

    // The line in hand is given.
    fn give(&mut self) -> Found
        ensures given { self.new ≡ record self.old { is_given = true } }
        ensures found { result ≡ found_line self.old.line }
    {
        self.is_given = true;
        if self.line.is_short() {
            Found::Line
        } else {
            Found::TooLong
        }
    }

    // The end of the script: a last line without a line feed is given too.
    fn end(&mut self) -> Found
        ensures { EndsLines self.old self.new result }
    {
        self.is_ended = true;
        if self.line.is_empty() {
            return Found::End;
        }
        self.give()
    }
}
