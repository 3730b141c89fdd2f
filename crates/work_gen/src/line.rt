// One line of the workload, in a buffer of its own.
ghost use Rattle.std.specs.Prelude.{◌≡◌, ◌+◌, ◌≤◌, ◌<◌, [], ◌∷◌, ◌++◌, length};
ghost use Rattle.std.specs.Fmt.{decimal};
ghost use Rattle.work_gen.specs.Workload.{spot_text};

use std::marker::Model;

// Room for the longest line, which has 65 bytes.
const ROOM: usize = 80;

// A line; it is seen as the list of its bytes.
#[derive(Drop)]
pub(crate) struct Line {
    bytes: [u8; ROOM],
    len: usize,
}

impl Model for Line {
    ghost use Rattle.std.specs.Prelude.{List, ℕ, take, ◌≤◌};
    ghost use Rattle.work_gen.specs.declared.line.TheConstants.{ROOM};

    ghost Value = { List ℕ };

    ghost view = { λ line. take line.len line.bytes };

    ghost invariant = { λ line. line.len ≤ ROOM };
}

impl Line {
    pub(crate) fn new() -> Line
        ensures { result ≡ [] }
    {
        Line {
            bytes: [0; ROOM],
            len: 0,
        }
    }

    pub(crate) fn as_bytes(&self) -> &[u8]
        ensures all { result.now ≡ self.now }
        ensures short { length result.now ≤ ROOM }
    {
        &self.bytes[..self.len]
    }

    // The line is only this text.
    pub(crate) fn begin(&mut self, text: &str)
        requires { length text.now ≤ ROOM }
        ensures value { self.new ≡ text.now }
        ensures long { length self.new ≡ length text.now }
    {
        self.len = 0;
        self.text(text);
    }

    // The text at the end.
    pub(crate) fn text(&mut self, text: &str)
        requires { length self.old + length text.now ≤ ROOM }
        ensures value { self.new ≡ self.old ++ text.now }
        ensures longer { length self.new ≡ length self.old + length text.now }
    {
        append(self, text.as_bytes());
    }

    // A byte at the end.
    fn byte(&mut self, byte: u8)
        requires { length self.old < ROOM }
        ensures value { self.new ≡ self.old ++ byte ∷ [] }
        ensures longer { length self.new ≡ length self.old + 1 }
    {
        self.bytes[self.len] = byte;
        self.len += 1;
    }

    // A number in decimal at the end: at most 5 bytes.
    #[tactic(auto, using(crate::proofs::Digits::of_number))]
    pub(crate) fn number(&mut self, number: u16)
        requires { length self.old + 5 ≤ ROOM }
        ensures value { self.new ≡ self.old ++ decimal number }
        ensures longer { length self.new ≤ length self.old + 5 }
    {
        self.digits(number);
    }

    // The digits of a number at the end, the first ones first.
    #[tactic(auto, using(crate::proofs::Digits::of_number))]
    fn digits(&mut self, number: u16)
        requires { length self.old + length (decimal number) ≤ ROOM }
        ensures value { self.new ≡ self.old ++ decimal number }
        ensures longer { length self.new ≡ length self.old + length (decimal number) }
    {
        if number < 10 {
            self.byte(b'0' + number as u8);
        } else {
            self.digits(number / 10);
            self.byte(b'0' + (number % 10) as u8);
        }
    }

    // A grid point at the end: at most 13 bytes.
    #[tactic(auto, using(std::proofs::lemmas::List::append_assoc))]
    pub(crate) fn spot(&mut self, x: u16, y: u16)
        requires { length self.old + 13 ≤ ROOM }
        ensures value { self.new ≡ self.old ++ spot_text x y }
        ensures longer { length self.new ≤ length self.old + 13 }
    {
        self.byte(b'(');
        self.number(x);
        self.byte(b' ');
        self.number(y);
        self.byte(b')');
    }
}

// The bytes at the end of the line.
fn append(line: &mut Line, bytes: &[u8])
    requires { length line.old + length bytes.now ≤ ROOM }
    ensures { line.new ≡ line.old ++ bytes.now }
{
    'bytes: for byte in bytes {
        line.byte(*byte);
    }
}
