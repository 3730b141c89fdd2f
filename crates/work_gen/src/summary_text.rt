ghost use Rattle.std.specs.Prelude.{◌≡◌, ◌+◌, ◌*◌, ◌<◌, ◌≤◌, [], ◌∷◌, ◌++◌, codes, length};
ghost use Rattle.std.specs.Fmt.{decimal};
ghost use Rattle.work_gen.specs.Summary.{hex_digit, hexadecimal, told_line};
ghost use Rattle.work_gen.specs.declared.summary_text.TheConstants.{ROOM};

use std::marker::Model;

// Room for the longest summary.
const ROOM: usize = 160;

/// A summary, in a fixed buffer. Contracts see the list of its bytes.
#[derive(Drop)]
pub struct SummaryText {
    bytes: [u8; ROOM],
    len: usize,
}

impl Model for SummaryText {
    ghost use Rattle.std.specs.Prelude.{ℕ, ◌≤◌, List, take};
    ghost use Rattle.work_gen.specs.declared.summary_text.TheConstants.{ROOM};

    ghost Value = { List ℕ };

    ghost view = { λ text. take text.len text.bytes };

    ghost invariant = { λ text. text.len ≤ ROOM };
}

impl SummaryText {
    // The empty text.
    pub(crate) fn new() -> SummaryText
        ensures { result ≡ [] }
    {
        SummaryText {
            bytes: [0; ROOM],
            len: 0,
        }
    }

    /// The bytes of the four lines.
    pub fn as_bytes(&self) -> &[u8]
        ensures { result.now ≡ self.now }
    {
        &self.bytes[..self.len]
    }

    // One more byte.
    fn push(&mut self, byte: u8)
        requires { length self.old < ROOM }
        ensures { self.new ≡ self.old ++ byte ∷ [] }
    {
        self.bytes[self.len] = byte;
        self.len += 1;
    }
}

// More bytes at the end.
fn append(text: &mut SummaryText, more: &[u8])
    requires { length text.old + length more.now ≤ ROOM }
    ensures text { text.new ≡ text.old ++ more.now }
    ensures len { length text.new ≡ length text.old + length more.now }
{
    for byte in more {
        text.push(*byte);
    }
}

// A number in decimal at the end.
fn append_number(text: &mut SummaryText, number: u64)
    requires { length text.old + length (decimal number) ≤ ROOM }
    ensures text { text.new ≡ text.old ++ decimal number }
    ensures len { length text.new ≡ length text.old + length (decimal number) }
{
    if number < 10 {
        text.push(b'0' + number as u8);
        return;
    }
    append_number(text, number / 10);
    text.push(b'0' + (number % 10) as u8);
}

// A digit below 16.
fn hex_digit(digit: u8) -> u8
    requires { digit < 16 }
    ensures { result ≡ hex_digit digit }
{
    if digit < 10 {
        b'0' + digit
    } else {
        b'a' - 10 + digit
    }
}

// Bytes in hexadecimal at the end.
fn append_hexadecimal(text: &mut SummaryText, bytes: &[u8])
    requires { length text.old + 2 * length bytes.now ≤ ROOM }
    ensures text { text.new ≡ text.old ++ hexadecimal bytes.now }
    ensures len { length text.new ≡ length text.old + 2 * length bytes.now }
{
    'bytes: for byte in bytes {
        text.push(hex_digit(*byte / 16));
        text.push(hex_digit(*byte % 16));
    }
}

// The line of a number.
pub(crate) fn append_count(text: &mut SummaryText, word: &str, number: u64)
    requires { length text.old + length word.now + 22 ≤ ROOM }
    ensures text { text.new ≡ text.old ++ told_line word.now (decimal number) }
    ensures len { length text.new ≤ length text.old + length word.now + 22 }
{
    append(text, word.as_bytes());
    append(text, b" ");
    append_number(text, number);
    append(text, b"\n");
}

// The line of a digest.
pub(crate) fn append_digest(text: &mut SummaryText, digest: &[u8; 32])
    requires { length text.old + 72 ≤ ROOM }
    ensures { text.new ≡ text.old ++ told_line (codes "sha256") (hexadecimal digest.now) }
{
    append(text, b"sha256 ");
    append_hexadecimal(text, digest.as_slice());
    append(text, b"\n");
}
