ghost use Rattle.std.specs.Prelude.{◌≡◌, ◌+◌, ◌*◌, ◌<◌, ◌≤◌, [], ◌∷◌, ◌++◌, length, map, OnOk, OnErr};
ghost use Rattle.std.specs.Fmt.{decimal, signed_decimal};
ghost use Rattle.sand_base.specs.Faults.{HasCause};
ghost use Rattle.sand_base.specs.Streams.{Adds};
ghost use Rattle.output_text.specs.Forming.{Forms};
ghost use Rattle.output_text.specs.Joined.{led};
ghost use Rattle.output_text.specs.Writing.{AddsPrefix};
ghost use Rattle.output_text.specs.declared.pending.TheConstants.{CAPACITY, MOST_BEFORE, MOST_DIGITS};

use crate::sinks::write_all;
use sand_base::{Failed, Sink};
use std::marker::Model;

/// How many bytes are joined at most: some numbers of a row and a short text.
pub const CAPACITY: usize = 128;

/// How many digits a number of 64 bits has at most.
pub const MOST_DIGITS: usize = 20;

/// How many bytes stand at most before a number or a point that is written with them.
pub const MOST_BEFORE: usize = 16;

/// The part of a line that isn't written yet, in a fixed buffer. Contracts see the list of its bytes.
#[derive(Drop)]
pub struct Pending {
    bytes: [u8; CAPACITY],
    len: usize,
}

impl Model for Pending {
    ghost use Rattle.std.specs.Prelude.{ℕ, ◌≤◌, List, take};
    ghost use Rattle.output_text.specs.declared.pending.TheConstants.{CAPACITY};

    ghost Value = { List ℕ };

    ghost view = { λ a. take a.len a.bytes };

    ghost invariant = { λ a. a.len ≤ CAPACITY };
}

// How many digits a number has in decimal.
fn count_digits(number: u64) -> usize
    ensures { result ≡ length (decimal number) }
{
    if number < 10 {
        return 1;
    }
    number.ilog10() as usize + 1
}

// Writes a number in decimal into as many bytes as it has digits, from the last digit to the first.
fn write_digits(digits: &mut [u8], number: u64)
    requires { length digits.old ≡ length (decimal number) }
    ensures { digits.new ≡ decimal number }
{
    let mut at = digits.len();
    let mut left = number;
    'digits: while left >= 10 {
        at -= 1;
        digits[at] = b'0' + (left % 10) as u8;
        left /= 10;
    }
    digits[0] = b'0' + left as u8;
}

// A number in decimal at the end, for which there is room.
fn append_digits(line: &mut Pending, number: u64)
    requires { length line.old + length (decimal number) ≤ CAPACITY }
    ensures { line.new ≡ line.old ++ decimal number }
{
    let end = line.len + count_digits(number);
    write_digits(&mut line.bytes[line.len..end], number);
    line.len = end;
}

impl Pending {
    /// Nothing yet.
    pub fn new() -> Pending
        ensures { result ≡ [] }
    {
        Pending {
            bytes: [0; CAPACITY],
            len: 0,
        }
    }

    // The bytes that are held.
    fn as_bytes(&self) -> &[u8]
        ensures { result.now ≡ self.now }
    {
        &self.bytes[..self.len]
    }

    // Forgets the bytes.
    fn clear(&mut self)
        ensures { self.new ≡ [] }
    {
        self.len = 0;
    }

    // How many bytes are held.
    fn len(&self) -> usize
        ensures len { result ≡ length self.now }
        ensures most { result ≤ CAPACITY }
    {
        self.len
    }

    /// One more byte, for which there is room.
    pub fn push(&mut self, byte: u8)
        requires { length self.old < CAPACITY }
        ensures text { self.new ≡ self.old ++ byte ∷ [] }
        ensures len { length self.new ≡ length self.old + 1 }
    {
        self.bytes[self.len] = byte;
        self.len += 1;
    }

    // A few more bytes, one by one, which takes less time than a call that copies them.
    fn append_short(&mut self, more: &[u8])
        requires { length self.old + length more.now ≤ CAPACITY }
        ensures { self.new ≡ self.old ++ more.now }
    {
        'bytes: for byte in more {
            self.push(*byte);
        }
    }

    /// More bytes, for which there is room.
    pub fn append(&mut self, more: &[u8])
        requires { length self.old + length more.now ≤ CAPACITY }
        ensures text { self.new ≡ self.old ++ more.now }
        ensures len { length self.new ≡ length self.old + length more.now }
    {
        if more.len() <= MOST_BEFORE {
            self.append_short(more);
            return;
        }
        let end = self.len + more.len();
        self.bytes[self.len..end].copy_from_slice(more);
        self.len = end;
    }

    /// A number in decimal, for which there is room.
    pub fn append_number(&mut self, number: u64)
        requires { length self.old + MOST_DIGITS ≤ CAPACITY }
        ensures text { self.new ≡ self.old ++ decimal number }
        ensures len { length self.new ≤ length self.old + MOST_DIGITS }
    {
        append_digits(self, number);
    }

    /// A number in decimal, with its sign where it is below 0.
    pub fn append_int(&mut self, number: i64)
        requires { length self.old + MOST_DIGITS + 1 ≤ CAPACITY }
        ensures text { self.new ≡ self.old ++ signed_decimal number }
        ensures len { length self.new ≤ length self.old + MOST_DIGITS + 1 }
    {
        if number < 0 {
            self.push(b'-');
        }
        self.append_number(number.unsigned_abs());
    }

    // Writes the bytes that are held.
    fn flush<K: Sink>(&mut self, out: &mut K) -> Result<(), Failed>
        ensures written { OnOk result (Adds (K.took out.old) (K.took out.new) self.old) }
        ensures empty { OnOk result (self.new ≡ []) }
        ensures prefix { OnErr result (AddsPrefix (K.took out.old) (K.took out.new) self.old) }
        ensures cause { HasCause (K.faults out.old) (K.faults out.new) result }
    {
        write_all(out, self.as_bytes())?;
        self.clear();
        Ok(())
    }

    /// Makes room for so many bytes: what is held is written where it is in the way.
    pub fn reserve<K: Sink>(&mut self, out: &mut K, count: usize) -> Result<(), Failed>
        requires { count ≤ CAPACITY }
        ensures formed { OnOk result (Forms (K.took out.old) (K.took out.new) self.old self.new []) }
        ensures room { OnOk result (length self.new + count ≤ CAPACITY) }
        ensures prefix { OnErr result (AddsPrefix (K.took out.old) (K.took out.new) self.old) }
        ensures cause { HasCause (K.faults out.old) (K.faults out.new) result }
    {
        if count > CAPACITY - self.len() {
            self.flush(out)?;
        }
        Ok(())
    }

    /// Any bytes, however many.
    pub fn put<K: Sink>(&mut self, out: &mut K, text: &[u8]) -> Result<(), Failed>
        ensures formed { OnOk result (Forms (K.took out.old) (K.took out.new) self.old self.new text.now) }
        ensures prefix { OnErr result (AddsPrefix (K.took out.old) (K.took out.new) (self.old ++ text.now)) }
        ensures cause { HasCause (K.faults out.old) (K.faults out.new) result }
    {
        if text.len() > CAPACITY {
            self.flush(out)?;
            write_all(out, text)?;
            return Ok(());
        }
        self.reserve(out, text.len())?;
        self.append(text);
        Ok(())
    }

    /// A number in decimal behind some bytes.
    pub fn put_number<K: Sink>(
        &mut self,
        out: &mut K,
        before: &[u8],
        number: u64,
    ) -> Result<(), Failed>
        requires { length before.now ≤ MOST_BEFORE }
        ensures formed { OnOk result (Forms (K.took out.old) (K.took out.new) self.old self.new (before.now ++ decimal number)) }
        ensures prefix { OnErr result (AddsPrefix (K.took out.old) (K.took out.new) (self.old ++ (before.now ++ decimal number))) }
        ensures cause { HasCause (K.faults out.old) (K.faults out.new) result }
    {
        self.reserve(out, before.len() + MOST_DIGITS)?;
        self.append(before);
        self.append_number(number);
        Ok(())
    }

    /// Numbers, each behind some bytes.
    pub fn put_numbers<K: Sink>(
        &mut self,
        out: &mut K,
        before: &[u8],
        numbers: &[u32],
    ) -> Result<(), Failed>
        requires { length before.now ≤ MOST_BEFORE }
        ensures formed { OnOk result (Forms (K.took out.old) (K.took out.new) self.old self.new (led before.now (map decimal numbers.now))) }
        ensures prefix { OnErr result (AddsPrefix (K.took out.old) (K.took out.new) (self.old ++ led before.now (map decimal numbers.now))) }
        ensures cause { HasCause (K.faults out.old) (K.faults out.new) result }
    {
        'numbers: for number in numbers {
            self.put_number(out, before, u64::from(*number))?;
        }
        Ok(())
    }

    /// Numbers, each behind a tab, for which there is room.
    pub fn append_tabbed(&mut self, numbers: &[u32])
        requires { length self.old + length numbers.now * (MOST_DIGITS + 1) ≤ CAPACITY }
        ensures text { self.new ≡ self.old ++ led (9 ∷ []) (map decimal numbers.now) }
        ensures len { length self.new ≤ length self.old + length numbers.now * (MOST_DIGITS + 1) }
    {
        'numbers: for number in numbers {
            self.push(b'\t');
            self.append_number(u64::from(*number));
        }
    }

    /// The line feed, for which there is room; then all is written.
    pub fn end_short<K: Sink>(&mut self, out: &mut K) -> Result<(), Failed>
        requires { length self.old < CAPACITY }
        ensures written { OnOk result (Adds (K.took out.old) (K.took out.new) (self.old ++ 10 ∷ [])) }
        ensures prefix { OnErr result (AddsPrefix (K.took out.old) (K.took out.new) (self.old ++ 10 ∷ [])) }
        ensures cause { HasCause (K.faults out.old) (K.faults out.new) result }
    {
        self.push(b'\n');
        write_all(out, self.as_bytes())?;
        Ok(())
    }

    /// The line feed; then all is written.
    pub fn end<K: Sink>(&mut self, out: &mut K) -> Result<(), Failed>
        ensures written { OnOk result (Adds (K.took out.old) (K.took out.new) (self.old ++ 10 ∷ [])) }
        ensures prefix { OnErr result (AddsPrefix (K.took out.old) (K.took out.new) (self.old ++ 10 ∷ [])) }
        ensures cause { HasCause (K.faults out.old) (K.faults out.new) result }
    {
        self.reserve(out, 1)?;
        self.push(b'\n');
        self.flush(out)?;
        Ok(())
    }
}
