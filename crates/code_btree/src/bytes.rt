ghost use Rattle.std.specs.Prelude.{◌≡◌, ◌+◌, ◌-◌, ◌*◌, ◌/◌, ◌≤◌, length};
ghost use Rattle.code_btree.specs.Bytes.{piece, half_of, half_bytes, word_of, word_bytes, number_of, number_bytes, pasted, spliced};

/// The bytes of a page.
pub type Page = [u8; 4096];

/// 2 to the 64.
const WORD: u128 = 18_446_744_073_709_551_616;

// The big-endian number in the two bytes at a place.
pub fn half_at(page: &Page, at: usize) -> u16
    requires { at + 2 ≤ 4096 }
    ensures { result ≡ half_of (piece 2 at page.now) }
{
    u16::from_be_bytes([page[at], page[at + 1]])
}

// The big-endian number in the eight bytes at a place.
pub fn word_at(bytes: &[u8], at: usize) -> u64
    requires { at + 8 ≤ length bytes.now }
    ensures { result ≡ word_of (piece 8 at bytes.now) }
{
    u64::from_be_bytes([
        bytes[at],
        bytes[at + 1],
        bytes[at + 2],
        bytes[at + 3],
        bytes[at + 4],
        bytes[at + 5],
        bytes[at + 6],
        bytes[at + 7],
    ])
}

// The big-endian number in the sixteen bytes at a place.
pub fn number_at(bytes: &[u8], at: usize) -> u128
    requires { at + 16 ≤ length bytes.now }
    ensures { result ≡ number_of (piece 16 at bytes.now) }
{
    let high = word_at(bytes, at);
    let low = word_at(bytes, at + 8);
    u128::from(high) * WORD + u128::from(low)
}

// Writes bytes at a place.
pub fn paste(page: &mut [u8], at: usize, bytes: &[u8])
    requires { at + length bytes.now ≤ length page.old }
    ensures { page.new ≡ pasted page.old at bytes.now }
{
    page[at..at + bytes.len()].copy_from_slice(bytes);
}

// Writes a number of two bytes at a place.
pub fn put_half(page: &mut [u8], at: usize, half: u16)
    requires { at + 2 ≤ length page.old }
    ensures { page.new ≡ pasted page.old at (half_bytes half) }
{
    paste(page, at, &half.to_be_bytes());
}

// Writes a number of eight bytes at a place.
pub fn put_word(page: &mut [u8], at: usize, word: u64)
    requires { at + 8 ≤ length page.old }
    ensures { page.new ≡ pasted page.old at (word_bytes word) }
{
    paste(page, at, &word.to_be_bytes());
}

// Writes a number of sixteen bytes at a place.
pub fn put_number(page: &mut [u8], at: usize, number: u128)
    requires { at + 16 ≤ length page.old }
    ensures { page.new ≡ pasted page.old at (number_bytes number) }
{
    put_word(page, at, (number / WORD) as u64);
    put_word(page, at + 8, (number % WORD) as u64);
}

// Puts bytes in the place of those from `from` to `to`, and moves those behind them, up to `end`.
pub fn splice(page: &mut Page, from: usize, to: usize, end: usize, bytes: &[u8])
    requires order { from ≤ to }
    requires behind { to ≤ end }
    requires within { end ≤ 4096 }
    requires room { from + (length bytes.now + (end - to)) ≤ 4096 }
    ensures { page.new ≡ spliced page.old from to end bytes.now }
{
    page.copy_within(to..end, from + bytes.len());
    paste(page, from, bytes);
}
