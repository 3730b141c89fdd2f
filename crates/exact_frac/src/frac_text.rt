// The printed text of a fraction, in a buffer of its own.
ghost use Rattle.std.specs.Prelude.{◌≡◌, ◌+◌, ◌≤◌, ◌<◌, ◌++◌, length, drop, codes};
ghost use Rattle.std.specs.Fmt.{decimal};
ghost use Rattle.exact_frac.specs.declared.TheConstants.{MAX_NUM, MAX_DEN};

use std::marker::Model;

// The capacity for the longest text: 25 digits, the slash and 13 digits, with a byte to spare.
const CAPACITY: usize = 40;

/// A printed fraction, kept by value; it is seen as the list of its bytes.
#[derive(Drop)]
pub struct FracText {
    bytes: [u8; CAPACITY],
    start: usize,
}

impl Model for FracText {
    ghost use Rattle.std.specs.Prelude.{List, ℕ, drop, ◌≤◌};
    ghost use Rattle.exact_frac.specs.declared.frac_text.TheConstants.{CAPACITY};

    ghost Value = { List ℕ };

    ghost view = { λ t. drop t.start t.bytes };

    ghost invariant = { λ t. t.start ≤ CAPACITY };
}

impl FracText {
    /// The bytes of the text: decimal digits, with one slash where the fraction isn't a whole number.
    pub fn as_bytes(&self) -> &[u8]
        ensures { result.now ≡ self.now }
    {
        &self.bytes[self.start..]
    }

    // The text of a whole number.
    pub(crate) fn whole(num: u128) -> FracText
        requires { num ≤ MAX_NUM }
        ensures { result ≡ decimal num }
    {
        let mut bytes = [0; CAPACITY];
        let start = write_number(&mut bytes, CAPACITY, num);
        FracText { bytes, start }
    }

    // The texts of two numbers with a slash between.
    pub(crate) fn ratio(num: u128, den: u128) -> FracText
        requires num_small { num ≤ MAX_NUM }
        requires den_small { den ≤ MAX_DEN }
        ensures { result ≡ decimal num ++ codes "/" ++ decimal den }
    {
        let mut bytes = [0; CAPACITY];
        let slash = write_number(&mut bytes, CAPACITY, den) - 1;
        bytes[slash] = b'/';
        let start = write_number(&mut bytes, slash, num);
        FracText { bytes, start }
    }
}

// Writes the digits so that they end at `end`, and returns where they start. Digits are divided off in 128 bits only
// until 64 hold what is left.
fn write_number(bytes: &mut [u8], end: usize, number: u128) -> usize
    requires fits { length (decimal number) ≤ end }
    requires within { end ≤ length bytes.old }
    ensures start { result + length (decimal number) ≡ end }
    ensures written { drop result bytes.new ≡ decimal number ++ drop end bytes.old }
{
    let mut left = number;
    let mut at = end;
    'digits: while left > u128::from(u64::MAX) {
        at -= 1;
        bytes[at] = b'0' + (left % 10) as u8;
        left /= 10;
    }
    write_small(bytes, at, left as u64)
}

// The same of a number of at most 64 bits.
fn write_small(bytes: &mut [u8], end: usize, number: u64) -> usize
    requires fits { length (decimal number) ≤ end }
    requires within { end ≤ length bytes.old }
    ensures start { result + length (decimal number) ≡ end }
    ensures written { drop result bytes.new ≡ decimal number ++ drop end bytes.old }
{
    let mut left = number;
    let mut at = end;
    'digits: while left >= 10 {
        at -= 1;
        bytes[at] = b'0' + (left % 10) as u8;
        left /= 10;
    }
    at -= 1;
    bytes[at] = b'0' + left as u8;
    at
}
