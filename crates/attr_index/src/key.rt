// The key of a value: 12 bytes.
ghost use Rattle.std.specs.Prelude.{◌≡◌, ◌^◌, ◌<◌};
ghost use Rattle.attr_index.specs.Key.{offset, int_from, int_key_bytes, text_key_bytes, key_bytes, key_number, text_length, IsAttribute, IsFit};
ghost use Rattle.sand_base.specs.InRange.{IsIntInRange};

use sand_base::Value;

/// 2 to the 63.
const SIGN: u64 = 9_223_372_036_854_775_808;

/// What an index keeps of a value: 96 bits. Ints are in the order of their keys, and texts that share 12 bytes
/// have one key.
#[derive(Clone, Copy, Debug, PartialEq, Eq)]
pub struct AttrKey(pub [u8; 12]);

// An int v as v + 2^63.
pub(crate) fn offset_of(number: i64) -> u64
    ensures value { result ≡ offset number }
    ensures range { IsIntInRange number }
{
    number.cast_unsigned().wrapping_add(SIGN)
}

// The int v of which this is v + 2^63.
pub(crate) fn int_at(offset: u64) -> i64
    ensures value { result ≡ int_from offset }
    ensures range { IsIntInRange result }
{
    offset.wrapping_sub(SIGN).cast_signed()
}

// The key of an int.
#[tactic(auto, unfolding(crate::specs::Key::int_key_bytes))]
fn int_key(number: i64) -> AttrKey
    ensures value { result.0 ≡ int_key_bytes number }
    ensures range { IsIntInRange number }
{
    let mut key = [0; 12];
    key[..8].copy_from_slice(&offset_of(number).to_be_bytes());
    AttrKey(key)
}

// The key of a text.
fn text_key(bytes: &[u8]) -> AttrKey
    ensures { result.0 ≡ text_key_bytes bytes.now }
{
    let mut key = [0; 12];
    let count = bytes.len().min(12);
    key[..count].copy_from_slice(&bytes[..count]);
    AttrKey(key)
}

/// The key of an int or a text: v + 2^63 in 64 bits and then 32 zero bits for an int v; the first 12 bytes of a
/// text, with zeros after a shorter one.
pub fn key_of(value: &Value) -> AttrKey
    requires { IsAttribute value.now }
    ensures value { result.0 ≡ key_bytes value.now }
    ensures range { IsFit value.now }
{
    match value {
        Value::Int(number) => int_key(*number),
        Value::Text(text) => text_key(text.as_str().as_bytes()),
        Value::Shape(_) => AttrKey([0; 12]),
    }
}

// What the tree keeps with an entry: how long a text is, and 0 for an int.
pub(crate) fn length_of(value: &Value) -> u128
    ensures { result ≡ text_length value.now }
{
    match value {
        Value::Text(text) => text.as_str().len() as u128,
        _ => 0,
    }
}

// A key as a number.
#[tactic(auto, unfolding(crate::specs::Key::key_number))]
pub(crate) fn number_of(key: AttrKey) -> u128
    ensures value { result ≡ key_number key.0 }
    ensures fits { result < 2 ^ 96 }
{
    let [a, b, c, d, e, f, g, h, i, j, k, l] = key.0;
    let high = u64::from_be_bytes([a, b, c, d, e, f, g, h]);
    let low = u32::from_be_bytes([i, j, k, l]);
    u128::from(high) * 4_294_967_296 + u128::from(low)
}
