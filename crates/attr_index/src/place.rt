// Where an entry stands in the tree: its key and then 32 bits of id.
ghost use Rattle.std.specs.Prelude.{◌≡◌, ◌+◌, ◌*◌, ◌/◌, ◌%◌, ◌^◌, ◌<◌, IfSome};
ghost use Rattle.sand_base.specs.InRange.{IsIntInRange};
ghost use Rattle.attr_index.specs.Key.{offset, int_from, key_number};
ghost use Rattle.attr_index.specs.Entries.{entry_number, is_after};
ghost use Rattle.attr_index.specs.Steps.{least_place};

use crate::key::{AttrKey, int_at, number_of, offset_of};

/// 2 to the 32.
pub(crate) const IDS: u128 = 4_294_967_296;

/// 2 to the 64.
const WORD: u128 = 18_446_744_073_709_551_616;

// The place of a key with an id.
pub(crate) fn place_of(key: AttrKey, id: u32) -> u128
    ensures place { result ≡ entry_number (key_number key.0, id) }
    ensures key { key_number key.0 < 2 ^ 96 }
{
    number_of(key) * IDS + u128::from(id)
}

// The place of an int with an id.
fn int_place(number: i64, id: u32) -> u128
    ensures value { result ≡ offset number * 2 ^ 64 + id }
    ensures fits { result + 1 < 2 ^ 128 }
    ensures range { IsIntInRange number }
{
    u128::from(offset_of(number)) * WORD + u128::from(id)
}

// The int and the id of a place.
pub(crate) fn int_entry(place: u128) -> (i64, u32)
    ensures number { result.0 ≡ int_from (place / 2 ^ 64) }
    ensures id { result.1 ≡ place % 2 ^ 32 }
    ensures range { IsIntInRange result.0 }
{
    (int_at((place / WORD) as u64), (place % IDS) as u32)
}

// The place from which on entries have ints from the bound on and come after another one.
pub(crate) fn first_place(low: i64, after: Option<(i64, u32)>) -> u128
    ensures place { result ≡ least_place low after }
    ensures range { IfSome after (λ a. IsIntInRange a.0 × (a.1 < 2 ^ 32)) }
{
    let least = int_place(low, 0);
    let Some((number, id)) = after else {
        return least;
    };
    least.max(int_place(number, id) + 1)
}

// Whether an entry comes after another one, if there is one.
pub(crate) fn comes_after(after: Option<(i64, u32)>, entry: (i64, u32)) -> bool
    ensures { result ≡ is_after after entry }
{
    let Some((number, id)) = after else {
        return true;
    };
    number < entry.0 || number <= entry.0 && id < entry.1
}
