ghost use Rattle.std.specs.Prelude.{◌≡◌, ◌+◌, ◌-◌, ◌*◌, ◌/◌, ◌%◌, ◌<◌, ◌≤◌, ◌≢◌, ◌∷◌, ◌++◌, [], true, false, length, take, drop, IfSome, MatchOption};
ghost use Rattle.code_btree.specs.Node.{IsLeaf, IsLeafOf, entry_of, entry_key, entry_value, entries_in, entries_of, next_of, node_of};
ghost use Rattle.code_btree.specs.Node.Node.{leaf};
ghost use Rattle.code_btree.specs.Items.{Ascending, find_item, floor_item};
ghost use Rattle.code_btree.specs.Search.{IsLeafSearch};

use crate::bytes::{
    Page, half_at, number_at, paste, put_half, put_number, put_word, splice, word_at,
};

// The number of a leaf's entries; other bytes are no leaf.
#[inline]
pub fn leaf_count(page: &Page) -> Option<usize>
    ensures { MatchOption result (node_of page.now ≢ leaf (entries_of (node_of page.now)) (next_of (node_of page.now))) (λ count. IsLeafOf page.now count) }
{
    let count = usize::from(half_at(page, 2));
    if page[0] != 1 {
        return None;
    }
    if count > 127 {
        return None;
    }
    Some(count)
}

// The key of an entry.
pub fn entry_key_at(page: &Page, at: usize) -> u128
    requires { at < 127 }
    ensures { result ≡ entry_key page.now at }
{
    number_at(page, 32 + 32 * at)
}

// The value of an entry.
pub fn entry_value_at(page: &Page, at: usize) -> u128
    requires { at < 127 }
    ensures { result ≡ entry_value page.now at }
{
    number_at(page, 48 + 32 * at)
}

// Where an id, a key below 2^32, would stand if the keys were whole numbers in a row from the first one on, as ids
// mostly are. A greater key has no such place.
fn guess(page: &Page, count: usize, key: u128) -> Option<usize>
    requires { count ≤ 127 }
    ensures { IfSome result (λ at. at < count) }
{
    if count == 0 || key >= 1 << 32 {
        return None;
    }
    let steps = key.saturating_sub(entry_key_at(page, 0));
    if steps >= count as u128 {
        return None;
    }
    Some(steps as usize)
}

// Whether the key stands at this place and the one before it is less.
#[inline]
fn stands_at(page: &Page, at: usize, key: u128) -> bool
    requires { at < 127 }
    ensures before { result ≡ true → 1 ≤ at → entry_key page.now (at - 1) < key }
    ensures here { result ≡ true → entry_key page.now at ≡ key }
{
    if entry_key_at(page, at) != key {
        return false;
    }
    at == 0 || entry_key_at(page, at - 1) < key
}

// Whether there are so many entries and the last of them has a lesser key. `&` asks both, so that no branch is taken.
fn passes(page: &Page, count: usize, next: usize, key: u128) -> bool
    requires some { 1 ≤ next }
    requires fits { next ≤ 127 }
    ensures passed { result ≡ true → (next ≤ count) × (entry_key page.now (next - 1) < key) }
    ensures kept { result ≡ false → next ≤ count → key ≤ entry_key page.now (next - 1) }
{
    (entry_key_at(page, next - 1) < key) & (next <= count)
}

// A round of a search: of four widths from `low` on it leaves one. Its three looks don't wait for each other, and it
// chooses between numbers and not between ways, since a processor could foretell no way of a search.
fn quarter(page: &Page, count: usize, low: usize, width: usize, key: u128) -> usize
    requires some { 1 ≤ width }
    requires fits { low + 4 * width ≤ 128 }
    requires search { IsLeafSearch page.now count key low (4 * width) }
    ensures fits { result + width ≤ low + 4 * width }
    ensures search { IsLeafSearch page.now count key result width }
{
    let first = passes(page, count, low + width, key);
    let second = passes(page, count, low + 2 * width, key);
    let third = passes(page, count, low + 3 * width, key);
    if third {
        low + 3 * width
    } else if second {
        low + 2 * width
    } else if first {
        low + width
    } else {
        low
    }
}

// Where a key stands or would stand, by rounds, each of a quarter of the width of the one before.
#[inline(never)]
fn rank_sought(page: &Page, count: usize, key: u128) -> usize
    requires { count ≤ 127 }
    ensures bound { result ≤ count }
    ensures before { 1 ≤ result → entry_key page.now (result - 1) < key }
    ensures behind { result < count → key ≤ entry_key page.now result }
{
    let low = quarter(page, count, 0, 32, key);
    let low = quarter(page, count, low, 8, key);
    let low = quarter(page, count, low, 2, key);
    if passes(page, count, low + 1, key) {
        return low + 1;
    }
    low
}

// Where a key stands or would stand: at the place guessed, or else at the one sought.
#[inline]
pub fn rank(page: &Page, count: usize, key: u128) -> usize
    requires { count ≤ 127 }
    ensures bound { result ≤ count }
    ensures before { 1 ≤ result → entry_key page.now (result - 1) < key }
    ensures behind { result < count → key ≤ entry_key page.now result }
{
    if let Some(place) = guess(page, count, key)
        && stands_at(page, place, key)
    {
        return place;
    }
    rank_sought(page, count, key)
}

// Whether a key stands or would stand at this place: the one before it is less, and the one at it isn't.
#[inline]
fn belongs_at(page: &Page, count: usize, at: usize, key: u128) -> bool
    requires { count ≤ 127 }
    ensures bound { result ≡ true → at ≤ count }
    ensures before { result ≡ true → 1 ≤ at → entry_key page.now (at - 1) < key }
    ensures behind { result ≡ true → at < count → key ≤ entry_key page.now at }
{
    if at > count {
        return false;
    }
    if at > 0 && entry_key_at(page, at - 1) >= key {
        return false;
    }
    at == count || key <= entry_key_at(page, at)
}

// The same place, where another one is tried first; any will do.
#[inline]
pub fn rank_from(page: &Page, count: usize, first: usize, key: u128) -> usize
    requires { count ≤ 127 }
    ensures bound { result ≤ count }
    ensures before { 1 ≤ result → entry_key page.now (result - 1) < key }
    ensures behind { result < count → key ≤ entry_key page.now result }
{
    if belongs_at(page, count, first, key) {
        return first;
    }
    rank(page, count, key)
}

// The value of a key, where it stands at this place.
#[inline]
pub fn value_found(page: &Page, count: usize, at: usize, key: u128) -> Option<u128>
    requires { count ≤ 127 }
    ensures { MatchOption result (at < count → entry_key page.now at ≢ key) (λ value. (at < count) × (entry_key page.now at ≡ key) × (value ≡ entry_value page.now at)) }
{
    if at >= count {
        return None;
    }
    if entry_key_at(page, at) != key {
        return None;
    }
    Some(entry_value_at(page, at))
}

// The value of a key. It is looked at first where the key would stand if the keys were whole numbers in a row from
// `first` on, which the separator above the leaf tells: so no byte of the page is waited for before those at the place
// itself.
#[inline]
pub fn find_behind(page: &Page, count: usize, first: u128, key: u128) -> Option<u128>
    requires { count ≤ 127 }
    ensures { IsLeafOf page.now count → Ascending (entries_of (node_of page.now)) → result ≡ find_item key (entries_of (node_of page.now)) }
{
    let steps = key.saturating_sub(first);
    if steps < count as u128
        && let Some(value) = value_found(page, count, steps as usize, key)
    {
        return Some(value);
    }
    let at = rank(page, count, key);
    value_found(page, count, at, key)
}

// The entry of the greatest key not above this one.
pub fn floor_of(page: &Page, count: usize, key: u128) -> Option<(u128, u128)>
    requires { count ≤ 127 }
    ensures { IsLeafOf page.now count → Ascending (entries_of (node_of page.now)) → result ≡ floor_item key (entries_of (node_of page.now)) }
{
    let at = rank(page, count, key);
    if let Some(value) = value_found(page, count, at, key) {
        return Some((key, value));
    }
    if at == 0 {
        return None;
    }
    Some((entry_key_at(page, at - 1), entry_value_at(page, at - 1)))
}

// The 32 bytes of an entry.
pub fn entry_bytes(key: u128, value: u128) -> [u8; 32]
    ensures { entries_in result ≡ (key, value) ∷ [] }
{
    let mut cell = [0; 32];
    put_number(&mut cell, 0, key);
    put_number(&mut cell, 16, value);
    cell
}

// The bytes of a leaf's entries from one place to another.
pub fn entries_at(page: &Page, count: usize, from: usize, to: usize) -> &[u8]
    requires order { from ≤ to }
    requires within { to ≤ count }
    requires fits { count ≤ 127 }
    ensures size { length result.now ≡ 32 * (to - from) }
    ensures entries { IsLeafOf page.now count → entries_in result.now ≡ take (to - from) (drop from (entries_of (node_of page.now))) }
{
    &page[32 + 32 * from..32 + 32 * to]
}

// Entries in the place of those from `from` to `to`.
pub fn splice_entries(page: &mut Page, count: usize, from: usize, to: usize, bytes: &[u8])
    requires leaf { IsLeafOf page.old count }
    requires order { from ≤ to }
    requires behind { to ≤ count }
    requires whole { length bytes.now % 32 ≡ 0 }
    requires room { from + (length bytes.now / 32 + (count - to)) ≤ 127 }
    ensures value { node_of page.new ≡ leaf (take from (entries_of (node_of page.old)) ++ (entries_in bytes.now ++ drop to (entries_of (node_of page.old)))) (next_of (node_of page.old)) }
    ensures is { IsLeafOf page.new (from + (length bytes.now / 32 + (count - to))) }
{
    splice(page, 32 + 32 * from, 32 + 32 * to, 32 + 32 * count, bytes);
    put_half(page, 2, (from + (bytes.len() / 32 + (count - to))) as u16);
}

// The number of the leaf that follows.
pub fn next_at(page: &Page) -> u64
    ensures { IsLeaf page.now → result ≡ next_of (node_of page.now) }
{
    word_at(page, 8)
}

// The leaf that follows.
pub fn set_next(page: &mut Page, count: usize, next: u64)
    requires { IsLeafOf page.old count }
    ensures value { node_of page.new ≡ leaf (entries_of (node_of page.old)) next }
    ensures is { IsLeafOf page.new count }
{
    put_word(page, 8, next);
}

// A leaf of no entries, the last of its chain.
pub fn empty_leaf() -> Page
    ensures { node_of result ≡ leaf [] 0 }
{
    let mut page = [0; 4096];
    paste(&mut page, 0, &[1]);
    page
}
