ghost use Rattle.std.specs.Prelude.{◌≡◌, ◌+◌, ◌-◌, ◌*◌, ◌/◌, ◌%◌, ◌<◌, ◌≤◌, ◌≢◌, ◌∷◌, ◌++◌, [], true, false, length, take, drop, IfSome, MatchOption};
ghost use Rattle.code_btree.specs.Bytes.{piece, word_of};
ghost use Rattle.code_btree.specs.Node.{IsInnerOf, key_in, child_in, keys_in, children_in, keys_of, child_pages, node_of};
ghost use Rattle.code_btree.specs.Node.Node.{inner};
ghost use Rattle.code_btree.specs.Search.{IsInnerSearch};

use crate::bytes::{
    Page, half_at, number_at, paste, put_half, put_number, put_word, splice, word_at,
};
use std::cmp::min;

// The number of an inner page's keys; other bytes are no inner page.
#[inline]
pub fn inner_count(page: &Page) -> Option<usize>
    ensures { MatchOption result (node_of page.now ≢ inner (keys_of (node_of page.now)) (child_pages (node_of page.now))) (λ count. IsInnerOf page.now count) }
{
    let count = usize::from(half_at(page, 2));
    if page[0] != 2 {
        return None;
    }
    if count > 169 {
        return None;
    }
    Some(count)
}

// A key.
pub fn key_at(page: &Page, at: usize) -> u128
    requires { at < 169 }
    ensures { result ≡ key_in page.now at }
{
    number_at(page, 32 + 16 * at)
}

// A child.
pub fn child_at(page: &Page, at: usize) -> u64
    requires { at < 170 }
    ensures { result ≡ child_in page.now at }
{
    word_at(page, 2736 + 8 * at)
}

// The low word of a key: the whole key, where it is an id.
fn low_word_at(page: &Page, at: usize) -> u64
    requires { at < 169 }
    ensures { result ≡ word_of (piece 8 (40 + 16 * at) page.now) }
{
    word_at(page, 40 + 16 * at)
}

// How far the separators of the lowest inner pages mostly stand apart where ids come in order: as many as a leaf has
// entries once it was filled by the first part of the one behind it.
const PACKED_LEAF: u32 = 126;

// Where an id, a key below 2^32, would belong if the keys stood at equal distances, as those between ids mostly do. A
// greater key has no such place. It looks at the low words of the keys alone, and at the low half of what is between
// them: whatever is above those, a guess is all that it spoils. The distance of packed leaves has a branch of its own,
// since a division by a constant is a multiplication, and much quicker than one by a number that was just read.
fn guess(page: &Page, count: usize, key: u128) -> Option<usize>
    requires { count ≤ 169 }
    ensures { IfSome result (λ at. at ≤ count) }
{
    if count < 2 || key >= 1 << 32 {
        return None;
    }
    let id = key as u64;
    let first = low_word_at(page, 0);
    if id < first {
        return Some(0);
    }
    let behind = (id - first) as u32;
    let distance = (low_word_at(page, 1).wrapping_sub(first) % (1 << 32)) as u32;
    if behind < distance {
        return Some(1);
    }
    if distance == 0 {
        return None;
    }
    let steps = if distance == PACKED_LEAF {
        behind / PACKED_LEAF
    } else {
        behind / distance
    };
    Some(min(steps as usize + 1, count))
}

// Whether a key belongs under the child at this place.
fn belongs_at(page: &Page, count: usize, at: usize, key: u128) -> bool
    requires count { count ≤ 169 }
    requires place { at ≤ count }
    ensures before { result ≡ true → 1 ≤ at → key_in page.now (at - 1) ≤ key }
    ensures behind { result ≡ true → at < count → key < key_in page.now at }
{
    if at > 0 && key_at(page, at - 1) > key {
        return false;
    }
    at == count || key < key_at(page, at)
}

// Whether there are so many keys and the last of them is at most this one. `&` asks both, so that no branch is taken.
fn passes(page: &Page, count: usize, next: usize, key: u128) -> bool
    requires count { count ≤ 169 }
    requires some { 1 ≤ next }
    ensures passed { result ≡ true → (next ≤ count) × (key_in page.now (next - 1) ≤ key) }
    ensures kept { result ≡ false → next ≤ count → key < key_in page.now (next - 1) }
{
    (key_at(page, min(next, 169) - 1) <= key) & (next <= count)
}

// A round of a search: of four widths from `low` on it leaves one. Its three looks don't wait for each other, and it
// chooses between numbers and not between ways, since a processor could foretell no way of a search.
fn quarter(page: &Page, count: usize, low: usize, width: usize, key: u128) -> usize
    requires count { count ≤ 169 }
    requires some { 1 ≤ width }
    requires fits { width ≤ 64 }
    requires search { IsInnerSearch page.now count key low (4 * width) }
    ensures { IsInnerSearch page.now count key result width }
{
    let first = passes(page, count, low + width, key);
    let second = passes(page, count, low + 2 * width, key);
    let third = passes(page, count, low + 3 * width, key);
    if third {
        low + 3 * width
    } else if second {
        low + 2 * width
    } else if first {
        low + width
    } else {
        low
    }
}

// The place of the child under which a key belongs, by rounds, each of a quarter of the width of the one before. A page
// of few keys, as a root mostly is, needs only the last two.
#[inline(never)]
fn place_sought(page: &Page, count: usize, key: u128) -> usize
    requires { count ≤ 169 }
    ensures bound { result ≤ count }
    ensures before { 1 ≤ result → key_in page.now (result - 1) ≤ key }
    ensures behind { result < count → key < key_in page.now result }
{
    if count < 16 {
        let low = quarter(page, count, 0, 4, key);
        return quarter(page, count, low, 1, key);
    }
    let low = quarter(page, count, 0, 64, key);
    let low = quarter(page, count, low, 16, key);
    let low = quarter(page, count, low, 4, key);
    quarter(page, count, low, 1, key)
}

// The place of the child under which a key belongs: the one guessed, or else the one sought.
#[inline]
pub fn place_of(page: &Page, count: usize, key: u128) -> usize
    requires { count ≤ 169 }
    ensures bound { result ≤ count }
    ensures before { 1 ≤ result → key_in page.now (result - 1) ≤ key }
    ensures behind { result < count → key < key_in page.now result }
{
    if let Some(place) = guess(page, count, key)
        && belongs_at(page, count, place, key)
    {
        return place;
    }
    place_sought(page, count, key)
}

// The 16 bytes of a key.
pub fn key_bytes(key: u128) -> [u8; 16]
    ensures { keys_in result ≡ key ∷ [] }
{
    let mut cell = [0; 16];
    put_number(&mut cell, 0, key);
    cell
}

// The 8 bytes of a child.
pub fn child_bytes(child: u64) -> [u8; 8]
    ensures { children_in result ≡ child ∷ [] }
{
    let mut cell = [0; 8];
    put_word(&mut cell, 0, child);
    cell
}

// The bytes of the keys from one place to another.
pub fn keys_at(page: &Page, count: usize, from: usize, to: usize) -> &[u8]
    requires order { from ≤ to }
    requires within { to ≤ count }
    requires fits { count ≤ 169 }
    ensures size { length result.now ≡ 16 * (to - from) }
    ensures keys { IsInnerOf page.now count → keys_in result.now ≡ take (to - from) (drop from (keys_of (node_of page.now))) }
{
    &page[32 + 16 * from..32 + 16 * to]
}

// The bytes of the children from one place to another.
pub fn children_at(page: &Page, count: usize, from: usize, to: usize) -> &[u8]
    requires order { from ≤ to }
    requires within { to ≤ count + 1 }
    requires fits { count ≤ 169 }
    ensures size { length result.now ≡ 8 * (to - from) }
    ensures children { IsInnerOf page.now count → children_in result.now ≡ take (to - from) (drop from (child_pages (node_of page.now))) }
{
    &page[2736 + 8 * from..2736 + 8 * to]
}

// Keys in the place of those from `from` to `to`, and children in the place of those from `first` to `last`.
pub fn splice_inner(
    page: &mut Page,
    count: usize,
    from: usize,
    to: usize,
    keys: &[u8],
    first: usize,
    last: usize,
    children: &[u8],
)
    requires inner { IsInnerOf page.old count }
    requires order { from ≤ to }
    requires behind { to ≤ count }
    requires first_order { first ≤ last }
    requires last_behind { last ≤ count + 1 }
    requires whole { length keys.now % 16 ≡ 0 }
    requires children_whole { length children.now % 8 ≡ 0 }
    requires room { from + (length keys.now / 16 + (count - to)) ≤ 169 }
    requires one_more { first + (length children.now / 8 + ((count + 1) - last)) ≡ from + (length keys.now / 16 + (count - to)) + 1 }
    ensures value { node_of page.new ≡ inner (take from (keys_of (node_of page.old)) ++ (keys_in keys.now ++ drop to (keys_of (node_of page.old))))
        (take first (child_pages (node_of page.old)) ++ (children_in children.now ++ drop last (child_pages (node_of page.old)))) }
    ensures is { IsInnerOf page.new (from + (length keys.now / 16 + (count - to))) }
{
    splice(page, 32 + 16 * from, 32 + 16 * to, 32 + 16 * count, keys);
    splice(
        page,
        2736 + 8 * first,
        2736 + 8 * last,
        2744 + 8 * count,
        children,
    );
    put_half(page, 2, (from + (keys.len() / 16 + (count - to))) as u16);
}

// An inner page of no keys and one child.
pub fn lone_child(child: u64) -> Page
    ensures { node_of result ≡ inner [] (child ∷ []) }
{
    let mut page = [0; 4096];
    paste(&mut page, 0, &[2]);
    put_word(&mut page, 2736, child);
    page
}
