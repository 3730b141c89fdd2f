// A slotted page: a table of slots that grows upwards, and tuples that grow from the page's end downwards.
ghost use Rattle.std.specs.Prelude.{◌≡◌, ℕ, ◌+◌, ◌*◌, ◌≤◌, ◌<◌, ◌↔◌, false, IsTrue, [], length};
ghost use Rattle.code_btree.specs.Bytes.{piece, half_of, half_bytes, pasted};
ghost use Rattle.tuple_file.specs.Page.{slot_count, slot_start, length_in, tuple_at, low, some, HasRoom, IsTuples, Added, Cleared, IsBlank};

/// The bytes of a page.
pub type Page = [u8; 4096];

/// As many slots as a page has room for.
const MOST_SLOTS: u16 = 1022;

// The big-endian number in the two bytes at a place.
fn half_at(page: &Page, at: usize) -> u16
    requires { at + 2 ≤ 4096 }
    ensures { result ≡ half_of (piece 2 at page.now) }
{
    u16::from_be_bytes([page[at], page[at + 1]])
}

// Writes bytes at a place.
fn paste(page: &mut Page, at: usize, bytes: &[u8])
    requires { at + length bytes.now ≤ 4096 }
    ensures { page.new ≡ pasted page.old at bytes.now }
{
    page[at..at + bytes.len()].copy_from_slice(bytes);
}

// Writes a number of two bytes at a place.
fn paste_half(page: &mut Page, at: usize, half: u16)
    requires { at + 2 ≤ 4096 }
    ensures { page.new ≡ pasted page.old at (half_bytes half) }
{
    paste(page, at, &half.to_be_bytes());
}

/// So many bytes from a place on, as far as the page goes.
pub fn piece_of(page: &Page, at: usize, count: usize) -> &[u8]
    ensures { result.now ≡ piece count at page.now }
{
    let rest = &page[at.min(4096)..];
    &rest[..count.min(rest.len())]
}

// The number of slots.
fn count_of(page: &Page) -> u16
    ensures { result ≡ slot_count page.now }
{
    half_at(page, 2).min(MOST_SLOTS)
}

// Where the tuple of a slot begins.
fn place_at(page: &Page, slot: u16) -> u16
    requires { slot < 1022 }
    ensures { result ≡ slot_start page.now slot }
{
    half_at(page, 8 + 4 * usize::from(slot))
}

// How many bytes the tuple of a slot has.
fn length_at(page: &Page, slot: u16) -> u16
    requires { slot < 1022 }
    ensures { result ≡ length_in page.now slot }
{
    half_at(page, 10 + 4 * usize::from(slot))
}

// Where the tuples begin.
fn low_of(page: &Page) -> usize
    ensures { result ≡ low page.now }
{
    let count = count_of(page);
    if count == 0 {
        return 4096;
    }
    usize::from(place_at(page, count - 1))
}

/// The tuple of a slot: no bytes where it was taken, or where there is no such slot.
pub fn tuple_of(page: &Page, slot: u16) -> &[u8]
    ensures { result.now ≡ tuple_at page.now slot }
{
    if slot >= count_of(page) {
        return &[];
    }
    piece_of(
        page,
        usize::from(place_at(page, slot)),
        usize::from(length_at(page, slot)),
    )
}

/// Whether there is room for one tuple more, of so many bytes.
pub fn has_room(page: &Page, count: usize) -> bool
    requires { count ≤ 4096 }
    ensures { IsTrue result ↔ HasRoom page.now count }
{
    let low = low_of(page);
    8 + 4 * (usize::from(count_of(page)) + 1) + count <= low && low <= 4096
}

/// A page of no tuple.
pub fn blank() -> Page
    ensures { IsBlank result }
{
    let mut page = [0; 4096];
    paste(&mut page, 0, &[3]);
    page
}

/// Puts a tuple in, and gives its slot, and where it begins. A slot whose tuple was taken isn't used again.
pub fn add_tuple(page: &mut Page, bytes: &[u8]) -> (u16, u16)
    requires { HasRoom page.old (length bytes.now) }
    ensures { IsTuples page.old → Added page.old page.new bytes.now result.0 result.1 }
{
    let slot = count_of(page);
    let start = low_of(page) - bytes.len();
    paste(page, start, bytes);
    paste_half(page, 8 + 4 * usize::from(slot), start as u16);
    paste_half(page, 10 + 4 * usize::from(slot), bytes.len() as u16);
    paste_half(page, 2, slot + 1);
    (slot, start as u16)
}

/// Takes the tuple of a slot out.
pub fn clear(page: &mut Page, slot: u16)
    ensures { IsTuples page.old → Cleared page.old page.new slot }
{
    if slot >= count_of(page) {
        return;
    }
    paste_half(page, 10 + 4 * usize::from(slot), 0);
}

/// Whether every tuple was taken.
pub fn is_bare(page: &Page) -> bool
    ensures bare { IsTrue result → (i : ℕ) → tuple_at page.now i ≡ [] }
    ensures left { result ≡ false → IsTuples page.now → (i : ℕ) × ((i < 1022) × (some (tuple_at page.now i) ≡ 1)) }
{
    'slots: for slot in 0..count_of(page) {
        if length_at(page, slot) != 0 {
            return false;
        }
    }
    true
}
