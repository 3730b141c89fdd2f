ghost use Rattle.std.specs.Prelude.{◌≡◌, ℕ, cond, ◌+◌, ◌*◌, ◌^◌, ◌<◌, ◌≤◌, length, IfOk, IfSome};
ghost use Rattle.code_btree.specs.Bytes.{piece, half_of, half_bytes, word_of, word_bytes, pasted};
ghost use Rattle.r_tree.specs.Page.{point_of_halves, entry_from, node_entry, page_entries, node, rtree_node};

use crate::entry::NodeEntry;
use sand_base::{NoMemory, Point, Rect, Rough, Segment};
use std::alloc::Global;

/// The bytes of a page.
pub type Page = [u8; 4096];

/// 2 to the 32.
const HALF: u64 = 4_294_967_296;

// The big-endian number in the two bytes at a place.
fn half_at(page: &Page, at: usize) -> u16
    requires { at + 2 ≤ 4096 }
    ensures { result ≡ half_of (piece 2 at page.now) }
{
    u16::from_be_bytes([page[at], page[at + 1]])
}

// The big-endian number in the eight bytes at a place.
fn word_at(bytes: &[u8], at: usize) -> u64
    requires { at + 8 ≤ length bytes.now }
    ensures { result ≡ word_of (piece 8 at bytes.now) }
{
    u64::from_be_bytes([
        bytes[at],
        bytes[at + 1],
        bytes[at + 2],
        bytes[at + 3],
        bytes[at + 4],
        bytes[at + 5],
        bytes[at + 6],
        bytes[at + 7],
    ])
}

// Writes bytes at a place.
fn paste(page: &mut [u8], at: usize, bytes: &[u8])
    requires { at + length bytes.now ≤ length page.old }
    ensures { page.new ≡ pasted page.old at bytes.now }
{
    page[at..at + bytes.len()].copy_from_slice(bytes);
}

// Writes a number of two bytes at a place.
fn put_half(page: &mut [u8], at: usize, half: u16)
    requires { at + 2 ≤ length page.old }
    ensures { page.new ≡ pasted page.old at (half_bytes half) }
{
    paste(page, at, &half.to_be_bytes());
}

// Writes a number of eight bytes at a place.
fn put_word(page: &mut [u8], at: usize, word: u64)
    requires { at + 8 ≤ length page.old }
    ensures { page.new ≡ pasted page.old at (word_bytes word) }
{
    paste(page, at, &word.to_be_bytes());
}

// Two numbers of four bytes as one of eight.
fn pair(high: u32, low: u32) -> u64
    ensures value { result ≡ high * 2 ^ 32 + low }
    ensures fits { low < 2 ^ 32 }
{
    u64::from(high) * HALF + u64::from(low)
}

// The point of two numbers of four bytes.
fn point_of(word: u64) -> Point
    ensures { result ≡ point_of_halves word }
{
    Point {
        x: (word / HALF) as u32,
        y: (word % HALF) as u32,
    }
}

// The entry of four numbers.
#[tactic(auto, unfolding(crate::specs::Page::entry_from))]
fn entry_from(p: u64, q: u64, mark: u64, child: u64) -> NodeEntry
    ensures { result ≡ entry_from p q mark child }
{
    let rough = match mark / HALF {
        1 => Rough::Point(point_of(p)),
        2 => Rough::Segment(Segment {
            a: point_of(p),
            b: point_of(q),
        }),
        _ => Rough::Bound(Rect {
            low: point_of(p),
            high: point_of(q),
        }),
    };
    NodeEntry {
        rough,
        id: (mark % HALF) as u32,
        child,
    }
}

// The numbers of a rough shape with an id: two points, and the tag with the id.
fn marks_of(rough: Rough, id: u32) -> (u64, u64, u64)
    ensures { (child : ℕ) → entry_from result.0 result.1 result.2 child ≡ record { rough = rough; id = id; child = child } }
{
    match rough {
        Rough::Point(p) => (pair(p.x, p.y), 0, pair(1, id)),
        Rough::Segment(s) => (pair(s.a.x, s.a.y), pair(s.b.x, s.b.y), pair(2, id)),
        Rough::Bound(r) => (
            pair(r.low.x, r.low.y),
            pair(r.high.x, r.high.y),
            pair(3, id),
        ),
    }
}

// The bytes of four numbers.
fn cell_of(p: u64, q: u64, mark: u64, child: u64) -> [u8; 32]
    ensures value { node_entry result ≡ entry_from p q mark child }
    ensures long { length result ≡ 32 }
{
    let mut cell = [0; 32];
    put_word(&mut cell, 0, p);
    put_word(&mut cell, 8, q);
    put_word(&mut cell, 16, mark);
    put_word(&mut cell, 24, child);
    cell
}

// The bytes of an entry.
fn entry_bytes(entry: NodeEntry) -> [u8; 32]
    ensures value { node_entry result ≡ entry }
    ensures long { length result ≡ 32 }
{
    let (p, q, mark) = marks_of(entry.rough, entry.id);
    cell_of(p, q, mark, entry.child)
}

/// Entry `i` of a page.
pub fn entry_at(page: &Page, i: usize) -> NodeEntry
    requires { i < 127 }
    ensures { result ≡ node_entry (piece 32 (32 + 32 * i) page.now) }
{
    let at = 32 + 32 * i;
    entry_from(
        word_at(page, at),
        word_at(page, at + 8),
        word_at(page, at + 16),
        word_at(page, at + 24),
    )
}

// Writes the entries of a node.
fn write_entries(page: &mut Page, entries: &[NodeEntry])
    requires { length entries.now ≤ 126 }
    ensures entries { page_entries (length entries.now) page.new ≡ entries.now }
    ensures head { piece 32 0 page.new ≡ piece 32 0 page.old }
{
    'entries: for i in 0..entries.len() {
        paste(page, 32 + 32 * i, &entry_bytes(entries[i]));
    }
}

// Byte 0 of a node's page.
fn kind_of(inner: bool) -> u8
    ensures { result ≡ cond inner 5 4 }
{
    if inner { 5 } else { 4 }
}

/// The page of a node.
pub fn node_page(inner: bool, entries: &[NodeEntry]) -> Page
    requires { length entries.now ≤ 126 }
    ensures { rtree_node result ≡ node inner entries.now }
{
    let mut page = [0; 4096];
    paste(&mut page, 0, &[kind_of(inner)]);
    put_half(&mut page, 2, entries.len() as u16);
    write_entries(&mut page, entries);
    page
}

/// The number of a node's entries; other bytes are no such node.
pub fn node_count(page: &Page, inner: bool) -> Option<usize>
    ensures value { IfSome result (λ count. rtree_node page.now ≡ node inner (page_entries count page.now)) }
    ensures few { IfSome result (λ count. count ≤ 126) }
{
    let count = usize::from(half_at(page, 2));
    if page[0] != kind_of(inner) {
        return None;
    }
    if count > 126 {
        return None;
    }
    Some(count)
}

/// The entries of a page that has so many.
pub fn entries_of(alloc: Global, page: &Page, count: usize) -> Result<Vec<NodeEntry>, NoMemory>
    requires { count ≤ 126 }
    ensures { IfOk result (λ es. es.items ≡ page_entries count page.now) }
{
    let mut entries = Vec::with_capacity(alloc, count)?;
    'cells: for i in 0..count {
        entries.push_reserved(entry_at(page, i));
    }
    Ok(entries)
}
