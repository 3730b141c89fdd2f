ghost use Rattle.std.specs.Prelude.{◌≡◌, ◌+◌, ◌-◌, ◌≤◌, ◌<◌, ◌++◌, ◌∷◌, []};
ghost use Rattle.code_btree.specs.Node.{IsLeafOf, IsInnerOf, node_of, entries_of, next_of, keys_of, child_pages};
ghost use Rattle.code_btree.specs.Node.Node.{leaf, inner};
ghost use Rattle.code_btree.specs.Steps.{put_at, HalvesLeaf, HalvesInner};

use crate::bytes::Page;
use crate::inner::{child_bytes, key_at, key_bytes, lone_child, splice_inner};
use crate::leaf::{entry_bytes, splice_entries};

// An entry put in at its place.
pub fn put_entry(page: &mut Page, count: usize, at: usize, key: u128, value: u128)
    requires leaf { IsLeafOf page.old count }
    requires place { at ≤ count }
    requires room { count < 127 }
    ensures value { node_of page.new ≡ leaf (put_at at (key, value) (entries_of (node_of page.old))) (next_of (node_of page.old)) }
    ensures is { IsLeafOf page.new (count + 1) }
{
    splice_entries(page, count, at, at, &entry_bytes(key, value));
}

// A full leaf with one entry more, cut in two: the page keeps as few entries as a leaf may have, so that one page may
// hold them and those of the leaf in front, and the others come back.
pub fn cut_leaf(page: &mut Page, at: usize, key: u128, value: u128) -> Page
    requires leaf { IsLeafOf page.old 127 }
    requires place { at ≤ 127 }
    ensures halves { HalvesLeaf (entries_of (node_of page.new)) (entries_of (node_of result)) (put_at at (key, value) (entries_of (node_of page.old))) }
    ensures next { next_of (node_of result) ≡ next_of (node_of page.old) }
    ensures is { IsLeafOf page.new 63 }
    ensures right { IsLeafOf result 65 }
{
    let mut right = *page;
    if at <= 62 {
        splice_entries(&mut right, 127, 0, 62, &[]);
        splice_entries(page, 127, 62, 127, &[]);
        put_entry(page, 62, at, key, value);
        return right;
    }
    splice_entries(&mut right, 127, 0, 63, &[]);
    splice_entries(page, 127, 63, 127, &[]);
    put_entry(&mut right, 64, at - 63, key, value);
    right
}

// A child put in behind child `at`, with its key.
pub fn put_child(page: &mut Page, count: usize, at: usize, key: u128, child: u64)
    requires inner { IsInnerOf page.old count }
    requires place { at ≤ count }
    requires room { count < 169 }
    ensures value { node_of page.new ≡ inner (put_at at key (keys_of (node_of page.old))) (put_at (at + 1) child (child_pages (node_of page.old))) }
    ensures is { IsInnerOf page.new (count + 1) }
{
    splice_inner(
        page,
        count,
        at,
        at,
        &key_bytes(key),
        at + 1,
        at + 1,
        &child_bytes(child),
    );
}

// A full inner page with one child more, cut in two: the page keeps the first half; the key between the halves
// and the second half come back.
pub fn cut_inner(page: &mut Page, at: usize, key: u128, child: u64) -> (u128, Page)
    requires inner { IsInnerOf page.old 169 }
    requires place { at ≤ 169 }
    ensures halves { HalvesInner (keys_of (node_of page.new)) (child_pages (node_of page.new)) result.0 (keys_of (node_of result.1)) (child_pages (node_of result.1))
        (put_at at key (keys_of (node_of page.old))) (put_at (at + 1) child (child_pages (node_of page.old))) }
    ensures is { (node_of page.new ≡ inner (keys_of (node_of page.new)) (child_pages (node_of page.new))) × (node_of result.1 ≡ inner (keys_of (node_of result.1)) (child_pages (node_of result.1))) }
{
    let up = key_at(page, 84);
    let mut right = *page;
    splice_inner(&mut right, 169, 0, 85, &[], 0, 85, &[]);
    splice_inner(page, 169, 84, 169, &[], 85, 170, &[]);
    if at <= 84 {
        put_child(page, 84, at, key, child);
        return (up, right);
    }
    put_child(&mut right, 84, at - 85, key, child);
    (up, right)
}

// An inner page of one key and two children.
pub fn new_root(left: u64, key: u128, right: u64) -> Page
    ensures { node_of result ≡ inner (key ∷ []) (left ∷ (right ∷ [])) }
{
    let mut page = lone_child(left);
    put_child(&mut page, 0, 0, key, right);
    page
}
