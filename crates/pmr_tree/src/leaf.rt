ghost use Rattle.std.specs.Prelude.{◌≡◌, ◌≢◌, ℕ, ◌+◌, ◌*◌, ◌<◌, ◌≤◌, ◌^◌, Bool, List, [], length, filter, take, IfOk, OnOk, IfSome, IsNone, MatchOption, Option, None, Some};
ghost use Rattle.sand_base.specs.declared.TheConstants.{COORDINATE_BITS};
ghost use Rattle.z_code.specs.Block.{IsBlock};
ghost use Rattle.pmr_tree.specs.Keys.{key_of, mark_of, id_in, own};
ghost use Rattle.pmr_tree.specs.Lists.{RiseStrictly, is_from_to};
ghost use Rattle.pmr_tree.specs.Leaves.{firsts, own_pairs, kept_of, ids_of, Passes, ListPasses, id_test, fault_of};
ghost use Rattle.pmr_tree.specs.FirstIds.{HasFirstIds, AreFirstPairs};
ghost use Rattle.pmr_tree.specs.Changes.{KeysStand};
ghost use Rattle.pmr_tree.specs.Listing.{Pair};

use crate::{Ground, PmrFault};
use sand_base::COORDINATE_BITS;
use std::alloc::{AllocError, Global};
use z_code::Block;

/// An id of a leaf, with the value that its entry has.
#[derive(Clone, Copy, Debug, PartialEq, Eq)]
pub struct Kept {
    pub id: u32,
    pub value: u128,
}

// The key of an id in the leaf of a block.
pub fn key_of(block: Block, id: u32) -> u128
    requires { IsBlock block }
    ensures value { result ≡ key_of block id }
    ensures small { result < 2 ^ (2 * COORDINATE_BITS + 41) }
{
    (u128::from(block.z) << 40) + (u128::from(block.level) << 32) + u128::from(id)
}

// The id in a key.
pub fn id_in(key: u128) -> u32
    ensures { result ≡ id_in key }
{
    (key % (1 << 32)) as u32
}

// The ids of the entries of a leaf.
fn kept_of(alloc: Global, pairs: &[(u128, u128)]) -> Result<Vec<Kept>, AllocError>
    ensures { IfOk result (λ list. list.items ≡ kept_of pairs.now) }
{
    let mut list = Vec::with_capacity(alloc, pairs.len())?;
    'pairs: for pair in pairs {
        let id = id_in(pair.0);
        if id != 0 {
            list.push_reserved(Kept { id, value: pair.1 });
        }
    }
    Ok(list)
}

// The ids of the entries of a leaf, or None where there is no entry.
fn leaf_in(alloc: Global, pairs: &[(u128, u128)]) -> Result<Option<Vec<Kept>>, AllocError>
    ensures { IfOk result (λ found. MatchOption found (length pairs.now ≡ 0)
        (λ list. (0 < length pairs.now) × (list.items ≡ kept_of pairs.now))) }
{
    if pairs.len() == 0 {
        return Ok(None);
    }
    let list = kept_of(alloc, pairs)?;
    Ok(Some(list))
}

// The entries of a block itself.
fn own_pairs<P, S: Ground<P>>(
    alloc: Global,
    ground: &S,
    pages: &mut P,
    block: Block,
) -> Result<Vec<(u128, u128)>, PmrFault>
    requires ready { S.IsReady ground.now pages.old }
    requires block { IsBlock block }
    ensures leads { S.Leads ground.now pages.old ground.now pages.new (fault_of result) }
    ensures found { IfOk result (λ found. S.IsKnown ground.now pages.old → found.items ≡ own_pairs block (S.pairs ground.now pages.old)) }
    ensures same { OnOk result (S.IsKnown ground.now pages.old → S.pairs ground.now pages.new ≡ S.pairs ground.now pages.old) }
{
    let mark = key_of(block, 0);
    ground.between(alloc, pages, mark, mark + (1 << 32))
}

// The first entries of a block itself, one more than so many at most, by a search for each.
fn first_pairs<P, S: Ground<P>>(
    alloc: Global,
    ground: &S,
    pages: &mut P,
    block: Block,
    most: u8,
) -> Result<Vec<(u128, u128)>, PmrFault>
    requires ready { S.IsReady ground.now pages.old }
    requires block { IsBlock block }
    requires rises { S.IsKnown ground.now pages.old → RiseStrictly (firsts (S.pairs ground.now pages.old)) }
    ensures leads { S.Leads ground.now pages.old ground.now pages.new (fault_of result) }
    ensures found { IfOk result (λ found. S.IsKnown ground.now pages.old → found.items ≡ take (most + 1) (own_pairs block (S.pairs ground.now pages.old))) }
    ensures same { OnOk result (S.IsKnown ground.now pages.old → S.pairs ground.now pages.new ≡ S.pairs ground.now pages.old) }
{
    let mut from = key_of(block, 0);
    let end = from + (1 << 32);
    let mut found = Vec::new(alloc);
    'entries: while found.len() <= most as usize {
        let Some(pair) = ground.first(pages, from, end)? else {
            return Ok(found);
        };
        found.push(pair)?;
        from = pair.0 + 1;
    }
    Ok(found)
}

// The entries of a block itself. A block of the finest level may have any number of them: only the first are read then,
// one more than so many at most.
fn few_pairs<P, S: Ground<P>>(
    alloc: Global,
    ground: &S,
    pages: &mut P,
    block: Block,
    most: u8,
) -> Result<Vec<(u128, u128)>, PmrFault>
    requires ready { S.IsReady ground.now pages.old }
    requires block { IsBlock block }
    requires rises { S.IsKnown ground.now pages.old → RiseStrictly (firsts (S.pairs ground.now pages.old)) }
    ensures leads { S.Leads ground.now pages.old ground.now pages.new (fault_of result) }
    ensures found { IfOk result (λ found. S.IsKnown ground.now pages.old → AreFirstPairs block most (S.pairs ground.now pages.old) found.items) }
    ensures same { OnOk result (S.IsKnown ground.now pages.old → S.pairs ground.now pages.new ≡ S.pairs ground.now pages.old) }
{
    if u32::from(block.level) < COORDINATE_BITS {
        let all = own_pairs(alloc, ground, pages, block)?;
        return Ok(all);
    }
    let first = first_pairs(alloc, ground, pages, block, most)?;
    Ok(first)
}

// The ids of a leaf, or None where the block is an inner place. Of a leaf of the finest level only the first may come,
// but at least so many where it has so many.
pub fn leaf_of<P, S: Ground<P>>(
    alloc: Global,
    ground: &S,
    pages: &mut P,
    block: Block,
    most: u8,
) -> Result<Option<Vec<Kept>>, PmrFault>
    requires ready { S.IsReady ground.now pages.old }
    requires block { IsBlock block }
    requires stands { S.IsKnown ground.now pages.old → KeysStand block (firsts (S.pairs ground.now pages.old)) }
    ensures leads { S.Leads ground.now pages.old ground.now pages.new (fault_of result) }
    ensures found { IfOk result (λ found. S.IsKnown ground.now pages.old → MatchOption found
        (own block (firsts (S.pairs ground.now pages.old)) ≡ [])
        (λ list. HasFirstIds block most (firsts (S.pairs ground.now pages.old)) (ids_of list.items))) }
    ensures values { IfOk result (λ found. S.IsKnown ground.now pages.old → (test : ℕ → ℕ → Bool) → Passes test (S.pairs ground.now pages.old) → IfSome found (λ list. ListPasses test list.items)) }
    ensures same { OnOk result (S.IsKnown ground.now pages.old → S.pairs ground.now pages.new ≡ S.pairs ground.now pages.old) }
{
    let pairs = few_pairs(alloc, ground, pages, block, most)?;
    let found = leaf_in(alloc, &pairs)?;
    Ok(found)
}
