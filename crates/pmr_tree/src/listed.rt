ghost use Rattle.std.specs.Prelude.{◌≡◌, [], ◌∷◌, IfOk, IfSome, option_to_list};
ghost use Rattle.pmr_tree.specs.Entries.{IsRoughInPlane};
ghost use Rattle.pmr_tree.specs.Leaves.{ids_at, place_of_entries};
ghost use Rattle.pmr_tree.specs.Listing.{listed_in};

use crate::leaf::id_in;
use crate::value::rough_of;
use sand_base::{COORDINATE_BITS, NoMemory, Rough};
use std::alloc::{AllocError, Global};
use std::marker::Model;
use z_code::Block;

/// An id of a leaf with what the tree keeps of its shape.
#[derive(Clone, Copy, Debug, PartialEq, Eq)]
pub struct Listed {
    pub id: u32,
    pub rough: Rough,
}

/// What an entry of a leaf lists: its id with its rough shape, or nothing where it marks an empty leaf.
#[inline]
pub fn listed_of(pair: (u128, u128)) -> Option<Listed>
    ensures listed { option_to_list result ≡ listed_in (pair ∷ []) }
    ensures plane { IfSome result (λ l. IsRoughInPlane l.rough) }
{
    let id = id_in(pair.0);
    if id == 0 {
        return None;
    }
    Some(Listed {
        id,
        rough: rough_of(pair.1),
    })
}

/// The ids of a leaf in ascending order. It holds the entries of the leaf as pages have them, and whoever reads it
/// decodes them. Contracts see the list.
#[derive(Drop)]
pub struct LeafList {
    pairs: Vec<(u128, u128)>,
}

impl Model for LeafList {
    ghost use Rattle.std.specs.Prelude.{List};
    ghost use Rattle.pmr_tree.specs.declared.listed.Listed.{Listed};
    ghost use Rattle.pmr_tree.specs.Listing.{listed_in};

    ghost Value = { List Listed };

    ghost view = { λ list. listed_in list.pairs.items };
}

impl LeafList {
    /// The list of these entries.
    pub fn new(pairs: Vec<(u128, u128)>) -> LeafList
        ensures { result ≡ listed_in pairs.items }
    {
        LeafList { pairs }
    }

    /// The entries, each for `listed_of`.
    #[inline]
    pub fn pairs(&self) -> &[(u128, u128)]
        ensures { listed_in result.now ≡ self.now }
    {
        &self.pairs
    }

    /// The list decoded, for whoever reads it more than once.
    pub fn to_vec(&self, alloc: Global) -> Result<Vec<Listed>, NoMemory>
        ensures { IfOk result (λ list. list.items ≡ self.now) }
    {
        let list = listed_in(alloc, &self.pairs)?;
        Ok(list)
    }
}

/// A place of a quadtree: an inner one, which has four children, or a leaf with its ids.
#[derive(Drop)]
pub enum Node {
    Inner,
    Leaf(LeafList),
}

// The ids of the entries of a leaf, each with its rough shape.
fn listed_in(alloc: Global, pairs: &[(u128, u128)]) -> Result<Vec<Listed>, AllocError>
    ensures { IfOk result (λ list. list.items ≡ listed_in pairs.now) }
{
    let mut list = Vec::with_capacity(alloc, pairs.len())?;
    'pairs: for pair in pairs {
        if let Some(listed) = listed_of(*pair) {
            list.push_reserved(listed);
        }
    }
    Ok(list)
}

// The place of a block whose own entries these are. A block of the finest level is a leaf in any case.
pub fn node_in(block: Block, pairs: Vec<(u128, u128)>) -> Node
    ensures { result ≡ place_of_entries block pairs.items }
{
    if pairs.len() == 0 && u32::from(block.level) < COORDINATE_BITS {
        return Node::Inner;
    }
    Node::Leaf(LeafList::new(pairs))
}

// The ids alone of the entries of a leaf.
pub fn ids_at(alloc: Global, pairs: &[(u128, u128)]) -> Result<Vec<u32>, NoMemory>
    ensures { IfOk result (λ ids. ids.items ≡ ids_at pairs.now) }
{
    let ids = pairs
        .iter()
        .map(|pair| id_in(pair.0))
        .filter(|id| *id != 0)
        .collect(alloc)?;
    Ok(ids)
}
