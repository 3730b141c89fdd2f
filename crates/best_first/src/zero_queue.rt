ghost use Rattle.std.specs.Prelude.{◌≡◌, ◌+◌, ◌<◌, ◌≤◌, ◌↔◌, ◌++◌, [], ◌∷◌, List, length, OnOk, OnErr, IfOk, MatchOption, IsTrue, All, vec_len, vec_capacity};
ghost use Rattle.best_first.specs.ZeroItems.{IsLeastOf, HasBit, OpensNode, Fetches, GivesId, bits_for, rough_at_zero};
ghost use Rattle.best_first.specs.RowsAtZero.{row_at_zero};

use crate::Item;
use crate::id_set::IdSet;
use sand_base::NoMemory;
use std::alloc::Global;
use std::marker::Model;

/// What a search within the distance 0 has still to take: nodes, and rough objects and rows by their ids. Contracts see
/// the three lists, and the bound below which ids have bits.
#[derive(Drop)]
pub struct ZeroQueue<N> {
    nodes: Vec<N>,
    roughs: IdSet,
    rows: IdSet,
}

impl<N> Model for ZeroQueue<N> {
    ghost use Rattle.std.specs.Prelude.{◌≡◌};
    ghost use Rattle.best_first.specs.ZeroItems.{ZeroItems};

    ghost Value = { ZeroItems N };

    ghost view = { λ q. record { nodes = q.nodes.items; roughs = q.roughs.ids; rows = q.rows.ids; below = q.rows.below } };

    ghost invariant = { λ q. q.rows.below ≡ q.roughs.below };
}

impl<N: Copy + Drop> ZeroQueue<N> {
    // Nothing, and bits for each id below `count`.
    pub fn below(alloc: Global, count: u32) -> Result<ZeroQueue<N>, NoMemory>
        ensures { IfOk result (λ q. q ≡ record { nodes = []; roughs = []; rows = []; below = bits_for count }) }
    {
        let roughs = IdSet::below(alloc, count)?;
        let rows = IdSet::below(alloc, count)?;
        Ok(ZeroQueue {
            nodes: Vec::new(alloc),
            roughs,
            rows,
        })
    }

    // One node more. After a refusal all is as it was.
    pub fn add_node(&mut self, node: N) -> Result<(), NoMemory>
        ensures added { OnOk result (self.new ≡ record self.old { nodes = self.old.nodes ++ node ∷ [] }) }
        ensures unchanged { OnErr result (self.new ≡ self.old) }
    {
        self.nodes.push(node)?;
        Ok(())
    }

    // The node that is opened next, None exactly where there is none.
    #[inline]
    pub fn node(&self) -> Option<N>
        ensures { MatchOption result (self.now.nodes ≡ []) (λ node. (rest : List N) × (self.now.nodes ≡ rest ++ node ∷ [])) }
    {
        self.nodes.last().copied()
    }

    // Takes the node that is opened next, and adds what was found in it at the distance 0. An id with no bit is refused
    // as out of memory. After a refusal all is as it was.
    pub fn open(&mut self, found: &[Item<N>]) -> Result<(), NoMemory>
        ensures opened { OnOk result ((node : N) (rest : List N) → self.old.nodes ≡ rest ++ node ∷ [] → OpensNode rest found.now self.old self.new) }
        ensures unchanged { OnErr result (self.new ≡ self.old) }
    {
        if !has_bits(&self.rows, found) {
            return Err(NoMemory {});
        }
        self.nodes.reserve(found.len())?;
        let _opened = self.nodes.pop();
        add_all(&mut self.nodes, &mut self.roughs, &mut self.rows, found);
        Ok(())
    }

    // Takes the node that is opened next.
    #[inline]
    pub fn take_node(&mut self)
        ensures { (node : N) (rest : List N) → self.old.nodes ≡ rest ++ node ∷ [] → self.new ≡ record self.old { nodes = rest } }
    {
        let _taken = self.nodes.pop();
    }

    // Whether there is a bit for the id.
    #[inline]
    pub fn has_bit(&self, id: u32) -> bool
        ensures { IsTrue result ↔ (id < self.now.below) }
    {
        self.rows.has_bit(id)
    }

    // Adds a rough object at the distance 0 by its id, for which there is a bit.
    #[inline]
    pub fn add_rough(&mut self, id: u32)
        requires { id < self.old.below }
        ensures { OpensNode self.old.nodes (rough_at_zero id ∷ []) self.old self.new }
    {
        self.roughs.insert(id);
    }

    // Adds a row at the distance 0 by its id, for which there is a bit.
    #[inline]
    pub fn add_row(&mut self, id: u32)
        requires { id < self.old.below }
        ensures { OpensNode self.old.nodes (row_at_zero id ∷ []) self.old self.new }
    {
        self.rows.insert(id);
    }

    // The id of the rough object that is fetched next, the least, None exactly where there is none.
    #[inline]
    pub fn rough(&self) -> Option<u32>
        ensures { MatchOption result (self.now.roughs ≡ []) (λ id. IsLeastOf id self.now.roughs) }
    {
        self.roughs.least()
    }

    // Takes the rough object that is fetched next, and adds its row where that is at the distance 0.
    pub fn fetch(&mut self, id: u32, is_near: bool)
        requires { IsLeastOf id self.old.roughs }
        ensures { Fetches id is_near self.old self.new }
    {
        let _taken = self.roughs.take_least();
        if is_near {
            self.rows.insert(id);
        }
    }

    // Takes the row of the least id, None exactly where there is none.
    #[inline]
    pub fn take_row(&mut self) -> Option<u32>
        ensures { MatchOption result ((self.old.rows ≡ []) × (self.new ≡ self.old)) (λ id. GivesId id self.old self.new) }
    {
        self.rows.take_least()
    }
}

// Whether there is a bit for each id that was found.
fn has_bits<N>(ids: &IdSet, found: &[Item<N>]) -> bool
    ensures { IsTrue result ↔ All (HasBit ids.now.below) found.now }
{
    'found: for item in found {
        if !has_bit(ids, item) {
            return false;
        }
    }
    true
}

// Whether there is a bit for the id of the item, where it has one.
#[inline]
fn has_bit<N>(ids: &IdSet, item: &Item<N>) -> bool
    ensures { IsTrue result ↔ HasBit ids.now.below item.now }
{
    match item {
        Item::Node { .. } => true,
        Item::Rough { left, .. } | Item::Row { left, .. } => ids.has_bit(*left),
    }
}

// Adds what was found at the distance 0 to lists that have room for all of it. What was found first is added last,
// since the last node is opened first.
fn add_all<N: Copy + Drop>(
    nodes: &mut Vec<N>,
    roughs: &mut IdSet,
    rows: &mut IdSet,
    found: &[Item<N>],
)
    requires room { vec_len nodes.old + length found.now ≤ vec_capacity nodes.old }
    requires bits { All (HasBit rows.old.below) found.now }
    requires same { rows.old.below ≡ roughs.old.below }
    ensures added { OpensNode nodes.old.items found.now (record { nodes = nodes.old.items; roughs = roughs.old.ids; rows = rows.old.ids; below = rows.old.below })
        (record { nodes = nodes.new.items; roughs = roughs.new.ids; rows = rows.new.ids; below = rows.new.below }) }
    ensures bits { (roughs.new.below ≡ roughs.old.below) × (rows.new.below ≡ rows.old.below) }
{
    let mut at = found.len();
    'found: while at > 0 {
        at -= 1;
        add(nodes, roughs, rows, &found[at]);
    }
}

// Adds an item, if it is at the distance 0.
#[inline]
fn add<N: Copy + Drop>(nodes: &mut Vec<N>, roughs: &mut IdSet, rows: &mut IdSet, item: &Item<N>)
    requires room { vec_len nodes.old < vec_capacity nodes.old }
    requires bit { HasBit rows.old.below item.now }
    requires same { rows.old.below ≡ roughs.old.below }
    ensures added { OpensNode nodes.old.items (item.now ∷ []) (record { nodes = nodes.old.items; roughs = roughs.old.ids; rows = rows.old.ids; below = rows.old.below })
        (record { nodes = nodes.new.items; roughs = roughs.new.ids; rows = rows.new.ids; below = rows.new.below }) }
    ensures bits { (roughs.new.below ≡ roughs.old.below) × (rows.new.below ≡ rows.old.below) }
    ensures len { vec_len nodes.new ≤ vec_len nodes.old + 1 }
    ensures capacity { vec_capacity nodes.new ≡ vec_capacity nodes.old }
{
    if item.gap().num() != 0 {
        return;
    }
    match item {
        Item::Node { node, .. } => nodes.push_reserved(*node),
        Item::Rough { left, .. } => {
            roughs.insert(*left);
        }
        Item::Row { left, .. } => {
            rows.insert(*left);
        }
    }
}
