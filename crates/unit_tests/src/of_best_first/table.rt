// A tree of bounds in a table, as a hierarchy.
ghost use Rattle.std.specs.Prelude.{◌≡◌, [], Some, None, if◌then◌else◌, sum_by};
ghost use Rattle.std.proofs.lemmas.Map.Lookups.{exact_unsigned};
ghost use Rattle.sand_base.specs.declared.visit.Visit.TheVariants as visit;
ghost use Rattle.best_first.specs.Item.{node_if_any};

use best_first::{Hierarchy, Item};
use exact_frac::Frac;
use page_pool::{Desk, Disk, PageFault};
use sand_base::Visit;
use std::alloc::Global;

// An item that a node lists, under its squared distance: a node by its number, a rough object or a row by its id.
#[derive(Clone, Copy)]
enum Entry {
    Node(u8, u32),
    Rough(u8, u32),
    Row(u8, u32),
}

use Entry::{Node, Rough, Row};

const ROOT: u32 = 40;

// A node, the bit that turns its two items round, and these. A node's number is above the sum of those of its children. Nodes, rough objects and rows stand at equal distances,
// object 6 in two leaves, and object 3 in two leaves under bounds that differ.
const TREE: [(u32, u16, Entry, Entry); 8] = [
    (40, 1, Node(0, 25), Node(1, 13)),
    (25, 2, Node(1, 15), Row(1, 7)),
    (13, 4, Rough(1, 3), Node(4, 11)),
    (15, 8, Node(1, 8), Node(4, 5)),
    (11, 16, Node(4, 3), Rough(4, 1)),
    (8, 32, Row(4, 9), Rough(1, 2)),
    (5, 64, Rough(4, 6), Row(4, 5)),
    (3, 128, Rough(4, 6), Rough(4, 3)),
];

// The rows in their order, by distance and id.
pub const ROWS: [(u128, u32); 7] = [(1, 2), (1, 7), (4, 3), (4, 5), (4, 6), (4, 9), (9, 1)];

// The exact squared distance of a rough object.
fn exact(id: u32) -> u8 {
    match id {
        1 => 9,
        2 => 1,
        _ => 4,
    }
}

fn whole(gap: u8) -> Frac {
    Frac::new(u128::from(gap), 1)
}

// The item, and the number of its node, which is 0 where it is none.
fn item(entry: Entry) -> (Item<u32>, u32)
    ensures { result.1 ≡ sum_by (λ n. n) (node_if_any result.0) }
{
    match entry {
        Node(gap, node) => (
            Item::Node {
                gap: whole(gap),
                node,
            },
            node,
        ),
        Rough(gap, left) => (
            Item::Rough {
                gap: whole(gap),
                left,
                right: 0,
            },
            0,
        ),
        Row(gap, left) => (
            Item::Row {
                gap: whole(gap),
                left,
                right: 0,
            },
            0,
        ),
    }
}

// The table, with the nodes that turn their items round, and whether rows farther than 2 are left out.
#[derive(Drop)]
pub struct Table {
    turned: u16,
    is_near: bool,
    root_gap: Frac,
}

impl Table {
    pub fn new(turned: u16, is_near: bool) -> Table {
        Table {
            turned,
            is_near,
            root_gap: whole(0),
        }
    }

    // What the node lists, in the order that the table is to have.
    fn finds(&self, node: u32) -> Option<(Entry, Entry)> {
        let (_, bit, first, second) = TREE.iter().find(|listed| listed.0 == node)?;
        if self.turned & *bit == 0 {
            Some((*first, *second))
        } else {
            Some((*second, *first))
        }
    }
}

impl Hierarchy for Table {
    type Node = u32;

    type Near = ();

    // (no contract asks what pages mean that aren't told, and over pages that are the table meets no law)
    ghost meaning = { λ t pages. record {
      IsReadable = Unit {0};
      root = 40;
      gap = λ node. t.root_gap;
      finds = λ node. [];
      under = λ node. [];
      rows = [];
      ceiling = if t.is_near then Some 2 else None;
      price = λ item. 0;
    } };

    ghost note = { λ t item. visit.Geometry 0 };

    ghost weight = { λ t node. node };

    ghost IsNear = { λ t pages near. Unit {0} };

    fn root(&self) -> (Frac, u32) {
        (self.root_gap, ROOT)
    }

    fn ceiling(&self) -> Option<u32> {
        if self.is_near { Some(2) } else { None }
    }

    fn nowhere(&self) {}

    fn expand_near<D: Disk>(
        &self,
        _alloc: Global,
        desk: &mut Desk<D>,
        _gap: Frac,
        node: u32,
        _near: &mut (),
        found: &mut Vec<Item<u32>>,
    ) -> Result<(), PageFault> {
        let Some((first, second)) = self.finds(node) else {
            return Err(PageFault::Memory);
        };
        let (first, first_number) = item(first);
        let (second, second_number) = item(second);
        if u64::from(first_number) + u64::from(second_number) >= u64::from(node) {
            return Err(PageFault::Memory);
        }
        match found.extend_from_slice(&[first, second]) {
            Ok(()) => Ok(()),
            Err(_) => Err(PageFault::Memory),
        }
    }

    fn resolve<D: Disk>(
        &self,
        _alloc: Global,
        desk: &mut Desk<D>,
        left: u32,
        _right: u32,
    ) -> Result<Frac, PageFault> {
        Ok(whole(exact(left)))
    }

    ghost exact = { exact_unsigned };
}
