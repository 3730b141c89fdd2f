ghost use Rattle.near_cursor.specs.NearRanking.{near_meaning, near_visit, near_weight};
ghost use Rattle.near_cursor.specs.NodeExact.{node_exact};

use crate::NearTree;
use crate::figures::{bound_gap, shape_gap};
use crate::items::add_found;
use crate::visit::visit_node;
use best_first::{Hierarchy, Item};
use exact_frac::Frac;
use page_pool::{Desk, Disk, PageFault};
use pmr_tree::ShapeOf;
use sand_base::{NoMemory, Visit};
use std::alloc::Global;

impl<G: ShapeOf + Drop> Hierarchy for NearTree<G> {
    type Node = (u64, u32);

    type Near = ();

    ghost meaning = { λ t pages. near_meaning (G.rows t.shapes) (G.Stands t.shapes) (G.price t.shapes) t.tree t.goal t.ceiling pages };

    ghost note = { λ t item. near_visit t.tree.number item };

    ghost weight = { λ t node. near_weight node };

    ghost IsNear = { λ t pages near. Unit {0} };

    fn root(&self) -> (Frac, (u64, u32)) {
        let (bound, page) = self.tree.root();
        (bound_gap(&self.goal, bound), (page, self.tree.height()))
    }

    fn ceiling(&self) -> Option<u32> {
        self.ceiling
    }

    fn nowhere(&self) {}

    fn expand_near<D: Disk>(
        &self,
        alloc: Global,
        desk: &mut Desk<D>,
        _gap: Frac,
        node: (u64, u32),
        _near: &mut (),
        found: &mut Vec<Item<(u64, u32)>>,
    ) -> Result<(), PageFault> {
        match visit_node(&self.tree, alloc, desk, node.0) {
            Ok(entries) => match add_found(&self.goal, node, &entries, found) {
                Ok(()) => Ok(()),
                Err(NoMemory {}) => Err(PageFault::Memory),
            },
            Err(fault) => Err(fault),
        }
    }

    fn resolve<D: Disk>(
        &self,
        alloc: Global,
        desk: &mut Desk<D>,
        left: u32,
        _right: u32,
    ) -> Result<Frac, PageFault> {
        match desk.note(Visit::Geometry { id: left }) {
            Ok(()) => {}
            Err(NoMemory {}) => return Err(PageFault::Memory),
        }
        match self.shapes.shape_of(alloc, desk.pages(), left) {
            Ok(shape) => Ok(shape_gap(&self.goal, &shape)),
            Err(fault) => Err(fault),
        }
    }

    ghost exact = { node_exact };
}
