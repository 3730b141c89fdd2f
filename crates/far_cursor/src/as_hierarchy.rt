ghost use Rattle.pmr_tree.specs.Quadtree.{IsNearIn};
ghost use Rattle.rank_cursor.specs.Cursor.{visit_of, block_weight};
ghost use Rattle.rank_cursor.specs.Exact.{block_exact};
ghost use Rattle.far_cursor.specs.FarRanking.{far_ranking};
ghost use Rattle.rank_cursor.specs.Ranking.{rank_meaning};

use crate::FarTree;
use crate::blocks::is_block;
use crate::entries::add_found;
use crate::keys::{rect_key, shape_key};
use best_first::{Hierarchy, Item};
use exact_frac::Frac;
use page_pool::{Desk, Disk, PageFault};
use pmr_tree::{Near, ShapeOf};
use sand_base::{NoMemory, Visit};
use std::alloc::Global;
use z_code::Block;

impl<G: ShapeOf + Drop> Hierarchy for FarTree<G> {
    type Node = Block;

    type Near = Near;

    ghost meaning = { λ t pages. rank_meaning (far_ranking (G.rows t.shapes) (G.Stands t.shapes) (G.price t.shapes) t.pmr t.goal pages) };

    ghost note = { λ t item. visit_of t.pmr.number item };

    ghost weight = { λ t b. block_weight b };

    ghost IsNear = { λ t pages near. IsNearIn pages t.pmr near };

    fn root(&self) -> (Frac, Block) {
        let block = Block::root();
        (rect_key(self.goal, block.rect()), block)
    }

    fn ceiling(&self) -> Option<u32> {
        None
    }

    fn nowhere(&self) -> Near {
        Near::nowhere()
    }

    fn expand_near<D: Disk>(
        &self,
        alloc: Global,
        desk: &mut Desk<D>,
        gap: Frac,
        node: Block,
        near: &mut Near,
        found: &mut Vec<Item<Block>>,
    ) -> Result<(), PageFault> {
        // Over a disk that doesn't tell its pages any value may come.
        if !is_block(node) {
            return Ok(());
        }
        match self.pmr.visit_near(alloc, desk, node, near) {
            Ok(place) => match add_found(self.goal, gap, node, &place, found) {
                Ok(()) => Ok(()),
                Err(NoMemory {}) => Err(PageFault::Memory),
            },
            Err(fault) => Err(fault),
        }
    }

    fn resolve<D: Disk>(
        &self,
        alloc: Global,
        desk: &mut Desk<D>,
        left: u32,
        _right: u32,
    ) -> Result<Frac, PageFault> {
        match desk.note(Visit::Geometry { id: left }) {
            Ok(()) => {}
            Err(NoMemory {}) => return Err(PageFault::Memory),
        }
        match self.shapes.shape_of(alloc, desk.pages(), left) {
            Ok(shape) => Ok(shape_key(self.goal, &shape)),
            Err(fault) => Err(fault),
        }
    }

    ghost exact = { block_exact };
}
