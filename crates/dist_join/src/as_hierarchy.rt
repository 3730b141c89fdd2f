ghost use Rattle.dist_join.specs.Exact.{pair_exact};
ghost use Rattle.dist_join.specs.Joining.{join_meaning};
ghost use Rattle.dist_join.specs.Looks.{AreNear};
ghost use Rattle.dist_join.specs.OverPages.{paged, joining_over, pair_visit_of, pair_weight};

use crate::PairTree;
use crate::blocks::are_blocks;
use crate::figures::{figures_gap, rects_gap};
use crate::looks::{fetch_both, look_at_both};
use crate::places::add_found;
use best_first::{Hierarchy, Item};
use exact_frac::Frac;
use page_pool::{Desk, Disk, PageFault};
use pmr_tree::{Near, ShapeOf};
use sand_base::{Goal, NoMemory, Visit};
use std::alloc::Global;
use z_code::Block;

impl<G: ShapeOf + Drop> Hierarchy for PairTree<G> {
    type Node = (Block, Block);

    type Near = (Near, Near);

    ghost meaning = { λ t pages. join_meaning (joining_over (paged (G.rows t.left_shapes) (G.Stands t.left_shapes) (G.price t.left_shapes) t.left)
        (paged (G.rows t.right_shapes) (G.Stands t.right_shapes) (G.price t.right_shapes) t.right) t.ceiling pages) };

    ghost note = { λ t item. pair_visit_of t.left.number t.right.number item };

    ghost weight = { λ t pair. pair_weight pair };

    ghost IsNear = { λ t pages near. AreNear pages t.left t.right near };

    fn root(&self) -> (Frac, (Block, Block)) {
        let block = Block::root();
        let square = block.rect();
        (rects_gap(square, square), (block, block))
    }

    fn ceiling(&self) -> Option<u32> {
        self.ceiling
    }

    fn nowhere(&self) -> (Near, Near) {
        (Near::nowhere(), Near::nowhere())
    }

    fn expand_near<D: Disk>(
        &self,
        alloc: Global,
        desk: &mut Desk<D>,
        gap: Frac,
        node: (Block, Block),
        near: &mut (Near, Near),
        found: &mut Vec<Item<(Block, Block)>>,
    ) -> Result<(), PageFault> {
        let (block, other) = node;
        // Over a disk that doesn't tell its pages any value may come.
        if !are_blocks(block, other) {
            return Ok(());
        }
        let visit = Visit::Pair {
            left: (self.left.number, block.z, block.level),
            right: (self.right.number, other.z, other.level),
        };
        match desk.note(visit) {
            Ok(()) => {}
            Err(NoMemory {}) => return Err(PageFault::Memory),
        }
        match look_at_both(
            alloc,
            desk.pages(),
            &self.left,
            block,
            &self.right,
            other,
            near,
        ) {
            Ok((place, second)) => match add_found(alloc, gap, node, &place, &second, found) {
                Ok(()) => Ok(()),
                Err(NoMemory {}) => Err(PageFault::Memory),
            },
            Err(fault) => Err(fault),
        }
    }

    fn resolve<D: Disk>(
        &self,
        alloc: Global,
        desk: &mut Desk<D>,
        left: u32,
        right: u32,
    ) -> Result<Frac, PageFault> {
        match desk.note(Visit::GeometryPair { left, right }) {
            Ok(()) => {}
            Err(NoMemory {}) => return Err(PageFault::Memory),
        }
        match fetch_both(
            alloc,
            desk.pages(),
            &self.left_shapes,
            left,
            &self.right_shapes,
            right,
        ) {
            Ok((shape, second)) => Ok(figures_gap(&Goal::Shape(shape), &Goal::Shape(second))),
            Err(fault) => Err(fault),
        }
    }

    ghost exact = { pair_exact };
}
