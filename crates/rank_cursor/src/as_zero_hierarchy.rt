use crate::RankTree;
use crate::at_zero::open_place;
use crate::blocks::is_block;
use best_first::{ZeroHierarchy, ZeroQueue};
use page_pool::{Desk, Disk, PageFault};
use pmr_tree::{Near, ShapeOf};
use sand_base::NoMemory;
use std::alloc::Global;
use z_code::Block;

impl<G: ShapeOf + Drop> ZeroHierarchy for RankTree<G> {
    fn open_near<D: Disk>(
        &self,
        alloc: Global,
        desk: &mut Desk<D>,
        node: Block,
        near: &mut Near,
        queue: &mut ZeroQueue<Block>,
    ) -> Result<(), PageFault> {
        // Over a disk that doesn't tell its pages any value may come.
        if !is_block(node) {
            queue.take_node();
            return Ok(());
        }
        match self.pmr.visit_near(alloc, desk, node, near) {
            Ok(place) => match open_place(&self.goal, node, &place, queue) {
                Ok(()) => Ok(()),
                Err(NoMemory {}) => Err(PageFault::Memory),
            },
            Err(fault) => Err(fault),
        }
    }
}
