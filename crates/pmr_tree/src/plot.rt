ghost use Rattle.std.specs.Prelude.{◌≡◌, ℕ, ◌<◌, ◌≤◌, ◌∷◌, refl};
ghost use Rattle.std.proofs.Common.{◌∙◌, ap, ap₂, sym, subst};
ghost use Rattle.code_btree.specs.Tree.{pages_in, tree_items};
ghost use Rattle.page_pool.specs.Pool.{IsTold};
ghost use Rattle.pmr_tree.specs.Plot.{TellsOf, IsReadyOn, LeadsOn, LeadsOn-still, LeadsOn-spent, LeadsOn-onward, LeadsOn-from, IsReadyOn-from, TellsOf-from};

use crate::part::{QuartersMet, quarters_met};
use crate::range::{entries_between, entry_between};
use crate::{Ground, PmrFault, ShapeOf};
use code_btree::Tree;
use page_pool::{Disk, Pool};
use ring_geom::meets_rect;
use sand_base::Shape;
use std::alloc::Global;
use z_code::Block;

// The entries of a quadtree in pages, with the shapes of rows and that of one id more.
#[derive(Drop)]
pub struct Plot<'s, G> {
    pub tree: Tree,
    pub shapes: &'s G,
    pub id: u32,
    pub shape: &'s Shape,
}

impl<'s, D: Disk, G: ShapeOf> Ground<Pool<D>> for Plot<'s, G> {
    ghost pairs = { λ a p. tree_items (pages_in p) a.tree };

    ghost Tells = { λ a p m has. TellsOf ((a.id, a.shape.now) ∷ G.rows a.shapes.now p.pages) m has };

    ghost IsReady = { λ a p. IsReadyOn a.shape.now (G.Stands a.shapes.now) (G.Owns a.shapes.now) a.tree p };

    ghost IsKnown = { λ a p. IsTold p };

    ghost Leads = { λ a p b q end. (b.shapes ≡ a.shapes) × ((b.id ≡ a.id)
        × ((b.shape ≡ a.shape) × LeadsOn (G.rows a.shapes.now) a.shape.now (G.Stands a.shapes.now) (G.Owns a.shapes.now) a.tree p b.tree q end)) };

    fn between(
        &self,
        alloc: Global,
        pages: &mut Pool<D>,
        low: u128,
        high: u128,
    ) -> Result<Vec<(u128, u128)>, PmrFault> {
        let found = entries_between(alloc, self.tree, pages, low, high)?;
        Ok(found)
    }

    fn first(
        &self,
        pages: &mut Pool<D>,
        low: u128,
        high: u128,
    ) -> Result<Option<(u128, u128)>, PmrFault> {
        let found = entry_between(self.tree, pages, low, high)?;
        Ok(found)
    }

    fn does_meet(
        &self,
        alloc: Global,
        pages: &mut Pool<D>,
        block: Block,
        id: u32,
    ) -> Result<bool, PmrFault> {
        if id == self.id {
            return Ok(meets_rect(self.shape, block.rect()));
        }
        let shape = self.shapes.shape_of(alloc, pages, id)?;
        Ok(meets_rect(&shape, block.rect()))
    }

    fn quarters_met(
        &self,
        alloc: Global,
        pages: &mut Pool<D>,
        block: Block,
        id: u32,
    ) -> Result<QuartersMet, PmrFault> {
        if id == self.id {
            return Ok(quarters_met(self.shape, block));
        }
        let shape = self.shapes.shape_of(alloc, pages, id)?;
        Ok(quarters_met(&shape, block))
    }

    fn put(&mut self, pages: &mut Pool<D>, key: u128, value: u128) -> Result<(), PmrFault> {
        self.tree.insert(pages, key, value)?;
        Ok(())
    }

    fn take(&mut self, pages: &mut Pool<D>, key: u128) -> Result<(), PmrFault> {
        self.tree.remove(pages, key)?;
        Ok(())
    }

    ghost still = { λ a p. (refl, (refl, (refl, LeadsOn-still (G.rows a.shapes.now) a.shape.now (G.Stands a.shapes.now) (G.Owns a.shapes.now) a.tree p))) };

    ghost spent = { λ a p. (refl, (refl, (refl, LeadsOn-spent (G.rows a.shapes.now) a.shape.now (G.Stands a.shapes.now) (G.Owns a.shapes.now) a.tree p))) };

    ghost onward = { λ a p b q c r end h k. (
      k.0 ∙ h.0,
      (
        k.1.0 ∙ h.1.0,
        (
          k.1.1.0 ∙ h.1.1.0,
          LeadsOn-onward (G.rows a.shapes.now) a.shape.now (G.Stands a.shapes.now) (G.Owns a.shapes.now) a.tree p b.tree q c.tree r end h.1.1.1
              (LeadsOn-from (λ s. G.rows s.now) (λ z. z.now) (λ s. G.Stands s.now) (λ s. G.Owns s.now) a.shapes b.shapes a.shape b.shape b.tree q c.tree r end h.0 h.1.1.0 k.1.1.1),
        ),
      ),
    ) };

    ghost ready = { λ a p b q h ready. IsReadyOn-from (λ z. z.now) (λ s. G.Stands s.now) (λ s. G.Owns s.now) a.shapes b.shapes a.shape b.shape b.tree q h.0 h.1.1.0 (h.1.1.1.ready refl ready) };

    ghost known = { λ a p b q h told. h.1.1.1.within.told ∙ told };

    ghost knew = { λ a p b q h told. sym h.1.1.1.within.told ∙ told };

    ghost steady = { λ a p b q h ready told m has tells. TellsOf-from a.id b.id a.shape.now b.shape.now (G.rows a.shapes.now p.pages) (G.rows b.shapes.now q.pages) m has h.1.0
        (ap (λ z. z.now) h.1.1.0) (ap (λ s. G.rows s.now q.pages) h.0 ∙ h.1.1.1.same refl told ready) tells };
}
