ghost use Rattle.std.specs.Prelude.{◌≡◌, None, Ok};
ghost use Rattle.page_pool.specs.Disk.{PageMap};
ghost use Rattle.statements.specs.Plan.{PickBetween as of_column};
ghost use Rattle.sand_model.specs.Reach.{no_counts};
ghost use Rattle.sand_store.specs.Catalog.{IsCatalog};
ghost use Rattle.sand_store.specs.Contents.{database_in};
ghost use Rattle.sand_store.specs.Standing.{CatalogStands};
ghost use Rattle.plan_names.specs.LookUpCosts.{descent_price};
ghost use Rattle.plan_names.specs.Spots.{IfFound, names_of};
ghost use Rattle.plan_iterator.specs.Rows.{counts_of};
ghost use Rattle.plan_iterator.specs.SourceSteps.{nothing_taken};
ghost use Rattle.plan_sources.specs.Plain.{IsPickBetween, LacksInts, entries_left};
ghost use Rattle.plan_sources.specs.Prices.{heights_of};

use crate::answer::{NO_VISITS, plain_answer};
use page_pool::{Desk, Disk, PageFault};
use plan_iterator::{Answer, RowSource, SourceCounts};
use plan_names::LookUp;
use sand_base::NoMemory;
use sand_store::Catalog;
use std::alloc::Global;

/// The rows of a column of ints whose int lies within bounds, both included, by the int and then by id.
#[derive(Drop)]
pub struct PickBetween {
    look_up: LookUp,
    low: i64,
    high: i64,
    last: Option<(i64, u32)>,
}

impl PickBetween {
    /// The pick of the ints within bounds from the column of these names. `None` comes where there is no such column,
    /// or it is not one of ints, or it has no index. No page is read.
    pub fn start(
        alloc: Global,
        catalog: &Catalog,
        relation: &str,
        column: &str,
        low: i64,
        high: i64,
    ) -> Result<Option<PickBetween>, NoMemory>
        ensures counts { IfFound result (λ s. counts_of (⟦<PickBetween as RowSource>⟧.seen s) ≡ no_counts) }
        ensures begun { IfFound result (λ s. (pages : PageMap) → CatalogStands pages catalog.now
            → ⟦<PickBetween as RowSource>⟧.At s pages (database_in pages catalog.now.relations) (of_column (names_of relation.now column.now) low high) nothing_taken) }
        ensures none { result ≡ Ok None → IsCatalog catalog.now → (pages : PageMap) → LacksInts (database_in pages catalog.now.relations) (names_of relation.now column.now) }
    {
        let Some(look_up) = LookUp::named(alloc, catalog, relation, column)? else {
            return Ok(None);
        };
        if !look_up.has_ints() {
            return Ok(None);
        }
        // For the proof alone: ids have 32 bits.
        let _greatest = look_up.spot.relation.greatest();
        Ok(Some(PickBetween {
            look_up,
            low,
            high,
            last: None,
        }))
    }
}

impl RowSource for PickBetween {
    ghost At = { λ s pages d p t. IsPickBetween s.look_up s.low s.high s.last pages d p t };

    ghost seen = { λ s. record { blocks = 0; pairs = 0; geometries = 0 } };

    ghost heights = { λ s. heights_of s.look_up.index.tree.height s.look_up.spot.relation.value.file.tree.height };

    ghost step_price = { λ s. descent_price s.look_up };

    ghost owed = { λ s pages. 0 };

    ghost steps = { λ s. entries_left s.low s.high s.last };

    fn next<D: Disk>(
        &mut self,
        alloc: Global,
        desk: &mut Desk<D>,
    ) -> Result<Option<Answer>, PageFault> {
        let index = self.look_up.index;
        match index.between(desk.pages(), self.low, self.high, self.last) {
            Ok(Some(entry)) => {
                self.last = Some(entry);
                Ok(Some(plain_answer(alloc, entry.1)))
            }
            Ok(None) => Ok(None),
            Err(fault) => Err(fault),
        }
    }

    fn counts(&self) -> SourceCounts {
        NO_VISITS
    }
}
