ghost use Rattle.std.specs.Prelude.{◌≡◌, ◌-◌, false, None, Ok};
ghost use Rattle.page_pool.specs.Disk.{PageMap};
ghost use Rattle.statements.specs.Plan.{PickEqual as of_column};
ghost use Rattle.sand_model.specs.Reach.{no_counts};
ghost use Rattle.sand_store.specs.Catalog.{IsCatalog};
ghost use Rattle.sand_store.specs.Contents.{database_in};
ghost use Rattle.sand_store.specs.Standing.{CatalogStands};
ghost use Rattle.plan_names.specs.Indexed.{LacksIndex};
ghost use Rattle.plan_names.specs.Spots.{IfFound, names_of};
ghost use Rattle.plan_iterator.specs.Rows.{counts_of};
ghost use Rattle.plan_iterator.specs.SourceSteps.{nothing_taken};
ghost use Rattle.plan_names.specs.LookUpCosts.{descent_price};
ghost use Rattle.plan_sources.specs.Plain.{IsPickEqual};
ghost use Rattle.plan_sources.specs.Prices.{heights_of, entries_price};

use crate::answer::{NO_VISITS, plain_answer};
use page_pool::{Desk, Disk, PageFault};
use plan_iterator::{Answer, RowSource, SourceCounts};
use plan_names::LookUp;
use sand_base::{NoMemory, Value};
use sand_store::Catalog;
use std::alloc::Global;

/// The rows of a column whose value equals a given one, by id.
#[derive(Drop)]
pub struct PickEqual {
    look_up: LookUp,
    value: Value,
    last: u32,
}

impl PickEqual {
    /// The pick of a value from the column of these names. `None` comes where there is no such column, or it has no
    /// attribute index. No page is read.
    pub fn start(
        alloc: Global,
        catalog: &Catalog,
        relation: &str,
        column: &str,
        value: Value,
    ) -> Result<Option<PickEqual>, NoMemory>
        ensures counts { IfFound result (λ s. counts_of (⟦<PickEqual as RowSource>⟧.seen s) ≡ no_counts) }
        ensures begun { IfFound result (λ s. (pages : PageMap) → CatalogStands pages catalog.now
            → ⟦<PickEqual as RowSource>⟧.At s pages (database_in pages catalog.now.relations) (of_column (names_of relation.now column.now) value) nothing_taken) }
        ensures none { result ≡ Ok None → IsCatalog catalog.now → (pages : PageMap) → LacksIndex (database_in pages catalog.now.relations) (names_of relation.now column.now) false }
    {
        let Some(look_up) = LookUp::named(alloc, catalog, relation, column)? else {
            return Ok(None);
        };
        Ok(Some(PickEqual {
            look_up,
            value,
            last: 0,
        }))
    }
}

impl RowSource for PickEqual {
    ghost At = { λ s pages d p t. IsPickEqual s.look_up s.value s.last pages d p t };

    ghost seen = { λ s. record { blocks = 0; pairs = 0; geometries = 0 } };

    ghost heights = { λ s. heights_of s.look_up.index.tree.height s.look_up.spot.relation.value.file.tree.height };

    ghost step_price = { λ s. descent_price s.look_up };

    ghost owed = { λ s pages. entries_price pages s.look_up s.value s.last };

    ghost steps = { λ s. 4294967296 - s.last };

    fn next<D: Disk>(
        &mut self,
        alloc: Global,
        desk: &mut Desk<D>,
    ) -> Result<Option<Answer>, PageFault> {
        match self
            .look_up
            .next(alloc, desk.pages(), &self.value, self.last)
        {
            Ok(Some(id)) => {
                self.last = id;
                Ok(Some(plain_answer(alloc, id)))
            }
            Ok(None) => {
                // No id is greater, so that nothing is passed again where the end is asked for once more.
                self.last = u32::MAX;
                Ok(None)
            }
            Err(fault) => Err(fault),
        }
    }

    fn counts(&self) -> SourceCounts {
        NO_VISITS
    }
}
