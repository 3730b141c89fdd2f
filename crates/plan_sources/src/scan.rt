ghost use Rattle.std.specs.Prelude.{◌≡◌, ℕ, ◌+◌, ◌-◌, ◌<◌, ◌≤◌, min, List, Some, None, Ok, IfOk, IfSome};
ghost use Rattle.sand_base.specs.Faults.{last_count};
ghost use Rattle.page_pool.specs.Disk.{PageMap};
ghost use Rattle.page_pool.specs.Pool.{IsTold};
ghost use Rattle.page_pool.specs.Reads.{IsRead};
ghost use Rattle.page_pool.specs.Causes.{HasPageCause};
ghost use Rattle.sand_model.specs.Database.{relation_named};
ghost use Rattle.sand_model.specs.Price.{scan_price};
ghost use Rattle.sand_model.specs.Reach.{no_counts};
ghost use Rattle.sand_store.specs.Contents.{rows_in, database_in};
ghost use Rattle.sand_store.specs.Standing.{CatalogStands};
ghost use Rattle.plan_names.specs.Spots.{Stands, IfFound};
ghost use Rattle.plan_iterator.specs.Rows.{counts_of};
ghost use Rattle.plan_iterator.specs.SourceSteps.{nothing_taken};
ghost use Rattle.statements.specs.Plan.{Scan as of_relation};
ghost use Rattle.plan_sources.specs.Plain.{GivesNextId, row_ids, IsScan};
ghost use Rattle.plan_sources.specs.Prices.{heights_of};

use crate::answer::{NO_VISITS, plain_answer};
use page_pool::{Desk, Disk, PageFault, Pages};
use plan_iterator::{Answer, RowSource, SourceCounts};
use sand_base::NoMemory;
use sand_store::{Catalog, Relation};
use std::alloc::Global;
use std::rc::Rc;

/// All rows of a relation, by id.
#[derive(Drop)]
pub struct Scan {
    relation: Rc<Relation>,
    last: u32,
}

impl Scan {
    /// The scan of the relation of this name, `None` where there is none. No page is read.
    pub fn start(alloc: Global, catalog: &Catalog, relation: &str) -> Result<Option<Scan>, NoMemory>
        ensures counts { IfFound result (λ s. counts_of (⟦<Scan as RowSource>⟧.seen s) ≡ no_counts) }
        ensures begun { IfFound result (λ s. (pages : PageMap) → CatalogStands pages catalog.now
            → ⟦<Scan as RowSource>⟧.At s pages (database_in pages catalog.now.relations) (of_relation relation.now) nothing_taken) }
        ensures none { result ≡ Ok None → (pages : PageMap) → relation_named (database_in pages catalog.now.relations) relation.now ≡ None }
    {
        let Some(relation) = catalog.relation(relation) else {
            return Ok(None);
        };
        let relation = relation.shared(alloc)?;
        Ok(Some(Scan { relation, last: 0 }))
    }

    // The least id after the last one.
    fn following<P: Pages>(&self, pages: &mut P) -> Result<Option<u32>, PageFault>
        requires { IsTold (P.shown pages.old) → Stands (P.shown pages.old).pages self.now.relation.value }
        ensures value { IfOk result (λ found. IsTold (P.shown pages.old) → GivesNextId self.now.last (row_ids (rows_in (P.shown pages.old).pages self.now.relation.value)) found) }
        ensures rises { IfOk result (λ found. IfSome found (λ id. self.now.last < id)) }
        ensures read { IsRead (P.shown pages.old) (P.shown pages.new) }
        ensures up { min (P.shown pages.old).gets last_count ≤ (P.shown pages.new).gets }
        ensures cause { HasPageCause (P.shown pages.old) (P.shown pages.new) result }
        ensures most { (P.shown pages.new).gets ≤ (P.shown pages.old).gets + scan_price self.now.relation.value.file.tree.height }
    {
        if self.last >= self.relation.greatest() {
            return Ok(None);
        }
        match self.relation.file().scan(pages, self.last + 1) {
            Ok(found) => Ok(found),
            Err(fault) => Err(fault),
        }
    }
}

impl RowSource for Scan {
    ghost At = { λ s pages d p t. IsScan s.relation.value s.last pages d p t };

    ghost seen = { λ s. record { blocks = 0; pairs = 0; geometries = 0 } };

    ghost heights = { λ s. heights_of 0 s.relation.value.file.tree.height };

    ghost step_price = { λ s. scan_price s.relation.value.file.tree.height };

    ghost owed = { λ s pages. 0 };

    ghost steps = { λ s. 4294967296 - s.last };

    fn next<D: Disk>(
        &mut self,
        alloc: Global,
        desk: &mut Desk<D>,
    ) -> Result<Option<Answer>, PageFault> {
        match self.following(desk.pages()) {
            Ok(Some(id)) => {
                self.last = id;
                Ok(Some(plain_answer(alloc, id)))
            }
            Ok(None) => Ok(None),
            Err(fault) => Err(fault),
        }
    }

    fn counts(&self) -> SourceCounts {
        NO_VISITS
    }
}
