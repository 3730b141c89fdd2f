ghost use Rattle.std.specs.Prelude.{◌≡◌, length, find, option_map, IfSome};
ghost use Rattle.page_pool.specs.Disk.{PageMap};
ghost use Rattle.sand_model.specs.Database.{relation_named};
ghost use Rattle.sand_store.specs.Catalog.{is_named, IsCatalog, IsDescribed};
ghost use Rattle.sand_store.specs.Contents.{relation_in, database_in};
ghost use Rattle.sand_store.specs.Standing.{CatalogStands, RelationStands};

use crate::Relation;
use crate::relation::named;
use sand_base::Limits;
use std::alloc::Global;
use std::marker::Model;

/// The relations of a store, and the limits within which they grow. It leads to pages, and has none.
#[derive(Drop)]
pub struct Catalog {
    pub(crate) relations: Vec<Relation>,
    pub(crate) limits: Limits,
}

impl Model for Catalog {
    ghost use Rattle.sand_store.specs.Catalog.{CatalogView};

    ghost Value = { CatalogView };

    ghost view = { λ c. record { relations = c.relations.items; limits = c.limits } };
}

impl Catalog {
    /// The relation of the name; `None` exactly where there is none.
    pub fn relation(&self, name: &str) -> Option<&Relation>
        ensures found { option_map (λ r. r.now) result ≡ find (is_named name.now) self.now.relations }
        ensures named { (pages : PageMap) → relation_named (database_in pages self.now.relations) name.now ≡ option_map (λ r. relation_in pages r.now) result }
        ensures described { IfSome result (λ r. IsCatalog self.now → IsDescribed self.now.limits r.now) }
        ensures stands { IfSome result (λ r. (pages : PageMap) → CatalogStands pages self.now → RelationStands pages self.now.limits r.now) }
    {
        named(&self.relations, name)
    }

    /// The number of relations.
    pub fn count(&self) -> usize
        ensures { result ≡ length self.now.relations }
    {
        self.relations.len()
    }
}
