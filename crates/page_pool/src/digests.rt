ghost use Rattle.std.specs.Prelude.{◌≡◌, OnOk, OnErr};
ghost use Rattle.std.specs.FinMap as map;
ghost use Rattle.std.specs.Option.{option_copied};

use crate::table::Table;
use sand_base::NoMemory;
use std::alloc::Global;
use std::marker::Model;

/// The digest of what was last written at each place, in a table by place.
#[derive(Drop)]
pub(crate) struct Digests {
    kept: Table<[u8; 32]>,
}

impl Model for Digests {
    ghost use Rattle.page_pool.specs.Disk.{DigestMap};
    ghost use Rattle.page_pool.specs.Inside.{page_map_code};

    ghost Value = { DigestMap };

    ghost coded = { page_map_code };

    ghost view = { λ a. a.kept };
}

impl Digests {
    pub(crate) fn new(alloc: Global) -> Digests
        ensures { result ≡ map.empty }
    {
        Digests {
            kept: Table::new(alloc),
        }
    }

    pub(crate) fn get(&self, place: u64) -> Option<&[u8; 32]>
        ensures { option_copied result ≡ map.get self.now place }
    {
        self.kept.get(place)
    }

    pub(crate) fn insert(&mut self, place: u64, digest: [u8; 32]) -> Result<(), NoMemory>
        ensures kept { OnOk result (self.new ≡ map.insert self.old place digest) }
        ensures unchanged { OnErr result (self.new ≡ self.old) }
    {
        self.kept.insert(place, digest)
    }
}
