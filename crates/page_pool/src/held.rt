ghost use Rattle.std.specs.Prelude.{◌≡◌, ◌<◌, None, IfOk, OnErr, IfSome};
ghost use Rattle.std.specs.FinMap as map;
ghost use Rattle.std.specs.Option.{option_copied};
ghost use Rattle.page_pool.specs.Images.{is_seen, is_seen_by};

use crate::table::Table;
use sand_base::NoMemory;
use std::alloc::Global;
use std::marker::Model;

/// How many stamps are held at most.
pub(crate) const MOST_STAMPS: u64 = 16;

/// The held stamps, each in a slot: how many commands had begun as it was taken.
#[derive(Drop)]
pub(crate) struct Held {
    stamps: Table<u64>,
}

impl Model for Held {
    ghost use Rattle.page_pool.specs.Images.{HeldMap, AreSixteenSlots};
    ghost use Rattle.page_pool.specs.Codes.{held_map_code};

    ghost Value = { HeldMap };

    ghost coded = { held_map_code };

    ghost view = { λ a. a.stamps };

    ghost invariant = { λ a. AreSixteenSlots a.stamps };
}

impl Held {
    pub(crate) fn new(alloc: Global) -> Held
        ensures { result ≡ map.empty }
    {
        Held {
            stamps: Table::new(alloc),
        }
    }

    pub(crate) fn get(&self, slot: u64) -> Option<u64>
        ensures { result ≡ map.get self.now slot }
    {
        match self.stamps.get(slot) {
            Some(at) => Some(*at),
            None => None,
        }
    }

    // Whether some held stamp sees an image that was made and replaced so.
    pub(crate) fn sees(&self, made: u64, until: u64) -> bool
        ensures { result ≡ is_seen self.now made until }
    {
        let _stamps = &self.stamps; // (the slots are below)
        'slots: for slot in 0..MOST_STAMPS {
            if self.is_seen_in(slot, made, until) {
                return true;
            }
        }
        false
    }

    // Whether the stamp in the slot, where one is, sees an image that was made and replaced so.
    fn is_seen_in(&self, slot: u64, made: u64, until: u64) -> bool
        ensures { result ≡ is_seen_by made until (map.get self.now slot) }
    {
        match self.get(slot) {
            Some(at) => made <= at && at < until,
            None => false,
        }
    }

    // Holds a stamp in a slot of its own.
    pub(crate) fn keep(&mut self, at: u64) -> Result<u64, NoMemory>
        ensures free { IfOk result (λ slot. map.get self.old slot ≡ None) }
        ensures few { IfOk result (λ slot. slot < 16) }
        ensures kept { IfOk result (λ slot. self.new ≡ map.insert self.old slot at) }
        ensures unchanged { OnErr result (self.new ≡ self.old) }
    {
        let Some(slot) = self.free_slot() else {
            return Err(NoMemory {});
        };
        self.stamps.insert(slot, at)?;
        Ok(slot)
    }

    // A slot with no stamp.
    fn free_slot(&self) -> Option<u64>
        ensures free { IfSome result (λ slot. map.get self.now slot ≡ None) }
        ensures few { IfSome result (λ slot. slot < 16) }
    {
        'slots: for slot in 0..MOST_STAMPS {
            if self.get(slot).is_none() {
                return Some(slot);
            }
        }
        None
    }

    pub(crate) fn release(&mut self, slot: u64)
        ensures { self.new ≡ map.remove self.old slot }
    {
        self.stamps.take(slot);
    }
}
