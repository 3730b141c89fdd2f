ghost use Rattle.std.specs.Prelude.{◌≡◌, ℕ, ◌<◌, ◌≤◌, ◌^◌, Some, OnOk, OnErr, IfSome, IfNone, IsTrue, true, false};
ghost use Rattle.std.specs.FinMap as map;
ghost use Rattle.std.specs.FinSet as set;
ghost use Rattle.std.specs.Option.{option_copied};
ghost use Rattle.page_pool.specs.Inside.{dirty_of};

use crate::page::Page;
use crate::table::Table;
use sand_base::NoMemory;
use std::alloc::Global;
use std::collections::BTreeSet;
use std::marker::Model;

/// The pages that are not written yet and the numbers that were freed (`None`), in a table, with their numbers in
/// ascending order.
#[derive(Drop)]
pub(crate) struct Staged {
    table: Table<Option<Page>>,
    numbers: BTreeSet<u64>,
}

impl Model for Staged {
    ghost use Rattle.page_pool.specs.Inside.{StagedState, staged_code, staged_of, HasNumbersOf};

    ghost Value = { StagedState };

    ghost coded = { staged_code };

    ghost view = { λ a. staged_of a.table };

    ghost invariant = { λ a. HasNumbersOf a.table a.numbers };
}

impl Staged {
    pub(crate) fn new(alloc: Global) -> Staged
        ensures { result ≡ record { changes = map.empty; count = 0 } }
    {
        Staged {
            table: Table::new(alloc),
            numbers: BTreeSet::new(alloc),
        }
    }

    #[inline]
    pub(crate) fn get(&self, n: u64) -> Option<&Option<Page>>
        ensures { option_copied result ≡ map.get self.now.changes n }
    {
        self.table.get(n)
    }

    // Stages the change in place of an earlier one.
    pub(crate) fn insert(&mut self, n: u64, change: Option<Page>) -> Result<(), NoMemory>
        ensures staged { OnOk result (self.new.changes ≡ map.insert self.old.changes n change) }
        ensures unchanged { OnErr result (self.new ≡ self.old) }
    {
        self.table.insert(n, change)?;
        match self.numbers.insert(n) {
            Ok(_) => Ok(()),
            Err(_) => {
                self.table.take(n);
                Err(NoMemory {})
            }
        }
    }

    // Writes these bytes over the page that is staged under the number. False where none is.
    fn overwrite(&mut self, n: u64, bytes: &[u8; 4096]) -> bool
        ensures written { result ≡ true → self.new.changes ≡ map.insert self.old.changes n (Some bytes.now) }
        ensures unchanged { result ≡ false → self.new ≡ self.old }
    {
        self.table.overwrite(n, bytes)
    }

    // Stages these bytes as the page of the number: over those of an earlier one, where one is staged.
    pub(crate) fn put(&mut self, alloc: Global, n: u64, bytes: &[u8; 4096]) -> Result<(), NoMemory>
        ensures staged { OnOk result (self.new.changes ≡ map.insert self.old.changes n (Some bytes.now)) }
        ensures unchanged { OnErr result (self.new ≡ self.old) }
    {
        if self.overwrite(n, bytes) {
            return Ok(());
        }
        let page = Page::new(alloc, bytes)?;
        self.insert(n, Some(page))?;
        Ok(())
    }

    // The least number with a change.
    pub(crate) fn first(&self) -> Option<u64>
        ensures found { IfSome result (λ n. IsTrue (map.contains_key self.now.changes n)) }
        ensures least { IfSome result (λ n. (q : ℕ) → IsTrue (map.contains_key self.now.changes q) → n ≤ q) }
        ensures none { IfNone result (self.now ≡ record { changes = map.empty; count = 0 }) }
    {
        match self.numbers.first() {
            Some(n) => Some(*n),
            None => None,
        }
    }

    // Takes the change of this number out.
    pub(crate) fn take(&mut self, n: u64) -> Option<Option<Page>>
        ensures taken { result ≡ map.get self.old.changes n }
        ensures left { self.new.changes ≡ map.remove self.old.changes n }
    {
        self.numbers.remove(&n);
        self.table.take(n)
    }

    pub(crate) fn clear(&mut self)
        ensures { self.new ≡ record { changes = map.empty; count = 0 } }
    {
        'staged: while let Some(n) = self.first() {
            self.take(n);
        }
    }

    // How many pages are staged.
    pub(crate) fn count(&self) -> usize
        ensures count { result ≡ self.now.count }
        ensures few { self.now.count ≤ set.len (dirty_of self.now.changes) }
        ensures small { result < 2 ^ 63 }
    {
        self.table.count()
    }
}
