ghost use Rattle.std.specs.Prelude.{◌≡◌, ◌<◌, ◌≤◌, ◌^◌, ℕ, Some, None, OnOk, OnErr, true, false, length, get_or, is_some, count_by, IsTrue};
ghost use Rattle.std.specs.FinMap as map;
ghost use Rattle.std.specs.FinSet as set;
ghost use Rattle.std.specs.Option.{option_copied};
ghost use Rattle.page_pool.specs.Inside.{dirty_of, is_page};

use crate::page::Page;
use sand_base::NoMemory;
use std::alloc::Global;
use std::marker::Model;

/// Items by page number, each in the place of its number: a look-up takes no search.
#[derive(Drop)]
pub(crate) struct Table<T> {
    places: Vec<Option<T>>,
}

impl<T> Model for Table<T> {
    ghost use Rattle.std.specs.Ordering.{nat_cmp};
    ghost use Rattle.std.specs.Coded.{coded_ℕ};
    ghost use Rattle.std.specs.FinMap as map;
    ghost use Rattle.page_pool.specs.Inside.{items_in};

    ghost Value = { map.FinMap nat_cmp T };

    ghost coded = { map.code coded_ℕ T.code };

    ghost view = { λ a. items_in a.places.items };
}

impl<T: Drop> Table<T> {
    pub(crate) fn new(alloc: Global) -> Table<T>
        ensures { result ≡ map.empty }
    {
        Table {
            places: Vec::new(alloc),
        }
    }

    #[inline]
    pub(crate) fn get(&self, n: u64) -> Option<&T>
        ensures { option_copied result ≡ map.get self.now n }
    {
        match self.places.get(n as usize) {
            Some(place) => place.as_ref(),
            None => None,
        }
    }

    // Puts the item in place of an earlier one.
    pub(crate) fn insert(&mut self, n: u64, item: T) -> Result<(), NoMemory>
        ensures changed { OnOk result (self.new ≡ map.insert self.old n item) }
        ensures unchanged { OnErr result (self.new ≡ self.old) }
    {
        let place = n as usize;
        grow(&mut self.places, place)?;
        self.places[place] = Some(item);
        Ok(())
    }

    // How many items are there.
    pub(crate) fn len(&self) -> usize
        ensures len { result ≡ map.len self.now }
        ensures small { result < 2 ^ 63 }
    {
        count_items(&self.places)
    }

    // Takes the item of this number out.
    pub(crate) fn take(&mut self, n: u64) -> Option<T>
        ensures taken { result ≡ map.get self.old n }
        ensures left { self.new ≡ map.remove self.old n }
    {
        let Some(place) = self.places.get_mut(n as usize) else {
            return None;
        };
        place.take()
    }
}

// Changes of pages: `None` for a freed number.
impl Table<Option<Page>> {
    // Writes these bytes over the page of the number. False where none is there.
    pub(crate) fn overwrite(&mut self, n: u64, bytes: &[u8; 4096]) -> bool
        ensures written { result ≡ true → self.new ≡ map.insert self.old n (Some bytes.now) }
        ensures there { result ≡ true → IsTrue (map.contains_key self.old n) }
        ensures unchanged { result ≡ false → self.new ≡ self.old }
    {
        let Some(place) = self.places.get_mut(n as usize) else {
            return false;
        };
        set_page(place, bytes)
    }

    // How many pages are among the changes.
    pub(crate) fn count(&self) -> usize
        ensures count { result ≡ set.len (dirty_of self.now) }
        ensures small { result < 2 ^ 63 }
    {
        count_pages(&self.places)
    }
}

// Adds empty places until this one is there. After a refusal those that were added stay.
fn grow<T: Drop>(places: &mut Vec<Option<T>>, place: usize) -> Result<(), NoMemory>
    ensures reached { OnOk result (place < length places.new.items) }
    ensures same { (q : ℕ) → get_or places.new.items q None ≡ get_or places.old.items q None }
{
    'places: while places.len() <= place {
        places.push(None)?;
    }
    Ok(())
}

// How many items are in these places.
fn count_items<T>(places: &[Option<T>]) -> usize
    ensures count { result ≡ count_by (λ place. is_some place) places.now }
    ensures small { result < 2 ^ 63 }
{
    places.iter().filter(|place| place.is_some()).count()
}

// How many pages are in these places.
fn count_pages(places: &[Option<Option<Page>>]) -> usize
    ensures count { result ≡ count_by is_page places.now }
    ensures small { result < 2 ^ 63 }
{
    places.iter().filter(|place| holds_page(place)).count()
}

// Whether a page is in this place.
fn holds_page(place: &Option<Option<Page>>) -> bool
    ensures { result ≡ is_page place.now }
{
    match place {
        Some(change) => change.is_some(),
        None => false,
    }
}

// Writes these bytes over the page in this place. False where none is in it.
fn set_page(place: &mut Option<Option<Page>>, bytes: &[u8; 4096]) -> bool
    ensures written { result ≡ true → place.new ≡ Some (Some bytes.now) }
    ensures there { result ≡ true → IsTrue (is_some place.old) }
    ensures unchanged { result ≡ false → place.new ≡ place.old }
{
    match place {
        Some(Some(page)) => {
            page.set(bytes);
            true
        }
        _ => false,
    }
}
