// Where the replaced images of a page lie that a stamp saw as they were replaced, the last one first, to be looked at before all
// images are gone through. No clause speaks of it: a place that is wrong or isn't there costs time alone.
use crate::table::Table;
use sand_base::NoMemory;
use std::alloc::Global;

/// The place of each page's last image, and of each image the places of the one before it and of the one behind it.
#[derive(Drop)]
pub(crate) struct Chains {
    last: Table<u32>,
    earlier: Table<u32>,
    later: Table<u32>,
}

// The number that the table has here.
fn found(table: &Table<u32>, at: u64) -> Option<u64> {
    match table.get(at) {
        Some(number) => Some(u64::from(*number)),
        None => None,
    }
}

// The number that the table had here, which is taken out.
fn taken(table: &mut Table<u32>, at: u64) -> Option<u64> {
    match table.take(at) {
        Some(number) => Some(u64::from(number)),
        None => None,
    }
}

// Has the table have this number here, or none.
fn set(table: &mut Table<u32>, at: u64, number: Option<u64>) -> Result<(), NoMemory> {
    let Some(number) = number else {
        table.take(at);
        return Ok(());
    };
    match u32::try_from(number) {
        Ok(number) => table.insert(at, number),
        Err(_) => Err(NoMemory {}),
    }
}

impl Chains {
    pub(crate) fn new(alloc: Global) -> Chains {
        Chains {
            last: Table::new(alloc),
            earlier: Table::new(alloc),
            later: Table::new(alloc),
        }
    }

    /// The place of the page's last image.
    pub(crate) fn last(&self, n: u64) -> Option<u64> {
        found(&self.last, n)
    }

    /// The place of the image before the one at this place.
    pub(crate) fn earlier(&self, place: u64) -> Option<u64> {
        found(&self.earlier, place)
    }

    /// The image at the place is the page's last one.
    pub(crate) fn add(&mut self, n: u64, place: u64) -> Result<(), NoMemory> {
        let last = self.last(n);
        if let Some(last) = last {
            set(&mut self.later, last, Some(place))?;
        }
        set(&mut self.earlier, place, last)?;
        set(&mut self.later, place, None)?;
        set(&mut self.last, n, Some(place))
    }

    /// No image of the page lies at the place, whether one was added there or not.
    pub(crate) fn remove(&mut self, n: u64, place: u64) -> Result<(), NoMemory> {
        let earlier = taken(&mut self.earlier, place);
        let later = taken(&mut self.later, place);
        match later {
            Some(later) => set(&mut self.earlier, later, earlier)?,
            None if self.last(n) == Some(place) => set(&mut self.last, n, earlier)?,
            None => return Ok(()),
        }
        match earlier {
            Some(earlier) => set(&mut self.later, earlier, later),
            None => Ok(()),
        }
    }
}
