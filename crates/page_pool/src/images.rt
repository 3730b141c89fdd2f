ghost use Rattle.std.specs.Prelude.{◌≡◌, ◌+◌, ◌<◌, ◌^◌, ℕ, Some, None, true, OnOk, OnErr, IfOk, IfSome, ◌≢◌};
ghost use Rattle.std.specs.FinMap as map;
ghost use Rattle.std.specs.FinSet as set;
ghost use Rattle.page_pool.specs.Images.{no_images, newest_place, past_place, seen_place, seen_homes, seen_past};
ghost use Rattle.page_pool.specs.Images.{IsImages, IsFreePlace, SettlesImage, LeavesImage};

use crate::held::Held;
use crate::home::Home;
use crate::past::Replaced;
use crate::table::Table;
use sand_base::NoMemory;
use std::alloc::Global;
use std::cell::Cell;
use std::marker::Model;

/// Where the written images of pages lie, the replaced ones too, and which of them held stamps see. It has no disk.
#[derive(Drop)]
pub(crate) struct Images {
    homes: Table<Home>,
    past: Replaced,
    held: Held,
    begun: u64,
    changed: u64,
    top: u64,
    // where the search for an image that no stamp sees begins
    start: Cell<u64>,
}

impl Model for Images {
    ghost use Rattle.page_pool.specs.Images.{ImagesState, images_of, IsImages};
    ghost use Rattle.page_pool.specs.Codes.{images_code};

    ghost Value = { ImagesState };

    ghost coded = { images_code };

    ghost view = { λ a. images_of a.homes a.past a.held a.begun a.changed a.top };

    ghost invariant = { λ a. IsImages (images_of a.homes a.past a.held a.begun a.changed a.top) };
}

impl Images {
    pub(crate) fn new(alloc: Global) -> Images
        ensures { result ≡ no_images }
    {
        Images {
            homes: Table::new(alloc),
            past: Replaced::new(alloc),
            held: Held::new(alloc),
            begun: 0,
            changed: 0,
            top: 0,
            start: Cell::new(0),
        }
    }

    // Where the newest written image of page `n` lies.
    #[inline]
    pub(crate) fn newest_place(&self, n: u64) -> Option<u64>
        ensures place { result ≡ newest_place self.now n }
        ensures whole { IsImages self.now }
    {
        match self.homes.get(n) {
            Some(home) => Some(home.place),
            None => None,
        }
    }

    // Where the image lies that the stamp sees as page `n`.
    pub(crate) fn seen_place(&self, at: u64, n: u64) -> Option<u64>
        ensures { result ≡ seen_place at self.now n }
    {
        match self.home(n) {
            Some(home) if home.made <= at => Some(home.place),
            Some(_) => self.past_place(at, n),
            None => self.past_place(at, n),
        }
    }

    // Where the replaced image lies that the stamp sees as page `n`.
    fn past_place(&self, at: u64, n: u64) -> Option<u64>
        ensures { result ≡ past_place at self.now.past n }
    {
        let _past = &self.past; // (no two of them are shown as one page)
        self.past.shown_place(n, at)
    }

    // The stamp in the slot: how many commands had begun as it was taken.
    pub(crate) fn stamp(&self, slot: u64) -> Option<u64>
        ensures stamp { result ≡ map.get self.now.held slot }
        ensures whole { IsImages self.now }
    {
        self.held.get(slot)
    }

    // How many commands began so far.
    #[inline]
    pub(crate) fn begun(&self) -> u64
        ensures begun { result ≡ self.now.begun }
        ensures whole { IsImages self.now }
    {
        self.begun
    }

    // How many had begun at the last change of an image.
    #[inline]
    pub(crate) fn changed(&self) -> u64
        ensures { result ≡ self.now.changed }
    {
        self.changed
    }

    // Whether a held stamp of an earlier command sees the newest image of page `n`.
    pub(crate) fn is_home_seen(&self, n: u64) -> bool
        ensures { result ≡ set.contains (seen_homes self.now) n }
    {
        match self.homes.get(n) {
            Some(home) => self.held.sees(home.made, self.begun),
            None => false,
        }
    }

    // How many pages have a newest image.
    pub(crate) fn count(&self) -> usize
        ensures count { result ≡ map.len self.now.homes }
        ensures small { result < 2 ^ 63 }
    {
        self.homes.len()
    }

    // How many replaced images some held stamp sees.
    pub(crate) fn seen_count(&self) -> usize
        ensures { result ≡ set.len (seen_past self.now) }
    {
        self.past.count_seen(&self.held)
    }

    // A place where page `n` may be written: its own, where no stamp sees the image there, else that of a replaced
    // image that none sees, else the next one above all.
    pub(crate) fn target(&self, n: u64) -> Result<u64, NoMemory>
        ensures free { IfOk result (IsFreePlace self.now n) }
        ensures whole { IsImages self.now }
    {
        if let Some(home) = self.homes.get(n)
            && !self.held.sees(home.made, self.begun)
        {
            return Ok(home.place);
        }
        if let Some(place) = self.past.first_unseen(self.start.get(), &self.held) {
            self.start.set(place);
            return Ok(place);
        }
        match self.top.checked_add(1) {
            Some(place) => Ok(place),
            None => Err(NoMemory {}),
        }
    }

    // Page `n` was written at this place. After a refusal all is as it was.
    pub(crate) fn settle(&mut self, n: u64, place: u64) -> Result<(), NoMemory>
        requires { IsFreePlace self.old n place }
        ensures settled { OnOk result (SettlesImage self.old self.new n place) }
        ensures unchanged { OnErr result (self.new ≡ self.old) }
        ensures whole { IsImages self.new }
    {
        let home = self.home(n);
        match home {
            Some(home) if home.place != place => self.move_home(n, home, place),
            _ => self.put_home(n, place),
        }
    }

    // The newest image of page `n`.
    fn home(&self, n: u64) -> Option<Home>
        ensures { result ≡ map.get self.now.homes n }
    {
        match self.homes.get(n) {
            Some(home) => Some(*home),
            None => None,
        }
    }

    // Page `n`, which has no image or one at this place, was written at the place.
    fn put_home(&mut self, n: u64, place: u64) -> Result<(), NoMemory>
        requires free { IsFreePlace self.old n place }
        requires own { IfSome (map.get self.old.homes n) (λ home. home.place ≡ place) }
        ensures settled { OnOk result (SettlesImage self.old self.new n place) }
        ensures unchanged { OnErr result (self.new ≡ self.old) }
        ensures whole { IsImages self.new }
    {
        let made = self.begun;
        self.homes.insert(n, Home { place, made })?;
        self.past.remove(place);
        self.changed = made;
        self.top = self.top.max(place);
        Ok(())
    }

    // Page `n`, whose image lies elsewhere, was written at the place: the image joins the replaced ones.
    fn move_home(&mut self, n: u64, home: Home, place: u64) -> Result<(), NoMemory>
        requires free { IsFreePlace self.old n place }
        requires old { map.get self.old.homes n ≡ Some home }
        requires elsewhere { home.place ≢ place }
        ensures settled { OnOk result (SettlesImage self.old self.new n place) }
        ensures unchanged { OnErr result (self.new ≡ self.old) }
        ensures whole { IsImages self.new }
    {
        let made = self.begun;
        self.past
            .insert(home.place, home.replaced(n, made), &self.held)?;
        match self.homes.insert(n, Home { place, made }) {
            Ok(()) => {
                self.past.remove(place);
                self.changed = made;
                self.top = self.top.max(place);
                Ok(())
            }
            Err(why) => {
                self.past.remove(home.place);
                Err(why)
            }
        }
    }

    // Page `n` is no more: its newest image joins the replaced ones. After a refusal all is as it was.
    pub(crate) fn leave(&mut self, n: u64) -> Result<(), NoMemory>
        ensures left { OnOk result (LeavesImage self.old self.new n) }
        ensures unchanged { OnErr result (self.new ≡ self.old) }
        ensures whole { IsImages self.new }
    {
        match self.home(n) {
            Some(home) => self.leave_home(n, home),
            None => {
                self.changed = self.begun;
                Ok(())
            }
        }
    }

    // Page `n`, which has this image, is no more.
    fn leave_home(&mut self, n: u64, home: Home) -> Result<(), NoMemory>
        requires { map.get self.old.homes n ≡ Some home }
        ensures left { OnOk result (LeavesImage self.old self.new n) }
        ensures unchanged { OnErr result (self.new ≡ self.old) }
        ensures whole { IsImages self.new }
    {
        let begun = self.begun;
        self.past
            .insert(home.place, home.replaced(n, begun), &self.held)?;
        self.homes.take(n);
        self.changed = begun;
        self.start.set(self.start.get().min(home.place));
        Ok(())
    }

    // Holds a stamp of the last command that began.
    pub(crate) fn keep(&mut self) -> Result<u64, NoMemory>
        ensures free { IfOk result (λ slot. map.get self.old.held slot ≡ None) }
        ensures kept { IfOk result (λ slot. self.new ≡ record self.old { held = map.insert self.old.held slot self.old.begun }) }
        ensures unchanged { OnErr result (self.new ≡ self.old) }
        ensures before { IsImages self.old }
        ensures whole { IsImages self.new }
    {
        self.held.keep(self.begun)
    }

    // The stamp in the slot is held no more.
    pub(crate) fn release(&mut self, slot: u64)
        ensures released { self.new ≡ record self.old { held = map.remove self.old.held slot } }
        ensures before { IsImages self.old }
        ensures whole { IsImages self.new }
    {
        self.held.release(slot);
        self.start.set(0);
    }

    // One more command begins. It is refused after the greatest number of them.
    pub(crate) fn advance(&mut self) -> Result<(), NoMemory>
        ensures begun { OnOk result (self.new ≡ record self.old { begun = self.old.begun + 1 }) }
        ensures unchanged { OnErr result (self.new ≡ self.old) }
        ensures before { IsImages self.old }
        ensures whole { IsImages self.new }
    {
        match self.begun.checked_add(1) {
            Some(begun) => {
                self.begun = begun;
                Ok(())
            }
            None => Err(NoMemory {}),
        }
    }
}
