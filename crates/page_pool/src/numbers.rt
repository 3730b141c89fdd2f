ghost use Rattle.std.specs.Prelude.{◌≡◌, Some, false, IfSome, OnOk, OnErr};
ghost use Rattle.std.specs.FinSet as set;
ghost use Rattle.page_pool.specs.Inside.{TakesNumber};

use sand_base::NoMemory;
use std::alloc::Global;
use std::marker::Model;

/// The numbers of freed pages, of which the first `left` are given again, and the greatest number given so far.
#[derive(Drop)]
pub(crate) struct Numbers {
    free: Vec<u64>,
    left: usize,
    top: u64,
    past_top: u64,
}

impl Model for Numbers {
    ghost use Rattle.std.specs.Prelude.{◌≤◌, take, length, nat_eq};
    ghost use Rattle.std.specs.List.{IsDistinct};
    ghost use Rattle.std.specs.FinSet as set;
    ghost use Rattle.page_pool.specs.Inside.{NumbersState, numbers_code, next_number};

    ghost Value = { NumbersState };

    ghost coded = { numbers_code };

    ghost view = { λ a. record {
      next = next_number (take a.left a.free.items) a.top;
      top = a.top;
      spare = set.from_list (take a.left a.free.items);
      past_top = a.past_top;
      past_spare = set.from_list a.free.items;
    } };

    ghost invariant = { λ a. (a.left ≤ length a.free.items) × IsDistinct nat_eq a.free.items };
}

impl Numbers {
    pub(crate) fn new(alloc: Global) -> Numbers
        ensures { result ≡ record { next = Some 1; top = 0; spare = set.empty; past_top = 0; past_spare = set.empty } }
    {
        Numbers {
            free: Vec::new(alloc),
            left: 0,
            top: 0,
            past_top: 0,
        }
    }

    // The greatest number given so far.
    pub(crate) fn top(&self) -> u64
        ensures { result ≡ self.now.top }
    {
        self.top
    }

    // The number that `take` gives: a freed one where one waits, and else the next above all. None at the end.
    pub(crate) fn next(&self) -> Option<u64>
        ensures { result ≡ self.now.next }
    {
        match self.free[..self.left].last() {
            Some(n) => Some(*n),
            None => self.top.checked_add(1),
        }
    }

    // Takes the number that `next` gives.
    pub(crate) fn take(&mut self)
        ensures { IfSome self.old.next (TakesNumber self.old self.new) }
    {
        if self.left > 0 {
            self.left -= 1;
        } else {
            self.top = self.top.saturating_add(1);
        }
    }

    // What was taken stays taken.
    pub(crate) fn settle(&mut self)
        ensures { self.new ≡ record self.old { past_top = self.old.top; past_spare = self.old.spare } }
    {
        self.free.truncate(self.left);
        self.past_top = self.top;
    }

    // What was taken is there again.
    pub(crate) fn restore(&mut self)
        ensures top { self.new.top ≡ self.old.past_top }
        ensures spare { self.new.spare ≡ self.old.past_spare }
    {
        self.left = self.free.len();
        self.top = self.past_top;
    }

    // The number of a page that was freed is given again.
    pub(crate) fn add(&mut self, n: u64) -> Result<(), NoMemory>
        requires { set.contains self.old.spare n ≡ false }
        ensures top { self.new.top ≡ self.old.top }
        ensures spare { OnOk result (self.new.spare ≡ set.insert self.old.spare n) }
        ensures unchanged { OnErr result (self.new.spare ≡ self.old.spare) }
    {
        self.settle();
        self.free.push(n)?;
        self.left = self.free.len();
        Ok(())
    }
}
