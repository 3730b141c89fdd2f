ghost use Rattle.std.specs.Prelude.{◌≡◌};

use crate::page::Page;
use std::cell::Cell;
use std::marker::Model;

/// A page in a frame, with a mark where it was used since it was queued. Contracts see the page alone.
#[derive(Drop)]
pub(crate) struct Frame {
    page: Page,
    is_used: Cell<bool>,
}

impl Model for Frame {
    ghost use Rattle.std.specs.Prelude.{ℕ, List};

    ghost Value = { List ℕ };

    ghost view = { λ frame. frame.page };
}

impl Frame {
    // The page, with no mark.
    pub(crate) fn new(page: Page) -> Frame
        ensures { result ≡ page }
    {
        Frame {
            page,
            is_used: Cell::new(false),
        }
    }

    #[inline]
    pub(crate) fn page(&self) -> &Page
        ensures { result.now ≡ self.now }
    {
        &self.page
    }

    // The page has the mark from now on.
    #[inline]
    pub(crate) fn mark(&self) {
        if !self.is_used.get() {
            self.is_used.set(true);
        }
    }

    // Takes the mark off. Whether it was there.
    pub(crate) fn unmark(&self) -> bool {
        self.is_used.replace(false)
    }
}
