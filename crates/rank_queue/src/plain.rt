ghost use Rattle.std.specs.Prelude.{◌≡◌, ℕ, ◌+◌, ◌<◌, ◌≤◌, List, [], ◌∷◌, length, take_while, OnOk, MatchOption, IsPermutation};
ghost use Rattle.std.specs.Ordering.{is_gt};

use crate::Queue;
use sand_base::NoMemory;
use std::alloc::Global;
use std::marker::Model;

/// A queue in a `Vec`, kept with the greatest item first: a push moves what comes before it, a pop takes the last item.
#[derive(Drop)]
pub struct PlainQueue<T: Ord> {
    items: Vec<T>,
    spare: usize,
}

impl<T: Ord> Model for PlainQueue<T> {
    ghost use Rattle.std.specs.Prelude.{◌+◌, ◌≤◌, vec_len, vec_capacity};
    ghost use Rattle.pair_heap.specs.Queued.{Queued};
    ghost use Rattle.rank_queue.specs.Falling.{IsFalling};

    ghost Value = { Queued T };

    ghost view = { λ q. record { items = q.items.items; spare = q.spare } };

    ghost invariant = { λ q. IsFalling T.cmp q.items.items × (vec_len q.items + q.spare ≤ vec_capacity q.items) };
}

impl<T: Ord> Queue<T> for PlainQueue<T> {
    ghost held = { λ q. q.items };

    ghost spare = { λ q. q.spare };

    fn empty(alloc: Global) -> Self {
        PlainQueue {
            items: Vec::new(alloc),
            spare: 0,
        }
    }

    fn reserve(&mut self, count: usize) -> Result<(), NoMemory> {
        if self.spare < count {
            self.items.reserve(count)?;
            self.spare = count;
        }
        Ok(())
    }

    fn push(&mut self, item: T) {
        self.spare -= 1;
        let place = count_after(&self.items, &item);
        match self.items.insert(place, item) {
            Ok(()) => {}
            Err(_refused) => unreachable!(),
        }
    }

    fn peek(&self) -> Option<&T> {
        self.items.last()
    }

    fn pop(&mut self) -> Option<T> {
        let item = self.items.pop()?;
        self.spare += 1;
        Some(item)
    }

    fn len(&self) -> usize {
        self.items.len()
    }

    fn spare(&self) -> usize {
        self.spare
    }
}

// How many items at the head of the list come after this one.
fn count_after<T: Ord>(items: &[T], item: &T) -> usize
    ensures { result ≡ length (take_while (λ x. is_gt (T.cmp x item.now)) items.now) }
{
    items.iter().take_while(|x| (*x).cmp(item).is_gt()).count()
}
