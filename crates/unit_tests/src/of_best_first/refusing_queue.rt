// A queue that refuses one reservation.
ghost use Rattle.std.specs.Prelude.{◌≡◌, [], IfOk};

use best_first::Item;
use rank_queue::{PlainQueue, Queue};
use sand_base::{Calls, NoMemory};
use std::alloc::Global;

#[derive(Drop)]
pub struct RefusingQueue {
    queue: PlainQueue<Item<u32>>,
    reservations: Calls,
}

impl RefusingQueue {
    // No item is queued; the reservation of this number will be refused.
    pub fn new(alloc: Global, refused: u64) -> Result<RefusingQueue, NoMemory>
        ensures { IfOk result (λ queue. queue.queue.items ≡ []) }
    {
        Ok(RefusingQueue {
            queue: PlainQueue::empty(alloc),
            reservations: Calls::new(vec![in alloc; refused]?),
        })
    }
}

impl Queue<Item<u32>> for RefusingQueue {
    ghost held = { λ q. q.queue.items };

    ghost spare = { λ q. q.queue.spare };

    fn empty(alloc: Global) -> Self {
        RefusingQueue {
            queue: PlainQueue::empty(alloc),
            reservations: Calls::new(Vec::new(alloc)),
        }
    }

    fn reserve(&mut self, count: usize) -> Result<(), NoMemory> {
        match self.reservations.begin() {
            Ok(()) => self.queue.reserve(count),
            Err(_) => Err(NoMemory {}),
        }
    }

    fn push(&mut self, item: Item<u32>) {
        self.queue.push(item);
    }

    fn peek(&self) -> Option<&Item<u32>> {
        self.queue.peek()
    }

    fn pop(&mut self) -> Option<Item<u32>> {
        self.queue.pop()
    }

    fn len(&self) -> usize {
        self.queue.len()
    }

    fn spare(&self) -> usize {
        self.queue.spare()
    }
}
