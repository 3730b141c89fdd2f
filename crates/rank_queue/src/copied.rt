use crate::Queue;
use pair_heap::PairHeap;
use sand_base::NoMemory;
use std::alloc::Global;
use std::marker::Model;

/// A queue in a pairing heap, as `PairQueue` is, of items that are copied: since they need no drop, it ends with no
/// look at any of them.
pub struct CopyQueue<T: Ord + Copy> {
    heap: PairHeap<T>,
}

impl<T: Ord + Copy> Model for CopyQueue<T> {
    ghost use Rattle.pair_heap.specs.Queued.{Queued};

    ghost Value = { Queued T };

    ghost view = { λ q. q.heap };
}

impl<T: Ord + Copy> Queue<T> for CopyQueue<T> {
    ghost held = { λ q. q.items };

    ghost spare = { λ q. q.spare };

    fn empty(alloc: Global) -> Self {
        CopyQueue {
            heap: PairHeap::empty(alloc),
        }
    }

    fn reserve(&mut self, count: usize) -> Result<(), NoMemory> {
        self.heap.reserve(count)
    }

    fn push(&mut self, item: T) {
        self.heap.push(item);
    }

    fn peek(&self) -> Option<&T> {
        self.heap.peek()
    }

    fn pop(&mut self) -> Option<T> {
        self.heap.pop()
    }

    fn replace_first(&mut self, items: &mut Vec<T>) -> Option<T> {
        self.heap.replace_first(items)
    }

    fn len(&self) -> usize {
        self.heap.len()
    }

    fn spare(&self) -> usize {
        self.heap.spare()
    }
}

impl<T: Ord + Copy> Drop for CopyQueue<T> {
    fn drop(self) {
        let CopyQueue { heap } = self;
        heap.discard();
    }
}
