use crate::Queue;
use pair_heap::PairHeap;
use sand_base::NoMemory;
use std::alloc::Global;
use std::marker::Model;

/// A queue in a pairing heap, whose items stay in their nodes as it grows: a push is one comparison, a pop takes
/// logarithmic time on average over many calls (amortized).
#[derive(Drop)]
pub struct PairQueue<T: Ord> {
    heap: PairHeap<T>,
}

impl<T: Ord> Model for PairQueue<T> {
    ghost use Rattle.pair_heap.specs.Queued.{Queued};

    ghost Value = { Queued T };

    ghost view = { λ q. q.heap };
}

impl<T: Ord + Drop> Queue<T> for PairQueue<T> {
    ghost held = { λ q. q.items };

    ghost spare = { λ q. q.spare };

    fn empty(alloc: Global) -> Self {
        PairQueue {
            heap: PairHeap::empty(alloc),
        }
    }

    fn reserve(&mut self, count: usize) -> Result<(), NoMemory> {
        self.heap.reserve(count)
    }

    fn push(&mut self, item: T) {
        self.heap.push(item);
    }

    fn peek(&self) -> Option<&T> {
        self.heap.peek()
    }

    fn pop(&mut self) -> Option<T> {
        self.heap.pop()
    }

    fn replace_first(&mut self, items: &mut Vec<T>) -> Option<T> {
        self.heap.replace_first(items)
    }

    fn len(&self) -> usize {
        self.heap.len()
    }

    fn spare(&self) -> usize {
        self.heap.spare()
    }
}
