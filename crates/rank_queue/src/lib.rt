//! Queues that give the least item first (priority queues), as the frontier of a best-first search needs them.
//!
//! One trait, `Queue`, and three types that meet it: `PlainQueue` keeps a `Vec` in order, `PairQueue` a pairing heap, and
//! `CopyQueue` one of items that need no drop, which ends with no walk over them.
//! Room for the coming items is reserved first and counted, so that a push can't fail. Above: `best_first`.
//! Below: `pair_heap`, `sand_base`. Contracts see a queue as a list, whose order says nothing, and a number of reserved
//! places; read `specs/Least.antt` first. After D. E. Knuth, The Art of Computer Programming, volume 3, section 5.2.3.
#![tactic(auto)]

mod copied;
mod pair;
mod plain;
mod queue;

pub use copied::CopyQueue;
pub use pair::PairQueue;
pub use plain::PlainQueue;
pub use queue::Queue;
