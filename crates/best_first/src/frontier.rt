use crate::{Counts, Hit};

/// What a search keeps: the queue of its frontier, how much it has visited, and the last row that it gave.
#[derive(Drop)]
pub struct Frontier<Q> {
    pub queue: Q,
    pub counts: Counts,
    pub last: Option<Hit>,
}
