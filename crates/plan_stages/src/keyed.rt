use plan_iterator::Answer;

/// A row with the key by which it is sorted.
#[derive(Drop)]
pub struct Keyed<K> {
    pub key: K,
    pub row: Answer,
}
