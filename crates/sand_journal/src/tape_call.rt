/// A call that left its mark on a tape in memory.
#[derive(Drop)]
pub enum TapeCall {
    Write { at: usize, bytes: Vec<u8> },
    Sync,
}
