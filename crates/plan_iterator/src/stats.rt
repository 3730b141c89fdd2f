/// How many blocks, pairs of blocks and rough objects a source has visited. Each stays at the greatest u64.
#[derive(Clone, Copy, Debug)]
pub struct SourceCounts {
    pub blocks: u64,
    pub pairs: u64,
    pub geometries: u64,
}

/// The four numbers of a cursor: what its source has visited, and the rows that it gave.
#[derive(Clone, Copy, Debug)]
pub struct Stats {
    pub blocks: u64,
    pub pairs: u64,
    pub geometries: u64,
    pub rows: u64,
}
