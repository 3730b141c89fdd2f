use page_pool::SureDisk;

/// Where the pages of a disk are kept.
#[derive(Drop)]
pub(crate) enum Kept<F> {
    /// In memory.
    Memory(SureDisk),
    /// In an open file.
    File(F),
}
