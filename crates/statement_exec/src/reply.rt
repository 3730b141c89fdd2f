/// What a statement that changes relations answers where it isn't refused.
#[derive(Clone, Copy, Debug, PartialEq, Eq)]
pub enum Reply {
    /// `ok`
    Accepted,
    /// `id N`: the id of a row that was added.
    Id(u32),
    /// `loaded N`: so many rows were added.
    Loaded(u32),
}
