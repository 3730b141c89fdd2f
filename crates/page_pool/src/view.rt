/// Whose pages a reader shows: the live ones, those of a stamp since which no command began, which are the live ones
/// too, or those of an older stamp.
#[derive(Clone, Copy)]
pub(crate) enum View {
    Live,
    Alike(u64),
    Older(u64),
}
