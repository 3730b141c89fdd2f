/// Where the bytes of a tuple lie: in a page, from a byte on, so many.
#[derive(Clone, Copy, Debug, PartialEq, Eq)]
pub struct Span {
    pub page: u64,
    pub start: u16,
    pub length: u16,
}
