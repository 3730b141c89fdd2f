/// What a column holds.
#[derive(Clone, Copy, Debug, PartialEq, Eq)]
pub enum Kind {
    /// A whole number, an i64.
    Int,
    /// A text of 0 to 255 bytes.
    Text,
    /// A grid point.
    Point,
    /// A segment between grid points.
    Segment,
    /// A region bounded by one ring.
    Polygon,
}
