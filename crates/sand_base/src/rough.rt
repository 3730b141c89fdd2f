use crate::{Point, Rect, Segment};

/// What an index keeps of a shape: points and segments whole, a polygon by its bounding rectangle.
#[derive(Clone, Copy, Debug, PartialEq, Eq)]
pub enum Rough {
    Point(Point),
    Segment(Segment),
    /// The least closed rectangle that holds all vertices.
    Bound(Rect),
}
