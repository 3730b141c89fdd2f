use crate::Point;

/// A straight segment with both its ends; it may have length zero.
#[derive(Clone, Copy, Debug, PartialEq, Eq, Hash)]
pub struct Segment {
    pub a: Point,
    pub b: Point,
}
