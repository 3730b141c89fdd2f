use crate::Point;

/// A closed rectangle with sides along the axes. It may be a line or a point; its low corner is at most its
/// high one in both coordinates.
#[derive(Clone, Copy, Debug, PartialEq, Eq, Hash)]
pub struct Rect {
    pub low: Point,
    pub high: Point,
}
