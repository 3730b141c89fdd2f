use sand_base::Rect;
use std::cmp::{max, min};

// How far apart two coordinates of a rectangle are.
fn side(low: u32, high: u32) -> u64 {
    u64::from(high.saturating_sub(low))
}

/// Half the perimeter of a rectangle.
pub fn half_perimeter(r: Rect) -> u64 {
    side(r.low.x, r.high.x).saturating_add(side(r.low.y, r.high.y))
}

/// The area of a rectangle.
pub fn area(r: Rect) -> u64 {
    side(r.low.x, r.high.x).saturating_mul(side(r.low.y, r.high.y))
}

/// The area that two rectangles have in common.
pub fn overlap(a: Rect, b: Rect) -> u64 {
    let width = side(max(a.low.x, b.low.x), min(a.high.x, b.high.x));
    let height = side(max(a.low.y, b.low.y), min(a.high.y, b.high.y));
    width.saturating_mul(height)
}
