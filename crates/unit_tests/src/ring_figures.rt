// Rings as lists of their vertices: plain ones, and some that cross or touch themselves or have nothing inside.
use crate::closed_plane::REACH;

/// The greatest coordinate of a vertex.
pub const FAR: u32 = REACH - 1;

pub const SQUARE: &[[u32; 2]] = &[[2, 2], [6, 2], [6, 6], [2, 6]];

/// It crosses itself in (2, 2).
pub const BOW_TIE: &[[u32; 2]] = &[[0, 0], [4, 4], [4, 0], [0, 4]];

pub const STAR: &[[u32; 2]] = &[[5, 0], [8, 9], [0, 3], [10, 3], [2, 9]];

pub const NOTCHED: &[[u32; 2]] = &[
    [0, 0],
    [6, 0],
    [6, 6],
    [4, 6],
    [4, 2],
    [2, 2],
    [2, 6],
    [0, 6],
];

/// It touches itself in (4, 4).
pub const HOURGLASS: &[[u32; 2]] = &[[0, 0], [4, 4], [8, 0], [8, 8], [4, 4], [0, 8]];

/// So nothing is inside.
pub const TWICE: &[[u32; 2]] = &[
    [2, 2],
    [6, 2],
    [6, 6],
    [2, 6],
    [2, 2],
    [6, 2],
    [6, 6],
    [2, 6],
];

/// A square with a square hole, and a slit from one to the other.
pub const FRAME: &[[u32; 2]] = &[
    [0, 0],
    [10, 0],
    [10, 10],
    [0, 10],
    [0, 0],
    [3, 3],
    [3, 7],
    [7, 7],
    [7, 3],
    [3, 3],
];

pub const ONE_POINT: &[[u32; 2]] = &[[3, 3]; 3];

pub const ON_A_LINE: &[[u32; 2]] = &[[0, 0], [4, 0], [2, 0]];

pub const ON_A_SLOPE: &[[u32; 2]] = &[[0, 0], [6, 3], [2, 1]];

pub const PLANE: &[[u32; 2]] = &[[0, 0], [FAR, 0], [FAR, FAR], [0, FAR]];

pub const SLIVER: &[[u32; 2]] = &[[0, 0], [FAR, FAR], [FAR, FAR - 1]];
