ghost use Rattle.std.specs.Prelude.{◌≡◌, ℕ, ◌+◌, ◌*◌, ◌/◌, ◌^◌, ◌<◌, ◌≤◌, ◌↔◌, IsTrue, All, map};
ghost use Rattle.std.specs.List.{Contains};
ghost use Rattle.sand_base.specs.Plane.{IsInPlane, IsInClosedPlane, IsRectInClosedPlane};
ghost use Rattle.z_code.specs.Code.{code_of, Interleaves};
ghost use Rattle.z_code.specs.Block.{IsBlock, side_length, code_count, square_at, square_of, HasPoint, HasCode, IsCodeOfPointIn};
ghost use Rattle.z_code.specs.Block.{with_square, IsWithSquare, children_of, IsQuarter, IsDivided, IsContainment};

use crate::code::{code_of, point_of};
use sand_base::{COORDINATE_BITS, Point, Rect};

/// A block of the quadtree: the closed square of side 2^(`COORDINATE_BITS` - `level`) whose low corner has the
/// Morton code `z`. Blocks are in order by code and then by level, so a block comes before those inside it.
#[derive(Clone, Copy, Debug, PartialEq, Eq, PartialOrd, Ord, Hash)]
pub struct Block {
    pub z: u64,
    pub level: u8,
}

impl Block {
    /// The whole plane.
    pub fn root() -> Block
        ensures block { IsBlock result }
        ensures level { result.level ≡ 0 }
        ensures first { result.z ≡ 0 }
        ensures points { (p : Point) → IsInPlane p ↔ HasPoint result p }
    {
        Block { z: 0, level: 0 }
    }

    /// The four quarters, in the order of their codes: low x and low y, high x and low y, low x and high y,
    /// high x and high y.
    pub fn children(self) -> [Block; 4]
        requires block { IsBlock self }
        requires above_points { self.level < COORDINATE_BITS }
        ensures value { result ≡ children_of self }
        ensures quarters { (number : ℕ) → number < 4 → IsQuarter self number }
        ensures codes { (z : ℕ) → IsDivided (λ b. HasCode b z) self }
        ensures points { (p : Point) → IsDivided (λ b. HasPoint b p) self }
    {
        let level = self.level + 1;
        let count = code_count(level);
        [
            Block { z: self.z, level },
            Block {
                z: self.z + count,
                level,
            },
            Block {
                z: self.z + 2 * count,
                level,
            },
            Block {
                z: self.z + 3 * count,
                level,
            },
        ]
    }

    /// The four quarters in the order of their codes, each with its closed square.
    pub fn quarters(self) -> [(Block, Rect); 4]
        requires block { IsBlock self }
        requires above_points { self.level < COORDINATE_BITS }
        ensures value { result ≡ map with_square (children_of self) }
        ensures squares { All IsWithSquare result }
    {
        let [first, second, third, fourth] = self.children();
        let low = point_of(self.z);
        let side = side_length(self.level + 1);
        let middle = Point {
            x: low.x + side,
            y: low.y + side,
        };
        let right = Point {
            x: middle.x,
            y: low.y,
        };
        let above = Point {
            x: low.x,
            y: middle.y,
        };
        [
            (first, square_at(low, side)),
            (second, square_at(right, side)),
            (third, square_at(above, side)),
            (fourth, square_at(middle, side)),
        ]
    }

    /// The block of which this one is a child.
    pub fn parent(self) -> Block
        requires block { IsBlock self }
        requires below_root { 0 < self.level }
        ensures block { IsBlock result }
        ensures level { result.level + 1 ≡ self.level }
        ensures child { Contains (children_of result) self }
    {
        let level = self.level - 1;
        Block {
            z: first_code(self.z, level),
            level,
        }
    }

    /// The closed square. Its high corner may lie one past the last grid point of the plane.
    pub fn rect(self) -> Rect
        requires { IsBlock self }
        ensures square { result ≡ square_of self }
        ensures in_closed_plane { IsRectInClosedPlane result }
        ensures corner { IsInPlane result.low }
        ensures code { code_of result.low ≡ self.z }
        ensures bits { Interleaves self.z result.low }
    {
        square_at(point_of(self.z), side_length(self.level))
    }

    /// The least and the greatest code inside the block, both included.
    pub fn range(self) -> (u64, u64)
        requires { IsBlock self }
        ensures first { result.0 ≡ self.z }
        ensures last { result.1 + 1 ≡ self.z + code_count self.level }
        ensures codes { (z : ℕ) → ((result.0 ≤ z) × (z ≤ result.1)) ↔ IsCodeOfPointIn self z }
        ensures points { (p : Point) → IsInPlane p → HasCode self (code_of p) ↔ HasPoint self p }
    {
        (self.z, self.z + code_count(self.level) - 1)
    }

    /// The block of the level that has the point in its half-open square.
    pub fn of_point(p: Point, level: u8) -> Block
        requires in_plane { IsInPlane p }
        requires in_tree { level ≤ COORDINATE_BITS }
        ensures block { IsBlock result }
        ensures level { result.level ≡ level }
        ensures point { HasPoint result p }
        ensures only { (b : Block) → IsBlock b → b.level ≡ level → HasPoint b p → b ≡ result }
        ensures code { HasCode result (code_of p) }
    {
        Block {
            z: first_code(code_of(p), level),
            level,
        }
    }

    /// Whether the other block lies inside this one. A block holds itself.
    pub fn holds(self, other: Block) -> bool
        requires block { IsBlock self }
        requires other { IsBlock other }
        ensures { IsContainment (IsTrue result) self other }
    {
        self.level <= other.level && first_code(other.z, self.level) == self.z
    }
}

// The closed square of the side, from its low corner.
fn square_at(low: Point, side: u32) -> Rect
    requires corner { IsInClosedPlane low }
    requires side { side ≤ 2 ^ COORDINATE_BITS }
    ensures { result ≡ square_at low side }
{
    Rect {
        low,
        high: Point {
            x: low.x + side,
            y: low.y + side,
        },
    }
}

// The side of a block of the level.
fn side_length(level: u8) -> u32
    requires { level ≤ COORDINATE_BITS }
    ensures value { result ≡ side_length level }
    ensures small { result ≤ 2 ^ COORDINATE_BITS }
{
    1 << (COORDINATE_BITS - u32::from(level))
}

// How many codes a block of the level has.
fn code_count(level: u8) -> u64
    requires { level ≤ COORDINATE_BITS }
    ensures value { result ≡ code_count level }
    ensures small { result ≤ 2 ^ (2 * COORDINATE_BITS) }
{
    1 << (2 * (COORDINATE_BITS - u32::from(level)))
}

// The first code of the block of the level that has the code.
fn first_code(code: u64, level: u8) -> u64
    requires { level ≤ COORDINATE_BITS }
    ensures { result ≡ code / code_count level * code_count level }
{
    let bits = 2 * (COORDINATE_BITS - u32::from(level));
    code >> bits << bits
}
