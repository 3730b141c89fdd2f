//! Exact fractions: squared distances of the plane, compared and printed by their value.
//!
//! A squared distance between grid points and segments is a fraction of two whole numbers. Two fractions
//! are compared by their cross products, which fit 128 bits, so nothing is rounded and nothing is divided.
//! Above: `sand_model`, `plane_geom` and all that orders rows by distance. Below: std alone.
//! Contracts see a `Frac` by its numerator and denominator and a `FracText` as the list of its bytes; read
//! `specs/Value.antt` first, then `specs/Frac.antt`, `specs/Lesser.antt` and `specs/Printed.antt`. Lowest terms
//! by Euclid's algorithm (Elements VII.2).
#![tactic(auto)]

mod frac;
mod frac_text;
mod gcd;
pub mod laws;

pub use frac::Frac;
pub use frac_text::FracText;

/// The greatest numerator, 2 to the power 82. With coordinates of 20 bits, the square of the cross product of
/// two edges reaches it and does not pass it.
pub const MAX_NUM: u128 = 1 << 82;

/// The greatest denominator, 2 to the power 41. With coordinates of 20 bits, the squared length of an edge
/// reaches it and does not pass it.
pub const MAX_DEN: u128 = 1 << 41;
