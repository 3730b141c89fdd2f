//! The exact gap of points, segments and closed rectangles: the least squared distance, as a fraction.
//!
//! One idea: each call computes by a closed formula in whole numbers, and its contract says that the answer
//! is the least value over all rational points of both shapes. Above: `ring_geom`, and whoever ranks by
//! distance. Below: `exact_frac` for the answers, `sand_model` for what a gap is.
//! Contracts see a shape as the set of its rational points; read `specs/Points.antt` and `specs/Gap.antt` of
//! `sand_model` first, then `specs/Vectors.antt`, `Incidence.antt`, `Crossing.antt` and `Rectangles.antt` here.
//! After J. O'Rourke, Computational Geometry in C (1998), and V. Lumelsky, On fast computation of distance
//! between line segments (1985).
//!
//! The proofs rest on identities and inequalities over the integers, by a test, `same` of `specs/Poly.antt`, which multiplies two polynomial
//! expressions out: expressions that pass have one value for all integers. Proofs here and in other crates cite it as `ring` of
//! `proofs/Ring.antt`, or `identity` of `proofs/Named.antt` where variables have names, and the order lemmas of `proofs/Order.antt` beside it. Read
//! `specs/Expr.antt` and `specs/Sound.antt`. After B. Gregoire and A. Mahboubi, Proving equalities in a commutative ring done right in Coq (2005).
#![tactic(auto)]

ghost use Rattle.plane_geom.specs.Sound.{RingIsSound};

mod point_segment;
mod points;
mod rects;
mod segment_rect;
mod segments;
mod vectors;

pub use point_segment::{gap_point_segment, on_segment};
pub use points::gap_points;
pub use rects::{gap_point_rect, gap_rects};
pub use segment_rect::gap_segment_rect;
pub use segments::{gap_segments, nearer};
pub use vectors::cross;

/// Does nothing: its clause is the law of the reflective test, so that a contract of the program names it.
pub fn ring_is_sound()
    ensures { RingIsSound }
{}
