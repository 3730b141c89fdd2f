//! The plain types that every layer of SAND shares, and what a run reads and writes.
//!
//! Points of the plane, shapes, values, rows, names, visits, refusals, and the traits `Source`, `Shelf` and
//! `Sink` with their implementations in memory. Nothing here computes an answer. Above: all other crates. Below: std.
//! Contracts see plain data: a `Label` as the list of its bytes, a `Ring` as that of its vertices, a `Source` by the
//! bytes that it has left, and a `Sink` by a relation to the bytes that it took. A stream in memory is the record
//! of all that decides its next call, so a list of failing calls (fault injection) makes any run of faults, and
//! makes it again. Read `specs/Grid.antt`, `specs/Plane.antt` and `specs/InRange.antt` first: the plane and what is in
//! range. Then `specs/Faults.antt`, which says when a stream may fail, and `specs/Calls.antt`.
#![tactic(auto)]

mod calls;
mod files;
mod goal;
mod ids;
mod kind;
mod label;
pub mod laws;
mod limits;
mod mem_shelf;
mod mem_sink;
mod mem_source;
mod memory;
mod point;
mod rect;
mod refusal;
mod ring;
mod rough;
mod row;
mod schema;
mod segment;
mod shape;
mod shelf;
mod sink;
mod source;
mod sure_shelf;
mod sure_source;
mod value;
mod visit;

pub use calls::Calls;
pub use goal::Goal;
pub use ids::Ids;
pub use kind::Kind;
pub use label::Label;
pub use limits::Limits;
pub use mem_shelf::MemShelf;
pub use mem_sink::MemSink;
pub use mem_source::MemSource;
pub use memory::NoMemory;
pub use point::Point;
pub use rect::Rect;
pub use refusal::Refusal;
pub use ring::{FEWEST_CORNERS, MOST_CORNERS, Ring};
pub use rough::Rough;
pub use row::Row;
pub use schema::Schema;
pub use segment::Segment;
pub use shape::Shape;
pub use shelf::Shelf;
pub use sink::Sink;
pub use source::{Failed, Source};
pub use sure_shelf::SureShelf;
pub use sure_source::SureSource;
pub use value::Value;
pub use visit::{Visit, VisitLog};

/// The number of bits of a coordinate. Grid points of the plane have coordinates below 2 to this power, and
/// corners of blocks reach it.
pub const COORDINATE_BITS: u32 = 20;
