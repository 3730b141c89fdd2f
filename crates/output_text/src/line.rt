use exact_frac::Frac;
use sand_base::{Refusal, Value};
use z_code::Block;

/// A line of the program's output, by reference.
#[derive(Clone, Copy)]
pub enum LineRef<'a> {
    /// `ok`: a statement was carried out.
    Accepted,
    /// `id N`: the id of a row that was added.
    Id(u32),
    /// `loaded N`: so many rows were added.
    Loaded(u32),
    /// A row of a plan: its squared distance where it has one, the id for each relation in it, and the values that
    /// were fetched.
    Row {
        gap: Option<Frac>,
        ids: &'a [u32],
        values: &'a [Value],
    },
    /// `end`: no row is left.
    End,
    /// What a cursor visited, and how many rows it gave.
    Stats {
        blocks: u64,
        pairs: u64,
        geometries: u64,
        rows: u64,
    },
    /// A leaf of a quadtree with its ids.
    Leaf {
        block: Block,
        ids: &'a [u32],
    },
    /// `refused N WORD`: a statement was refused.
    Refused(Refusal),
}
