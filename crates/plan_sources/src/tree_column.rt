use pmr_tree::Pmr;
use sand_base::NoMemory;
use sand_store::{FileShapes, Relation};
use std::alloc::Global;

/// A column of shapes: its relation, its place there, counted from 0, and its quadtree.
#[derive(Clone, Copy)]
pub struct TreeColumn<'s> {
    pub relation: &'s Relation,
    pub column: usize,
    pub tree: &'s Pmr,
}

impl<'s> TreeColumn<'s> {
    ghost use Rattle.std.specs.Prelude.{◌≡◌, IfOk};

    /// The shapes of the column.
    pub fn shapes(self, alloc: Global) -> Result<FileShapes, NoMemory>
        ensures file { IfOk result (λ shapes. shapes.file ≡ self.entry.relation.now.file) }
        ensures schema { IfOk result (λ shapes. shapes.schema ≡ self.entry.relation.now.schema) }
        ensures column { IfOk result (λ shapes. shapes.column ≡ self.entry.column) }
    {
        self.relation.shapes(alloc, self.column)
    }
}
