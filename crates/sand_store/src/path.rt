use attr_index::AttrIndex;
use pmr_tree::Pmr;

/// Where an index of a column stands (an access path): a quadtree for a column of shapes, else an attribute index.
#[derive(Clone, Copy, Debug, PartialEq, Eq)]
pub enum AccessPath {
    Quadtree(Pmr),
    Attribute(AttrIndex),
}
