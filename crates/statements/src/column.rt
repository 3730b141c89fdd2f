use sand_base::Label;

/// A column of a relation, written `relation.column`.
#[derive(Drop)]
pub struct Column {
    pub relation: Label,
    pub column: Label,
}

/// A column of the `k`th part of an answer, counted from 1, written `k.column`.
#[derive(Drop)]
pub struct Place {
    pub k: u32,
    pub column: Label,
}
