use crate::Place;
use sand_base::Value;

/// How a test compares.
#[derive(Clone, Copy, Debug, PartialEq, Eq)]
pub enum Op {
    Equal,
    NotEqual,
    Less,
    AtMost,
    Greater,
    AtLeast,
}

/// What `filter` asks of each answer: how the value at a place compares with an int or a text.
#[derive(Drop)]
pub struct Test {
    pub place: Place,
    pub op: Op,
    pub value: Value,
}
