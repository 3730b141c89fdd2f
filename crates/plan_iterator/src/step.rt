use crate::Answer;

/// What a step of an operator gives: a row, nothing yet, or the end.
#[derive(Drop)]
pub enum Step {
    Row(Answer),
    Pass,
    End,
}
