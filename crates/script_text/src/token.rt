/// A mark of the language that is no letter and no digit.
#[derive(Clone, Copy, Debug, PartialEq, Eq)]
pub enum Symbol {
    Open,
    Close,
    Comma,
    Dot,
    Minus,
    Equal,
    NotEqual,
    Less,
    AtMost,
    Greater,
    AtLeast,
}

/// What a line is made of. Names, numbers and texts borrow the line.
#[derive(Clone, Copy, Debug)]
pub enum Token<'t> {
    Name(&'t str),
    Number(&'t str),
    /// What stands between the quotes, where each quote is doubled.
    Text(&'t [u8]),
    Mark(Symbol),
}
