/// Why the lines of a script go on no further.
#[derive(Clone, Copy, Debug, PartialEq, Eq)]
pub enum LineFault {
    /// The sink failed. It took a prefix of what the line printed.
    Sink,
    /// The journal failed. The change in hand is made, and nothing is printed of it.
    Journal,
}
