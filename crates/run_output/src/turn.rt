/// What one line of a trace came to.
#[derive(Clone, Copy, Debug, PartialEq, Eq)]
pub enum Turn {
    /// It was served.
    Served,
    /// There was none: the trace is at its end.
    Ended,
    /// It isn't one that the trace can have.
    Bad,
    /// The source failed.
    Unread,
    /// The sink failed, or took nothing.
    Unwritten,
}
