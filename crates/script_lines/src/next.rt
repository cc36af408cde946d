// What comes of a script.

/// What comes next of a script.
#[derive(Clone, Copy, PartialEq, Eq, Debug, Drop)]
pub enum Next {
    /// A line, with its end.
    Line,
    /// The last line, which has no end and isn't empty.
    Last,
    /// Nothing.
    End,
    /// A byte after the longest beginning that is allowed.
    TooLong,
    /// The source failed.
    Fault,
}
