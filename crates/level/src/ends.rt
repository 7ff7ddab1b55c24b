//! The two ends of a pipe.

/// An end of a pipe (pipe(7)).
#[derive(Clone, Copy)]
pub enum End {
    /// The end that bytes come out of.
    Read,
    /// The end that bytes go into.
    Write,
}
