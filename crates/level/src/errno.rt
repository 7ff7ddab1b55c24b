//! The numbers of errors (errno(3)).

/// The end is closed (EBADF).
pub const EBADF: i32 = 9;

/// No one can read what is written (EPIPE).
pub const EPIPE: i32 = 32;
