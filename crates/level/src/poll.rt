//! The bits of events (poll(2)).

/// There are bytes to read.
pub const POLLIN: u32 = 1;

/// There is room for a byte.
pub const POLLOUT: u32 = 4;

/// The read end is closed. Reported at the write end, even where it was not asked for.
pub const POLLERR: u32 = 8;

/// The write end is closed. Reported at the read end, even where it was not asked for.
pub const POLLHUP: u32 = 16;

/// The events that are reported even where they were not asked for.
pub const ALWAYS: u32 = POLLERR | POLLHUP;
