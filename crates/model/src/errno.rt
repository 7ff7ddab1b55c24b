//! The replies of failures: numbers of errno(3), below 0.

/// ENOENT: a cancel has no target left.
pub const NOT_FOUND: i32 = -2;

/// EINVAL: the entry is none of the profile's.
pub const INVALID: i32 = -22;

/// ETIME: a timer ran out.
pub const TIMED_OUT: i32 = -62;

/// EALREADY: a cancel found its target running.
pub const ALREADY: i32 = -114;

/// ECANCELED: something else has ended the request.
pub const CANCELLED: i32 = -125;
