//! The pipes of the mixed load and their ends. A stream of bytes is written to the first pipe by ring 0, moved on to the second by
//! SPLICEs of both rings, and read there by ring 1. The other pipes are shared, and the ends of the last one may be closed.

/// How many pipes there are, how many bytes each holds, and the first of those that are shared.
pub(crate) const PIPES: u32 = 5;

pub(crate) const CAPACITY: u32 = 128;

pub(crate) const SHARED: u32 = 2;

/// The ends that the stream goes through: it is written to the first, and read from the last.
pub(crate) const STREAM: [i32; 4] = [1, 0, 3, 2];

/// Whether there is such an end, and it is a write end, or a read end.
pub(crate) fn is_end(fd: i32, is_write: bool) -> bool {
    0 <= fd && fd < 2 * PIPES as i32 && (fd % 2 == 1) == is_write
}

/// Whether it is an end of the pipe whose ends may be closed.
pub(crate) fn may_be_closed(fd: i32) -> bool {
    fd / 2 == PIPES as i32 - 1
}
