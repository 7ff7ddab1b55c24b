//! The level of a pipe, and the replies that follow from it.
ghost use Rattle.std.specs.Prelude.{◌≡◌, ◌<◌, ◌≤◌, min, cond};
ghost use Rattle.level.specs.Replies.{close_reply, events_at, free_in, is_closed, moved, poll_reply, read_reply, splice_reply, write_reply};

use crate::ends::End;
use crate::errno::{EBADF, EPIPE};
use crate::poll::{ALWAYS, POLLERR, POLLHUP, POLLIN, POLLOUT};

/// The first number of bytes that is no reply: a reply has 31 bits.
const REPLIES: u64 = 0x8000_0000;

/// How many bytes a pipe holds at most, how many it holds, and which of its ends are closed. A reply is a number of bytes or of
/// events, or the number of an error below 0 (errno(3)); None where there is none now, and a blocking call would wait.
#[derive(Clone, Copy)]
pub struct Level {
    pub capacity: u64,
    pub count: u64,
    pub read_closed: bool,
    pub write_closed: bool,
}

impl Level {
    /// A read of at most `len` bytes (read(2)).
    pub fn read(self, len: u64) -> Option<i32>
        requires fits { min len self.count < REPLIES }
        ensures reply { result ≡ read_reply self len }
        ensures moves { (moved result ≤ len) × (moved result ≤ self.count) }
    {
        if self.read_closed {
            Some(-EBADF)
        } else if len == 0 {
            Some(0)
        } else if self.count > 0 {
            Some(len.min(self.count) as i32)
        } else if self.write_closed {
            Some(0)
        } else {
            None
        }
    }

    /// A write of `len` bytes (write(2)). At most the capacity goes in whole or not at all, more than that as far as there is room.
    pub fn write(self, len: u64) -> Option<i32>
        requires fits { min len self.capacity < REPLIES }
        ensures reply { result ≡ write_reply self len }
        ensures moves { (moved result ≤ len) × (moved result ≤ free_in self) }
    {
        let free = self.free();
        if self.write_closed {
            Some(-EBADF)
        } else if len == 0 {
            Some(0)
        } else if self.read_closed {
            Some(-EPIPE)
        } else if len <= self.capacity {
            if len <= free { Some(len as i32) } else { None }
        } else if free > 0 {
            Some(free as i32)
        } else {
            None
        }
    }

    /// A splice of at most `len` bytes into another pipe (splice(2)): as many as are here and as it has room for. Whether this
    /// pipe is open to readers and the other to writers isn't looked at.
    pub fn splice(self, target: Level, len: u64) -> Option<i32>
        requires fits { min len self.count < REPLIES }
        ensures reply { result ≡ splice_reply self target len }
        ensures moves { (moved result ≤ self.count) × (moved result ≤ free_in target) }
    {
        let most = self.count.min(target.free());
        if len == 0 {
            Some(0)
        } else if target.read_closed {
            Some(-EPIPE)
        } else if most > 0 {
            Some(len.min(most) as i32)
        } else if self.count == 0 && self.write_closed {
            Some(0)
        } else {
            None
        }
    }

    /// A close of an end (close(2)). An end is closed once.
    pub fn close(self, end: End) -> Option<i32>
        ensures reply { result ≡ close_reply self end }
    {
        Some(if self.is_closed(end) { -EBADF } else { 0 })
    }

    /// The events of an end that are in `mask`, and `POLLERR` and `POLLHUP` in any case (poll(2)).
    pub fn poll(self, end: End, mask: u32) -> Option<i32>
        ensures reply { result ≡ poll_reply self end mask }
    {
        let events = self.events(end) & (mask | ALWAYS);
        if self.is_closed(end) {
            Some(-EBADF)
        } else if events == 0 {
            None
        } else {
            Some(events as i32)
        }
    }

    /// Whether an end is closed.
    pub fn is_closed(self, end: End) -> bool
        ensures { result ≡ is_closed end self }
    {
        match end {
            End::Read => self.read_closed,
            End::Write => self.write_closed,
        }
    }

    /// How many more bytes go in.
    fn free(self) -> u64
        ensures { result ≡ free_in self }
    {
        self.capacity.saturating_sub(self.count)
    }

    /// The events of an end.
    fn events(self, end: End) -> u32
        ensures are { result ≡ events_at end self }
        ensures bits { result < 32 }
    {
        match end {
            End::Read => bits_if(self.count > 0, POLLIN) | bits_if(self.write_closed, POLLHUP),
            End::Write => bits_if(self.free() > 0, POLLOUT) | bits_if(self.read_closed, POLLERR),
        }
    }
}

fn bits_if(holds: bool, bits: u32) -> u32
    ensures { result ≡ cond holds bits 0 }
{
    if holds { bits } else { 0 }
}
