//! What an entry asks for: one arm for each opcode of the profile.
ghost use Rattle.std.specs.Prelude.{◌≡◌};
ghost use Rattle.entry.specs.Entry.{is_link_timeout};

use crate::by_opcode;

/// Where a READ or a WRITE is to begin. Both mean the same at a pipe, which has no place to seek to (pipe(7)).
#[derive(Clone, Copy, PartialEq, Eq, Debug)]
pub enum Offset {
    /// The value 0.
    Zero,
    /// The value 2^64 - 1, as io_uring_enter(2) writes "the current position".
    Current,
}

/// The operation of an entry, with the fields that its row of the table of opcodes leaves free.
#[derive(Clone, Copy, PartialEq, Eq, Debug)]
pub enum Op {
    /// Does nothing, and replies 0.
    Nop,
    /// Waits until an end of a pipe is ready for one of the events of `mask` (bits 1, 4, 8 and 16 of poll(2)).
    PollAdd {
        fd: i32,
        mask: u32,
    },
    /// Replies -62 (ETIME) once `ticks` have passed since it was armed. With `etime_success` that is no failure. Where `count`
    /// isn't 0, it may reply 0 once this many later requests of its ring have replied; -62 stays possible, too.
    Timeout {
        ticks: u32,
        etime_success: bool,
        count: u32,
    },
    /// Cancels the first earlier TIMEOUT of its ring that has this user_data and no reply.
    TimeoutRemove {
        user_data: u64,
    },
    /// Cancels the first earlier request of its ring that has this user_data and no reply, and is no LINK_TIMEOUT, unless it runs.
    /// With `all` it cancels each of them that doesn't run, and replies how many it took.
    AsyncCancel {
        user_data: u64,
        all: bool,
    },
    /// Cancels the entry before it in its chain once `ticks` have passed since it was armed.
    LinkTimeout {
        ticks: u32,
    },
    /// Closes an end of a pipe.
    Close {
        fd: i32,
    },
    /// Reads at most `len` bytes from the read end of a pipe.
    Read {
        fd: i32,
        offset: Offset,
        len: u32,
    },
    /// Writes `len` bytes to the write end of a pipe.
    Write {
        fd: i32,
        offset: Offset,
        len: u32,
    },
    /// Moves at most `len` bytes from the read end of one pipe to the write end of another.
    Splice {
        fd_in: i32,
        fd_out: i32,
        len: u32,
    },
    /// An entry that is none of the profile's. It replies -22 (EINVAL).
    Invalid,
}

macro_rules! is_linked_timer {
    ((timer linked $ticks:ident) ()) => { true };
    ((timer alone $ticks:ident) ()) => { false };
    ((plain $kind:ident) ()) => { false };
    ((pipe $kind:ident $($field:ident)*) ()) => { false };
    ((cancel $kind:ident $($field:ident)*) ()) => { false };
}

impl Op {
    /// It cancels the entry before it in time.
    pub fn is_link_timeout(self) -> bool
        ensures { result ≡ is_link_timeout self }
    {
        by_opcode!(self => is_linked_timer!())
    }
}
