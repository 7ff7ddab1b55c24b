//! Which replies an entry of the mixed load may have. Below 0 they are errors of errno(3): -2 ENOENT, -9 EBADF, -22 EINVAL, -32 EPIPE,
//! -62 ETIME, -114 EALREADY and -125 ECANCELED.
use crate::pipes::{CAPACITY, is_end, may_be_closed};
use entry::Op;

/// The ticks of a TIMEOUT that doesn't run out: the clock's last.
pub(crate) const LATE: u64 = 2_147_483_647;

/// The number of bytes as a reply.
fn as_reply(bytes: u32) -> i32 {
    i32::try_from(bytes).unwrap_or(i32::MAX)
}

/// Whether a READ may have this reply.
fn may_read(fd: i32, len: u32, res: i32) -> bool {
    match res {
        -9 => !is_end(fd, false) || may_be_closed(fd),
        0 => is_end(fd, false) && (len == 0 || may_be_closed(fd)),
        _ => is_end(fd, false) && 0 < res && res <= as_reply(len),
    }
}

/// Whether a WRITE may have this reply. One that is not longer than the pipe is written whole.
fn may_write(fd: i32, len: u32, res: i32) -> bool {
    match res {
        -9 => !is_end(fd, true) || may_be_closed(fd),
        -32 => may_be_closed(fd) && is_end(fd, true) && 0 < len,
        _ if len <= CAPACITY => is_end(fd, true) && res == as_reply(len),
        _ => is_end(fd, true) && 0 < res && res <= as_reply(CAPACITY),
    }
}

/// Whether a SPLICE may have this reply.
fn may_splice(fd_in: i32, fd_out: i32, len: u32, res: i32) -> bool {
    let are_ends = is_end(fd_in, false) && is_end(fd_out, true);
    let (from, into) = (may_be_closed(fd_in), may_be_closed(fd_out));
    if res == -9 || !are_ends {
        return res == -9 && (!are_ends || from || into);
    }
    if fd_in / 2 == fd_out / 2 {
        return res == -22;
    }
    match res {
        -32 => into && 0 < len,
        0 => len == 0 || from,
        _ => 0 < res && res <= as_reply(len.min(CAPACITY)),
    }
}

/// Whether a POLL_ADD may have this reply: the event of the end, that it is the other end which was closed, or both.
fn may_poll(fd: i32, mask: u32, res: i32) -> bool {
    let is_write = fd % 2 == 1;
    if !is_end(fd, is_write) {
        return res == -9;
    }
    let (event, hang_up) = if is_write { (4, 8) } else { (1, 16) };
    let event = as_reply(mask & event);
    let is_closed = res == -9 || res == hang_up || res == event | hang_up;
    (event != 0 && res == event) || (may_be_closed(fd) && is_closed)
}

/// Whether an entry of this operation may have this reply, or, where the end cut it off, this one.
pub(crate) fn may_reply(op: Op, res: i32, is_cut: bool) -> bool {
    if res == -125 || is_cut {
        return res == -125;
    }
    match op {
        Op::Nop => res == 0,
        Op::Invalid => res == -22,
        Op::Read { fd, len, .. } => may_read(fd, len, res),
        Op::Write { fd, len, .. } => may_write(fd, len, res),
        Op::Splice { fd_in, fd_out, len } => may_splice(fd_in, fd_out, len, res),
        Op::Close { fd } => res == -9 || (res == 0 && may_be_closed(fd)),
        Op::PollAdd { fd, mask } => may_poll(fd, mask, res),
        Op::Timeout { ticks, count, .. } => {
            (res == -62 && u64::from(ticks) < LATE) || (res == 0 && 0 < count)
        }
        // one that has no target is Invalid
        Op::LinkTimeout { .. } => res == -62 || res == -22,
        Op::TimeoutRemove { .. } => res == 0 || res == -2,
        Op::AsyncCancel { all: true, .. } => 0 <= res,
        Op::AsyncCancel { .. } => res == 0 || res == -2 || res == -114,
    }
}
