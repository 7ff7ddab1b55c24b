//! Builders of entries, with the names and the order of arguments of liburing's io_uring_prep_* functions. Each gives
//! the entry that its row of the table of opcodes stands for with these values: Invalid where the row doesn't allow them.
#![tactic(auto)]

ghost use Rattle.std.specs.Prelude.{◌≡◌, pos, negsuc, true, false};
ghost use Rattle.entry.specs.{no_fd, row as table_row, Says, layout};
ghost use Rattle.prep.specs.Built.{IsOfRow, flagged, link_timeout_op, plain, poll_op, read_op, splice_op, timeout_count_op, timeout_op, write_op};

use bitflags::Flags;
use entry::row::CANCEL_ALL;
use entry::{Fields, Op, Sqe, by_opcode};

/// A row with the given values in its free places. Where five are given, as to io_uring_prep_rw, splice_fd_in is 0.
macro_rules! filled {
    (($fd:expr, $off:expr, $addr:expr, $len:expr, $word:expr) $($row:tt)*) => {
        filled! { ($fd, $off, $addr, $len, $word, 0) $($row)* }
    };
    (($fd:expr, $off:expr, $addr:expr, $len:expr, $word:expr, $splice_fd_in:expr) $text:literal $name:ident { $($field:ident),* } = $code:literal: [$($fd_is:tt)*] [$($off_is:tt)*] [$($addr_is:tt)*] [$($len_is:tt)*] [$($word_is:tt)*] [$($splice_is:tt)*] $flags:tt $fails:tt;) => {
        Fields {
            opcode: $code,
            fd: given!($fd, $($fd_is)*),
            off: given!($off, $($off_is)*),
            addr: given!($addr, $($addr_is)*),
            len: given!($len, $($len_is)*),
            word: given!($word, $($word_is)*),
            splice_fd_in: given!($splice_fd_in, $($splice_is)*),
        }
    };
}

macro_rules! given {
    ($value:expr, none) => { -1 };
    ($value:expr, zero) => { 0 };
    ($value:expr, one) => { 1 };
    ($value:expr, current) => { u64::MAX };
    ($value:expr, $kind:ident $field:ident) => { $value };
}

/// The entry that a row stands for, without flags and user_data.
/// It is inlined, so that the compiler computes the entry of a row whose opcode is known.
#[inline(always)]
fn entry_of(row: Fields) -> Sqe
    ensures { IsOfRow row result }
{
    Sqe::of_row(row, 0, 0)
}

/// io_uring_prep_nop(3).
pub fn nop() -> Sqe
    ensures { result ≡ plain Op.Nop }
{
    entry_of(by_opcode!(Nop: filled!(-1, 0, 0, 0, 0)))
}

/// io_uring_prep_read(3), whose buffer is handed over with the entry.
pub fn read(fd: i32, len: u32, off: u64) -> Sqe
    ensures says { Says (layout (record { opcode = 22; fd = fd; off = off; addr = 0; len = len; word = 0; splice_fd_in = pos 0 }) 0 0) result }
    ensures entry { result ≡ plain (read_op fd len off) }
{
    entry_of(by_opcode!(Read: filled!(fd, off, 0, len, 0)))
}

/// io_uring_prep_write(3), whose buffer is handed over with the entry.
pub fn write(fd: i32, len: u32, off: u64) -> Sqe
    ensures says { Says (layout (record { opcode = 23; fd = fd; off = off; addr = 0; len = len; word = 0; splice_fd_in = pos 0 }) 0 0) result }
    ensures entry { result ≡ plain (write_op fd len off) }
{
    entry_of(by_opcode!(Write: filled!(fd, off, 0, len, 0)))
}

/// io_uring_prep_close(3).
pub fn close(fd: i32) -> Sqe
    ensures { result ≡ plain (Op.Close fd) }
{
    entry_of(by_opcode!(Close: filled!(fd, 0, 0, 0, 0)))
}

/// io_uring_prep_poll_add(3): `mask` has events of poll(2).
pub fn poll_add(fd: i32, mask: u32) -> Sqe
    ensures says { Says (layout (record { opcode = 6; fd = fd; off = 0; addr = 0; len = 0; word = mask; splice_fd_in = pos 0 }) 0 0) result }
    ensures entry { result ≡ plain (poll_op fd mask) }
{
    entry_of(by_opcode!(PollAdd: filled!(fd, 0, 0, 0, mask)))
}

/// io_uring_prep_timeout(3), with ticks of the ring's clock in place of a timespec. `flags` is 0 or ETIME_SUCCESS (32).
pub fn timeout(ticks: u64, flags: u32) -> Sqe
    ensures says { Says (layout (record { opcode = 11; fd = no_fd; off = 0; addr = ticks; len = 1; word = flags; splice_fd_in = pos 0 }) 0 0) result }
    ensures entry { result ≡ plain (timeout_op ticks flags) }
{
    timeout_count(ticks, 0, flags)
}

/// io_uring_prep_timeout(3) with a count: it may reply 0 once this many later requests of its ring have replied, and -62 (ETIME)
/// stays possible, too. `count` is at most 1023, and 0 counts nothing.
pub fn timeout_count(ticks: u64, count: u64, flags: u32) -> Sqe
    ensures says { Says (layout (record { opcode = 11; fd = no_fd; off = count; addr = ticks; len = 1; word = flags; splice_fd_in = pos 0 }) 0 0) result }
    ensures entry { result ≡ plain (timeout_count_op ticks count flags) }
{
    entry_of(by_opcode!(Timeout: filled!(-1, count, ticks, 1, flags)))
}

/// io_uring_prep_link_timeout(3), with ticks of the ring's clock in place of a timespec.
pub fn link_timeout(ticks: u64) -> Sqe
    ensures says { Says (layout (record { opcode = 15; fd = no_fd; off = 0; addr = ticks; len = 1; word = 0; splice_fd_in = pos 0 }) 0 0) result }
    ensures entry { result ≡ plain (link_timeout_op ticks) }
{
    entry_of(by_opcode!(LinkTimeout: filled!(-1, 0, ticks, 1, 0)))
}

/// io_uring_prep_cancel64(3): cancels the first earlier request with this user_data that has no reply and is no LINK_TIMEOUT, unless
/// it runs.
pub fn cancel(user_data: u64) -> Sqe
    ensures { result ≡ plain (Op.AsyncCancel user_data false) }
{
    entry_of(by_opcode!(AsyncCancel: filled!(-1, 0, user_data, 0, 0)))
}

/// io_uring_prep_cancel64(3) with IORING_ASYNC_CANCEL_ALL: cancels each such request, but those that run.
pub fn cancel_all(user_data: u64) -> Sqe
    ensures { result ≡ plain (Op.AsyncCancel user_data true) }
{
    entry_of(by_opcode!(AsyncCancel: filled!(-1, 0, user_data, 0, CANCEL_ALL)))
}

/// io_uring_prep_timeout_remove(3): cancels the first earlier TIMEOUT with this user_data that has no reply.
pub fn timeout_remove(user_data: u64) -> Sqe
    ensures { result ≡ plain (Op.TimeoutRemove user_data) }
{
    entry_of(by_opcode!(TimeoutRemove: filled!(-1, 0, user_data, 0, 0)))
}

/// io_uring_prep_splice(3) between two pipes, which have no offsets.
pub fn splice(fd_in: i32, fd_out: i32, len: u32) -> Sqe
    ensures says { Says (layout (record { opcode = 30; fd = fd_out; off = 18446744073709551615; addr = 18446744073709551615; len = len; word = 0; splice_fd_in = fd_in }) 0 0) result }
    ensures entry { result ≡ plain (splice_op fd_in fd_out len) }
{
    entry_of(by_opcode!(Splice: filled!(fd_out, 0, 0, len, 0, fd_in)))
}

/// The entry that its bytes stand for with this flags byte: io_uring_sqe_set_flags(3).
pub fn with_flags(sqe: Sqe, flags: u8) -> Sqe
    ensures says { Says (layout (table_row sqe.op) flags sqe.user_data) result }
    ensures entry { result ≡ flagged sqe flags }
{
    Sqe::of_row(sqe.row(), flags, sqe.user_data())
}

/// The entry with this user_data: io_uring_sqe_set_data64(3). Its row stays, so the table isn't asked again.
pub fn with_user_data(sqe: Sqe, user_data: u64) -> Sqe
    ensures { result ≡ record { user_data = user_data; flags = sqe.flags; op = sqe.op } }
{
    sqe.with_user_data(user_data)
}
