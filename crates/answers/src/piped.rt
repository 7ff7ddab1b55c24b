//! Operations on a held pipe.
ghost use Rattle.std.specs.Prelude.{◌≡◌, ℕ, true, length};
ghost use Rattle.entry.specs.declared.op.Offset.{Offset};
ghost use Rattle.history.specs.{FitsOp, end_of, is_at};
ghost use Rattle.answers.specs.NamedEnds.{UsesSome};
ghost use Rattle.answers.specs.Answered.{Answered};

use crate::named::side_of;
use crate::splice::splice_alone;
use entry::{Op, by_opcode};
use level::End;
use level::errno::EBADF;
use pipe::Pipe;

macro_rules! answer_by_row {
    (($op:expr, $pipe:expr, $buffer:expr) $($text:literal $name:ident { $($field:ident),* } = $code:literal: $fd:tt $off:tt $addr:tt $len:tt $word:tt $splice_fd_in:tt $flags:tt $fails:tt;)*) => {
        match $op {
            $(Op::$name { $($field),* } => operation!($name ($($field),*) $pipe, $buffer),)*
            Op::Invalid => unreachable!(),
        }
    };
}

macro_rules! operation {
    (Read ($fd:ident, $offset:ident, $len:ident) $pipe:expr, $buffer:expr) => { read($fd, $len, $pipe, $buffer) };
    (Write ($fd:ident, $offset:ident, $len:ident) $pipe:expr, $buffer:expr) => { write($fd, $len, $pipe, $buffer) };
    (Close ($fd:ident) $pipe:expr, $buffer:expr) => { close($fd, $pipe, $buffer) };
    (PollAdd ($fd:ident, $mask:ident) $pipe:expr, $buffer:expr) => { poll($fd, $mask, $pipe, $buffer) };
    (Splice ($fd_in:ident, $fd_out:ident, $len:ident) $pipe:expr, $buffer:expr) => { splice_alone($fd_in, $fd_out, $pipe, $buffer) };
    (Nop () $pipe:expr, $buffer:expr) => { unreachable!() };
    (Timeout ($ticks:ident, $etime:ident, $count:ident) $pipe:expr, $buffer:expr) => { unreachable!() };
    (LinkTimeout ($ticks:ident) $pipe:expr, $buffer:expr) => { unreachable!() };
    (AsyncCancel ($target:ident, $all:ident) $pipe:expr, $buffer:expr) => { unreachable!() };
    (TimeoutRemove ($target:ident) $pipe:expr, $buffer:expr) => { unreachable!() };
}

/// Answers READ, WRITE, CLOSE, POLL_ADD or SPLICE from the one pipe of a board that its fd names (read(2), write(2),
/// close(2), poll(2), splice(2)). Gives the reply, with a READ's bytes at the front of `buffer`; or None, and changes
/// nothing, where there is no answer now. A SPLICE moves nothing, since it takes two pipes.
pub fn answer_with(op: Op, pipe: &mut Pipe, buffer: &mut [u8]) -> Option<i32>
    requires used { UsesSome op }
    requires fits { FitsOp op (length buffer.old) }
    ensures { Answered op result pipe.old pipe.new buffer.old buffer.new }
{
    by_opcode!(answer_by_row!(op, pipe, buffer))
}

fn read(fd: i32, len: u32, pipe: &mut Pipe, buffer: &mut [u8]) -> Option<i32>
    requires named { (p : ℕ) × (is_at (end_of fd) p ≡ true) }
    requires fits { length buffer.old ≡ len }
    ensures { (offset : Offset) → Answered (Op.Read fd offset len) result pipe.old pipe.new buffer.old buffer.new }
{
    match side_of(fd) {
        End::Write => Some(-EBADF),
        End::Read => pipe.read_into(buffer),
    }
}

fn write(fd: i32, len: u32, pipe: &mut Pipe, buffer: &[u8]) -> Option<i32>
    requires named { (p : ℕ) × (is_at (end_of fd) p ≡ true) }
    requires fits { length buffer.now ≡ len }
    ensures { (offset : Offset) → Answered (Op.Write fd offset len) result pipe.old pipe.new buffer.now buffer.now }
{
    match side_of(fd) {
        End::Read => Some(-EBADF),
        End::Write => pipe.write_from(buffer),
    }
}

fn close(fd: i32, pipe: &mut Pipe, buffer: &[u8]) -> Option<i32>
    requires named { (p : ℕ) × (is_at (end_of fd) p ≡ true) }
    ensures { Answered (Op.Close fd) result pipe.old pipe.new buffer.now buffer.now }
{
    let _ = buffer;
    pipe.close_end(side_of(fd))
}

fn poll(fd: i32, mask: u32, pipe: &Pipe, buffer: &[u8]) -> Option<i32>
    requires named { (p : ℕ) × (is_at (end_of fd) p ≡ true) }
    ensures { Answered (Op.PollAdd fd mask) result pipe.now pipe.now buffer.now buffer.now }
{
    let _ = buffer;
    pipe.poll_mask(side_of(fd), mask)
}
