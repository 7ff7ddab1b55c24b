//! SPLICE, with both of its pipes or with one.
ghost use Rattle.std.specs.Prelude.{◌≡◌, ℕ};
ghost use Rattle.history.specs.Pipes.{end_of};
ghost use Rattle.answers.specs.NamedEnds.{JoinsPipes, gives, takes};
ghost use Rattle.answers.specs.Answered.{Answered, AnsweredBoth};

use crate::named::are_of_one;
use crate::plain::EINVAL;
use entry::{Op, by_opcode};
use level::End;
use level::errno::EBADF;
use pipe::Pipe;

macro_rules! spliced {
    ((pipe splice $fd_in:ident $fd_out:ident $len:ident) ($op:ident, $source:ident, $target:ident)) => { splice($op, $fd_in, $fd_out, $len, $source, $target) };
    ((pipe $kind:ident $($field:ident)*) $args:tt) => { unreachable!() };
    ((plain $kind:ident) $args:tt) => { unreachable!() };
    ((timer $kind:ident $ticks:ident) $args:tt) => { unreachable!() };
    ((cancel $kind:ident $($field:ident)*) $args:tt) => { unreachable!() };
}

/// Answers a SPLICE from the two pipes of a board that its fds name (splice(2)). Gives the reply; or None, and changes
/// nothing, where there is no answer now.
pub fn answer_both(op: Op, source: &mut Pipe, target: &mut Pipe) -> Option<i32>
    requires joins { (s : ℕ) × (t : ℕ) × JoinsPipes op s t }
    ensures { AnsweredBoth op result source.old source.new target.old target.new }
{
    by_opcode!(op => spliced!(op, source, target))
}

fn splice(
    op: Op,
    fd_in: i32,
    fd_out: i32,
    len: u32,
    source: &mut Pipe,
    target: &mut Pipe,
) -> Option<i32>
    requires is { op ≡ Op.Splice fd_in fd_out len }
    ensures { AnsweredBoth op result source.old source.new target.old target.new }
{
    let _ = op;
    if !gives(fd_in, source) || !takes(fd_out, target) {
        return Some(-EBADF);
    }
    source.splice_to(target, len)
}

/// Answers a SPLICE that has the one pipe of the board that it names in hand. Where it names another one, that isn't there;
/// else both of its ends are of this pipe.
pub(crate) fn splice_alone(fd_in: i32, fd_out: i32, pipe: &Pipe, buffer: &[u8]) -> Option<i32>
    ensures { (len : ℕ) → Answered (Op.Splice fd_in fd_out len) result pipe.now pipe.now buffer.now buffer.now }
{
    let _ = buffer;
    if are_of_one(fd_in, fd_out) && gives(fd_in, pipe) && takes(fd_out, pipe) {
        Some(-EINVAL)
    } else {
        Some(-EBADF)
    }
}

/// Bytes come out of the pipe at the end `fd`: it is the read end, and open.
fn gives(fd: i32, pipe: &Pipe) -> bool
    ensures { result ≡ gives (end_of fd) pipe.now }
{
    fd >= 0 && fd % 2 == 0 && !pipe.is_closed(End::Read)
}

/// Bytes go into the pipe at the end `fd`: it is the write end, and open.
fn takes(fd: i32, pipe: &Pipe) -> bool
    ensures { result ≡ takes (end_of fd) pipe.now }
{
    fd >= 0 && fd % 2 != 0 && !pipe.is_closed(End::Write)
}
