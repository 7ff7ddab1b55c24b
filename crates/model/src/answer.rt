//! What each operation comes to: the table of answers.
ghost use Rattle.std.specs.Prelude.{◌≡◌, ◌≤◌, true, ℤ, Option, Some, slice_get, MatchOption};
ghost use Rattle.limits.specs.declared.TheConstants.{LENGTH};
ghost use Rattle.entry.specs.Table.{fits_op};
ghost use Rattle.history.specs.Answers.{read_from, write_to, close_of, poll_of, at_end, bad_end, bare};
ghost use Rattle.level.specs.declared.level.Level.{Level};
ghost use Rattle.level.specs.declared.ends.End.{End};
ghost use Rattle.model.specs.{caps_of, flow_in, end_as, answer_as, op_answer, answer_in};

use crate::ends::{NamedEnd, named_end};
use crate::errno::INVALID;
use crate::pipe::Pipe;
use crate::ready::Ready;
use crate::request::{Request, RequestStage};
use crate::ring::Ring;
use crate::splice::splice_at;
use entry::{Op, by_opcode};
use level::errno::EBADF;
use level::{End, Level};

macro_rules! work_now {
    ((plain nothing) $args:tt) => { Ready::Now(0) };
    ((plain invalid) $args:tt) => { Ready::Now(INVALID) };
    ((pipe read $fd:ident $len:ident) ($ring:ident, $pipes:ident, $k:ident, $request:ident, $op:ident)) => { read_at($pipes, named_end($fd), $len) };
    ((pipe write $fd:ident $len:ident) ($ring:ident, $pipes:ident, $k:ident, $request:ident, $op:ident)) => { write_at($pipes, named_end($fd), $len) };
    ((pipe splice $fd_in:ident $fd_out:ident $len:ident) ($ring:ident, $pipes:ident, $k:ident, $request:ident, $op:ident)) => { splice_at($pipes, named_end($fd_in), named_end($fd_out), $len) };
    ((pipe close $fd:ident) ($ring:ident, $pipes:ident, $k:ident, $request:ident, $op:ident)) => { close_at($pipes, named_end($fd)) };
    ((pipe poll $fd:ident $mask:ident) ($ring:ident, $pipes:ident, $k:ident, $request:ident, $op:ident)) => { poll_at($pipes, named_end($fd), $mask) };
    ((timer $kind:ident $ticks:ident) $args:tt) => { Ready::Wait };
    ((cancel $kind:ident $($field:ident)*) ($ring:ident, $pipes:ident, $k:ident, $request:ident, $op:ident)) => { $ring.cancel_now($k, $request, $op) };
}

/// What the running request `k` with this operation comes to.
fn op_now(ring: &Ring, pipes: &[Pipe], k: u64, request: &Request, op: Op) -> Ready
    requires here { slice_get ring.now k ≡ Some request.now }
    requires fits { fits_op op ≡ true }
    ensures { answer_as pipes.now result ≡ op_answer pipes.now ring.now k op }
{
    by_opcode!(op => work_now!(ring, pipes, k, request, op))
}

impl Ring {
    /// What the request comes to, where it runs.
    #[tactic(auto, using(crate::proofs::RingReading::placed_fits))]
    pub fn now(&self, pipes: &[Pipe], k: u64) -> Ready
        ensures { answer_as pipes.now result ≡ answer_in pipes.now self.now k }
    {
        let Some(request) = self.get(k) else {
            return Ready::Wait;
        };
        if request.stage != RequestStage::Runs {
            return Ready::Wait;
        }
        let _row = request.sqe.row();
        op_now(self, pipes, k, request, self.op(k as usize))
    }
}

#[tactic(auto, using(crate::proofs::PipeEnds::pipe_there, crate::proofs::PipeEnds::read_there))]
fn read_at(pipes: &[Pipe], end: NamedEnd, len: u32) -> Ready
    requires { len ≤ LENGTH }
    ensures { answer_as pipes.now result ≡ read_from (caps_of pipes.now) (flow_in pipes.now) (end_as end) len }
{
    match end {
        NamedEnd::Read(p) => match pipes.get(p) {
            Some(pipe) => Ready::front(p, pipe.level().read(u64::from(len))),
            None => Ready::Now(-EBADF),
        },
        NamedEnd::Write(_) | NamedEnd::Nothing => Ready::Now(-EBADF),
    }
}

#[tactic(auto, using(crate::proofs::PipeEnds::pipe_there, crate::proofs::PipeEnds::write_there))]
fn write_at(pipes: &[Pipe], end: NamedEnd, len: u32) -> Ready
    requires { len ≤ LENGTH }
    ensures { answer_as pipes.now result ≡ write_to (caps_of pipes.now) (flow_in pipes.now) (end_as end) len }
{
    match end {
        NamedEnd::Write(p) => match pipes.get(p) {
            Some(pipe) => Ready::bare(pipe.level().write(u64::from(len))),
            None => Ready::Now(-EBADF),
        },
        NamedEnd::Read(_) | NamedEnd::Nothing => Ready::Now(-EBADF),
    }
}

fn close_at(pipes: &[Pipe], end: NamedEnd) -> Ready
    ensures { answer_as pipes.now result ≡ close_of (caps_of pipes.now) (flow_in pipes.now) (end_as end) }
{
    match level_at(pipes, end) {
        Some((level, side)) => Ready::bare(level.close(side)),
        None => Ready::Now(-EBADF),
    }
}

fn poll_at(pipes: &[Pipe], end: NamedEnd, mask: u32) -> Ready
    ensures { answer_as pipes.now result ≡ poll_of (caps_of pipes.now) (flow_in pipes.now) (end_as end) mask }
{
    match level_at(pipes, end) {
        Some((level, side)) => Ready::bare(level.poll(side, mask)),
        None => Ready::Now(-EBADF),
    }
}

/// The level of the pipe of an end, and which end it is.
#[tactic(auto, using(crate::proofs::PipeEnds::pipe_there, crate::proofs::PipeEnds::read_end_there, crate::proofs::PipeEnds::write_end_there))]
fn level_at(pipes: &[Pipe], end: NamedEnd) -> Option<(Level, End)>
    ensures { (reply : Level → End → Option ℤ) → MatchOption result (at_end (caps_of pipes.now) (flow_in pipes.now) reply (end_as end) ≡ bad_end) (λ x. at_end (caps_of pipes.now) (flow_in pipes.now) reply (end_as end) ≡ bare (reply x.0 x.1)) }
{
    match end {
        NamedEnd::Read(p) => Some((pipes.get(p)?.level(), End::Read)),
        NamedEnd::Write(p) => Some((pipes.get(p)?.level(), End::Write)),
        NamedEnd::Nothing => None,
    }
}
