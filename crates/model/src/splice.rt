//! What a SPLICE comes to: from one pipe, and from another.
ghost use Rattle.std.specs.Prelude.{◌≡◌, ◌≤◌, Some, slice_get};
ghost use Rattle.limits.specs.declared.TheConstants.{LENGTH};
ghost use Rattle.history.specs.{read_end, splice_of};
ghost use Rattle.model.specs.{caps_of, flow_in, end_as, answer_as};

use crate::ends::NamedEnd;
use crate::errno::INVALID;
use crate::pipe::Pipe;
use crate::ready::Ready;
use level::errno::EBADF;

pub fn splice_at(pipes: &[Pipe], from: NamedEnd, to: NamedEnd, len: u32) -> Ready
    requires { len ≤ LENGTH }
    ensures { answer_as pipes.now result ≡ splice_of (caps_of pipes.now) (flow_in pipes.now) (end_as from) (end_as to) len }
{
    match from {
        NamedEnd::Read(p) => match pipes.get(p) {
            Some(source) => splice_from(pipes, p, source, to, len),
            None => Ready::Now(-EBADF),
        },
        NamedEnd::Write(_) | NamedEnd::Nothing => Ready::Now(-EBADF),
    }
}

/// The same, out of the pipe `p`.
#[tactic(auto, using(crate::proofs::PipeEnds::pipe_there, crate::proofs::PipeEnds::splice_there))]
fn splice_from(pipes: &[Pipe], p: usize, source: &Pipe, to: NamedEnd, len: u32) -> Ready
    requires fits { len ≤ LENGTH }
    requires source { slice_get pipes.now p ≡ Some source.now }
    ensures { answer_as pipes.now result ≡ splice_of (caps_of pipes.now) (flow_in pipes.now) (read_end p) (end_as to) len }
{
    let NamedEnd::Write(q) = to else {
        return Ready::Now(-EBADF);
    };
    let Some(target) = pipes.get(q) else {
        return Ready::Now(-EBADF);
    };
    if source.read_closed || target.write_closed {
        return Ready::Now(-EBADF);
    }
    if p == q {
        return Ready::Now(INVALID);
    }
    Ready::bare(source.level().splice(target.level(), u64::from(len)))
}
