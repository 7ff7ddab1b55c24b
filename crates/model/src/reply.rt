//! The answers that workers give, and what they make of the pipes.
ghost use Rattle.std.specs.Prelude.{◌≡◌, ◌<◌, false, length, Some, None, slice_get, IfOk, OnOk, OnErr};
ghost use Rattle.entry.specs.declared.op.Op.{Op};
ghost use Rattle.history.specs.declared.event.Event.TheVariants.{Reply};
ghost use Rattle.history.specs.{given_at, now};
ghost use Rattle.model.specs.{Decided, MayFollow, bytes_at, end_as, placed_in, handed_in, with_op, answer_in, put_reply, bytes_in, taken_from, put_into, closed_at, moved_over, moved};

use crate::ends::{NamedEnd, named_end};
use crate::pipe::{Pipe, bytes_at};
use crate::ready::{front, size};
use crate::request::RequestStage;
use crate::ring::Ring;
use crate::state::State;
use entry::{Op, by_opcode};
use history::{Bytes, Req};
use std::alloc::{AllocError, Global};

impl Ring {
    /// What was handed in with the request.
    pub fn bytes(&self, k: u64) -> &[u8]
        ensures { result.now ≡ bytes_in (slice_get self.now k) }
    {
        match self.get(k) {
            Some(request) => request.bytes.as_slice(),
            None => &[],
        }
    }

    /// The running request is answered.
    #[tactic(auto, using(crate::proofs::RequestWrites::taken_length))]
    pub fn answer(&mut self, k: usize, res: i32, taken: Bytes)
        requires { k < length self.old }
        ensures { self.new ≡ put_reply self.old k res taken }
    {
        self.set_taken(k, taken);
        self.set_stage(k, RequestStage::Replied(res));
    }
}

impl State {
    /// A worker answers the running request.
    pub fn reply(
        &mut self,
        alloc: Global,
        req: Req,
        res: i32,
        told: &Bytes,
    ) -> Result<bool, AllocError>
        requires { self.old.shut ≡ false }
        ensures decided { IfOk result (λ done. Decided done self.old (Reply req res told.now) self.new) }
        ensures wanting { OnErr result (MayFollow self.old (Reply req res told.now)) }
        ensures same { OnErr result (self.new ≡ self.old) }
    {
        let i = req.ring as usize;
        if i >= self.rings.len() {
            return Ok(false);
        }
        let Some(op) = may_reply(&self.rings[i], &self.pipes, req.k, res, told.as_slice()) else {
            return Ok(false);
        };
        let taken = Bytes::copy(alloc, told.as_slice())?;
        carry(alloc, &mut self.pipes, op, self.rings[i].bytes(req.k), res)?;
        self.rings[i].answer(req.k as usize, res, taken);
        Ok(true)
    }
}

/// The operation of the running request `k`, where this reply may come.
#[tactic(auto, using(crate::proofs::PipeEnds::signed, crate::proofs::ReplyEvents::answered_within))]
pub fn may_reply(ring: &Ring, pipes: &[Pipe], k: u64, res: i32, taken: &[u8]) -> Option<Op>
    ensures no { result ≡ None → ¬ (answer_in pipes.now ring.now k ≡ now res taken.now) }
    ensures yes { (op : Op) → result ≡ Some op → (answer_in pipes.now ring.now k ≡ now res taken.now) × (placed_in ring.now k ≡ with_op (handed_in ring.now k) op) × (k < length ring.now) }
{
    if !ring.now(pipes, k).is(pipes, res, taken) {
        return None;
    }
    Some(ring.op(k as usize))
}

macro_rules! carry_work {
    ((pipe read $fd:ident $len:ident) ($alloc:ident, $pipes:ident, $bytes:ident, $res:ident)) => { take_out($pipes, named_end($fd), size($res)) };
    ((pipe write $fd:ident $len:ident) ($alloc:ident, $pipes:ident, $bytes:ident, $res:ident)) => { put_in($pipes, named_end($fd), front($bytes, size($res)))? };
    ((pipe splice $fd_in:ident $fd_out:ident $len:ident) ($alloc:ident, $pipes:ident, $bytes:ident, $res:ident)) => { move_over($alloc, $pipes, named_end($fd_in), named_end($fd_out), size($res))? };
    ((pipe close $fd:ident) ($alloc:ident, $pipes:ident, $bytes:ident, $res:ident)) => { if $res == 0 { close_end($pipes, named_end($fd)) } };
    ((pipe poll $fd:ident $mask:ident) $args:tt) => { () };
    ((plain $kind:ident) $args:tt) => { () };
    ((timer $kind:ident $ticks:ident) $args:tt) => { () };
    ((cancel $kind:ident $($field:ident)*) $args:tt) => { () };
}

/// The reply to this operation moves bytes, or closes an end.
pub fn carry(
    alloc: Global,
    pipes: &mut Vec<Pipe>,
    op: Op,
    bytes: &[u8],
    res: i32,
) -> Result<(), AllocError>
    ensures ok { OnOk result (pipes.new.items ≡ moved pipes.old.items op bytes.now res) }
    ensures err { OnErr result (pipes.new.items ≡ pipes.old.items) }
{
    by_opcode!(op => carry_work!(alloc, pipes, bytes, res));
    Ok(())
}

fn take_out(pipes: &mut Vec<Pipe>, end: NamedEnd, n: usize)
    ensures { pipes.new.items ≡ taken_from pipes.old.items (end_as end) n }
{
    if let NamedEnd::Read(p) = end {
        if p < pipes.len() {
            pipes[p].drop_front(n);
        }
    }
}

fn put_in(pipes: &mut Vec<Pipe>, end: NamedEnd, bytes: &[u8]) -> Result<(), AllocError>
    ensures ok { OnOk result (pipes.new.items ≡ put_into pipes.old.items (end_as end) bytes.now) }
    ensures err { OnErr result (pipes.new.items ≡ pipes.old.items) }
{
    if let NamedEnd::Write(p) = end {
        if p < pipes.len() {
            pipes[p].put(bytes)?;
        }
    }
    Ok(())
}

/// The bytes that come out at this end.
fn given(pipes: &[Pipe], end: NamedEnd) -> &[u8]
    ensures { result.now ≡ given_at (end_as end) (bytes_at pipes.now) }
{
    match end {
        NamedEnd::Read(p) => bytes_at(pipes, p),
        NamedEnd::Write(_) | NamedEnd::Nothing => &[],
    }
}

/// The first `n` bytes of one pipe go over into another. Both stay as they are where memory is wanting: they are taken out last.
fn move_over(
    alloc: Global,
    pipes: &mut Vec<Pipe>,
    from: NamedEnd,
    to: NamedEnd,
    n: usize,
) -> Result<(), AllocError>
    ensures ok { OnOk result (pipes.new.items ≡ moved_over pipes.old.items (end_as from) (end_as to) n) }
    ensures err { OnErr result (pipes.new.items ≡ pipes.old.items) }
{
    let moved = Bytes::copy(alloc, front(given(pipes, from), n))?;
    put_in(pipes, to, moved.as_slice())?;
    take_out(pipes, from, n);
    Ok(())
}

fn close_end(pipes: &mut Vec<Pipe>, end: NamedEnd)
    ensures { pipes.new.items ≡ closed_at pipes.old.items (end_as end) }
{
    match end {
        NamedEnd::Read(p) => {
            if p < pipes.len() {
                pipes[p].close_read();
            }
        }
        NamedEnd::Write(p) => {
            if p < pipes.len() {
                pipes[p].close_write();
            }
        }
        NamedEnd::Nothing => {}
    }
}
