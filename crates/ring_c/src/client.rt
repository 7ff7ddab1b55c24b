//! What the handle of a client leads to.
ghost use Rattle.std.specs.Prelude.{◌≡◌, [], length};
ghost use Rattle.std.specs.Arc.{arc_value};
ghost use Rattle.work.specs.Board.{IsOf};
ghost use Rattle.board.specs.Calls.{Goes, Finds};
ghost use Rattle.ring_c.specs.ClientCalls.{ReapsAt, Shows, Submits};

use crate::batch::{batch_of, copy_bytes, copy_of, entry_at, length_of};
use crate::code::Code;
use board::{Board, Phase, Submitter};
use entry::Cqe;
use history::Req;
use std::alloc::Global;
use std::marker::Model;
use std::sync::Arc;

/// The submitter of one ring, with its board, and the buffer of the completion that it reaped last.
#[derive(Drop)]
pub struct Client {
    pub(crate) board: Arc<Board>,
    pub(crate) submitter: Submitter,
    pub(crate) bytes: Vec<u8>,
}

impl Model for Client {
    ghost use Rattle.std.specs.Arc.{arc_value};
    ghost use Rattle.work.specs.Board.{IsOf};
    ghost use Rattle.ring_c.specs.Sides.{ClientFacts};

    ghost Value = { ClientFacts };

    ghost view = { λ c. record { board = arc_value c.board; pass = c.submitter; bytes = c.bytes.items } };

    ghost invariant = { λ c. IsOf (arc_value c.board) c.submitter };
}

/// Submits these entries as a batch, with their buffers one after another.
fn submit_batch(
    board: &Board,
    submitter: &mut Submitter,
    alloc: Global,
    entries: &[u8],
    bytes: &[u8],
) -> Result<u64, Code>
    requires { IsOf board.now submitter.old }
    ensures kept { IsOf board.now submitter.new }
    ensures submits { Submits entries.now bytes.now board.now submitter.old submitter.new result }
{
    let batch = match batch_of(alloc, entries, bytes) {
        Ok(batch) => batch,
        Err(code) => return Err(code),
    };
    let _ring = submitter.ring();
    match board.submit_batch(submitter, batch) {
        Ok(req) => Ok(req.k),
        Err((error, _batch)) => Err(Code::of_submit(error)),
    }
}

/// Submits one entry, with its buffer, which is all of the other bytes.
fn submit_one(
    board: &Board,
    submitter: &mut Submitter,
    alloc: Global,
    entries: &[u8],
    bytes: &[u8],
) -> Result<u64, Code>
    requires own { IsOf board.now submitter.old }
    requires one { length entries.now ≡ 64 }
    ensures kept { IsOf board.now submitter.new }
    ensures submits { Submits entries.now bytes.now board.now submitter.old submitter.new result }
{
    let sqe = entry_at(entries, 0);
    let length = length_of(&sqe);
    if bytes.len() != length {
        return Err(Code::BufferLength);
    }
    let buffer = match copy_of(alloc, bytes, 0, length) {
        Ok(buffer) => buffer,
        Err(code) => return Err(code),
    };
    let _ring = submitter.ring();
    match board.submit(submitter, sqe, buffer) {
        Ok(req) => Ok(req.k),
        Err((error, _buffer)) => Err(Code::of_submit(error)),
    }
}

/// Takes the request's completion. Its buffer takes the place of another. How long that is.
fn reap(
    board: &Board,
    submitter: &mut Submitter,
    bytes: &mut Vec<u8>,
    req: Req,
) -> Result<(Cqe, u64), Code>
    requires { IsOf board.now submitter.old }
    ensures kept { IsOf board.now submitter.new }
    ensures reaps { ReapsAt board.now req submitter.old submitter.new bytes.old.items bytes.new.items result }
{
    match board.reap(submitter, req) {
        Ok(completion) => {
            *bytes = completion.buffer;
            Ok((completion.cqe, bytes.len() as u64))
        }
        Err(error) => Err(Code::of_reap(error)),
    }
}

impl Client {
    /// Where a request stands.
    pub(crate) fn look(&mut self, req: Req) -> Phase
        ensures same { (self.new.board ≡ self.old.board) × (self.new.bytes ≡ self.old.bytes) }
        ensures looks { Goes self.old.board self.old.pass [] self.new.pass }
        ensures finds { Finds self.old.board req result self.old.pass self.new.pass }
    {
        self.board.look(&mut self.submitter, req)
    }

    /// Submits these entries as a batch, with their buffers one after another.
    pub(crate) fn submit(
        &mut self,
        alloc: Global,
        entries: &[u8],
        bytes: &[u8],
    ) -> Result<u64, Code>
        ensures same { self.new ≡ record self.old { pass = self.new.pass } }
        ensures submits { Submits entries.now bytes.now self.old.board self.old.pass self.new.pass result }
    {
        if entries.len() == 64 {
            return submit_one(&self.board, &mut self.submitter, alloc, entries, bytes);
        }
        submit_batch(&self.board, &mut self.submitter, alloc, entries, bytes)
    }

    /// Takes the request's completion, and keeps its buffer. How long that is.
    pub(crate) fn reap(&mut self, req: Req) -> Result<(Cqe, u64), Code>
        ensures board { self.new.board ≡ self.old.board }
        ensures reaps { ReapsAt self.old.board req self.old.pass self.new.pass self.old.bytes self.new.bytes result }
    {
        reap(&self.board, &mut self.submitter, &mut self.bytes, req)
    }

    /// Copies the buffer of the completion that it reaped last.
    pub(crate) fn copy_bytes(&self, out: &mut [u8]) -> Result<u64, Code>
        ensures shows { Shows self.now.bytes out.old out.new result }
    {
        copy_bytes(self.bytes.as_slice(), out)
    }
}
