//! What the handle of a worker leads to.
ghost use Rattle.std.specs.Prelude.{◌≡◌, []};
ghost use Rattle.std.specs.Arc.{arc_value};
ghost use Rattle.work.specs.Board.{IsOf};
ghost use Rattle.board.specs.Calls.{Goes, Finds};
ghost use Rattle.ring_c.specs.{RunsAt, IsIn, pass_in};

use crate::code::Code;
use board::{Board, Parked, Phase, Ran, Worker};
use entry::Cqe;
use history::Req;
use std::marker::Model;
use std::mem::replace;
use std::sync::Arc;

/// A worker, with its board. Its place is empty only while it runs a request.
#[derive(Drop)]
pub struct Hand {
    pub(crate) board: Arc<Board>,
    pub(crate) worker: Option<Worker>,
}

impl Model for Hand {
    ghost use Rattle.std.specs.Arc.{arc_value};
    ghost use Rattle.ring_c.specs.Sides.{HandFacts, IsIn, pass_in};

    ghost Value = { HandFacts };

    ghost view = { λ h. record { board = arc_value h.board; pass = pass_in (arc_value h.board) h.worker } };

    ghost invariant = { λ h. IsIn (arc_value h.board) h.worker };
}

/// Begins the request and runs it. How many requests that ended besides.
fn work(board: &Board, worker: Worker, req: Req) -> (Worker, Result<(Cqe, u64), Code>)
    requires { IsOf board.now worker }
    ensures kept { IsOf board.now result.0 }
    ensures works { RunsAt board.now req worker result.0 result.1 }
{
    let busy = match board.begin(worker, req) {
        Ok(busy) => busy,
        Err(worker) => return (worker, Err(Code::NotReady)),
    };
    let (worker, ran) = busy.run();
    match ran {
        Ran::Replied { cqe } => {
            let took = worker.took().len() as u64;
            (worker, Ok((cqe, took)))
        }
        Ran::Parked(Parked::NotReady) => (worker, Err(Code::Parked)),
        Ran::Parked(Parked::PipeBusy) => (worker, Err(Code::PipeBusy)),
    }
}

impl Hand {
    /// Its worker. It gives up its board.
    pub(crate) fn into_worker(self) -> Worker
        ensures pass { result ≡ self.pass }
        ensures own { IsOf self.board result }
    {
        let Hand { worker, .. } = self;
        match worker {
            Some(worker) => worker,
            None => unreachable!(),
        }
    }

    /// Where a request stands.
    pub(crate) fn look(&mut self, req: Req) -> Phase
        ensures same { self.new.board ≡ self.old.board }
        ensures looks { Goes self.old.board self.old.pass [] self.new.pass }
        ensures finds { Finds self.old.board req result self.old.pass self.new.pass }
    {
        match &mut self.worker {
            Some(worker) => self.board.look(worker, req),
            None => unreachable!(),
        }
    }

    /// Begins the request and runs it, by the worker, which leaves its place meanwhile. How many requests that ended besides.
    pub(crate) fn run(&mut self, req: Req) -> Result<(Cqe, u64), Code>
        ensures board { self.new.board ≡ self.old.board }
        ensures works { RunsAt self.old.board req self.old.pass self.new.pass result }
    {
        let Some(worker) = self.worker.take() else {
            unreachable!()
        };
        let (worker, answer) = work(&self.board, worker, req);
        let None = replace(&mut self.worker, Some(worker)) else {
            unreachable!()
        };
        answer
    }

    /// The requests that its last run ended.
    pub(crate) fn took(&self) -> &[Req]
        ensures { result.now ≡ self.now.pass.took }
    {
        match &self.worker {
            Some(worker) => worker.took(),
            None => unreachable!(),
        }
    }
}
