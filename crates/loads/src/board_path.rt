//! One NOP after another through a board, by one thread: all five calls.
ghost use Rattle.std.specs.Prelude.{◌≡◌, All, IfOk, IfSome};
ghost use Rattle.work.specs.Board.{IsOf};

use crate::machine::{Machine, nanos_since};
use anyhow::{Result, anyhow, bail};
use board::{Board, Poller, RingShape, Shape, SubmitError, Submitter, Worker};
use history::Req;
use prep::{nop, with_user_data};
use std::alloc::Global;
use std::marker::Model;
use std::time::{Clock, Instant};

/// How many requests a cell serves, one after another.
const GENERATIONS: u64 = 16_777_215;

/// A board of one ring and one worker, with all its passes.
#[derive(Drop)]
pub(crate) struct BoardPath {
    alloc: Global,
    board: Board,
    poller: Poller,
    submitter: Submitter,
    worker: Option<Worker>,
}

impl Model for BoardPath {
    ghost use Rattle.std.specs.Prelude.{◌≡◌, IfSome};
    ghost use Rattle.work.specs.Board.{Facts, IsOf};

    ghost Value = { Facts };

    ghost view = { λ p. p.board };

    ghost invariant = { λ p. IsOf p.board p.poller × IsOf p.board p.submitter × IfSome p.worker (λ w. IsOf p.board w) };
}

/// A new board of one ring with this many cells and one worker, and its passes.
fn board_of(alloc: Global, cells: u32) -> Result<(Board, Poller, Vec<Submitter>, Vec<Worker>)>
    ensures poller { IfOk result (λ t. IsOf t.0 t.1) }
    ensures submitters { IfOk result (λ t. All (λ p. IsOf t.0 p) t.2.items) }
    ensures workers { IfOk result (λ t. All (λ p. IsOf t.0 p) t.3.items) }
{
    let ring = RingShape { cells, posts: None };
    let shape = Shape {
        rings: Vec::from_elem(alloc, ring, 1)?,
        pipes: Vec::new(alloc),
        workers: 1,
    };
    match Board::new(alloc, &shape) {
        Ok(made) => Ok(made),
        Err(_) => Err(anyhow!("a board can't be made")),
    }
}

/// Submits the NOP of this number.
fn submit_nop(
    alloc: Global,
    board: &Board,
    submitter: &mut Submitter,
    number: u64,
) -> Result<Req, SubmitError>
    requires { IsOf board.now submitter.old }
    ensures { IsOf board.now submitter.new }
{
    let _ring = submitter.ring();
    match board.submit(submitter, with_user_data(nop(), number), Vec::new(alloc)) {
        Ok(req) => Ok(req),
        Err((error, _buffer)) => Err(error),
    }
}

/// The worker begins the request and runs it, if it is Ready.
fn work(board: &Board, worker: Worker, req: Req) -> Worker
    requires { IsOf board.now worker }
    ensures { IsOf board.now result }
{
    match board.begin(worker, req) {
        Ok(busy) => {
            let (worker, _ran) = busy.run();
            worker
        }
        Err(worker) => worker,
    }
}

impl BoardPath {
    /// A new board whose ring has this many cells.
    pub fn new(alloc: Global, cells: u32) -> Result<BoardPath> {
        let (board, poller, mut submitters, mut workers) = board_of(alloc, cells)?;
        let Some(submitter) = submitters.pop() else {
            bail!("a board has no submitter");
        };
        let worker = workers.pop();
        Ok(BoardPath {
            alloc,
            board,
            poller,
            submitter,
            worker,
        })
    }

    /// Releases the request, begins and runs it.
    fn run(&mut self, req: Req) {
        self.board.release(&mut self.poller, req);
        if let Some(worker) = self.worker.take() {
            self.worker = Some(work(&self.board, worker, req));
        }
    }

    /// Submits a NOP, has it run, and reaps its completion. Whether that is right.
    fn serve(&mut self, number: u64) -> Result<bool, SubmitError> {
        let req = submit_nop(self.alloc, &self.board, &mut self.submitter, number)?;
        self.run(req);
        match self.board.reap(&mut self.submitter, req) {
            Ok(completion) => Ok(completion.cqe.user_data == number && completion.cqe.res == 0),
            Err(_) => Ok(false),
        }
    }

    /// This many NOPs. How many nanoseconds that took.
    pub fn round<R: Clock>(&mut self, rt: &R, units: u64) -> Result<u64> {
        let start = Instant::now(rt)?;
        for number in 0..units {
            if !self.serve(number)? {
                bail!("NOP {number} has no completion, or a wrong one");
            }
        }
        nanos_since(rt, start)
    }

    /// As many NOPs as one cell serves, and one more, which must be refused as `Spent`. How many nanoseconds those took.
    fn spend<R: Clock>(&mut self, rt: &R) -> Result<u64> {
        let nanos = self.round(rt, GENERATIONS)?;
        match submit_nop(self.alloc, &self.board, &mut self.submitter, 0) {
            Err(SubmitError::Spent) => Ok(nanos),
            _ => bail!("a cell that served all its requests takes one more"),
        }
    }
}

/// Spends the cell of a board.
pub(crate) fn run_spent<R: Machine>(rt: &R) -> Result<()> {
    let mut path = BoardPath::new(rt.alloc(), 1)?;
    let spent = path.spend(rt);
    drop(path);
    let millis = spent? / 1_000_000;
    println!(rt;
        "{GENERATIONS} NOPs in one cell in {millis} ms; the next one is refused as Spent"
    )?;
    Ok(())
}
