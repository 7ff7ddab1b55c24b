//! The turns of a poller and of a worker, one after another in one thread, on a board of one ring.
ghost use Rattle.std.specs.Prelude.{◌≡◌, length, IfSome};
ghost use Rattle.bell.specs.BellPasses.{IsRingerOf, IsSleeperOf};
ghost use Rattle.ready.specs.Ready;
ghost use Rattle.work.specs.Board.{IsOf};

use crate::boards::{Batch, add, new_board, shape_of, submit};
use crate::lines::{AGAIN, Call, Handed, Lines, Shown};
use bell::{Bell, Ringer, Sleeper};
use board::{Board, Phase, Poller, Shape, Submitter, Worker};
use controls::{Clock, NoClock, Open};
use history::Req;
use outbox::Outbox;
use prep::{nop, read, timeout, with_flags, write};
use ready::{ReadyPass, ReadyQueue};
use runtime::{PollDesk, Route, WorkDesk, poll_turn, work_turn};
use std::alloc::Global;
use std::marker::Model;
use std::sync::Wait;

/// How many cells the ring has.
const CELLS: u32 = 8;

/// A board of one ring, with its passes.
fn ground_of(alloc: Global, shape: &Shape) -> Option<(Board, Poller, Submitter, Worker)>
    ensures poller { IfSome result (λ t. IsOf t.0 t.1) }
    ensures submitter { IfSome result (λ t. IsOf t.0 t.2) }
    ensures worker { IfSome result (λ t. IsOf t.0 t.3) }
{
    let Ok((board, poller, mut submitters, mut workers)) = new_board(alloc, shape) else {
        return None;
    };
    let Some(submitter) = submitters.pop() else {
        drop((board, poller, submitters, workers));
        return None;
    };
    let Some(worker) = workers.pop() else {
        drop((board, poller, submitter, submitters, workers));
        return None;
    };
    drop((submitters, workers));
    Some((board, poller, submitter, worker))
}

/// A bell for one ring, with its passes.
fn signals_of(alloc: Global) -> Option<(Bell, Ringer, Sleeper)>
    ensures rings { IfSome result (λ t. t.0.rings ≡ 1) }
    ensures ringer { IfSome result (λ t. IsRingerOf t.0 t.1 × (t.1.tail ≡ 0)) }
    ensures sleeper { IfSome result (λ t. IsSleeperOf t.0 t.2) }
{
    let Ok((bell, mut ringers, sleeper)) = Bell::new(alloc, 1) else {
        return None;
    };
    let Some(ringer) = ringers.pop() else {
        drop((bell, ringers, sleeper));
        return None;
    };
    drop(ringers);
    Some((bell, ringer, sleeper))
}

/// A ready queue, with a pass for the poller and one for the worker.
fn lane_of(alloc: Global) -> Option<(ReadyQueue, ReadyPass, ReadyPass)>
    ensures poller { IfSome result (λ t. Ready.IsQueuePass t.0 t.1) }
    ensures worker { IfSome result (λ t. Ready.IsQueuePass t.0 t.2) }
{
    let Ok((queue, mut passes)) = ReadyQueue::new(alloc, CELLS, 2) else {
        return None;
    };
    let Some(one) = passes.pop() else {
        drop((queue, passes));
        return None;
    };
    let Some(other) = passes.pop() else {
        drop((queue, one, passes));
        return None;
    };
    drop(passes);
    Some((queue, one, other))
}

/// What a poller's desk is made of.
type Passes = (Poller, Sleeper, ReadyPass);

/// What a poller's desk is made of, for a board of this shape.
fn passes_of(alloc: Global, shape: &Shape) -> Option<Passes> {
    let (board, poller, submitter, worker) = ground_of(alloc, shape)?;
    drop((board, submitter, worker));
    let Some((bell, ringer, sleeper)) = signals_of(alloc) else {
        drop(poller);
        return None;
    };
    drop((bell, ringer));
    let Some((queue, ready, other)) = lane_of(alloc) else {
        drop((poller, sleeper));
        return None;
    };
    drop((queue, other));
    Some((poller, sleeper, ready))
}

impl Handed<Shape> for Passes {
    fn hand(self, shape: &Shape, alloc: Global, gave: &mut Shown) -> Option<Passes> {
        let (poller, sleeper, ready) = self;
        match PollDesk::new(alloc, shape, poller, sleeper, ready) {
            Ok(desk) => {
                gave.count(" places ", desk.places() as u64);
                None
            }
            Err((memory, poller, sleeper, ready)) => {
                gave.refused(&memory);
                Some((poller, sleeper, ready))
            }
        }
    }

    fn show_parts(&self, shown: &mut Shown) {
        shown.text(" passes");
    }
}

/// A board of this shape.
fn board_of(alloc: Global, shape: &Shape) -> Option<Board> {
    let (board, poller, submitter, worker) = ground_of(alloc, shape)?;
    drop((poller, submitter, worker));
    Some(board)
}

/// A pass of a ready queue.
fn pass_of(alloc: Global) -> Option<ReadyPass> {
    let (queue, other, pass) = lane_of(alloc)?;
    drop((queue, other));
    Some(pass)
}

impl Handed<Board> for ReadyPass {
    fn hand(self, board: &Board, alloc: Global, gave: &mut Shown) -> Option<ReadyPass> {
        match WorkDesk::new(alloc, board, self) {
            Ok(_desk) => {
                gave.text(" a desk");
                None
            }
            Err((memory, ready)) => {
                gave.refused(&memory);
                Some(ready)
            }
        }
    }

    fn show_parts(&self, shown: &mut Shown) {
        shown.text(" a pass");
    }
}

/// A board with its poller's and its worker's desks, and who submits to its ring: the passes, and the tail that was published last. Each
/// turn takes one of the outboxes.
#[derive(Drop)]
struct Stage {
    board: Board,
    bell: Bell,
    queue: ReadyQueue,
    desk: PollDesk,
    work: WorkDesk,
    worker: Option<Worker>,
    submitter: Submitter,
    ringer: Ringer,
    tail: u64,
    outboxes: Vec<Outbox>,
}

impl Model for Stage {
    ghost use Rattle.std.specs.Prelude.{◌≡◌, IfSome};
    ghost use Rattle.bell.specs.BellPasses.{IsRingerOf, IsSleeperOf};
    ghost use Rattle.ready.specs.Ready;
    ghost use Rattle.work.specs.Board.{Facts, IsOf};

    ghost Value = { Facts };

    ghost view = { λ s. s.board };

    ghost invariant = { λ s. IsOf s.board s.desk.poller × IsSleeperOf s.bell s.desk.sleeper × (s.desk.rings ≡ s.bell.rings) × Ready.IsQueuePass s.queue s.desk.ready × Ready.IsQueuePass s.queue s.work.ready × IfSome s.worker (λ w. IsOf s.board w) × IsOf s.board s.submitter × IsRingerOf s.bell s.ringer × (s.ringer.tail ≡ s.tail) };
}

/// Tells what was answered.
fn show_answers(outbox: &Outbox, gave: &mut Shown) {
    for place in 0..outbox.len() {
        if let Some(req) = outbox.get(place) {
            gave.count(" ", req.k);
        }
    }
}

/// More outboxes than there are turns.
fn outboxes_of(alloc: Global) -> Vec<Outbox> {
    let mut outboxes = Vec::new(alloc);
    for _turn in 0..20 {
        if let Ok(outbox) = Outbox::new(alloc, CELLS) {
            let _ = outboxes.push(outbox);
        }
    }
    outboxes
}

impl Stage {
    fn new(alloc: Global, shape: &Shape) -> Option<Stage>
        requires { length shape.now.rings.items ≡ 1 }
    {
        let (board, poller, submitter, worker) = ground_of(alloc, shape)?;
        let Some((bell, ringer, sleeper)) = signals_of(alloc) else {
            drop((board, poller, submitter, worker));
            return None;
        };
        let Some((queue, one, other)) = lane_of(alloc) else {
            drop(((board, poller, submitter, worker), (bell, ringer, sleeper)));
            return None;
        };
        let work = match WorkDesk::new(alloc, &board, other) {
            Ok(work) => work,
            Err(refused) => {
                drop((refused, (board, poller, submitter, worker)));
                drop(((bell, ringer, sleeper), (queue, one)));
                return None;
            }
        };
        match PollDesk::new(alloc, shape, poller, sleeper, one) {
            Ok(desk) => Some(Stage {
                board,
                bell,
                queue,
                desk,
                work,
                worker: Some(worker),
                submitter,
                ringer,
                tail: 0,
                outboxes: outboxes_of(alloc),
            }),
            Err(refused) => {
                drop((refused, (board, submitter, worker)));
                drop((bell, ringer, queue, work));
                None
            }
        }
    }

    /// Submits a batch, and publishes the tail.
    fn submit(&mut self, batch: Batch) {
        let tail = self.tail.saturating_add(batch.len() as u64);
        submit(&self.board, &mut self.submitter, batch);
        let wake = self.bell.publish(&mut self.ringer, tail);
        self.tail = tail;
        self.bell.ring(wake);
    }

    /// One turn of the poller, and what it answered. It is false where the turn was refused memory.
    fn poll<R: Wait, C: Clock>(&mut self, rt: &R, clock: &mut C, gave: &mut Shown) -> bool {
        let Some(mut outbox) = self.outboxes.pop() else {
            return true;
        };
        if outbox.len() > 0 || outbox.room() < self.desk.places() {
            drop(outbox);
            return true;
        }
        let route = Route {
            rt,
            board: &self.board,
            queue: &self.queue,
        };
        let turn = poll_turn(route, &self.bell, &mut self.desk, clock, &mut outbox);
        show_answers(&outbox, gave);
        drop(outbox);
        gave.got(turn).is_some()
    }

    /// One turn of the worker, and what it answered.
    fn work<R: Wait>(&mut self, rt: &R, gave: &mut Shown) {
        let Some(mut outbox) = self.outboxes.pop() else {
            return;
        };
        if outbox.room() < self.board.widest() as usize {
            drop(outbox);
            return;
        }
        let Some(worker) = self.worker.take() else {
            drop(outbox);
            return;
        };
        let route = Route {
            rt,
            board: &self.board,
            queue: &self.queue,
        };
        let (worker, _turn) = work_turn(route, &mut self.work, worker, &Open, &mut outbox);
        self.worker = Some(worker);
        show_answers(&outbox, gave);
        drop(outbox);
    }
}

impl<R: Wait> Call<R> for Stage {
    fn make(&mut self, rt: &R, _alloc: Global, gave: &mut Shown) -> bool {
        self.poll(rt, &mut NoClock, gave)
    }
}

/// How a turn went that was refused memory, and was made again.
const FURTHER: &str = ", what was done stands; again";

/// IOSQE_IO_LINK.
const LINK: u8 = 4;

/// A clock that advances to this tick, once.
#[derive(Drop)]
struct Once {
    to: Option<u32>,
}

impl Clock for Once {
    ghost use Rattle.std.specs.Prelude.{None};

    ghost asked = { λ _. None };

    ghost stays = { λ _ _ _ _ _ _ _. tt };

    fn ask(&self) -> Option<Req> {
        None
    }

    fn advance(&mut self, _now: u32, _phase: Option<Phase>) -> Option<u32> {
        self.to.take()
    }
}

/// Two READs of an empty pipe, each with a NOP that is linked to it, and between them a TIMEOUT that is linked to a NOP. So the poller
/// has three requests that wait for another.
fn waiting(alloc: Global) -> Batch {
    let mut batch = Vec::new(alloc);
    add(alloc, &mut batch, with_flags(read(0, 2, 0), LINK), 2);
    add(alloc, &mut batch, nop(), 0);
    add(alloc, &mut batch, with_flags(nop(), LINK), 0);
    add(alloc, &mut batch, timeout(5, 0), 0);
    add(alloc, &mut batch, with_flags(read(0, 2, 0), LINK), 2);
    add(alloc, &mut batch, nop(), 0);
    batch
}

/// A turn of the poller, and this many of the worker.
fn turn<R: Wait>(rt: &R, stage: &mut Stage, count: u32, gave: &mut Shown) {
    stage.poll(rt, &mut NoClock, gave);
    for _turn in 0..count {
        stage.work(rt, gave);
    }
}

/// The poller meets a timer among the requests that wait for another, and continues with these in their order, when a WRITE serves both
/// READs: what the turns answer.
fn turns<R: Wait>(rt: &R, lines: &mut Lines, mut stage: Stage) -> Stage {
    stage.submit(waiting(lines.alloc));
    turn(rt, &mut stage, 3, &mut lines.gave);
    let went = lines.make(rt, &mut stage);
    let mut serving = Vec::new(lines.alloc);
    add(lines.alloc, &mut serving, write(1, 4, 0), 4);
    stage.submit(serving);
    turn(rt, &mut stage, 6, &mut lines.gave);
    turn(rt, &mut stage, 3, &mut lines.gave);
    stage.poll(rt, &mut Once { to: Some(5) }, &mut lines.gave);
    lines.add("poll_turn", if went == AGAIN { FURTHER } else { went });
    stage
}

/// The desks, and turns.
pub(crate) fn try_turns<R: Wait>(rt: &R, lines: &mut Lines) {
    if let Some(shape) = shape_of(lines.alloc, 1, CELLS, 1) {
        let mut passes = passes_of(lines.alloc, &shape);
        lines.try_call(&shape, "PollDesk::new", &mut passes);
        drop(passes);
        let mut pass = pass_of(lines.alloc);
        if let Some(board) = board_of(lines.alloc, &shape) {
            lines.try_call(&board, "WorkDesk::new", &mut pass);
            drop(board);
        }
        drop(pass);
        if let Some(stage) = Stage::new(lines.alloc, &shape) {
            drop(turns(rt, lines, stage));
        }
        drop(shape);
    }
}
