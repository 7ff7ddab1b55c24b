//! A board with its poller's and one worker's desks, for turns in one thread.
ghost use Rattle.std.specs.Prelude.{◌≡◌, ◌<◌, None, Some, IfSome};
ghost use Rattle.bell.specs.BellPasses.{IsRingerOf, IsSleeperOf};
ghost use Rattle.ready.specs.Ready;
ghost use Rattle.work.specs.Board.{IsOf};

use crate::batches::{Entry, batch_of};
use crate::passes::{
    Caller, bell_of, board_of, callers_of, last_pass, queue_of, reap_by, shape_of, submit_by,
    worker_of,
};
use bell::Bell;
use board::{Board, Phase, Worker};
use compring::CompletionRing;
use controls::{Clock, NoClock, Open};
use history::Req;
use outbox::{Outbox, deliver};
use ready::ReadyQueue;
use runtime::{PollDesk, Route, Turn, WorkDesk, poll_turn, work_turn};
use std::alloc::Global;
use std::marker::Model;
use std::sync::Wait;
use std::test::Fail;

/// A clock that advances to this tick, once.
#[derive(Drop)]
struct Once {
    to: Option<u32>,
}

impl Clock for Once {
    ghost asked = { λ _. None };

    ghost stays = { λ _ _ _ _ _ _ _. tt };

    fn ask(&self) -> Option<Req> {
        None
    }

    fn advance(&mut self, _now: u32, _phase: Option<Phase>) -> Option<u32> {
        self.to.take()
    }
}

/// A clock that asks for a request, and advances to the deadline where that is armed.
#[derive(Clone, Copy)]
struct WhenArmed {
    req: Req,
}

impl Clock for WhenArmed {
    ghost asked = { λ c. Some c.req };

    ghost stays = { λ _ _ _ _ _ _ _. tt };

    fn ask(&self) -> Option<Req> {
        Some(self.req)
    }

    fn advance(&mut self, _now: u32, phase: Option<Phase>) -> Option<u32> {
        match phase {
            Some(Phase::Armed(deadline)) => Some(deadline),
            _ => None,
        }
    }
}

/// What a turn came to, and the requests that it answered.
fn told(alloc: Global, turn: Turn, answered: &[Req]) -> Result<String, Fail> {
    let mut text = String::new(alloc);
    text.push_str(match turn {
        Turn::Moved => "moved",
        Turn::Still => "still",
        Turn::Idle => "idle",
    })?;
    for req in answered {
        write!(text, "+{}.{}", req.ring, req.k)?;
    }
    Ok(text)
}

/// The name of a request.
fn named(alloc: Global, req: Req) -> Result<String, Fail> {
    Ok(format!(in alloc; "{}.{}", req.ring, req.k)?)
}

/// Where a request stands.
fn shown(alloc: Global, phase: Phase) -> Result<String, Fail> {
    Ok(match phase {
        Phase::Unborn => format!(in alloc; "unborn")?,
        Phase::Held => format!(in alloc; "held")?,
        Phase::Ready => format!(in alloc; "ready")?,
        Phase::Running => format!(in alloc; "running")?,
        Phase::Armed(deadline) => format!(in alloc; "armed{deadline}")?,
        Phase::Done(res) => format!(in alloc; "done{res}")?,
        Phase::Gone => format!(in alloc; "gone")?,
    })
}

/// The letter of a word, and its number, 0 where there is none.
fn letter_of(word: &str) -> (u8, u32) {
    let mut letter = 0;
    let mut number = 0u32;
    for byte in word.as_bytes() {
        if byte.is_ascii_digit() {
            number = number
                .saturating_mul(10)
                .saturating_add(u32::from(byte.saturating_sub(48)));
        } else {
            letter = *byte;
        }
    }
    (letter, number)
}

/// The requests of the outbox, in order, as they are posted.
fn posts_of(alloc: Global, mut outbox: Outbox) -> Result<Vec<Req>, Fail> {
    let mut requests = Vec::new(alloc);
    for _n in 0..8 {
        let Some(first) = outbox.first() else {
            break;
        };
        let mut ring = CompletionRing::for_ring(alloc, 1, first.ring)?;
        deliver(&mut outbox, &mut ring)?;
        if let Some((_number, req)) = ring.take() {
            requests.push(req)?;
        }
    }
    Ok(requests)
}

/// A board of one ring or two, with all that its poller and one worker need for their turns.
#[derive(Drop)]
struct Stage {
    alloc: Global,
    board: Board,
    bell: Bell,
    queue: ReadyQueue,
    desk: PollDesk,
    work: WorkDesk,
    worker: Option<Worker>,
    zero: Caller,
    one: Option<Caller>,
}

impl Model for Stage {
    ghost use Rattle.std.specs.Prelude.{◌≡◌, IfSome};
    ghost use Rattle.bell.specs.BellPasses.{IsRingerOf, IsSleeperOf};
    ghost use Rattle.ready.specs.Ready;
    ghost use Rattle.work.specs.Board.{Facts, IsOf};

    ghost Value = { Facts };

    ghost view = { λ s. s.board };

    ghost invariant = { λ s. IsOf s.board s.desk.poller × IsSleeperOf s.bell s.desk.sleeper × (s.desk.rings ≡ s.bell.rings) × Ready.IsQueuePass s.queue s.desk.ready × Ready.IsQueuePass s.queue s.work.ready × IfSome s.worker (λ w. IsOf s.board w) × IsOf s.board s.zero.submitter × IsRingerOf s.bell s.zero.ringer × (s.zero.ringer.tail ≡ s.zero.tail) × IfSome s.one (λ c. IsOf s.board c.submitter × IsRingerOf s.bell c.ringer × (c.ringer.tail ≡ c.tail)) };
}

impl Stage {
    /// A new board with a ring of this many cells for each of `cells`, of which there are one or two, and a ready queue of this many
    /// places.
    fn new(alloc: Global, cells: &[u32], places: u32) -> Result<Stage, Fail>
        requires { 0 < places }
    {
        let shape = shape_of(alloc, cells)?;
        let rings = u16::try_from(shape.rings.len())?;
        let (board, poller, submitters, workers) = board_of(alloc, &shape)?;
        let (bell, ringers, sleeper) = bell_of(alloc, rings)?;
        let (queue, mut passes) = queue_of(alloc, places)?;
        let (Some(other), Some(pass)) = (
            last_pass(&queue, &mut passes),
            last_pass(&queue, &mut passes),
        ) else {
            return Err(Fail::new("the passes of the queue"));
        };
        let Ok(desk) = PollDesk::new(alloc, &shape, poller, sleeper, pass) else {
            return Err(Fail::new("a desk"));
        };
        let Some((zero, one)) = callers_of(&board, &bell, submitters, ringers) else {
            return Err(Fail::new("the passes of a ring"));
        };
        let Ok(work) = WorkDesk::new(alloc, &board, other) else {
            return Err(Fail::new("a worker's desk"));
        };
        let worker = worker_of(&board, workers);
        Ok(Stage {
            alloc,
            board,
            bell,
            queue,
            desk,
            work,
            worker,
            zero,
            one,
        })
    }

    /// Submits the entries in one batch to ring 0, and publishes its tail.
    fn submit(&mut self, entries: &[Entry]) -> Result<Req, Fail> {
        let batch = batch_of(self.alloc, entries)?;
        submit_by(&self.board, &self.bell, &mut self.zero, batch)
    }

    /// Submits the entries in one batch to ring 1, and publishes its tail.
    fn submit_to_one(&mut self, entries: &[Entry]) -> Result<Req, Fail> {
        let batch = batch_of(self.alloc, entries)?;
        let Some(caller) = &mut self.one else {
            return Err(Fail::new("there is no ring 1"));
        };
        submit_by(&self.board, &self.bell, caller, batch)
    }

    /// Takes the completion of a request of ring 0: its result, and its buffer.
    fn reap(&mut self, k: u64) -> Result<(i32, Vec<u8>), Fail> {
        reap_by(&self.board, &mut self.zero, Req { ring: 0, k })
    }

    /// Where a request of ring 0 stands.
    fn look(&mut self, k: u64) -> Phase {
        self.board
            .look(&mut self.zero.submitter, Req { ring: 0, k })
    }

    /// One turn of the poller, and the requests that it answered.
    fn poll<R: Wait, C: Clock>(&mut self, rt: &R, clock: &mut C) -> Result<(Turn, Vec<Req>), Fail> {
        let places = u32::try_from(self.desk.places())?;
        let mut outbox = Outbox::new(self.alloc, places)?;
        let route = Route {
            rt,
            board: &self.board,
            queue: &self.queue,
        };
        let turn = poll_turn(route, &self.bell, &mut self.desk, clock, &mut outbox)?;
        Ok((turn, posts_of(self.alloc, outbox)?))
    }

    /// One turn of the worker, and the requests that it answered.
    fn work<R: Wait>(&mut self, rt: &R) -> Result<(Turn, Vec<Req>), Fail> {
        let mut outbox = Outbox::new(self.alloc, self.board.widest())?;
        let Some(worker) = self.worker.take() else {
            return Err(Fail::new("there is no worker"));
        };
        let route = Route {
            rt,
            board: &self.board,
            queue: &self.queue,
        };
        let (worker, turn) = work_turn(route, &mut self.work, worker, &Open, &mut outbox);
        self.worker = Some(worker);
        Ok((turn, posts_of(self.alloc, outbox)?))
    }

    /// A poll turn, as text.
    fn polled<R: Wait, C: Clock>(&mut self, rt: &R, clock: &mut C) -> Result<String, Fail> {
        let (turn, answered) = self.poll(rt, clock)?;
        told(self.alloc, turn, answered.as_slice())
    }

    /// A work turn, as text.
    fn worked<R: Wait>(&mut self, rt: &R) -> Result<String, Fail> {
        let (turn, answered) = self.work(rt)?;
        told(self.alloc, turn, answered.as_slice())
    }

    /// The completion of a request of ring 0 is taken: its result, and the bytes of its buffer.
    fn reaped(&mut self, k: u64) -> Result<String, Fail> {
        let (res, buffer) = self.reap(k)?;
        let mut text = format!(in self.alloc; "{res}")?;
        for byte in buffer.as_slice() {
            write!(text, ":{byte}")?;
        }
        Ok(text)
    }

    /// This many poll turns at a clock that doesn't advance: what each came to, where it was the same.
    fn polled_often<R: Wait>(&mut self, rt: &R, count: u32) -> Result<String, Fail> {
        let text = self.polled(rt, &mut NoClock)?;
        for _n in 1..count {
            let again = self.polled(rt, &mut NoClock)?;
            if again.as_str() != text.as_str() {
                return Ok(again);
            }
        }
        Ok(text)
    }

    /// What one word does with the poller or the worker.
    fn turned<R: Wait>(&mut self, rt: &R, letter: u8, number: u32) -> Result<String, Fail> {
        match letter {
            b'p' => self.polled_often(rt, number),
            b't' => self.polled(rt, &mut Once { to: Some(number) }),
            b'a' => {
                let req = Req {
                    ring: 0,
                    k: u64::from(number),
                };
                self.polled(rt, &mut WhenArmed { req })
            }
            _ => self.worked(rt),
        }
    }

    /// What one word does.
    fn go<R: Wait>(
        &mut self,
        rt: &R,
        batches: (&[Entry], &[Entry]),
        word: &str,
    ) -> Result<String, Fail> {
        let (letter, number) = letter_of(word);
        match letter {
            b'f' => Ok(named(self.alloc, self.submit(batches.0)?)?),
            b's' => Ok(named(self.alloc, self.submit(batches.1)?)?),
            b'o' => Ok(named(self.alloc, self.submit_to_one(batches.1)?)?),
            b'l' => {
                let phase = self.look(u64::from(number));
                shown(self.alloc, phase)
            }
            b'r' => self.reaped(u64::from(number)),
            _ => self.turned(rt, letter, number),
        }
    }

    /// Carries the words out in order, and tells what each came to.
    fn traced<R: Wait>(
        &mut self,
        rt: &R,
        batches: (&[Entry], &[Entry]),
        words: &str,
    ) -> Result<String, Fail> {
        let mut trace = String::new(self.alloc);
        for word in words.split(' ') {
            let text = self.go(rt, batches, word)?;
            trace.push_str(text.as_str())?;
            trace.push_str(" ")?;
        }
        Ok(trace)
    }

    /// The poller sets the clock on to this tick, by its pass alone, as the turns left it. Whether the clock let it.
    fn tick_at_the_end(self, to: u32) -> bool {
        let Stage { board, desk, .. } = self;
        let (mut poller, _sleeper, _ready) = desk.parts();
        board.tick(&mut poller, to).is_ok()
    }
}

/// Carries the words out on a new board, in order, and tells what each came to. The board has a ring of this many cells for each of
/// `cells`, of which there are one or two, and a ready queue of this many places.
///
/// `f` submits the first batch to ring 0, `s` the second one, and `o` the second one to ring 1. `p3` is three poll turns at a clock
/// that doesn't advance, `t5` one at a clock that advances to tick 5, `a1` one at a clock that asks for request 1 of ring 0 and advances
/// to its deadline where that is armed, `w` a work turn. `l1` looks where request 1 of ring 0 stands, and `r1` takes its completion.
/// At the end the poller sets the clock on to the tick `last`, by its pass as the turns left it.
pub(crate) fn play<R: Wait + AllocGlobal>(
    rt: &R,
    cells: &[u32],
    places: u32,
    batches: (&[Entry], &[Entry]),
    words: &str,
    last: u32,
) -> Result<String, Fail>
    requires { 0 < places }
{
    let mut stage = Stage::new(rt.alloc(), cells, places)?;
    let traced = stage.traced(rt, batches, words);
    let is_on = stage.tick_at_the_end(last);
    let mut trace = traced?;
    trace.push_str(if is_on { "on" } else { "past" })?;
    Ok(trace)
}
