//! A worker's desk, and its turns.
ghost use Rattle.std.specs.Prelude.{◌≡◌, ◌<◌, ◌≤◌, ◌+◌, ◌*◌, [], ◌∷◌, ◌++◌, List, None, true, cond, length, IfOk, IfErr, MatchOption};
ghost use Rattle.board.specs.ShapeLimits.{widest};
ghost use Rattle.history.specs.declared.req.Req.{Req};
ghost use Rattle.ready.specs.Ready.{IsQueuePass};
ghost use Rattle.steps.specs.Cells.{total};
ghost use Rattle.work.specs.Board.{IsOf};
ghost use Rattle.runtime.specs.WorkTurns.{Desk, FoundNone, IsWorkTurn, PutsBack, Shifts, Tried, ended_in, most_kept, past_in};

use crate::error::Memory;
use crate::shared::{Counters, Shared};
use crate::sleeping::Caller;
use crate::turn::{Route, Turn};
use board::{Board, Parked, Phase, Ran, Worker};
use controls::{Point, Turnstile};
use history::Req;
use outbox::{Outbox, RequestQueue};
use ready::{ReadyPass, ReadyQueue};
use std::alloc::Global;
use std::marker::Model;
use std::sync::{Arc, Wait};

/// What a worker's turns need: its pass of the ready queue, and the numbers that are still to go there, with room for all that a run
/// may take along from its pipes. Contracts see these. And the workers beside this one; and how many numbers came from the pipes, and
/// with how many it is done, that were not told yet.
#[derive(Drop)]
pub struct WorkDesk {
    ready: ReadyPass,
    kept: RequestQueue,
    others: Option<Others>,
    woken: u64,
    done: u64,
}

/// Who wakes another worker for each number that goes into the ready queue, and what all workers share. Others may be done with a number
/// before this worker posts what woke it, so it is counted before it goes there.
#[derive(Drop)]
pub(crate) struct Others {
    pub caller: Caller,
    pub shared: Arc<Shared>,
}

impl Model for WorkDesk {
    ghost use Rattle.runtime.specs.WorkTurns.{Desk};

    ghost Value = { Desk };

    ghost view = { λ d. record { ready = d.ready; kept = d.kept.items; places = d.kept.places } };
}

/// Wakes a worker, if one may sleep.
fn call_by(others: &mut Option<Others>) {
    if let Some(others) = others {
        others.caller.call();
    }
}

impl WorkDesk {
    /// The desk of a worker of this board that has done nothing yet. Without memory the pass comes back.
    pub fn new(
        alloc: Global,
        board: &Board,
        ready: ReadyPass,
    ) -> Result<WorkDesk, (Memory, ReadyPass)>
        ensures new { IfOk result (λ d. (d.ready ≡ ready) × (d.kept ≡ []) × (d.places ≡ most_kept board.now.layout.cells)) }
        ensures refused { IfErr result (λ e. e.1 ≡ ready) }
    {
        WorkDesk::beside(alloc, board, ready, None)
    }

    /// The same, of a worker beside others that may sleep, which are woken by this one.
    pub(crate) fn beside(
        alloc: Global,
        board: &Board,
        ready: ReadyPass,
        others: Option<Others>,
    ) -> Result<WorkDesk, (Memory, ReadyPass)>
        ensures new { IfOk result (λ d. (d.ready ≡ ready) × (d.kept ≡ []) × (d.places ≡ most_kept board.now.layout.cells)) }
        ensures refused { IfErr result (λ e. e.1 ≡ ready) }
    {
        let Ok(kept) = RequestQueue::with_places(alloc, most_kept(board)) else {
            return Err((Memory, ready));
        };
        Ok(WorkDesk {
            ready,
            kept,
            others,
            woken: 0,
            done: 0,
        })
    }

    /// Its pass of the ready queue.
    pub(crate) fn ready(&self) -> &ReadyPass
        ensures { result.now ≡ self.now.ready }
    {
        &self.ready
    }

    /// Its pass of the ready queue, as the turns left it.
    pub fn parts(self) -> ReadyPass
        ensures { result ≡ self.ready }
    {
        let WorkDesk { ready, .. } = self;
        ready
    }

    /// Wakes no others any more, and shares nothing with them.
    pub(crate) fn part(&mut self)
        ensures { self.new ≡ self.old }
    {
        drop(self.others.take());
    }

    /// Counts what its turns came to. What they answered was posted.
    pub(crate) fn report(&mut self, counters: &Counters)
        ensures { self.new ≡ self.old }
    {
        counters.give(self.woken);
        counters.finish(self.done);
        self.woken = 0;
        self.done = 0;
    }

    /// Puts the numbers that it keeps into the ready queue, as long as that has places. For each it wakes another worker: this one may
    /// be held before it comes to it.
    fn put_kept<R: Wait>(&mut self, rt: &R, queue: &ReadyQueue)
        requires { IsQueuePass queue.now self.old.ready }
        ensures back { PutsBack self.old self.new }
        ensures few { (length self.new.kept ≤ length self.old.kept) × (self.new.places ≡ self.old.places) }
    {
        while let Some(req) = self.kept.take() {
            if let Err(back) = queue.put(rt, &mut self.ready, req) {
                self.kept.put(back);
                return;
            }
            call_by(&mut self.others);
        }
    }

    /// Makes room for all that one turn may have to keep. Whether there is room.
    fn make_room(&mut self, board: &Board) -> bool
        ensures same { (self.new.ready ≡ self.old.ready) × (self.new.kept ≡ self.old.kept) }
        ensures room { result ≡ true → length self.new.kept + most_kept board.now.layout.cells ≤ self.new.places }
    {
        self.kept.make_places(most_kept(board)).is_ok()
    }

    /// The next number to try: one that found no place in the ready queue, else one from there.
    fn next<R: Wait>(&mut self, rt: &R, queue: &ReadyQueue) -> Option<Req>
        requires { IsQueuePass queue.now self.old.ready }
        ensures shifts { MatchOption result (self.new ≡ self.old) (λ req. Shifts self.old [] (req ∷ []) self.new) }
        ensures none { result ≡ None → self.new.kept ≡ [] }
        ensures few { (length self.new.kept ≤ length self.old.kept) × (self.new.places ≡ self.old.places) }
    {
        if let Some(req) = self.kept.take() {
            return Some(req);
        }
        let Some(req) = queue.next(rt, &mut self.ready) else {
            return None;
        };
        Some(req)
    }

    /// Keeps a number. There is room for it.
    fn keep(&mut self, req: Req)
        requires room { length self.old.kept < self.old.places }
        ensures { self.new ≡ record self.old { kept = self.old.kept ++ req ∷ [] } }
    {
        self.kept.put(req);
    }

    /// It is done with a number.
    fn finish(&mut self)
        ensures { self.new ≡ self.old }
    {
        self.done = self.done.wrapping_add(1);
    }

    /// Counts numbers that came from a pipe: at once, where other workers may be done with them before this one tells.
    fn count_woken(&mut self, count: u64)
        ensures { self.new ≡ self.old }
    {
        match &self.others {
            Some(others) => others.shared.counters.give(count),
            None => self.woken = self.woken.wrapping_add(count),
        }
    }

    /// Keeps what the worker's last run took along. There is room for all of it.
    fn keep_woken(&mut self, worker: &Worker)
        requires room { length self.old.kept + 2 * total worker.now.view.layout.cells ≤ self.old.places }
        ensures kept { self.new ≡ record self.old { kept = self.old.kept ++ worker.now.woken } }
        ensures few { length worker.now.woken ≤ 2 * total worker.now.view.layout.cells }
    {
        let (source, target) = worker.woken();
        self.count_woken(source.len() as u64);
        self.count_woken(target.len() as u64);
        self.kept.put_all(source);
        self.kept.put_all(target);
    }
}

/// The most numbers that a turn has to keep: its own, and those that its run took along, of a SPLICE two for each cell of the board.
fn most_kept(board: &Board) -> usize
    ensures { result ≡ most_kept board.now.layout.cells }
{
    2 * board.cells() + 1
}

/// What is left to do with a number that was tried.
#[derive(Clone, Copy)]
struct Left {
    /// Its request parked.
    parked: bool,
    /// It has to be tried again: another worker has its pipe, or still runs it.
    again: bool,
}

/// Whether a number can't be begun any more: its request has its reply, or doesn't have the cell.
fn is_past(phase: Phase) -> bool
    ensures { (r : Req) → past_in r phase ≡ cond result (r ∷ []) [] }
{
    matches!(phase, Phase::Unborn | Phase::Done(_) | Phase::Gone)
}

/// Whether a request that parked has to be tried again: it doesn't lie with its pipes.
fn goes_round(why: Parked) -> bool
    ensures { (r : Req) → ended_in r (Ran.Parked why) ≡ cond result [] (r ∷ []) }
{
    match why {
        Parked::NotReady => false,
        Parked::PipeBusy => true,
    }
}

/// Begins the request and runs it, where it is Ready. What was answered goes into the outbox, and what the run took along from its
/// pipes is kept. Where it isn't Ready, a look tells whether its number is still good.
fn serve<G: Turnstile>(
    board: &Board,
    desk: &mut WorkDesk,
    worker: Worker,
    turnstile: &G,
    outbox: &mut Outbox,
    req: Req,
) -> (Worker, Left)
    requires own { IsOf board.now worker }
    requires room { length outbox.old.items + widest board.now.layout.cells ≤ outbox.old.places }
    requires places { length desk.old.kept + most_kept board.now.layout.cells ≤ desk.old.places }
    ensures own { IsOf board.now result.0 }
    ensures tried { (answered : List Req) × (woken : List Req) × Tried board.now req worker result.0 answered (cond result.1.again [] (req ∷ [])) woken × (outbox.new ≡ record outbox.old { items = outbox.old.items ++ answered }) × (desk.new ≡ record desk.old { kept = desk.old.kept ++ woken }) × (length woken + 1 ≤ most_kept board.now.layout.cells) }
{
    let busy = match board.begin(worker, req) {
        Ok(busy) => busy,
        Err(mut worker) => {
            let left = Left {
                parked: false,
                again: !is_past(board.look(&mut worker, req)),
            };
            return (worker, left);
        }
    };
    turnstile.pass(Point::Run, req);
    let (worker, ran) = busy.run();
    desk.keep_woken(&worker);
    match ran {
        Ran::Replied { .. } => {
            outbox.put_all(worker.took());
            outbox.put(req);
            let left = Left {
                parked: false,
                again: false,
            };
            (worker, left)
        }
        Ran::Parked(why) => {
            let left = Left {
                parked: true,
                again: goes_round(why),
            };
            (worker, left)
        }
    }
}

/// One turn of a worker: it takes a number from the ready queue, begins that request and runs it. What it answered is in the outbox,
/// first what a cancel took, in the order of submission, and then the request that it ran. The outbox has room for as many as the
/// board's widest ring has cells.
///
/// A request without an answer lies with its pipes, and its number is done with. What the run took along from its pipes goes into the
/// queue. A number whose request has its reply, or doesn't have its cell any more, is dropped; one whose request another worker still
/// runs, or whose pipe another worker has, goes back into the queue in the next turn, so that what the worker does until then leaves the
/// request to a cancel. The turn is `Idle` only where it found no number, and keeps none.
pub fn work_turn<R: Wait, G: Turnstile>(
    route: Route<'_, R>,
    desk: &mut WorkDesk,
    worker: Worker,
    turnstile: &G,
    outbox: &mut Outbox,
) -> (Worker, Turn)
    requires worker { IsOf route.board.now worker }
    requires ready { IsQueuePass route.queue.now desk.old.ready }
    requires outbox { length outbox.old.items + widest route.board.now.layout.cells ≤ outbox.old.places }
    ensures turned { IsWorkTurn route.entry.board.now desk.old desk.new worker result.0 outbox.old outbox.new }
    ensures ready { IsQueuePass route.entry.queue.now desk.new.ready }
    ensures idle { result.1 ≡ Turn.Idle → (desk.new.kept ≡ []) × (outbox.new ≡ outbox.old) × (result.0 ≡ worker) }
    ensures none { result.1 ≡ Turn.Idle → FoundNone desk.old desk.new }
{
    let Route { rt, board, queue } = route;
    desk.put_kept(rt, queue);
    if !desk.make_room(board) {
        return (worker, Turn::Moved);
    }
    let Some(req) = desk.next(rt, queue) else {
        return (worker, Turn::Idle);
    };
    turnstile.pass(Point::Begin, req);
    let (worker, left) = serve(board, desk, worker, turnstile, outbox, req);
    desk.put_kept(rt, queue);
    if left.parked {
        turnstile.pass(Point::Park, req);
    }
    if left.again {
        desk.keep(req);
    } else {
        desk.finish();
    }
    (worker, Turn::Moved)
}
