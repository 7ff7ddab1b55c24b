//! A runtime that was started, and its end.
ghost use Rattle.std.specs.Prelude.{◌≡◌, ◌+◌, ◌<◌, ◌≤◌, [], All, length, map, IfOk, IsTrue, vec_capacity};
ghost use Rattle.std.specs.Arc.{arc_value};
ghost use Rattle.steps.specs.Cells.{total};
ghost use Rattle.work.specs.{IsOf, seen_of};
ghost use Rattle.board.specs.Reports.{AreOf};
ghost use Rattle.runtime.specs.{without_tail, AreWorking, IsEndRoom, all_passes, own_in, own_share, ready_of, shares_of, worker_of, HasRested};
ghost use Rattle.ready.specs.{AreAll, IsQueuePass, IsRoom, all_shares};

use crate::client::Client;
use crate::promised::{PollThread, Polls, WorkThread, join_poller, join_workers};
use crate::settling::settle;
use crate::shared::Shared;
use crate::threads::{PollSide, WorkSide};
use board::{Poller, ReportRoom, Worker};
use controls::Clock;
use ready::{GatherRoom, ReadyPass};
use std::alloc::{AllocError, Global};
use std::marker::Model;
use std::sync::atomic::Ordering;
use std::sync::{Arc, Wait};
use std::thread::{PromisedHandle, Threads};

/// Room for the passes at the end of the board and of the ready queue, and for what is left in that.
#[derive(Drop)]
pub(crate) struct EndRoom {
    pub workers: Vec<Worker>,
    pub passes: Vec<ReadyPass>,
    pub gather: GatherRoom,
}

/// A board's poller and workers, each in a thread of its own, and the clock that the poller asks. It is ended by `join_all`.
/// Contracts see its board, and how many of its threads were not waited for yet.
#[derive(Drop)]
pub struct Runtime<C: Clock> {
    shared: Arc<Shared>,
    rings: usize,
    poller: PollThread<C>,
    workers: Vec<WorkThread>,
    ended: Vec<WorkSide>,
    room: EndRoom,
}

impl<C: Clock> Model for Runtime<C> {
    ghost use Rattle.std.specs.Prelude.{◌+◌, length, vec_capacity};
    ghost use Rattle.std.specs.Arc.{arc_value};
    ghost use Rattle.runtime.specs.Crews.{HasThreads, IsEndRoom, RuntimeFacts, running_in};

    ghost Value = { RuntimeFacts };

    ghost view = { λ r. record { board = (arc_value r.shared).board; threads = length r.workers.items + running_in r.poller } };

    ghost invariant = { λ r. HasThreads C.follows (arc_value r.shared) r.rings r.poller r.workers.items r.ended.items (vec_capacity r.ended) × IsEndRoom (arc_value r.shared) r.room };
}

/// A runtime whose threads have ended. Contracts see what they shared, and what they brought back.
#[derive(Drop)]
pub(crate) struct Stopped<C: Clock> {
    shared: Arc<Shared>,
    rings: usize,
    side: PollSide<C>,
    workers: Vec<WorkSide>,
    room: EndRoom,
    threads: Vec<WorkThread>,
}

impl<C: Clock> Model for Stopped<C> {
    ghost use Rattle.std.specs.Prelude.{vec_capacity};
    ghost use Rattle.std.specs.Arc.{arc_value};
    ghost use Rattle.runtime.specs.Crews.{Crew, HasStopped, IsEndRoom};

    ghost Value = { Crew };

    ghost view = { λ s. record { shared = arc_value s.shared; desk = s.side.desk; workers = s.workers.items } };

    ghost invariant = { λ s. HasStopped C.follows (arc_value s.shared) s.rings s.side s.workers.items (vec_capacity s.workers) s.threads.items × IsEndRoom (arc_value s.shared) s.room };
}

/// The passes of these workers, in order: those of the board, and those of the ready queue. There is room for them.
fn passes_of(
    mut sides: Vec<WorkSide>,
    mut workers: Vec<Worker>,
    mut passes: Vec<ReadyPass>,
) -> (Vec<Worker>, Vec<ReadyPass>)
    requires none { (workers.items ≡ []) × (passes.items ≡ []) }
    requires room { length sides.items ≤ vec_capacity workers }
    requires places { length sides.items < vec_capacity passes }
    ensures workers { result.0.items ≡ map worker_of sides.items }
    ensures passes { result.1.items ≡ map ready_of sides.items }
    ensures places { length result.1.items < vec_capacity result.1 }
{
    while let Some(side) = sides.pop() {
        let (worker, ready) = side.parts();
        workers.push_reserved(worker);
        passes.push_reserved(ready);
    }
    workers.reverse();
    passes.reverse();
    (workers, passes)
}

impl<C: Clock> Runtime<C> {
    /// The runtime of these threads.
    pub(crate) fn new(
        shared: Arc<Shared>,
        rings: usize,
        poller: PromisedHandle<PollSide<C>, Polls>,
        workers: Vec<WorkThread>,
        ended: Vec<WorkSide>,
        room: EndRoom,
    ) -> Runtime<C>
        requires rings { rings ≡ length (arc_value shared).board.layout.cells }
        requires poller { arc_value poller.promise.0.value ≡ arc_value shared }
        requires workers { AreWorking (arc_value shared) workers.items × (length workers.items + own_in poller.promise.2.value ≡ (arc_value shared).board.workers) }
        requires ended { (length ended.items ≡ 0) × (length workers.items + own_in poller.promise.2.value ≤ vec_capacity ended) }
        requires shares { poller.promise.1.value.share + own_share poller.promise.2.value + shares_of workers.items ≡ all_shares }
        requires room { IsEndRoom (arc_value shared) room }
        ensures board { result.board ≡ (arc_value shared).board }
        ensures threads { result.threads ≡ length workers.items + 1 }
    {
        Runtime {
            shared,
            rings,
            poller: PollThread::Runs(poller),
            workers,
            ended,
            room,
        }
    }

    /// How many rings its board has.
    pub fn rings(&self) -> usize
        ensures { result ≡ length self.now.board.layout.cells }
    {
        self.rings
    }

    /// The room that the report of its board needs.
    pub(crate) fn make_room(&self, alloc: Global) -> Result<ReportRoom, AllocError>
        ensures { IfOk result (λ r. r ≡ total self.now.board.layout.cells) }
    {
        self.shared.board.make_room(alloc)
    }

    /// From now on its threads end only once they find nothing to do any more.
    pub(crate) fn let_rest(&self) {
        self.shared.is_resting.store(true, Ordering::SeqCst);
    }

    /// Waits for all threads. The poller was told to end by the client of ring 0, and tells the workers.
    pub(crate) fn stop<R: Threads>(self, rt: &R) -> Stopped<C>
        ensures { result.shared.board ≡ self.board }
    {
        let Runtime {
            shared,
            rings,
            poller,
            mut workers,
            mut ended,
            room,
        } = self;
        let side = join_poller(rt, &shared, poller, &mut ended);
        join_workers(rt, &shared, &mut workers, &mut ended);
        Stopped {
            shared,
            rings,
            side,
            workers: ended,
            room,
            threads: workers,
        }
    }
}

impl<C: Clock> Stopped<C> {
    /// Whether no one but this many clients shares the board with it.
    /// No clause says when: the number of owners is in no contract.
    pub(crate) fn is_shared_by(&self, clients: usize) -> bool {
        Arc::strong_count(&self.shared) - 1 == clients
    }

    /// The runtime, whose threads have ended.
    pub(crate) fn resumed(self) -> Runtime<C>
        ensures board { result.board ≡ self.shared.board }
        ensures threads { result.threads ≡ 0 }
    {
        let Stopped {
            shared,
            rings,
            side,
            workers,
            room,
            threads,
        } = self;
        Runtime {
            shared,
            rings,
            poller: PollThread::Ended(side),
            workers: threads,
            ended: workers,
            room,
        }
    }

    /// More turns, by this thread alone, until the runtime is at rest. False where a turn finds no memory.
    pub(crate) fn settle<R: Wait>(self, rt: &R) -> (Stopped<C>, bool)
        ensures same { result.0.shared ≡ self.shared }
        ensures rest { IsTrue result.1 → HasRested result.0.shared.board result.0.shared.queue result.0.desk result.0.workers }
    {
        let Stopped {
            shared,
            rings,
            side,
            workers,
            room,
            threads,
        } = self;
        let (side, workers, is_at_rest) = settle(rt, &shared, side, workers);
        let stopped = Stopped {
            shared,
            rings,
            side,
            workers,
            room,
            threads,
        };
        (stopped, is_at_rest)
    }

    /// What was shared, and all that came back: the passes of the ready queue are those of the workers, in order, and then the
    /// poller's.
    pub(crate) fn parts(self) -> (Arc<Shared>, Ends<C>)
        ensures shared { arc_value result.0 ≡ self.shared }
        ensures poller { (result.1.poller ≡ self.desk.poller) × IsOf self.shared.board result.1.poller }
        ensures workers { (result.1.workers.items ≡ map worker_of self.workers) × AreOf self.shared.board result.1.workers.items × (length result.1.workers.items ≡ self.shared.board.workers) }
        ensures passes { (result.1.passes.items ≡ all_passes self.desk self.workers) × All (λ p. IsQueuePass self.shared.queue p) result.1.passes.items × AreAll result.1.passes.items }
        ensures room { IsRoom self.shared.queue.places (length result.1.passes.items) result.1.room }
        ensures follows { C.follows result.1.clock (seen_of result.1.poller) }
    {
        let Stopped {
            shared,
            side,
            workers,
            room,
            ..
        } = self;
        let PollSide { desk, clock, .. } = side;
        let EndRoom {
            workers: places,
            passes,
            gather,
        } = room;
        let (workers, mut passes) = passes_of(workers, places, passes);
        let (poller, _sleeper, ready) = desk.parts();
        passes.push_reserved(ready);
        let ends = Ends {
            poller,
            workers,
            passes,
            room: gather,
            clock,
        };
        (shared, ends)
    }
}

/// What the threads brought back: the passes of the poller and of all workers, those of the ready queue with the room for its end, and
/// the clock.
#[derive(Drop)]
pub(crate) struct Ends<C: Clock> {
    pub poller: Poller,
    pub workers: Vec<Worker>,
    pub passes: Vec<ReadyPass>,
    pub room: GatherRoom,
    pub clock: C,
}

/// Tells the poller to end, by the client of ring 0.
pub(crate) fn publish_end(clients: &mut Vec<Client>)
    ensures { map without_tail clients.new.items ≡ map without_tail clients.old.items }
{
    for client in clients.iter_mut() {
        client.publish_end();
    }
}
