//! The start of a runtime: its threads.
//! Where something is refused, what was made by then is dropped by a call: the prover goes through that sooner than through drops that
//! nobody wrote.
ghost use Rattle.std.specs.Prelude.{◌≡◌, ◌≢◌, ◌+◌, ◌<◌, ◌≤◌, [], All, false, length, sum_by, vec_capacity, Err, IfOk, IfErr};
ghost use Rattle.std.specs.Arc.{arc_value};
ghost use Rattle.work.specs.{IsOf, seen_of};
ghost use Rattle.ready.specs.{IsQueuePass, all_shares};
ghost use Rattle.bell.specs.BellPasses.{IsSleeperOf};
ghost use Rattle.board.specs.ShapeLimits.{is_shape};
ghost use Rattle.runtime.specs.{AreClients, IsStarted, HasShares, IsEndRoom, own_in, own_share, threads_for, IsPollSide, MayOwn, IsNewDesk, IsPollers, HavePairs, IsParts};
ghost use Rattle.runtime.specs.declared.error.StartError.TheVariants.{BadShape};

use crate::client::Client;
use crate::crew::{WorkerParts, own_of, start_workers};
use crate::error::{Memory, StartError};
use crate::parts::{Parts, PollerParts, clients_of, parts_of};
use crate::poll::PollDesk;
use crate::promised::{Polls, WorkThread};
use crate::rooms::{Rooms, rooms_of};
use crate::shared::{Shared, Stage};
use crate::started::{Runtime, publish_end};
use crate::threads::{PollSide, WorkSide, poll};
use board::Shape;
use controls::{Clock, Turnstile};
use outbox::Outbox;
use std::alloc::Global;
use std::snapshot::Snapshot;
use std::sync::{Arc, Wait};
use std::thread;
use std::thread::{PromisedHandle, Threads};

/// How the poller goes: by which clock, and after how many idle turns in a row it sleeps.
#[derive(Drop)]
struct Pace<C> {
    clock: C,
    idle: u32,
}

/// What the poller's thread is to have: its desk, with an outbox for its turns, its clock, and the worker that it serves itself.
fn side_of<C: Clock + Drop>(
    alloc: Global,
    shape: &Shape,
    parts: PollerParts,
    clock: C,
    own: Option<WorkSide>,
) -> Result<PollSide<C>, Memory>
    ensures desk { IfOk result (λ t. IsNewDesk (length shape.now.rings.items) parts.poller parts.sleeper parts.ready t.desk) }
    ensures outbox { IfOk result (λ t. (t.outbox.items ≡ []) × (t.desk.places ≤ t.outbox.places)) }
    ensures same { IfOk result (λ t. (t.clock ≡ clock) × (t.own ≡ own)) }
{
    let PollerParts {
        poller,
        sleeper,
        ready,
        caller,
    } = parts;
    let desk = match PollDesk::new(alloc, shape, poller, sleeper, ready) {
        Ok(desk) => desk,
        Err(refused) => {
            drop((refused, clock, caller, own));
            return Err(Memory);
        }
    };
    let Ok(outbox) = outbox_for(alloc, &desk) else {
        drop((desk, clock, caller, own));
        return Err(Memory);
    };
    Ok(PollSide {
        desk,
        clock,
        outbox,
        caller,
        own,
    })
}

/// The outbox of the poller.
fn outbox_for(alloc: Global, desk: &PollDesk) -> Result<Outbox, Memory>
    ensures { IfOk result (λ o. (o.items ≡ []) × (desk.now.places ≤ o.places)) }
{
    let Ok(places) = u32::try_from(desk.places()) else {
        return Err(Memory);
    };
    let outbox = Outbox::new(alloc, places)?;
    Ok(outbox)
}

/// Starts the poller's thread.
fn spawn_poller<
    R: Threads + Wait + Copy + Send + 'static,
    G: Turnstile + Send + Sync + Drop + 'static,
    C: Clock + Send + Drop + 'static,
>(
    theirs: Stage<R, G>,
    idle: u32,
    side: PollSide<C>,
) -> Result<PromisedHandle<PollSide<C>, Polls>, StartError>
    requires { IsPollSide C.follows (arc_value theirs.shared) side }
    ensures thread { IfOk result (λ h. (arc_value h.promise.0.value ≡ arc_value theirs.shared) × (h.promise.1.value.share ≡ side.desk.ready.share) × (h.promise.2.value ≡ side.own)) }
    ensures refused { IfErr result (λ e. e ≢ BadShape) }
{
    let promise = Polls(
        Snapshot::of(&theirs.shared),
        Snapshot::of(side.desk.ready()),
        Snapshot::of(&side.own),
    );
    let rt = theirs.rt;
    match thread::spawn_with(
        &rt,
        promise,
        move || -> PollSide<C>
            requires { IsPollSide C.follows (arc_value theirs.shared) side }
            ensures { IsPollSide C.follows (arc_value theirs.shared) result × HasShares side.desk.ready.share side.own result }
        { poll(theirs.context(), idle, side) },
    ) {
        Ok(handle) => Ok(handle),
        Err(refused) => {
            drop(refused);
            Err(StartError::Thread)
        }
    }
}

/// Starts the poller's thread: makes its desk, and hands it the clock, the turnstile, and the worker that it serves itself.
fn start_poller<
    R: Threads + Wait + Copy + Send + 'static,
    G: Turnstile + Send + Sync + Drop + 'static,
    C: Clock + Send + Drop + 'static,
>(
    alloc: Global,
    stage: &Stage<R, G>,
    shape: &Shape,
    pace: Pace<C>,
    parts: PollerParts,
    own: Option<WorkSide>,
) -> Result<PromisedHandle<PollSide<C>, Polls>, StartError>
    requires board { IsOf (arc_value stage.now.shared).board parts.poller × IsPollers parts.poller }
    requires rings { (0 < length shape.now.rings.items) × ((arc_value stage.now.shared).bell.rings ≡ length shape.now.rings.items) }
    requires sleeper { IsSleeperOf (arc_value stage.now.shared).bell parts.sleeper }
    requires ready { IsQueuePass (arc_value stage.now.shared).queue parts.ready }
    requires clock { C.follows pace.clock (seen_of parts.poller) }
    requires worker { MayOwn (arc_value stage.now.shared) own }
    ensures thread { IfOk result (λ h. (arc_value h.promise.0.value ≡ arc_value stage.now.shared) × (h.promise.1.value.share ≡ parts.ready.share) × (h.promise.2.value ≡ own)) }
    ensures refused { IfErr result (λ e. e ≢ BadShape) }
{
    let Pace { clock, idle } = pace;
    let Ok(side) = side_of(alloc, shape, parts, clock, own) else {
        return Err(StartError::Memory);
    };
    let Ok(theirs) = stage.share() else {
        drop(side);
        return Err(StartError::Memory);
    };
    spawn_poller(theirs, idle, side)
}

/// Stops the threads that were started, and waits for them.
fn abandon<R: Threads, C: Clock + Drop>(
    rt: &R,
    clients: &mut Vec<Client>,
    poller: PromisedHandle<PollSide<C>, Polls>,
    threads: Vec<WorkThread>,
) {
    publish_end(clients);
    drop(poller.join(rt));
    for thread in threads {
        let WorkThread { handle } = thread;
        drop(handle.join(rt));
    }
}

/// Shares what the threads of a new runtime share, and its turnstile.
fn stage_of<R: Copy, G: Drop>(
    rt: R,
    alloc: Global,
    shared: Shared,
    turnstile: G,
) -> Result<Stage<R, G>, Memory>
    ensures { IfOk result (λ t. arc_value t.shared ≡ shared) }
{
    let (Ok(shared), Ok(turnstile)) = (Arc::new(alloc, shared), Arc::new(alloc, turnstile)) else {
        return Err(Memory);
    };
    Ok(Stage {
        rt,
        shared,
        turnstile,
    })
}

/// Starts the threads of the workers, beside that of the poller. Where one can't be started, it ends those that were.
fn start_others<
    R: Threads + Wait + Copy + Send + 'static,
    G: Turnstile + Send + Sync + Drop + 'static,
    C: Clock + Drop,
>(
    alloc: Global,
    stage: Stage<R, G>,
    poller: PromisedHandle<PollSide<C>, Polls>,
    parts: WorkerParts,
    rooms: Rooms,
    mut clients: Vec<Client>,
) -> Result<(Runtime<C>, Vec<Client>), StartError>
    requires rings { length clients.items ≡ length (arc_value stage.shared).board.layout.cells }
    requires poller { arc_value poller.promise.0.value ≡ arc_value stage.shared }
    requires clients { AreClients (arc_value stage.shared).board clients.items }
    requires workers { All (λ p. IsOf (arc_value stage.shared).board p) parts.workers.items }
    requires pool { length parts.workers.items + own_in poller.promise.2.value ≡ (arc_value stage.shared).board.workers }
    requires passes { All (λ p. IsQueuePass (arc_value stage.shared).queue p) parts.passes.items }
    requires count { HavePairs parts }
    requires shares { poller.promise.1.value.share + own_share poller.promise.2.value + sum_by (λ p. p.share) parts.passes.items ≡ all_shares }
    requires threads { (rooms.threads.items ≡ []) × (length parts.workers.items ≤ vec_capacity rooms.threads) }
    requires ended { (rooms.ended.items ≡ []) × ((arc_value stage.shared).board.workers ≤ vec_capacity rooms.ended) }
    requires end { IsEndRoom (arc_value stage.shared) rooms.end }
    ensures started { IfOk result (λ t. (t.0.board ≡ (arc_value stage.shared).board) × (t.1.items ≡ clients.items)) }
    ensures threads { IfOk result (λ t. t.0.threads ≡ length parts.workers.items + 1) }
    ensures own { IfOk result (λ t. AreClients t.0.board t.1.items) }
    ensures refused { IfErr result (λ e. e ≢ BadShape) }
{
    let Rooms {
        mut threads,
        ended,
        end,
    } = rooms;
    match start_workers(alloc, &stage, parts, &mut threads) {
        Ok(()) => {
            let rings = clients.len();
            let Stage { shared, .. } = stage;
            let runtime = Runtime::new(shared, rings, poller, threads, ended, end);
            Ok((runtime, clients))
        }
        Err(error) => {
            abandon(&stage.rt, &mut clients, poller, threads);
            Err(error)
        }
    }
}

/// Starts all threads of a new runtime.
fn start_threads<
    R: Threads + Wait + Copy + Send + 'static,
    G: Turnstile + Send + Sync + Drop + 'static,
    C: Clock + Send + Drop + 'static,
>(
    rt: R,
    alloc: Global,
    shape: &Shape,
    turnstile: G,
    pace: Pace<C>,
    parts: Parts,
) -> Result<(Runtime<C>, Vec<Client>), StartError>
    requires parts { IsParts shape.now parts }
    requires clock { C.follows pace.clock [] }
    ensures started { IfOk result (λ t. IsStarted shape.now t.0.board t.1.items) }
    ensures threads { IfOk result (λ t. t.0.threads ≡ threads_for shape.now.workers) }
    ensures own { IfOk result (λ t. AreClients t.0.board t.1.items) }
    ensures refused { IfErr result (λ e. e ≢ BadShape) }
{
    let Parts {
        shared,
        poller,
        clients,
        mut workers,
    } = parts;
    let Ok(rooms) = rooms_of(alloc, &shared.queue, &workers.workers) else {
        drop((shared, poller, clients, workers, turnstile, pace));
        return Err(StartError::Memory);
    };
    let Ok(stage) = stage_of(rt, alloc, shared, turnstile) else {
        drop((poller, clients, workers, pace, rooms));
        return Err(StartError::Memory);
    };
    let Ok(own) = own_of(alloc, &stage.shared, &mut workers) else {
        drop((stage, poller, clients, workers, pace, rooms));
        return Err(StartError::Memory);
    };
    let Ok(clients) = clients_of(alloc, &stage.shared, clients) else {
        drop((stage, poller, workers, pace, rooms, own));
        return Err(StartError::Memory);
    };
    match start_poller(alloc, &stage, shape, pace, poller, own) {
        Ok(poller) => start_others(alloc, stage, poller, workers, rooms, clients),
        Err(error) => {
            drop((stage, workers, rooms, clients));
            Err(error)
        }
    }
}

/// Starts a runtime: a board of this shape, its poller and its workers, each in a thread of its own, and gives it with a client for each
/// ring, in order. Of one or two workers one has no thread: that of the poller makes its turns between its own. After `idle` idle turns in
/// a row, 0 counting as 1, the poller sleeps until a batch is submitted, while its clock asks for nothing (IORING_SETUP_SQPOLL of
/// io_uring_setup(2), with turns in the place of `sq_thread_idle` milliseconds).
///
/// The clock is one that may stand so where nothing has happened yet. `join_at_rest` gives it back.
///
/// `BadShape` comes only where the shape is outside its limits, `Memory` where room isn't found, and `Thread` where a thread can't be made.
pub fn start<
    R: Threads + Wait + Copy + Send + 'static,
    G: Turnstile + Send + Sync + Drop + 'static,
    C: Clock + Send + Drop + 'static,
>(
    rt: R,
    alloc: Global,
    shape: &Shape,
    idle: u32,
    turnstile: G,
    clock: C,
) -> Result<(Runtime<C>, Vec<Client>), StartError>
    requires clock { C.follows clock [] }
    ensures started { IfOk result (λ t. IsStarted shape.now t.0.board t.1.items) }
    ensures threads { IfOk result (λ t. t.0.threads ≡ threads_for shape.now.workers) }
    ensures own { IfOk result (λ t. AreClients t.0.board t.1.items) }
    ensures bad_shape { result ≡ Err BadShape → is_shape shape.now ≡ false }
    ensures refused { is_shape shape.now ≡ false → result ≡ Err BadShape }
{
    match parts_of(alloc, shape) {
        Ok(parts) => start_threads(rt, alloc, shape, turnstile, Pace { clock, idle }, parts),
        Err(error) => Err(error),
    }
}
