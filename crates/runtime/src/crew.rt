//! The start of the workers: each in a thread of its own, but of one or two the last in that of the poller. Where something is refused,
//! what was made by then is dropped by a call.
ghost use Rattle.std.specs.Prelude.{◌≡◌, ◌≢◌, ◌+◌, ◌≤◌, [], All, length, sum_by, vec_capacity, IfOk, IfErr};
ghost use Rattle.std.specs.Arc.{arc_value};
ghost use Rattle.work.specs.Board.{IsOf};
ghost use Rattle.ready.specs.Ready.{IsQueuePass};
ghost use Rattle.board.specs.ShapeLimits.{widest};
ghost use Rattle.runtime.specs.{AreWorking, own_in, own_share, shares_of, threads_for, IsServing, IsWorkSide, MayOwn, HavePairs};
ghost use Rattle.runtime.specs.WorkTurns.{most_kept};
ghost use Rattle.runtime.specs.declared.error.StartError.TheVariants.{BadShape};

use crate::error::{Memory, StartError};
use crate::promised::{Ours, WorkThread};
use crate::serving::{Others, WorkDesk};
use crate::shared::{Shared, Stage};
use crate::sleeping::{Caller, Listener};
use crate::threads::{WorkSide, work};
use board::Worker;
use controls::Turnstile;
use outbox::Outbox;
use ready::ReadyPass;
use std::alloc::Global;
use std::snapshot::Snapshot;
use std::sync::{Arc, Wait};
use std::thread;
use std::thread::Threads;

/// How many answered requests a worker keeps at most when it begins another one.
/// Under load it then takes a lock once for 16 requests. With 64 a client that has 64 in flight mostly waits for all of them at once.
const KEPT: u32 = 15;

/// How many workers there are at most where the poller's thread serves one of them. A request then changes threads less often. With more,
/// requests that another worker could run would wait for the poller's turns.
const SERVED: usize = 2;

/// The passes of the workers, of the board, of the ready queue and of the event count of the workers, by which each also calls the others.
#[derive(Drop)]
pub(crate) struct WorkerParts {
    pub workers: Vec<Worker>,
    pub passes: Vec<ReadyPass>,
    pub listeners: Vec<Listener>,
    pub callers: Vec<Caller>,
}

/// The outbox of a worker.
fn outbox_of(alloc: Global, shared: &Shared) -> Result<Outbox, Memory>
    ensures { IfOk result (λ o. widest shared.now.board.layout.cells ≤ o.places) }
{
    let places = shared.board.widest() + KEPT;
    let outbox = Outbox::new(alloc, places)?;
    Ok(outbox)
}

/// Starts the thread of a worker.
fn start_worker<
    R: Threads + Wait + Copy + Send + 'static,
    G: Turnstile + Send + Sync + Drop + 'static,
>(
    alloc: Global,
    stage: &Stage<R, G>,
    worker: Worker,
    desk: WorkDesk,
    listener: Listener,
) -> Result<WorkThread, StartError>
    requires { IsServing (arc_value stage.now.shared) desk worker }
    ensures thread { IfOk result (λ t. (arc_value t.handle.promise.0.value ≡ arc_value stage.now.shared) × (t.handle.promise.1.value.share ≡ desk.ready.share)) }
    ensures refused { IfErr result (λ e. e ≢ BadShape) }
{
    let Ok(theirs) = stage.share() else {
        drop((worker, desk, listener));
        return Err(StartError::Memory);
    };
    let Ok(outbox) = outbox_of(alloc, &stage.shared) else {
        drop((worker, desk, listener, theirs));
        return Err(StartError::Memory);
    };
    let promise = Ours(Snapshot::of(&stage.shared), Snapshot::of(desk.ready()));
    let side = WorkSide {
        desk,
        worker,
        outbox,
    };
    match thread::spawn_with(
        &stage.rt,
        promise,
        move || -> WorkSide
            requires { IsWorkSide (arc_value theirs.shared) side }
            ensures { IsWorkSide (arc_value theirs.shared) result × (result.desk.ready.share ≡ side.desk.ready.share) }
        { work(theirs.context(), side, listener) },
    ) {
        Ok(handle) => Ok(WorkThread { handle }),
        Err(refused) => {
            drop(refused);
            Err(StartError::Thread)
        }
    }
}

/// The desk of a worker. Beside others it wakes them, and counts for them what it wakes.
fn desk_of(
    alloc: Global,
    shared: &Arc<Shared>,
    ready: ReadyPass,
    caller: Caller,
    is_alone: bool,
) -> Result<WorkDesk, Memory>
    ensures { IfOk result (λ d. (d.ready ≡ ready) × (d.kept ≡ []) × (d.places ≡ most_kept (arc_value shared.now).board.layout.cells)) }
{
    let others = if is_alone {
        drop(caller);
        None
    } else {
        let Ok(shared) = Arc::try_clone(shared) else {
            drop((ready, caller));
            return Err(Memory);
        };
        Some(Others { caller, shared })
    };
    match WorkDesk::beside(alloc, &shared.board, ready, others) {
        Ok(desk) => Ok(desk),
        Err(refused) => {
            drop(refused);
            Err(Memory)
        }
    }
}

/// Starts the thread of a worker beside others: it wakes them, and counts for them what it wakes.
fn start_beside<
    R: Threads + Wait + Copy + Send + 'static,
    G: Turnstile + Send + Sync + Drop + 'static,
>(
    alloc: Global,
    stage: &Stage<R, G>,
    worker: Worker,
    ready: ReadyPass,
    listener: Listener,
    caller: Caller,
) -> Result<WorkThread, StartError>
    requires worker { IsOf (arc_value stage.now.shared).board worker }
    requires ready { IsQueuePass (arc_value stage.now.shared).queue ready }
    ensures thread { IfOk result (λ t. (arc_value t.handle.promise.0.value ≡ arc_value stage.now.shared) × (t.handle.promise.1.value.share ≡ ready.share)) }
    ensures refused { IfErr result (λ e. e ≢ BadShape) }
{
    let Ok(desk) = desk_of(alloc, &stage.shared, ready, caller, false) else {
        drop((worker, listener));
        return Err(StartError::Memory);
    };
    start_worker(alloc, stage, worker, desk, listener)
}

/// Starts the threads of the workers, with a pass of the ready queue for each. There is room for their handles.
pub(crate) fn start_workers<
    R: Threads + Wait + Copy + Send + 'static,
    G: Turnstile + Send + Sync + Drop + 'static,
>(
    alloc: Global,
    stage: &Stage<R, G>,
    parts: WorkerParts,
    threads: &mut Vec<WorkThread>,
) -> Result<(), StartError>
    requires workers { All (λ p. IsOf (arc_value stage.now.shared).board p) parts.workers.items }
    requires passes { All (λ p. IsQueuePass (arc_value stage.now.shared).queue p) parts.passes.items }
    requires count { HavePairs parts }
    requires room { (threads.old.items ≡ []) × (length parts.workers.items ≤ vec_capacity threads.old) }
    ensures threads { AreWorking (arc_value stage.now.shared) threads.new.items }
    ensures count { IfOk result (λ _. length threads.new.items ≡ length parts.workers.items) }
    ensures shares { IfOk result (λ _. shares_of threads.new.items ≡ sum_by (λ p. p.share) parts.passes.items) }
    ensures refused { IfErr result (λ e. e ≢ BadShape) }
{
    let WorkerParts {
        mut workers,
        mut passes,
        mut listeners,
        mut callers,
    } = parts;
    while let Some(worker) = workers.pop() {
        let Some(ready) = passes.pop() else {
            unreachable!()
        };
        let (Some(listener), Some(caller)) = (listeners.pop(), callers.pop()) else {
            unreachable!()
        };
        match start_beside(alloc, stage, worker, ready, listener, caller) {
            Ok(thread) => threads.push_reserved(thread),
            Err(error) => {
                drop((workers, passes, listeners, callers));
                return Err(error);
            }
        }
    }
    Ok(())
}

/// A worker that the poller's thread serves, with a desk and an outbox.
fn own_worker(
    alloc: Global,
    shared: &Arc<Shared>,
    worker: Worker,
    ready: ReadyPass,
    caller: Caller,
    is_alone: bool,
) -> Result<WorkSide, Memory>
    requires worker { IsOf (arc_value shared.now).board worker }
    requires ready { IsQueuePass (arc_value shared.now).queue ready }
    ensures own { IfOk result (λ o. IsWorkSide (arc_value shared.now) o) }
    ensures share { IfOk result (λ o. o.desk.ready.share ≡ ready.share) }
{
    let Ok(outbox) = outbox_of(alloc, shared) else {
        drop((worker, ready, caller));
        return Err(Memory);
    };
    match desk_of(alloc, shared, ready, caller, is_alone) {
        Ok(desk) => Ok(WorkSide {
            desk,
            worker,
            outbox,
        }),
        Err(error) => {
            drop((worker, outbox));
            Err(error)
        }
    }
}

/// The worker that the poller's thread serves itself: the last of these, where they are few. It has no thread then.
pub(crate) fn own_of(
    alloc: Global,
    shared: &Arc<Shared>,
    parts: &mut WorkerParts,
) -> Result<Option<WorkSide>, Memory>
    requires workers { All (λ p. IsOf (arc_value shared.now).board p) parts.old.workers.items }
    requires passes { All (λ p. IsQueuePass (arc_value shared.now).queue p) parts.old.passes.items }
    requires count { HavePairs parts.old }
    ensures own { IfOk result (λ o. MayOwn (arc_value shared.now) o × (own_in o + length parts.new.workers.items ≡ length parts.old.workers.items)) }
    ensures shares { IfOk result (λ o. own_share o + sum_by (λ p. p.share) parts.new.passes.items ≡ sum_by (λ p. p.share) parts.old.passes.items) }
    ensures workers { All (λ p. IsOf (arc_value shared.now).board p) parts.new.workers.items }
    ensures passes { All (λ p. IsQueuePass (arc_value shared.now).queue p) parts.new.passes.items }
    ensures count { HavePairs parts.new }
    ensures threads { IfOk result (λ _. length parts.new.workers.items + 1 ≡ threads_for (length parts.old.workers.items)) }
{
    let count = parts.workers.len();
    if SERVED < count {
        return Ok(None);
    }
    let Some(worker) = parts.workers.pop() else {
        return Ok(None);
    };
    let Some(ready) = parts.passes.pop() else {
        unreachable!()
    };
    let (Some(listener), Some(caller)) = (parts.listeners.pop(), parts.callers.pop()) else {
        unreachable!()
    };
    drop(listener);
    let own = own_worker(alloc, shared, worker, ready, caller, count == 1)?;
    Ok(Some(own))
}
