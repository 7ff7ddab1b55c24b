//! The threads of a runtime: what each promises to bring back, and the wait for it.
ghost use Rattle.std.specs.Prelude.{◌≡◌, ◌+◌, ◌≤◌, [], None, All, length, vec_capacity};
ghost use Rattle.std.specs.Arc.{arc_value};
ghost use Rattle.runtime.specs.{AreWorking, IsPollThread, own_in, own_share, owns_of, share_of, shares_in, shares_of, IsPollSide, IsWorkSide};

use crate::shared::Shared;
use crate::threads::{PollSide, WorkSide};
use controls::Clock;
use ready::ReadyPass;
use std::snapshot::Snapshot;
use std::sync::Arc;
use std::thread::{Promise, PromisedHandle, Threads};

/// What a worker's thread brings back is of what it shares, and has the shares of the ready queue that it was given.
#[derive(Drop)]
pub(crate) struct Ours(pub Snapshot<Arc<Shared>>, pub Snapshot<ReadyPass>);

/// The same of the poller's thread, and of the worker that it serves itself. The clock that it brings back has gone along with what the
/// poller has seen.
#[derive(Drop)]
pub(crate) struct Polls(
    pub Snapshot<Arc<Shared>>,
    pub Snapshot<ReadyPass>,
    pub Snapshot<Option<WorkSide>>,
);

impl<C: Clock> Promise<PollSide<C>> for Polls {
    ghost use Rattle.std.specs.Arc.{arc_value};
    ghost use Rattle.runtime.specs.{HasShares, IsPollSide};

    ghost kept_by = { λ p r. IsPollSide C.follows (arc_value p.0.value) r × HasShares p.1.value.share p.2.value r };
}

impl Promise<WorkSide> for Ours {
    ghost use Rattle.std.specs.Prelude.{◌≡◌};
    ghost use Rattle.std.specs.Arc.{arc_value};
    ghost use Rattle.runtime.specs.Loops.{IsWorkSide};

    ghost kept_by = { λ p r. IsWorkSide (arc_value p.0.value) r × (r.desk.ready.share ≡ p.1.value.share) };
}

/// The thread of a worker.
#[derive(Drop)]
pub(crate) struct WorkThread {
    pub handle: PromisedHandle<WorkSide, Ours>,
}

/// The poller's thread, or what it brought back once that was joined.
#[derive(Drop)]
pub(crate) enum PollThread<C: Clock> {
    Runs(PromisedHandle<PollSide<C>, Polls>),
    Ended(PollSide<C>),
}

/// The worker that the poller's thread has served goes to those that came back before. There is room for it.
fn part<C: Clock>(shared: &Shared, side: PollSide<C>, ended: &mut Vec<WorkSide>) -> PollSide<C>
    requires side { IsPollSide C.follows shared.now side }
    requires ended { All (λ w. IsWorkSide shared.now w) ended.old.items }
    requires room { own_in side.own + length ended.old.items ≤ vec_capacity ended.old }
    ensures side { IsPollSide C.follows shared.now result × (result.own ≡ None) }
    ensures ended { All (λ w. IsWorkSide shared.now w) ended.new.items × (length ended.new.items ≡ own_in side.own + length ended.old.items) }
    ensures shares { result.desk.ready.share + shares_in ended.new.items ≡ side.desk.ready.share + own_share side.own + shares_in ended.old.items }
    ensures room { vec_capacity ended.new ≡ vec_capacity ended.old }
{
    let _ = shared;
    let PollSide {
        desk,
        clock,
        outbox,
        caller,
        own,
    } = side;
    match own {
        Some(own) => {
            ended.push_reserved(own.alone());
            PollSide {
                desk,
                clock,
                outbox,
                caller,
                own: None,
            }
        }
        None => PollSide {
            desk,
            clock,
            outbox,
            caller,
            own: None,
        },
    }
}

/// Waits for the poller's thread. The worker that it has served goes to those that came back before. There is room for it.
pub(crate) fn join_poller<R: Threads, C: Clock>(
    rt: &R,
    shared: &Shared,
    poller: PollThread<C>,
    ended: &mut Vec<WorkSide>,
) -> PollSide<C>
    requires thread { IsPollThread C.follows shared.now poller }
    requires ended { All (λ w. IsWorkSide shared.now w) ended.old.items }
    requires room { owns_of poller + length ended.old.items ≤ vec_capacity ended.old }
    ensures side { IsPollSide C.follows shared.now result × (result.own ≡ None) }
    ensures ended { All (λ w. IsWorkSide shared.now w) ended.new.items × (length ended.new.items ≡ owns_of poller + length ended.old.items) }
    ensures shares { result.desk.ready.share + shares_in ended.new.items ≡ share_of poller + shares_in ended.old.items }
    ensures room { vec_capacity ended.new ≡ vec_capacity ended.old }
{
    match poller {
        PollThread::Runs(handle) => {
            let side = handle.join(rt);
            part(shared, side, ended)
        }
        PollThread::Ended(side) => part(shared, side, ended),
    }
}

/// Waits for the workers' threads, and gives what they bring back to what came back before. There is room for it.
pub(crate) fn join_workers<R: Threads>(
    rt: &R,
    shared: &Shared,
    workers: &mut Vec<WorkThread>,
    ended: &mut Vec<WorkSide>,
)
    requires threads { AreWorking shared.now workers.old.items }
    requires ended { All (λ w. IsWorkSide shared.now w) ended.old.items }
    requires room { length workers.old.items + length ended.old.items ≤ vec_capacity ended.old }
    ensures ended { All (λ w. IsWorkSide shared.now w) ended.new.items }
    ensures shares { shares_in ended.new.items ≡ shares_of workers.old.items + shares_in ended.old.items }
    ensures count { length ended.new.items ≡ length workers.old.items + length ended.old.items }
    ensures none { workers.new.items ≡ [] }
    ensures room { length ended.new.items ≤ vec_capacity ended.new }
{
    let _ = shared;
    while let Some(thread) = workers.pop() {
        let WorkThread { handle } = thread;
        let worker = handle.join(rt);
        ended.push_reserved(worker);
    }
}
