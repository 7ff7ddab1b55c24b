//! What the threads of a runtime do: that of the poller, and those of the workers.
ghost use Rattle.std.specs.Prelude.{◌≡◌, ◌≢◌, ◌↔◌, ◌⊎◌, ◌+◌, ◌≤◌, ◌==◌, [], true, false, IfSome, IsTrue, length};
ghost use Rattle.bell.specs.BellPasses.{HasLoaded};
ghost use Rattle.board.specs.ShapeLimits.{widest};
ghost use Rattle.outbox.specs.Outbox.{Places};
ghost use Rattle.runtime.specs.{HasShares, own_in, own_share, IsPollSide, IsServing, IsWorkSide, MayOwn, IsAtRest, IsPollTurn, IsWorkTurn};

use crate::poll::{PollDesk, poll_turn, rest};
use crate::posting::post_all;
use crate::serving::{WorkDesk, work_turn};
use crate::shared::Context;
use crate::sleeping::{Caller, Listener, doze};
use crate::turn::Turn;
use board::Worker;
use controls::{Clock, Turnstile};
use outbox::Outbox;
use ready::ReadyPass;
use std::sync::Wait;
use std::sync::atomic::Ordering;
use std::thread;

/// How many turns in a row that did nothing the poller makes at once, before it lets other threads have its processor.
/// A call of the system after each would take longer than most requests. Pauses that double, as the kit's `Backoff` makes them, would
/// let a request wait as long again as the thread had been idle.
const SPINS: u32 = 256;

/// How many silent turns in a row a worker makes at once. There may be more workers than processors, and a client that was woken waits
/// for one of these.
const WORK_SPINS: u32 = 32;

/// How many silent turns in a row a worker makes before it sleeps. To sleep and to be woken takes longer than most requests.
const AWAKE: u32 = 1024;

/// After how many turns in a row that did nothing the poller of a runtime that is to come to rest ends. It makes them at once: beside
/// other programs a thread that yields so often would wait for long.
const SETTLED: u32 = 2048;

/// How many turns the worker of the poller's thread makes at most between two turns of the poller.
const RUNS: u32 = 64;

/// From how many answers on none of them stay with the worker of the poller's thread, while a request waits that may go on by them.
/// Fewer are posted with that one's: they cost one lock, and the client comes once for all.
const STAYING: usize = 15;

/// Between a turn that did nothing and the next, after `still` such turns in a row. The first `spins` are made at once: a turn is long
/// enough that a pause of the processor after it would only let a request wait.
fn pause(still: u32, spins: u32) {
    if spins <= still {
        thread::yield_now();
    }
}

/// How many turns in a row were idle, and after how many of them the poller dozes.
#[derive(Clone, Copy)]
struct Idling {
    most: u32,
    count: u32,
}

impl Idling {
    /// Notes a turn. Whether the poller may doze after it.
    fn note(&mut self, turn: Turn) -> bool
        ensures most { self.new.most ≡ self.old.most }
        ensures moved { turn ≢ Turn.Idle → self.new.count ≡ 0 }
        ensures idle { turn ≡ Turn.Idle → (self.new.count ≡ self.old.count + 1) ⊎ ((self.old.count ≡ 4294967295) × (self.new.count ≡ 4294967295)) }
        ensures may { IsTrue result ↔ (self.new.most ≤ self.new.count) }
    {
        self.count = match turn {
            Turn::Idle => self.count.saturating_add(1),
            Turn::Still | Turn::Moved => 0,
        };
        self.most <= self.count
    }
}

/// Idle where both are.
pub(crate) fn both(one: Turn, other: Turn) -> Turn
    ensures { result ≡ Turn.Idle → (one ≡ Turn.Idle) × (other ≡ Turn.Idle) }
{
    match one {
        Turn::Idle => other,
        Turn::Still | Turn::Moved => one,
    }
}

/// One turn of the poller. What it answered is posted. None where it found no memory.
pub(crate) fn poll_round<R: Wait, G: Turnstile, C: Clock>(
    context: Context<'_, R, G>,
    side: &mut PollSide<C>,
) -> Option<Turn>
    requires { IsPollSide C.follows context.shared.now side.old }
    ensures side { IsPollSide C.follows context.entry.shared.now side.new }
    ensures same { (side.new.own ≡ side.old.own) × (side.new.desk.ready.share ≡ side.old.desk.ready.share) }
    ensures turned { (o : Places) × IsPollTurn context.entry.shared.now.board context.entry.shared.now.queue side.old.desk side.new.desk o }
    ensures read { HasLoaded side.old.desk.sleeper side.new.desk.sleeper }
    ensures rest { IfSome result (λ turn. turn ≢ Turn.Moved → IsAtRest context.entry.shared.now.board context.entry.shared.now.queue side.old.desk side.new.desk) }
{
    let turn = poll_turn(
        context.route(),
        &context.shared.bell,
        &mut side.desk,
        &mut side.clock,
        &mut side.outbox,
    );
    post_all(context, &mut side.outbox);
    turn.ok()
}

/// Wakes a worker for each put into the ready queue, while one may sleep.
fn call_for(caller: &mut Caller, puts: u32) {
    for _put in 0..puts {
        caller.call();
    }
}

/// One turn of a worker. What it answered stays in the outbox while that has room for another turn. What it came to, and
/// whether it answered nothing.
fn work_round<R: Wait, G: Turnstile>(
    context: Context<'_, R, G>,
    desk: &mut WorkDesk,
    worker: Worker,
    outbox: &mut Outbox,
) -> (Worker, Turn, bool)
    requires desk { IsServing context.shared.now desk.old worker }
    requires places { widest context.shared.now.board.layout.cells ≤ outbox.old.places }
    ensures desk { IsServing context.entry.shared.now desk.new result.0 }
    ensures turned { (o : Places) × ((o ≡ outbox.old) ⊎ (o ≡ record outbox.old { items = [] })) × IsWorkTurn context.entry.shared.now.board desk.old desk.new worker result.0 o outbox.new × (result.2 ≡ (length outbox.new.items == length o.items)) }
    ensures idle { result.1 ≡ Turn.Idle → desk.new.kept ≡ [] }
    ensures places { outbox.new.places ≡ outbox.old.places }
    ensures share { desk.new.ready.share ≡ desk.old.ready.share }
{
    let shared = context.shared;
    if outbox.room() < shared.board.widest() as usize {
        post_all(context, outbox);
    }
    let before = outbox.len();
    let (worker, turn) = work_turn(context.route(), desk, worker, context.turnstile, outbox);
    let is_silent = outbox.len() == before;
    (worker, turn, is_silent)
}

/// A worker, with its desk and the outbox of its turns.
#[derive(Drop)]
pub(crate) struct WorkSide {
    pub desk: WorkDesk,
    pub worker: Worker,
    pub outbox: Outbox,
}

/// What the poller's thread has: its desk, its clock, its outbox, who wakes the workers, and the worker that it serves itself where
/// they are few.
#[derive(Drop)]
pub(crate) struct PollSide<C> {
    pub desk: PollDesk,
    pub clock: C,
    pub outbox: Outbox,
    pub caller: Caller,
    pub own: Option<WorkSide>,
}

impl WorkSide {
    /// Work turns, until one finds nothing to do, `RUNS` of them at most. Whether the last was idle. What they answered is posted; or, where
    /// it may stay, and is little, it stays in the outbox until the next call, and the last turn counts as one that did something.
    pub(crate) fn serve<R: Wait, G: Turnstile>(
        self,
        context: Context<'_, R, G>,
        may_stay: bool,
    ) -> (WorkSide, Turn)
        requires { IsWorkSide context.shared.now self }
        ensures own { IsWorkSide context.entry.shared.now result.0 }
        ensures share { result.0.desk.ready.share ≡ self.desk.ready.share }
        ensures idle { result.1 ≡ Turn.Idle → result.0.desk.kept ≡ [] }
        ensures posted { (may_stay ≡ false) ⊎ (result.1 ≡ Turn.Idle) → result.0.outbox.items ≡ [] }
    {
        let WorkSide {
            mut desk,
            mut worker,
            mut outbox,
        } = self;
        let mut last = Turn::Moved;
        for _run in 0..RUNS {
            let (next, turn, _is_silent) = work_round(context, &mut desk, worker, &mut outbox);
            worker = next;
            last = turn;
            if turn == Turn::Idle {
                break;
            }
        }
        let answers = outbox.len();
        if may_stay && 0 < answers && answers < STAYING {
            last = Turn::Moved;
        } else {
            post_all(context, &mut outbox);
            desk.report(&context.shared.counters);
        }
        let own = WorkSide {
            desk,
            worker,
            outbox,
        };
        (own, last)
    }

    /// The same, which wakes no others any more, and shares nothing with them.
    pub(crate) fn alone(self) -> WorkSide
        ensures { result ≡ self }
    {
        let WorkSide {
            mut desk,
            worker,
            outbox,
        } = self;
        desk.part();
        WorkSide {
            desk,
            worker,
            outbox,
        }
    }

    /// The passes, once it is served no more.
    pub(crate) fn parts(self) -> (Worker, ReadyPass)
        ensures { (result.0 ≡ self.worker) × (result.1 ≡ self.desk.ready) }
    {
        let WorkSide { desk, worker, .. } = self;
        (worker, desk.parts())
    }
}

/// Serves the worker of the poller's thread, where it has one that is called. Whether there was nothing to do.
fn serve_own<R: Wait, G: Turnstile>(
    context: Context<'_, R, G>,
    is_called: bool,
    may_stay: bool,
    own: &mut Option<WorkSide>,
) -> Turn
    requires { MayOwn context.shared.now own.old }
    ensures own { MayOwn context.entry.shared.now own.new }
    ensures same { (own_in own.new ≡ own_in own.old) × (own_share own.new ≡ own_share own.old) }
    ensures idle { is_called ≡ true → result ≡ Turn.Idle → IfSome own.new (λ w. w.desk.kept ≡ []) }
    ensures posted { is_called ≡ true → (may_stay ≡ false) ⊎ (result ≡ Turn.Idle) → IfSome own.new (λ w. w.outbox.items ≡ []) }
{
    if !is_called {
        return Turn::Idle;
    }
    let Some(worker) = own.take() else {
        return Turn::Idle;
    };
    let (worker, turn) = worker.serve(context, may_stay);
    *own = Some(worker);
    turn
}

/// The thread of the poller. It ends once it is told to: at once, or, where the runtime is to come to rest, after `SETTLED` turns in a
/// row that did nothing. After `idle` idle turns in a row it sleeps until it is rung, unless its clock asks for something. It gives back
/// what it was given, and the clock has gone along with what the poller has seen.
pub(crate) fn poll<R: Wait, G: Turnstile, C: Clock>(
    context: Context<'_, R, G>,
    idle: u32,
    mut side: PollSide<C>,
) -> PollSide<C>
    requires { IsPollSide C.follows context.shared.now side }
    ensures side { IsPollSide C.follows context.entry.shared.now result }
    ensures shares { HasShares side.desk.ready.share side.own result }
{
    let Context { rt, shared, .. } = context;
    let mut idling = Idling {
        most: idle.max(1),
        count: 0,
    };
    let (mut still, mut called, mut given) = (0u32, 0u32, 0u32);
    let mut served = Turn::Moved;
    for _ in rt.forever() {
        shared.counters.turn();
        let turn = poll_round(context, &mut side).unwrap_or(Turn::Moved);
        let handed = side.desk.handed();
        shared.counters.give(u64::from(handed.wrapping_sub(given)));
        given = handed;
        shared.counters.turn();
        let puts = side.desk.puts();
        call_for(&mut side.caller, puts.wrapping_sub(called));
        let is_called = served == Turn::Moved || puts != called;
        let may_stay = puts != called && side.desk.has_waiting();
        served = serve_own(context, is_called, may_stay, &mut side.own);
        called = puts;
        let has_moved = side.desk.has_moved() || served == Turn::Moved;
        still = if has_moved {
            0
        } else {
            still.saturating_add(1)
        };
        let is_over = side.desk.is_over();
        if is_over && (SETTLED <= still || !shared.is_resting.load(Ordering::SeqCst)) {
            shared.is_over.store(true, Ordering::SeqCst);
            side.caller.call_all();
            return side;
        }
        if idling.note(both(turn, served)) && side.clock.ask().is_none() && !is_over {
            rest(rt, &shared.bell, &mut side.desk);
        } else if !has_moved {
            pause(if is_over { 0 } else { still }, SPINS);
        }
    }
    unreachable!()
}

/// The thread of a worker. What it answered is posted at the first turn that answers nothing, or once the outbox lacks room for
/// another turn. It ends once the workers are told to: after a turn that answers nothing, or, where the runtime is to come to rest, after
/// one that finds nothing to do, or after many that answer nothing, since no memory is found, say. It gives back what it was given.
pub(crate) fn work<R: Wait, G: Turnstile>(
    context: Context<'_, R, G>,
    side: WorkSide,
    mut listener: Listener,
) -> WorkSide
    requires { IsWorkSide context.shared.now side }
    ensures side { IsWorkSide context.entry.shared.now result }
    ensures share { result.desk.ready.share ≡ side.desk.ready.share }
    ensures posted { result.outbox.items ≡ [] }
{
    let WorkSide {
        mut desk,
        mut worker,
        mut outbox,
    } = side;
    let Context { rt, shared, .. } = context;
    let mut silent = 0u32;
    for _ in rt.forever() {
        let (next, turn, is_silent) = work_round(context, &mut desk, worker, &mut outbox);
        worker = next;
        if !is_silent {
            silent = 0;
            continue;
        }
        post_all(context, &mut outbox);
        desk.report(&shared.counters);
        let is_done = turn == Turn::Idle || AWAKE <= silent;
        if shared.is_over.load(Ordering::SeqCst)
            && (is_done || !shared.is_resting.load(Ordering::SeqCst))
        {
            desk.part();
            return WorkSide {
                desk,
                worker,
                outbox,
            };
        }
        if silent < AWAKE {
            pause(silent, WORK_SPINS);
            silent += 1;
        } else {
            (worker, listener) = doze(context, &mut desk, worker, &mut outbox, listener);
        }
    }
    unreachable!()
}
