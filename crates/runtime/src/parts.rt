//! What a new runtime is made of: what its threads share, all passes that go with it, and its clients.
//! Where something is refused, what was made by then is dropped by a call: the prover goes through that sooner than through drops that
//! nobody wrote.
ghost use Rattle.std.specs.Prelude.{◌≡◌, ◌+◌, ◌<◌, ◌≤◌, All, false, length, sum_by, Err, IfOk};
ghost use Rattle.std.specs.Arc.{arc_value};
ghost use Rattle.ready.specs.{IsQueuePass, all_shares};
ghost use Rattle.bell.specs.BellPasses.{IsSleeperOf};
ghost use Rattle.event_count.specs.Passes.{IsNotifierOf, IsWaiterOf};
ghost use Rattle.board.specs.{AreSubmitters, is_shape};
ghost use Rattle.runtime.specs.{AreNewClients, AreRingers, HavePairs, IsParts};
ghost use Rattle.runtime.specs.declared.error.StartError.TheVariants.{BadShape};

use crate::client::Client;
use crate::crew::WorkerParts;
use crate::error::{Memory, StartError};
use crate::held::Held;
use crate::locks::{PostLock, PostLocks};
use crate::poll::places_of;
use crate::shared::Shared;
use crate::sleeping::{Caller, Listener};
use bell::{Bell, Ringer, Sleeper};
use board::{Board, BoardError, Poller, RingShape, Shape, Submitter, Worker};
use compring::CompletionRing;
use event_count::{EventCount, Notifier, Waiter};
use ready::{ReadyPass, ReadyQueue};
use std::alloc::Global;
use std::sync::Arc;

/// What the threads of a new runtime share, and all passes that go with it.
#[derive(Drop)]
pub(crate) struct Parts {
    pub shared: Shared,
    pub poller: PollerParts,
    pub clients: ClientParts,
    pub workers: WorkerParts,
}

/// The passes of the poller: of the board, of the bell and of the ready queue; and who wakes the workers.
#[derive(Drop)]
pub(crate) struct PollerParts {
    pub poller: Poller,
    pub sleeper: Sleeper,
    pub ready: ReadyPass,
    pub caller: Caller,
}

/// The passes of the clients, of the board, of the bell and of the event counts of their rings, in the order of the rings.
#[derive(Drop)]
pub(crate) struct ClientParts {
    pub submitters: Vec<Submitter>,
    pub ringers: Vec<Ringer>,
    pub listeners: Vec<Listener>,
}

/// The listeners of these waiters, none of which has entered.
fn listeners_of(
    alloc: Global,
    count: &Arc<EventCount>,
    mut waiters: Vec<Waiter>,
) -> Result<Vec<Listener>, Memory>
    requires { All (λ w. IsWaiterOf (arc_value count.now) w × (w.entered ≡ false)) waiters.items }
    ensures { IfOk result (λ v. length v.items ≡ length waiters.items) }
{
    let mut listeners = Vec::with_capacity(alloc, waiters.len())?;
    while let Some(waiter) = waiters.pop() {
        let Ok(theirs) = Arc::try_clone(count) else {
            drop((waiter, waiters, listeners));
            return Err(Memory);
        };
        listeners.push_reserved(Listener::new(theirs, waiter));
    }
    Ok(listeners)
}

/// The callers of these notifiers.
fn callers_of(
    alloc: Global,
    count: &Arc<EventCount>,
    mut notifiers: Vec<Notifier>,
) -> Result<Vec<Caller>, Memory>
    requires { All (λ n. IsNotifierOf (arc_value count.now) n) notifiers.items }
    ensures { IfOk result (λ v. length v.items ≡ length notifiers.items) }
{
    let mut callers = Vec::with_capacity(alloc, notifiers.len())?;
    while let Some(notifier) = notifiers.pop() {
        let Ok(theirs) = Arc::try_clone(count) else {
            drop((notifier, notifiers, callers));
            return Err(Memory);
        };
        callers.push_reserved(Caller::new(theirs, notifier));
    }
    Ok(callers)
}

/// An event count with this many listeners, and this many who call them.
fn event_count_of(
    alloc: Global,
    listeners: u16,
    callers: u16,
) -> Result<(Vec<Listener>, Vec<Caller>), Memory>
    ensures { IfOk result (λ t. (length t.0.items ≡ listeners) × (length t.1.items ≡ callers)) }
{
    let Ok((count, waiters, notifiers)) = EventCount::new(alloc, listeners, callers) else {
        return Err(Memory);
    };
    let count = match Arc::new(alloc, count) {
        Ok(count) => count,
        Err(refused) => {
            drop((refused, waiters, notifiers));
            return Err(Memory);
        }
    };
    let Ok(listeners) = listeners_of(alloc, &count, waiters) else {
        drop((count, notifiers));
        return Err(Memory);
    };
    let Ok(callers) = callers_of(alloc, &count, notifiers) else {
        drop((count, listeners));
        return Err(Memory);
    };
    Ok((listeners, callers))
}

/// The passes of the workers, with those of their event count, and the poller's caller.
fn crew_of(
    alloc: Global,
    workers: Vec<Worker>,
    passes: Vec<ReadyPass>,
) -> Result<(WorkerParts, Caller), Memory>
    requires { (length workers.items < 65535) × (length passes.items ≡ length workers.items) }
    ensures { IfOk result (λ t. HavePairs t.0 × (t.0.workers ≡ workers) × (t.0.passes ≡ passes)) }
{
    let count = workers.len() as u16;
    let Ok((listeners, mut callers)) = event_count_of(alloc, count, count + 1) else {
        drop((workers, passes));
        return Err(Memory);
    };
    let Some(caller) = callers.pop() else {
        unreachable!()
    };
    let parts = WorkerParts {
        workers,
        passes,
        listeners,
        callers,
    };
    Ok((parts, caller))
}

/// An event count of one listener, and one who calls it.
fn pair_of(alloc: Global) -> Result<(Listener, Caller), Memory> {
    let (mut listeners, mut callers) = event_count_of(alloc, 1, 1)?;
    let (Some(listener), Some(caller)) = (listeners.pop(), callers.pop()) else {
        unreachable!()
    };
    Ok((listener, caller))
}

/// The completion ring of each ring, under its lock: of this many posts as it says, else of twice as many as it has cells. And the
/// listener of each ring's client.
fn posts_of(alloc: Global, rings: &[RingShape]) -> Result<(PostLocks, Vec<Listener>), Memory>
    requires { length rings.now ≤ 16 }
    ensures { IfOk result (λ t. (t.0 ≡ length rings.now) × (length t.1.items ≡ length rings.now)) }
{
    let mut posts = Vec::with_capacity(alloc, rings.len())?;
    let mut listeners = Vec::with_capacity(alloc, rings.len())?;
    let mut owner = 0u16;
    for ring in rings {
        let size = ring.posts.unwrap_or(ring.cells.saturating_mul(2));
        let Ok(completions) = CompletionRing::for_ring(alloc, size, owner) else {
            drop((posts, listeners));
            return Err(Memory);
        };
        let Ok((listener, caller)) = pair_of(alloc) else {
            drop((completions, posts, listeners));
            return Err(Memory);
        };
        listeners.push_reserved(listener);
        posts.push_reserved(PostLock::new(completions, caller));
        owner += 1;
    }
    Ok((PostLocks::new(posts), listeners))
}

/// A new bell and its passes.
fn bell_of(alloc: Global, rings: u16) -> Result<(Bell, Vec<Ringer>, Sleeper), Memory>
    ensures rings { IfOk result (λ t. t.0.rings ≡ rings) }
    ensures ringers { IfOk result (λ t. AreRingers t.0 0 t.1.items × (length t.1.items ≡ rings)) }
    ensures sleeper { IfOk result (λ t. IsSleeperOf t.0 t.2) }
{
    match Bell::new(alloc, rings) {
        Ok((bell, ringers, sleeper)) => Ok((bell, ringers, sleeper)),
        Err(_) => Err(Memory),
    }
}

/// A new ready queue, the poller's pass, and as many others.
fn queue_of(
    alloc: Global,
    places: u32,
    others: u32,
) -> Result<(ReadyQueue, ReadyPass, Vec<ReadyPass>), Memory>
    requires { (0 < places) × (others < 4294967295) }
    ensures ready { IfOk result (λ t. IsQueuePass t.0 t.1) }
    ensures passes { IfOk result (λ t. All (λ p. IsQueuePass t.0 p) t.2.items) }
    ensures count { IfOk result (λ t. length t.2.items ≡ others) }
    ensures shares { IfOk result (λ t. t.1.share + sum_by (λ p. p.share) t.2.items ≡ all_shares) }
{
    let Ok((queue, mut passes)) = ReadyQueue::new(alloc, places, others + 1) else {
        return Err(Memory);
    };
    let Some(ready) = passes.pop() else {
        unreachable!()
    };
    Ok((queue, ready, passes))
}

/// What a new runtime is made of.
pub(crate) fn parts_of(alloc: Global, shape: &Shape) -> Result<Parts, StartError>
    ensures parts { IfOk result (IsParts shape.now) }
    ensures bad_shape { result ≡ Err BadShape → is_shape shape.now ≡ false }
    ensures refused { is_shape shape.now ≡ false → result ≡ Err BadShape }
{
    let (board, poller, submitters, workers) = match Board::new(alloc, shape) {
        Ok(made) => made,
        Err(BoardError::BadShape) => return Err(StartError::BadShape),
        Err(BoardError::Memory) => return Err(StartError::Memory),
    };
    let places = places_of(shape.rings.as_slice()).clamp(1, 65_536) as u32;
    let Ok((bell, ringers, sleeper)) = bell_of(alloc, shape.rings.len() as u16) else {
        drop((board, poller, submitters, workers));
        return Err(StartError::Memory);
    };
    let Ok((queue, ready, passes)) = queue_of(alloc, places, shape.workers) else {
        drop((board, poller, submitters, workers, bell, ringers, sleeper));
        return Err(StartError::Memory);
    };
    let Ok((posts, listeners)) = posts_of(alloc, shape.rings.as_slice()) else {
        drop((board, poller, submitters, workers, bell, ringers, sleeper));
        drop((queue, ready, passes));
        return Err(StartError::Memory);
    };
    let Ok((workers, caller)) = crew_of(alloc, workers, passes) else {
        drop((board, poller, submitters, bell, ringers, sleeper));
        drop((queue, ready, posts, listeners));
        return Err(StartError::Memory);
    };
    Ok(Parts {
        shared: Shared::new(board, bell, queue, posts),
        poller: PollerParts {
            poller,
            sleeper,
            ready,
            caller,
        },
        clients: ClientParts {
            submitters,
            ringers,
            listeners,
        },
        workers,
    })
}

/// The clients of all rings, in order.
pub(crate) fn clients_of(
    alloc: Global,
    shared: &Arc<Shared>,
    parts: ClientParts,
) -> Result<Vec<Client>, Memory>
    requires submitters { AreSubmitters (arc_value shared.now).board 0 parts.submitters.items }
    requires ringers { AreRingers (arc_value shared.now).bell 0 parts.ringers.items }
    requires count { (length parts.ringers.items ≡ length parts.submitters.items) × (length parts.listeners.items ≡ length parts.submitters.items) }
    ensures clients { IfOk result (λ v. AreNewClients (arc_value shared.now).board 0 v.items × (length v.items ≡ length parts.submitters.items)) }
{
    let ClientParts {
        mut submitters,
        mut ringers,
        mut listeners,
    } = parts;
    let places = shared.board.widest() as usize;
    let mut clients = Vec::with_capacity(alloc, submitters.len())?;
    while let Some(submitter) = submitters.pop() {
        let Some(ringer) = ringers.pop() else {
            unreachable!()
        };
        let Some(listener) = listeners.pop() else {
            unreachable!()
        };
        let Ok(theirs) = Arc::try_clone(shared) else {
            drop((submitter, ringer, listener));
            drop((submitters, ringers, listeners, clients));
            return Err(Memory);
        };
        let Ok(held) = Held::empty(alloc, submitter.ring(), places) else {
            drop((theirs, submitter, ringer, listener));
            drop((submitters, ringers, listeners, clients));
            return Err(Memory);
        };
        clients.push_reserved(Client::new(theirs, submitter, ringer, held, listener));
    }
    clients.reverse();
    Ok(clients)
}
