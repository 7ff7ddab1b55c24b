//! The end of a runtime.
ghost use Rattle.std.specs.Prelude.{◌≡◌, ◌≢◌, ◌↔◌, ◌≤◌, ◌++◌, ◌∷◌, [], List, length, map, vec_capacity, IfOk, IfErr, IsTrue};
ghost use Rattle.std.specs.Arc.{arc_value};
ghost use Rattle.steps.specs.declared.view.Role.{Role};
ghost use Rattle.work.specs.Passes.{Pass, seen_of};
ghost use Rattle.board.specs.Reports.{AreOf, IsReport};
ghost use Rattle.runtime.specs.{AreClients, submitter_of, without_tail, IsDrained, worker_of, CameToRest, HasRested, IsHalted};
ghost use Rattle.runtime.specs.declared.error.JoinError.TheVariants.{Missing};

use crate::client::Client;
use crate::error::JoinError;
use crate::shared::Shared;
use crate::started::{Ends, Runtime, Stopped, publish_end};
use board::{Board, Report, ReportRoom, Submitter};
use controls::Clock;
use std::alloc::Global;
use std::sync::{Arc, Wait};
use std::thread;
use std::thread::Threads;

/// The runtime and its clients, which come back where it isn't ended.
#[derive(Drop)]
pub struct Unjoined<C: Clock> {
    pub error: JoinError,
    pub runtime: Runtime<C>,
    pub clients: Vec<Client>,
}

impl<C: Clock> Unjoined<C> {
    /// The runtime and its clients, and why it isn't ended.
    fn new(error: JoinError, runtime: Runtime<C>, clients: Vec<Client>) -> Unjoined<C>
        ensures { (result.error ≡ error) × (result.runtime ≡ runtime) × (result.clients ≡ clients) }
    {
        Unjoined {
            error,
            runtime,
            clients,
        }
    }
}

impl<C: Clock + Drop> Unjoined<C> {
    /// Ends the threads after all, without a report, and tells why there is none: all threads are told to end, and it waits for them.
    /// It needs no memory. The poller is told by the client of ring 0, and where that one is missing this waits on.
    pub fn abandon<R: Threads>(self, rt: &R) -> JoinError
        ensures { result ≡ self.error }
    {
        let Unjoined {
            error,
            runtime,
            mut clients,
        } = self;
        publish_end(&mut clients);
        drop(runtime.stop(rt));
        error
    }
}

/// The passes of the clients of this board, in order. There is room for them.
fn submitters_of(
    board: &Board,
    mut clients: Vec<Client>,
    mut submitters: Vec<Submitter>,
) -> Vec<Submitter>
    requires own { AreClients board.now clients.items }
    requires room { (submitters.items ≡ []) × (length clients.items ≤ vec_capacity submitters) }
    ensures order { result.items ≡ map submitter_of clients.items }
    ensures own { AreOf board.now result.items }
{
    let _ = board;
    while let Some(client) = clients.pop() {
        submitters.push_reserved(client.into_submitter());
    }
    submitters.reverse();
    submitters
}

/// What is shared, once no one else shares it.
fn sole<R: Wait>(rt: &R, mut shared: Arc<Shared>) -> Shared
    ensures { result ≡ arc_value shared }
{
    for _ in rt.forever() {
        match Arc::try_unwrap(shared) {
            Ok(own) => return own,
            Err(back) => shared = back,
        }
        thread::yield_now();
    }
    unreachable!()
}

/// Ends the ready queue and the board of a runtime whose threads have ended, and whose clients are these. It gives back the clock, and
/// tells whether the ready queue was empty.
fn end<R: Wait, C: Clock>(rt: &R, halted: Halted<C>) -> (Report, C, bool)
    requires { IsHalted halted }
    ensures report { IsReport halted.stopped.shared.board (halted.stopped.desk.poller ∷ (map submitter_of halted.clients.items ++ map worker_of halted.stopped.workers)) result.0 }
    ensures follows { C.follows result.1 (seen_of halted.stopped.desk.poller) × (halted.stopped.desk.poller.view.role ≡ Role.Poller (length halted.stopped.shared.board.layout.cells)) }
    ensures drained { IsTrue result.2 → IsDrained halted.stopped.desk halted.stopped.workers }
{
    let Halted {
        stopped,
        clients,
        submitters,
        report,
    } = halted;
    let (shared, ends) = stopped.parts();
    let Ends {
        poller,
        workers,
        passes,
        room,
        clock,
    } = ends;
    let submitters = submitters_of(&shared.board, clients, submitters);
    let Shared { board, queue, .. } = sole(rt, shared);
    let left = queue.gather_in(rt, passes, room);
    let is_drained = left.is_empty();
    let report = board.finish_in(poller, submitters, workers, report);
    (report, clock, is_drained)
}

/// A runtime whose threads have ended, its clients, and the room for its end.
#[derive(Drop)]
pub(crate) struct Halted<C: Clock> {
    pub stopped: Stopped<C>,
    pub clients: Vec<Client>,
    pub submitters: Vec<Submitter>,
    pub report: ReportRoom,
}

/// Tells all threads to end, at once or where the runtime is at rest, and waits for them.
fn halt<R: Threads, C: Clock>(
    rt: &R,
    alloc: Global,
    runtime: Runtime<C>,
    clients: Vec<Client>,
    at_rest: bool,
) -> Result<Halted<C>, Unjoined<C>>
    requires own { AreClients runtime.board clients.items }
    ensures halted { IfOk result IsHalted }
    ensures same { IfOk result (λ h. (h.stopped.shared.board ≡ runtime.board) × (map without_tail h.clients.items ≡ map without_tail clients.items)) }
    ensures complete { IfOk result (λ _. length clients.items ≡ length runtime.board.layout.cells) }
    ensures missing { IfErr result (λ u. (u.error ≡ Missing) ↔ (length clients.items ≢ length runtime.board.layout.cells)) }
    ensures back { IfErr result (λ u. (u.runtime.board ≡ runtime.board) × (map without_tail u.clients.items ≡ map without_tail clients.items)) }
    ensures early { IfErr result (λ u. u.error ≢ JoinError.Shared → (u.runtime ≡ runtime) × (u.clients.items ≡ clients.items)) }
    ensures late { IfErr result (λ u. u.error ≡ JoinError.Shared → u.runtime.threads ≡ 0) }
{
    let mut clients = clients;
    if clients.len() != runtime.rings() {
        return Err(Unjoined::new(JoinError::Missing, runtime, clients));
    }
    let Ok(report) = runtime.make_room(alloc) else {
        return Err(Unjoined::new(JoinError::Memory, runtime, clients));
    };
    let Ok(submitters) = Vec::with_capacity(alloc, clients.len()) else {
        drop(report);
        return Err(Unjoined::new(JoinError::Memory, runtime, clients));
    };
    if at_rest {
        runtime.let_rest();
    }
    publish_end(&mut clients);
    let stopped = runtime.stop(rt);
    if !stopped.is_shared_by(clients.len()) {
        let runtime = stopped.resumed();
        return Err(Unjoined::new(JoinError::Shared, runtime, clients));
    }
    Ok(Halted {
        stopped,
        clients,
        submitters,
        report,
    })
}

/// Ends a runtime: it tells all threads to end, waits for them, and ends the board. The report has each request that no client has
/// taken; those without a reply are cut off with -125 (ECANCELED).
///
/// `Missing` comes only where a client is not among those handed in, and `Memory` where the report's room isn't found; both before
/// any thread is told to end. `Shared` comes where the board was not given up though all threads have ended. After each of them it may
/// be called again.
pub fn join_all<R: Threads + Wait, C: Clock + Drop>(
    rt: &R,
    alloc: Global,
    runtime: Runtime<C>,
    clients: Vec<Client>,
) -> Result<Report, Unjoined<C>>
    requires own { AreClients runtime.board clients.items }
    ensures report { IfOk result (λ r. (poller : Pass) × (workers : List Pass) × IsReport runtime.board (poller ∷ (map submitter_of clients.items ++ workers)) r) }
    ensures complete { IfOk result (λ _. length clients.items ≡ length runtime.board.layout.cells) }
    ensures missing { IfErr result (λ u. (u.error ≡ Missing) ↔ (length clients.items ≢ length runtime.board.layout.cells)) }
    ensures back { IfErr result (λ u. (u.runtime.board ≡ runtime.board) × (map without_tail u.clients.items ≡ map without_tail clients.items)) }
    ensures early { IfErr result (λ u. u.error ≢ JoinError.Shared → (u.runtime ≡ runtime) × (u.clients.items ≡ clients.items)) }
    ensures late { IfErr result (λ u. u.error ≡ JoinError.Shared → u.runtime.threads ≡ 0) }
{
    let halted = halt(rt, alloc, runtime, clients, false)?;
    let (report, _clock, _is_drained) = end(rt, halted);
    Ok(report)
}

/// What is left of a runtime that came to rest: its report, its clock, and whether it did come to rest, which takes memory.
#[derive(Drop)]
pub struct Rested<C> {
    pub report: Report,
    pub clock: C,
    pub is_at_rest: bool,
}

/// As `join_all`, once the runtime is at rest: all that was submitted by the tails which the poller read last is taken up, the ready
/// queue is empty, no worker keeps a number, no timer is due, and no request that waits could go on. It waits until the clock asks for
/// nothing more, which no clause says; where that never comes, this waits on. The threads make their turns until nothing happens any
/// more; then they end, and this one makes the last turns.
pub fn join_at_rest<R: Threads + Wait, C: Clock>(
    rt: &R,
    alloc: Global,
    runtime: Runtime<C>,
    clients: Vec<Client>,
) -> Result<Rested<C>, Unjoined<C>>
    requires own { AreClients runtime.board clients.items }
    ensures ended { IfOk result (λ e. (poller : Pass) × (workers : List Pass) × IsReport runtime.board (poller ∷ (map submitter_of clients.items ++ workers)) e.report × C.follows e.clock (seen_of poller) × (poller.view.role ≡ Role.Poller (length runtime.board.layout.cells)) × (IsTrue e.is_at_rest → CameToRest runtime.board poller workers)) }
    ensures complete { IfOk result (λ _. length clients.items ≡ length runtime.board.layout.cells) }
    ensures missing { IfErr result (λ u. (u.error ≡ Missing) ↔ (length clients.items ≢ length runtime.board.layout.cells)) }
    ensures back { IfErr result (λ u. (u.runtime.board ≡ runtime.board) × (map without_tail u.clients.items ≡ map without_tail clients.items)) }
    ensures early { IfErr result (λ u. u.error ≢ JoinError.Shared → (u.runtime ≡ runtime) × (u.clients.items ≡ clients.items)) }
    ensures late { IfErr result (λ u. u.error ≡ JoinError.Shared → u.runtime.threads ≡ 0) }
{
    let halted = halt(rt, alloc, runtime, clients, true)?;
    let (halted, is_settled) = halted.settle(rt);
    let (report, clock, is_drained) = end(rt, halted);
    let is_at_rest = is_drained && is_settled;
    Ok(Rested {
        report,
        clock,
        is_at_rest,
    })
}

impl<C: Clock> Halted<C> {
    /// `Stopped::settle`.
    fn settle<R: Wait>(self, rt: &R) -> (Halted<C>, bool)
        requires { IsHalted self }
        ensures halted { IsHalted result.0 }
        ensures same { (result.0.stopped.shared.board ≡ self.stopped.shared.board) × (result.0.clients ≡ self.clients) }
        ensures rest { IsTrue result.1 → HasRested result.0.stopped.shared.board result.0.stopped.shared.queue result.0.stopped.desk result.0.stopped.workers }
    {
        let Halted {
            stopped,
            clients,
            submitters,
            report,
        } = self;
        let (stopped, is_settled) = stopped.settle(rt);
        let halted = Halted {
            stopped,
            clients,
            submitters,
            report,
        };
        (halted, is_settled)
    }
}
