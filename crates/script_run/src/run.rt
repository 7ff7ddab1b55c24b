//! A script carried out.
ghost use Rattle.std.specs.Prelude.{◌≡◌, ◌≤◌, ◌⊎◌, ℕ, [], ◌∷◌, ◌++◌, List, None, Some, All, length, map, vec_capacity, IfOk, IfErr, IfSome};
ghost use Rattle.std.specs.String.{string_bytes};
ghost use Rattle.steps.specs.declared.view.Role.TheVariants.{Poller};
ghost use Rattle.work.specs.Passes.{Pass, seen_of};
ghost use Rattle.board.specs.Reports.{IsReport};
ghost use Rattle.runtime.specs.{AreClients, submitter_of, CameToRest};
ghost use Rattle.script.specs.{AreRequests, rows_of, IsTableOf};
ghost use Rattle.script_run.specs.{AreNew, client_of, taken_by, AreClockLines, IsAtLine, AreStarting, IsPlayed, IsStartedFor, HasRun, HasLabel, IsStuck, IsStuckOn, IfStuckOn, IsUnstuck, IsLowest};
ghost use Rattle.script_run.specs.declared.lines.Halt.TheVariants.{Stuck};

use crate::actor::Actor;
use crate::barrier::Barrier;
use crate::clock::{ClockLine, Ended, LineClock, Progress, lines_of};
use crate::fault::RunFault;
use crate::lines::Halt;
use crate::rows::table_of;
use crate::stage::Stage;
use crate::threads::carry_all;
use board::{Completion, Report, RingShape, Shape};
use controls::Turnstile;
use history::Req;
use runtime::{Client, Rested, Runtime, join_all, join_at_rest, start};
use script::{Script, Table, requests_of};
use std::alloc::{AllocError, Global};
use std::sync::{Arc, Wait};
use std::thread::Threads;

/// After how many idle turns in a row the poller sleeps.
const IDLE: u32 = 64;

/// Carries a script out on a runtime with this many workers, and gives its table. Each ring has a thread of its own, and the clock's
/// lines are carried out by the poller's, one try a turn. A `wait` or `armed` line, and a `submit` line whose cells aren't all free,
/// is tried at most `turns` times: between two tries a ring's thread sleeps for a while, and not at all once nothing can go on. After
/// the last line the run ends once the runtime is at rest; what has no reply by then is cut off with -125 (ECANCELED). Each thread of the
/// runtime goes through the turnstile with each request.
pub fn run_script<
    R: Threads + Wait + Copy + Send + Sync + 'static,
    G: Turnstile + Send + Sync + Drop + 'static,
>(
    rt: &R,
    alloc: Global,
    script: &Script,
    workers: u32,
    turns: u32,
    turnstile: G,
) -> Result<Table, RunFault>
    ensures table { IfOk result (λ table. IsTableOf script.now (rows_of table)) }
    ensures run { IfOk result (λ table. HasRun script.now workers table.lines.items) }
    ensures stuck { IfErr result (IfStuckOn (IsStuck script.now workers turns)) }
{
    let requests = requests_of(alloc, script)?;
    let shape = shape_of(alloc, script, workers)?;
    let room = room_of(alloc, script.rings.len())?;
    let lines = lines_of(alloc, script, requests.as_slice())?;
    let (clock, progress) = clock_of(alloc, script, requests.as_slice(), turns)?;
    let (runtime, clients) = start(*rt, alloc, &shape, IDLE, turnstile, clock)?;
    let barrier = Barrier::new(script.rings.len() as u64, progress);
    let stage = Stage {
        alloc,
        script,
        requests: requests.as_slice(),
        turns,
        barrier: &barrier,
    };
    run_lines(rt, &stage, runtime, clients, room, lines.as_slice())
}

/// The clock of a run, and how far it has come.
fn clock_of(
    alloc: Global,
    script: &Script,
    requests: &[Option<Req>],
    turns: u32,
) -> Result<(LineClock, Arc<Progress>), RunFault>
    requires { AreRequests script.now requests.now }
    ensures clock { IfOk result (λ t. IsAtLine t.0.lines.items t.0.next t.0.tries t.0.most t.0.is_stuck []) }
    ensures unstuck { IfErr result IsUnstuck }
{
    let lines = lines_of(alloc, script, requests)?;
    let made = LineClock::new(alloc, lines, turns)?;
    Ok(made)
}

/// Empty lists with room for the actors of all rings, and for their clients, so that once the threads have started no list of them
/// needs memory.
#[derive(Drop)]
struct Room {
    actors: Vec<Actor>,
    clients: Vec<Client>,
}

/// Room for the actors and clients of this many rings.
fn room_of(alloc: Global, rings: usize) -> Result<Room, AllocError>
    ensures actors { IfOk result (λ r. (r.actors.items ≡ []) × (rings ≤ vec_capacity r.actors)) }
    ensures clients { IfOk result (λ r. (r.clients.items ≡ []) × (rings ≤ vec_capacity r.clients)) }
{
    let actors = Vec::with_capacity(alloc, rings)?;
    let clients = Vec::with_capacity(alloc, rings)?;
    Ok(Room { actors, clients })
}

/// Carries all lines out on a runtime that was started for the script, and gives the table. There is room for its actors and clients.
fn run_lines<R: Threads + Wait + Sync>(
    rt: &R,
    stage: &Stage<'_>,
    runtime: Runtime<LineClock>,
    clients: Vec<Client>,
    room: Room,
    lines: &[ClockLine],
) -> Result<Table, RunFault>
    requires requests { AreRequests stage.now.script.now stage.now.requests.now }
    requires started { (w : ℕ) × IsStartedFor stage.now.script.now w runtime.board clients.items }
    requires actors { (room.actors.items ≡ []) × (length clients.items ≤ vec_capacity room.actors) }
    requires clients { (room.clients.items ≡ []) × (length clients.items ≤ vec_capacity room.clients) }
    requires lines { AreClockLines stage.now.script.now stage.now.script.now.clock.items lines.now }
    ensures table { IfOk result (λ table. IsTableOf stage.now.script.now (rows_of table)) }
    ensures run { (w : ℕ) → IsStartedFor stage.now.script.now w runtime.board clients.items → IfOk result (λ table. HasRun stage.now.script.now w table.lines.items) }
    ensures stuck { (w : ℕ) → IsStartedFor stage.now.script.now w runtime.board clients.items → IfErr result (IfStuckOn (IsStuck stage.now.script.now w stage.now.turns)) }
{
    let Room {
        actors,
        clients: back,
    } = room;
    let actors = actors_of(stage.alloc, clients, actors);
    let (taken, report) = play(rt, stage, runtime, actors, back, lines)?;
    table_of(
        stage.alloc,
        stage.script,
        stage.requests,
        taken.as_slice(),
        report.lines(),
    )
}

/// The board that a script asks for.
fn shape_of(alloc: Global, script: &Script, workers: u32) -> Result<Shape, AllocError>
    ensures { IfOk result (λ s. (length s.rings.items ≡ length script.now.rings.items) × (s.pipes.items ≡ script.now.pipes.items) × (s.workers ≡ workers)) }
{
    let mut rings = Vec::new(alloc);
    for (cells, posts) in &script.rings {
        rings.push(RingShape {
            cells: *cells,
            posts: *posts,
        })?;
    }
    Ok(Shape {
        rings,
        pipes: Vec::from_slice(alloc, script.pipes.as_slice())?,
        workers,
    })
}

/// The actors of these clients, in order. There is room for them.
fn actors_of(alloc: Global, mut clients: Vec<Client>, mut actors: Vec<Actor>) -> Vec<Actor>
    requires none { actors.items ≡ [] }
    requires room { length clients.items ≤ vec_capacity actors }
    ensures clients { map client_of result.items ≡ clients.items }
    ensures new { AreNew result.items }
    ensures room { length result.items ≤ vec_capacity result }
{
    clients.reverse();
    while let Some(client) = clients.pop() {
        actors.push_reserved(Actor::new(alloc, client));
    }
    actors
}

/// Carries all lines out, and ends the runtime: the completions that the clients took, and the report of all others. These are the
/// lines of the script's clock, and there is room for the clients. Whatever comes, all threads have ended.
fn play<R: Threads + Wait + Sync>(
    rt: &R,
    stage: &Stage<'_>,
    runtime: Runtime<LineClock>,
    actors: Vec<Actor>,
    clients: Vec<Client>,
    lines: &[ClockLine],
) -> Result<(Vec<Completion>, Report), RunFault>
    requires requests { AreRequests stage.now.script.now stage.now.requests.now }
    requires actors { AreStarting stage.now.script.now runtime.board actors.items }
    requires room { length actors.items ≤ vec_capacity actors }
    requires clients { (clients.items ≡ []) × (length actors.items ≤ vec_capacity clients) }
    requires lines { AreClockLines stage.now.script.now stage.now.script.now.clock.items lines.now }
    ensures played { IfOk result (λ t. IsPlayed stage.now.script.now runtime.board t.0.items t.1) }
    ensures stuck { IfErr result (IfStuckOn (IsStuckOn stage.now.script.now stage.now.turns runtime.board)) }
{
    let actors = carry_all(rt, stage, actors);
    let halt = halt_of(actors.as_slice());
    let (clients, taken) = parts_of(stage.alloc, actors, clients);
    if let Some(halt) = halt {
        end_at_once(rt, stage.alloc, runtime, clients);
        return Err(fault_of(stage, halt));
    }
    let (report, clock) = end_at_rest(rt, stage.alloc, runtime, clients)?;
    match clock.ended(lines, stage.turns) {
        Ended::Through => match taken {
            Some(taken) => Ok((taken, report)),
            None => Err(RunFault::Memory),
        },
        Ended::Stuck(place) => Err(fault_of(stage, Halt::Stuck(place))),
        Ended::Other => Err(RunFault::Shared),
    }
}

/// Ends the runtime of a run that gives no table.
fn end_at_once<R: Threads + Wait>(
    rt: &R,
    alloc: Global,
    runtime: Runtime<LineClock>,
    clients: Vec<Client>,
)
    requires { AreClients runtime.board clients.items }
{
    match join_all(rt, alloc, runtime, clients) {
        Ok(report) => drop(report),
        Err(unjoined) => drop(unjoined.abandon(rt)),
    }
}

/// Ends the runtime once it is at rest, and gives its report and the clock. Where that isn't had all threads have ended too.
fn end_at_rest<R: Threads + Wait>(
    rt: &R,
    alloc: Global,
    runtime: Runtime<LineClock>,
    clients: Vec<Client>,
) -> Result<(Report, LineClock), RunFault>
    requires { AreClients runtime.board clients.items }
    ensures ended { IfOk result (λ t. (poller : Pass) × (workers : List Pass) × IsReport runtime.board (poller ∷ (map submitter_of clients.items ++ workers)) t.0 × IsAtLine t.1.lines.items t.1.next t.1.tries t.1.most t.1.is_stuck (seen_of poller) × (poller.view.role ≡ Poller (length runtime.board.layout.cells)) × CameToRest runtime.board poller workers) }
    ensures unstuck { IfErr result IsUnstuck }
{
    let rested = match join_at_rest(rt, alloc, runtime, clients) {
        Ok(rested) => rested,
        Err(unjoined) => return Err(RunFault::from(unjoined.abandon(rt))),
    };
    if !rested.is_at_rest {
        return Err(RunFault::Memory);
    }
    let Rested { report, clock, .. } = rested;
    Ok((report, clock))
}

/// Of two rings' halts, or none, the one that is told: one that stops all comes first, then the lower ring's.
/// What would have become of a ring that was told to stop isn't known. So where a run is stuck each lower ring has carried its lines out.
fn told_of(first: Option<Halt>, second: Option<Halt>) -> Option<Halt>
    ensures none { result ≡ None → (first ≡ None) × (second ≡ None) }
    ensures stuck { (p : ℕ) → result ≡ Some (Stuck p) → (first ≡ Some (Stuck p)) ⊎ ((first ≡ None) × (second ≡ Some (Stuck p))) }
{
    match first {
        None => second,
        Some(Halt::Stuck(_)) => match second {
            None | Some(Halt::Stuck(_)) => first,
            Some(_) => second,
        },
        Some(Halt::Stopped) => match second {
            None | Some(Halt::Stuck(_)) => first,
            Some(_) => second,
        },
        Some(_) => first,
    }
}

/// The halt that is told of these actors, if one has any.
fn halt_of(actors: &[Actor]) -> Option<Halt>
    ensures none { result ≡ None → All (λ h. h.halt ≡ None) actors.now }
    ensures stuck { (p : ℕ) → result ≡ Some (Stuck p) → IsLowest actors.now (length actors.now) p }
{
    let mut halt = None;
    for actor in actors {
        halt = told_of(halt, actor.halt);
    }
    halt
}

/// What these actors come to: their clients, for which there is room, and all that they took, unless there is no memory for it.
fn parts_of(
    alloc: Global,
    mut actors: Vec<Actor>,
    mut clients: Vec<Client>,
) -> (Vec<Client>, Option<Vec<Completion>>)
    requires none { clients.items ≡ [] }
    requires room { length actors.items ≤ vec_capacity clients }
    ensures clients { result.0.items ≡ map client_of actors.items }
    ensures taken { IfSome result.1 (λ v. v.items ≡ taken_by actors.items) }
{
    actors.reverse();
    let mut all = Vec::new(alloc);
    let mut is_short = false;
    while let Some(actor) = actors.pop() {
        let Actor {
            client,
            mut taken,
            ..
        } = actor;
        clients.push_reserved(client);
        if all.append(&mut taken).is_err() {
            is_short = true;
        }
    }
    (clients, if is_short { None } else { Some(all) })
}

/// The fault of a run that stopped.
fn fault_of(stage: &Stage<'_>, halt: Halt) -> RunFault
    ensures { IfStuckOn (λ label. (p : ℕ) × (halt ≡ Stuck p) × HasLabel stage.now.script.now p label) result }
{
    match halt {
        Halt::Stuck(place) => match label_of(stage, place) {
            Ok(Some(label)) => RunFault::Stuck(label),
            Ok(None) => RunFault::Shared,
            Err(_) => RunFault::Memory,
        },
        Halt::Refused => RunFault::Shared,
        Halt::Memory | Halt::Stopped => RunFault::Memory,
        Halt::Thread => RunFault::Thread,
    }
}

/// The label of the entry at a place, if there is one.
fn label_of(stage: &Stage<'_>, place: u32) -> Result<Option<String>, AllocError>
    ensures { IfOk result (λ found. IfSome found (λ label. HasLabel stage.now.script.now place (string_bytes label))) }
{
    match stage.script.entries.get(place as usize) {
        Some(entry) => Ok(Some(entry.label.clone()?)),
        None => Ok(None),
    }
}
