//! The poller's desk, and its turns.
ghost use Rattle.std.specs.Prelude.{◌≡◌, ◌≢◌, ◌⊎◌, ◌≤◌, ◌+◌, ◌<◌, ◌↔◌, ◌^◌, ℕ, [], ◌∷◌, false, length, slice_index, List, None, Some, IfOk, IfErr, IsTrue};
ghost use Rattle.history.specs.declared.req.Req.{Req as Request};
ghost use Rattle.steps.specs.declared.line.Line.{Line};
ghost use Rattle.steps.specs.Journal.{freed};
ghost use Rattle.wheel.specs.Wheel.{deadline_at};
ghost use Rattle.bell.specs.BellPasses.{HasLoaded, HaveRisen, IsSleeperOf};
ghost use Rattle.work.specs.{IsOf, seen_of};
ghost use Rattle.ready.specs.Ready.{IsQueuePass};
ghost use Rattle.board.specs.Calls.{Goes};
ghost use Rattle.controls.specs.Clocks.{Asked};
ghost use Rattle.runtime.specs.{AreHeldBack, ArePending, LooksAfter, cares_of, taken_in, AllCounted, AllDone, AllRung, AllTaken, AllTried, Did, HasTicked, IsAt, IsPollTurn, IsStill, IsPollers, IsNewDesk, IsTaken, cares_in, cells_in_all, MayRelease};
ghost use Rattle.runtime.specs.Parts.{HasFewerTimers, HasRung, HasStopped, IsStuck, WentOn};

use crate::backlog::Backlog;
use crate::error::Memory;
use crate::lists::{Intake, Lists};
use crate::poll_state::PollState;
use crate::releasing::{END, release_waiting, take_new};
use crate::ringing::{has_timers, ring_due, watch_replies};
use crate::turn::{Route, Turn};
use bell::{Bell, Nap, Sleeper};
use board::{Board, Phase, Poller, RingShape, Shape};
use controls::Clock;
use history::Req;
use outbox::Outbox;
use ready::ReadyPass;
use std::alloc::{AllocError, Global};
use std::marker::Model;
use std::sync::Wait;

/// What the poller's turns need: its passes, and what it looks after. Contracts see its passes, the numbers that it keeps, how
/// many cells its board has, and what it looks after: each request that was taken up, until the poller is done with it.
#[derive(Drop)]
pub struct PollDesk {
    state: PollState,
    sleeper: Sleeper,
    lists: Lists,
    places: usize,
}

impl Model for PollDesk {
    ghost use Rattle.std.specs.Prelude.{◌≡◌, length};
    ghost use Rattle.runtime.specs.Desks.{LooksAfter, cares_of};
    ghost use Rattle.runtime.specs.PollTurns.{Desk};

    ghost Value = { Desk };

    ghost view = { λ d. record { poller = d.state.poller; sleeper = d.sleeper; ready = d.state.ready; kept = d.state.kept.numbers; places = d.places; rings = length d.lists.rings.items; intakes = d.lists.rings.items; waiting = d.lists.waiting.items; watched = d.lists.watchers.items; deadlines = d.lists.timers } };

    ghost invariant = { λ d. LooksAfter (cares_of d.lists) d.state.poller.view.seen × (d.lists.waiting.places ≡ d.places) };
}

/// The cells of each ring.
fn intakes_of(alloc: Global, rings: &[RingShape]) -> Result<Vec<Intake>, AllocError>
    ensures count { IfOk result (λ v. length v.items ≡ length rings.now) }
    ensures none { IfOk result (λ v. (i : ℕ) → taken_in v.items i ≡ 0) }
{
    let mut intakes = Vec::new(alloc);
    for ring in rings {
        intakes.push(Intake {
            cells: u64::from(ring.cells),
            taken: 0,
        })?;
    }
    Ok(intakes)
}

/// How many cells the rings have in all.
pub(crate) fn places_of(rings: &[RingShape]) -> usize
    ensures { cells_in_all rings.now < 2 ^ 64 → result ≡ cells_in_all rings.now }
{
    let mut places = 0usize;
    for ring in rings {
        places = places.saturating_add(ring.cells as usize);
    }
    places
}

impl PollDesk {
    /// The desk of a poller that has released nothing yet. Its room is made here, once.
    pub fn new(
        alloc: Global,
        shape: &Shape,
        poller: Poller,
        sleeper: Sleeper,
        ready: ReadyPass,
    ) -> Result<PollDesk, (Memory, Poller, Sleeper, ReadyPass)>
        ensures new { IfOk result (IsNewDesk (length shape.now.rings.items) poller sleeper ready) }
        ensures places { cells_in_all shape.now.rings.items < 2 ^ 64 → IfOk result (λ d. d.places ≡ cells_in_all shape.now.rings.items) }
        ensures looks_after { IfOk result (λ d. LooksAfter (cares_in d) d.poller.view.seen) }
        ensures refused { IfErr result (λ e. (e.1 ≡ poller) × (e.2 ≡ sleeper) × (e.3 ≡ ready)) }
    {
        let places = places_of(shape.rings.as_slice());
        let Ok(intakes) = intakes_of(alloc, shape.rings.as_slice()) else {
            return Err((Memory, poller, sleeper, ready));
        };
        let Ok(lists) = Lists::new(alloc, intakes, places) else {
            return Err((Memory, poller, sleeper, ready));
        };
        let state = PollState {
            poller,
            ready,
            kept: Backlog::new(),
            workers: shape.workers,
            room: 0,
            moved: false,
        };
        Ok(PollDesk {
            state,
            sleeper,
            lists,
            places,
        })
    }

    /// The passes, as the turns left them.
    pub fn parts(self) -> (Poller, Sleeper, ReadyPass)
        ensures { (result.0 ≡ self.poller) × (result.1 ≡ self.sleeper) × (result.2 ≡ self.ready) }
    {
        let PollDesk {
            state,
            sleeper,
            lists: _,
            places: _,
        } = self;
        let PollState { poller, ready, .. } = state;
        (poller, sleeper, ready)
    }

    /// Its pass of the ready queue.
    pub(crate) fn ready(&self) -> &ReadyPass
        ensures { result.now ≡ self.now.ready }
    {
        &self.state.ready
    }

    /// How many cells its board has: as many places as the outbox of a turn needs.
    /// More answers can't come. No clause counts over all cells, so the contract of a turn still speaks of a full outbox.
    pub fn places(&self) -> usize
        ensures { result ≡ self.now.places }
    {
        self.places
    }

    /// How many spans of numbers its turns have put into the ready queue, modulo 2^32.
    pub(crate) fn puts(&self) -> u32 {
        self.state.kept.puts()
    }

    /// How many numbers it handed over to the ready queue, modulo 2^32.
    pub(crate) fn handed(&self) -> u32 {
        self.state.kept.added()
    }

    /// Whether a request waits that it has taken up.
    pub(crate) fn has_waiting(&self) -> bool {
        self.lists.waiting.len() > 0
    }

    /// Whether its last turn did something.
    pub(crate) fn has_moved(&self) -> bool {
        self.state.moved
    }

    /// Whether the poller was told to end: by a tail of ring 0 that no ring comes to.
    pub fn is_over(&self) -> bool
        requires { 0 < length self.now.sleeper.tails }
        ensures { IsTrue result ↔ (9223372036854775808 ≤ slice_index self.now.sleeper.tails 0) }
    {
        END <= self.sleeper.tail(0)
    }
}

/// The poller sleeps until a tail is published, unless one was since they were read last.
pub(crate) fn rest<R: Wait>(rt: &R, bell: &Bell, desk: &mut PollDesk)
    requires { IsSleeperOf bell.now desk.old.sleeper }
    ensures sleeper { IsSleeperOf bell.now desk.new.sleeper }
    ensures same { desk.new ≡ record desk.old { sleeper = desk.new.sleeper } }
{
    if bell.doze(&mut desk.sleeper) == Nap::Dozed {
        bell.sleep(rt, &mut desk.sleeper);
    }
}

/// The phase of the request that the clock asks for, if any.
fn phase_of(board: &Board, poller: &mut Poller, asked: Option<Req>) -> Option<Phase>
    requires own { IsOf board.now poller.old }
    requires role { IsPollers poller.old }
    ensures looks { Goes board.now poller.old [] poller.new }
    ensures alone { (r : Request) → freed poller.new.view.seen r ≡ freed poller.old.view.seen r }
    ensures asked { Asked poller.new.view.seen asked result }
{
    match asked {
        Some(req) => Some(board.look(poller, req)),
        None => None,
    }
}

/// Asks the clock, and sets the board's to what it tells, unless that is before its time or after its end.
fn ask_clock<C: Clock>(board: &Board, state: &mut PollState, clock: &mut C)
    requires own { IsOf board.now state.old.poller }
    ensures role { IsPollers state.new.poller }
    ensures ticked { HasTicked board.now state.old state.new }
    ensures follows { C.follows clock.old (seen_of state.old.poller) → C.follows clock.new (seen_of state.new.poller) }
{
    let now = state.poller.clock();
    let phase = phase_of(board, &mut state.poller, clock.ask());
    let Some(to) = clock.advance(now, phase) else {
        return;
    };
    let Ok(()) = board.tick(&mut state.poller, to) else {
        return;
    };
    state.moved = true;
}

/// The requests that wait and those that are new, and the timers, in a turn after the tails were read and the clock was asked.
fn look_after<R: Wait>(
    route: Route<'_, R>,
    sleeper: &Sleeper,
    state: &mut PollState,
    lists: &mut Lists,
    outbox: &mut Outbox,
) -> Result<(), Memory>
    requires may { MayRelease route.board.now route.queue.now state.old (cares_of lists.old) outbox.old }
    requires rings { (length lists.old.rings.items ≡ length sleeper.now.tails) × (length lists.old.rings.items ≤ 16) }
    ensures did { Did route.entry.board.now route.entry.queue.now state.old outbox.old state.new outbox.new }
    ensures cared { LooksAfter (cares_of lists.new) state.new.poller.view.seen }
    ensures rings { length lists.new.rings.items ≡ length lists.old.rings.items }
    ensures places { lists.new.waiting.places ≡ lists.old.waiting.places }
    ensures taken { IfOk result (λ _. ((i : ℕ) → i < length lists.old.rings.items → IsTaken sleeper.now.tails (taken_in lists.new.rings.items) i) ⊎ HasStopped state.new lists.new.waiting) }
    ensures tried { IfOk result (λ _. AreHeldBack state.old.poller state.new.poller lists.new.waiting.items ⊎ IsStuck state.new) }
    ensures rung { IfOk result (λ _. HasRung state.old.poller state.new (cares_of lists.new)) }
    ensures counted { IfOk result (λ _. ArePending state.old.poller state.new.poller lists.new.watchers.items ⊎ (state.new.room ≡ 0)) }
{
    state.retry(route.rt, route.queue);
    release_waiting(route, state, lists, outbox)?;
    take_new(route, sleeper, state, lists, outbox)?;
    ring_due(route.board, state, lists, outbox);
    watch_replies(route.board, state, lists, outbox);
    Ok(())
}

/// What the turn came to: whether it did something, or keeps numbers; else whether a request that it has taken up waits or is armed.
fn came_to(board: &Board, state: &mut PollState, lists: &mut Lists) -> Turn
    requires own { IsAt board.now state.old }
    requires cared { LooksAfter (cares_of lists.old) state.old.poller.view.seen }
    ensures went_on { WentOn board.now state.old state.new }
    ensures cared { LooksAfter (cares_of lists.new) state.new.poller.view.seen }
    ensures same { (lists.new.rings ≡ lists.old.rings) × (lists.new.waiting ≡ lists.old.waiting) × (lists.new.watchers ≡ lists.old.watchers) }
    ensures fewer { HasFewerTimers lists.old lists.new }
    ensures still { result ≢ Turn.Moved → (state.new.moved ≡ false) × (state.new.kept.numbers ≡ []) }
    ensures none { result ≡ Turn.Idle → (lists.new.waiting.items ≡ []) × ((r : Request) (d : ℕ) → deadline_at lists.new.timers r ≢ Some d) }
{
    if state.moved || !state.kept.is_empty() {
        return Turn::Moved;
    }
    if lists.waiting.len() > 0 || lists.watchers.len() > 0 {
        return Turn::Still;
    }
    let has_timers = has_timers(board, state, lists);
    if state.moved {
        return Turn::Moved;
    }
    if has_timers { Turn::Still } else { Turn::Idle }
}

/// One turn of the poller. It reads all tails, asks the clock, goes over the requests that wait for others and those that are new,
/// and over the timers that are due and those whose targets have replied. What it answered is in the outbox. It is `Still` or `Idle`
/// only where it did nothing and keeps no number, and `Idle` only where no request that it has taken up waits or is armed. After `Memory` what was done
/// stands, and the next turn continues. Nothing but what the clock tells sets the board's clock.
pub fn poll_turn<R: Wait, C: Clock>(
    route: Route<'_, R>,
    bell: &Bell,
    desk: &mut PollDesk,
    clock: &mut C,
    outbox: &mut Outbox,
) -> Result<Turn, Memory>
    requires poller { IsOf route.board.now desk.old.poller }
    requires sleeper { IsSleeperOf bell.now desk.old.sleeper × (desk.old.rings ≡ bell.now.rings) }
    requires ready { IsQueuePass route.queue.now desk.old.ready }
    requires outbox { (outbox.old.items ≡ []) × (desk.old.places ≤ outbox.old.places) }
    ensures turned { IsPollTurn route.entry.board.now route.entry.queue.now desk.old desk.new outbox.new }
    ensures looks_after { LooksAfter (cares_in desk.new) desk.new.poller.view.seen }
    ensures taken_up { IfOk result (λ _. AllTaken desk.new outbox.new) }
    ensures tried { IfOk result (λ _. AllTried desk.old desk.new outbox.new) }
    ensures rung { IfOk result (λ _. AllRung desk.old desk.new outbox.new) }
    ensures counted { IfOk result (λ _. AllCounted desk.old desk.new outbox.new) }
    ensures sleeper { IsSleeperOf bell.now desk.new.sleeper }
    ensures read { HasLoaded desk.old.sleeper desk.new.sleeper }
    ensures risen { HaveRisen desk.old.sleeper.tails desk.new.sleeper.tails }
    ensures places { outbox.new.places ≡ outbox.old.places }
    ensures still { IfOk result (λ turn. turn ≢ Turn.Moved → IsStill route.entry.board.now desk.old desk.new outbox.new) }
    ensures idle { IfOk result (λ turn. turn ≡ Turn.Idle → AllDone desk.new) }
    ensures follows { IsPollers desk.old.poller → C.follows clock.old (seen_of desk.old.poller) → C.follows clock.new (seen_of desk.new.poller) }
{
    bell.collect(&mut desk.sleeper);
    desk.state.room = desk.places;
    desk.state.moved = false;
    ask_clock(route.board, &mut desk.state, clock);
    let sleeper = &desk.sleeper;
    look_after(route, sleeper, &mut desk.state, &mut desk.lists, outbox)?;
    desk.state.retry_rest(route.rt, route.queue);
    let turn = came_to(route.board, &mut desk.state, &mut desk.lists);
    Ok(turn)
}
