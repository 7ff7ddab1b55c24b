//! The poller releases requests: those that wait for another, and those that are new.
ghost use Rattle.std.specs.Prelude.{◌≡◌, ◌≢◌, ◌⊎◌, ◌+◌, ◌<◌, ◌≤◌, ℕ, false, true, length, slice_index, IfOk};
ghost use Rattle.std.specs.Result.{is_ok};
ghost use Rattle.board.specs.{IsUnheld, MayArm};
ghost use Rattle.work.specs.Passes.{seen_of};
ghost use Rattle.runtime.specs.{AreHeldBack, LooksAfter, cares_of, taken_in, with_waiting, IsAt, Did, IsTaken, ReachesTo, MayRelease};
ghost use Rattle.runtime.specs.Parts.{IsStuck, HasStopped, WaitsOn, WasTried, WentOn, HaveWaited};

use crate::error::Memory;
use crate::lists::Lists;
use crate::poll_state::PollState;
use crate::ringing::forget;
use crate::turn::Route;
use bell::Sleeper;
use bell::bell::MAX_RINGS;
use board::{Arming, Board, Phase, Released};
use history::Req;
use outbox::Outbox;
use std::sync::Wait;

/// Looks where a request stands that doesn't wait for the poller. It is done with, or is looked after as the timer that it is; one
/// that wasn't submitted yet waits on.
fn look_again(
    board: &Board,
    state: &mut PollState,
    lists: &mut Lists,
    req: Req,
) -> Result<(), Memory>
    requires own { IsAt board.now state.old }
    requires unheld { IsUnheld state.old.poller.view.seen req }
    requires waiting { length lists.old.waiting.items < lists.old.waiting.places }
    requires cared { LooksAfter (with_waiting req (cares_of lists.old)) state.old.poller.view.seen }
    ensures went_on { WentOn board.now state.old state.new }
    ensures cared { LooksAfter (cares_of lists.new) state.new.poller.view.seen }
    ensures rings { lists.new.rings ≡ lists.old.rings }
    ensures waits { WaitsOn req lists.old.waiting lists.new.waiting }
    ensures tried { IfOk result (λ _. WasTried req state.old.poller state.new.poller lists.old.waiting lists.new.waiting) }
{
    match board.look(&mut state.poller, req) {
        Phase::Ready | Phase::Done(_) | Phase::Gone => {
            state.moved = true;
            Ok(())
        }
        Phase::Armed(deadline) => lists.note(req, deadline),
        Phase::Unborn | Phase::Held | Phase::Running => {
            lists.waiting.put(req);
            Ok(())
        }
    }
}

/// Arms a timer that may start. It waits on where it may not.
fn arm(board: &Board, state: &mut PollState, lists: &mut Lists, req: Req) -> Result<(), Memory>
    requires own { IsAt board.now state.old }
    requires timer { MayArm (seen_of state.old.poller) req }
    requires waiting { length lists.old.waiting.items < lists.old.waiting.places }
    requires cared { LooksAfter (with_waiting req (cares_of lists.old)) state.old.poller.view.seen }
    ensures went_on { WentOn board.now state.old state.new }
    ensures cared { LooksAfter (cares_of lists.new) state.new.poller.view.seen }
    ensures rings { lists.new.rings ≡ lists.old.rings }
    ensures waits { WaitsOn req lists.old.waiting lists.new.waiting }
    ensures tried { IfOk result (λ _. WasTried req state.old.poller state.new.poller lists.old.waiting lists.new.waiting) }
{
    match board.arm(&mut state.poller, req) {
        Arming::Armed(deadline) => {
            state.moved = true;
            lists.note(req, deadline)
        }
        Arming::NotHeld => look_again(board, state, lists, req),
        Arming::NotTimer | Arming::Shut => {
            lists.waiting.put(req);
            Ok(())
        }
    }
}

/// Releases a request: it is moved to the workers, answered, armed, or waits on.
fn release<R: Wait>(
    route: Route<'_, R>,
    state: &mut PollState,
    lists: &mut Lists,
    outbox: &mut Outbox,
    req: Req,
) -> Result<(), Memory>
    requires may { MayRelease route.board.now route.queue.now state.old (with_waiting req (cares_of lists.old)) outbox.old }
    requires free { (state.old.kept.is_full ≡ false) × (0 < state.old.room) }
    requires waiting { length lists.old.waiting.items < lists.old.waiting.places }
    ensures did { Did route.entry.board.now route.entry.queue.now state.old outbox.old state.new outbox.new }
    ensures cared { LooksAfter (cares_of lists.new) state.new.poller.view.seen }
    ensures rings { lists.new.rings ≡ lists.old.rings }
    ensures waits { WaitsOn req lists.old.waiting lists.new.waiting }
    ensures tried { IfOk result (λ _. WasTried req state.old.poller state.new.poller lists.old.waiting lists.new.waiting) }
{
    match route.board.release(&mut state.poller, req) {
        Released::Severed => state.answer(outbox, req),
        Released::Freed => state.hand_over(route, req),
        Released::Shut => lists.waiting.put(req),
        Released::Timer => return arm(route.board, state, lists, req),
        Released::NotHeld => return look_again(route.board, state, lists, req),
    }
    Ok(())
}

/// Releases a request that waits, where the numbers find their places and memory was found so far. Else it waits on.
fn release_next<R: Wait>(
    route: Route<'_, R>,
    state: &mut PollState,
    lists: &mut Lists,
    outbox: &mut Outbox,
    req: Req,
    outcome: Result<(), Memory>,
) -> Result<(), Memory>
    requires may { MayRelease route.board.now route.queue.now state.old (with_waiting req (cares_of lists.old)) outbox.old }
    requires waiting { length lists.old.waiting.items < lists.old.waiting.places }
    ensures outcome { is_ok result ≡ true → is_ok outcome ≡ true }
    ensures did { Did route.entry.board.now route.entry.queue.now state.old outbox.old state.new outbox.new }
    ensures cared { LooksAfter (cares_of lists.new) state.new.poller.view.seen }
    ensures rings { lists.new.rings ≡ lists.old.rings }
    ensures waits { WaitsOn req lists.old.waiting lists.new.waiting }
    ensures tried { IfOk result (λ _. WasTried req state.old.poller state.new.poller lists.old.waiting lists.new.waiting ⊎ IsStuck state.new) }
    ensures stuck { IsStuck state.old → IsStuck state.new }
{
    if outcome.is_ok() && state.is_free() {
        return release(route, state, lists, outbox, req);
    }
    lists.waiting.put(req);
    outcome
}

/// Goes over the requests that wait for another, in order, as long as the numbers find their places. After `Memory` those that it
/// didn't come to wait on, in their order.
pub(crate) fn release_waiting<R: Wait>(
    route: Route<'_, R>,
    state: &mut PollState,
    lists: &mut Lists,
    outbox: &mut Outbox,
) -> Result<(), Memory>
    requires may { MayRelease route.board.now route.queue.now state.old (cares_of lists.old) outbox.old }
    ensures did { Did route.entry.board.now route.entry.queue.now state.old outbox.old state.new outbox.new }
    ensures cared { LooksAfter (cares_of lists.new) state.new.poller.view.seen }
    ensures rings { lists.new.rings ≡ lists.old.rings }
    ensures places { lists.new.waiting.places ≡ lists.old.waiting.places }
    ensures tried { IfOk result (λ _. AreHeldBack state.old.poller state.new.poller lists.new.waiting.items ⊎ IsStuck state.new) }
{
    state.limit_for(lists.waiting.len() as u64);
    let mut outcome = Ok(());
    for _n in 0..lists.waiting.len() {
        let Some(req) = lists.waiting.take() else {
            unreachable!();
        };
        outcome = release_next(route, state, lists, outbox, req, outcome);
    }
    outcome
}

/// Forgets the timer of the request that had the cell of the ring's k-th request before, where that timer has its reply.
fn forget_before(board: &Board, state: &mut PollState, lists: &mut Lists, ring: u16, k: u64)
    requires own { IsAt board.now state.old }
    requires ring { ring < length lists.old.rings.items }
    requires cared { LooksAfter (cares_of lists.old) state.old.poller.view.seen }
    ensures went_on { WentOn board.now state.old state.new }
    ensures cared { LooksAfter (cares_of lists.new) state.new.poller.view.seen }
    ensures same { (lists.new.rings ≡ lists.old.rings) × (lists.new.waiting ≡ lists.old.waiting) }
{
    let cells = lists.rings[usize::from(ring)].cells;
    if cells <= k {
        let before = Req { ring, k: k - cells };
        forget(board, state, lists, before);
    }
}

/// Takes up the ring's next request. It waits until it is released.
fn take_up(board: &Board, state: &mut PollState, lists: &mut Lists, ring: u16, k: u64) -> Req
    requires own { IsAt board.now state.old }
    requires next { (ring < length lists.old.rings.items) × (taken_in lists.old.rings.items ring ≡ k) × (k < 18446744073709551615) }
    requires cared { LooksAfter (cares_of lists.old) state.old.poller.view.seen }
    ensures went_on { WentOn board.now state.old state.new }
    ensures req { result ≡ record { ring = ring; k = k } }
    ensures cared { LooksAfter (with_waiting result (cares_of lists.new)) state.new.poller.view.seen }
    ensures rings { length lists.new.rings.items ≡ length lists.old.rings.items }
    ensures taken { taken_in lists.new.rings.items ring ≡ k + 1 }
    ensures others { (i : ℕ) → i ≢ ring → taken_in lists.new.rings.items i ≡ taken_in lists.old.rings.items i }
    ensures waiting { lists.new.waiting ≡ lists.old.waiting }
{
    forget_before(board, state, lists, ring, k);
    lists.rings[usize::from(ring)].taken = k + 1;
    state.moved = true;
    Req { ring, k }
}

/// From this tail on the poller is told to end: no ring comes so far. What is above it is the ring's tail. So the poller looks at tails
/// alone, and wakes by this one as by any other. Tails don't fall: once told, a client of ring 0 publishes no further one.
pub(crate) const END: u64 = 1 << 63;

/// How many requests a ring with this tail has submitted.
fn submitted_by(tail: u64) -> u64
    ensures few { result ≤ tail }
    ensures all { (n : ℕ) → result ≤ n → ReachesTo tail n }
{
    if END <= tail { tail - END } else { tail }
}

/// Takes up the ring's new requests, in order, up to the tail, as long as the numbers find their places and there is a
/// place for one.
fn take_ring<R: Wait>(
    route: Route<'_, R>,
    state: &mut PollState,
    lists: &mut Lists,
    outbox: &mut Outbox,
    ring: u16,
    tail: u64,
) -> Result<(), Memory>
    requires may { MayRelease route.board.now route.queue.now state.old (cares_of lists.old) outbox.old }
    requires ring { ring < length lists.old.rings.items }
    ensures did { Did route.entry.board.now route.entry.queue.now state.old outbox.old state.new outbox.new }
    ensures cared { LooksAfter (cares_of lists.new) state.new.poller.view.seen }
    ensures rings { length lists.new.rings.items ≡ length lists.old.rings.items }
    ensures places { lists.new.waiting.places ≡ lists.old.waiting.places }
    ensures waited { IfOk result (λ _. HaveWaited state.old.poller state.new.poller lists.old.waiting.items lists.new.waiting.items) }
    ensures taken { IfOk result (λ _. ReachesTo tail (taken_in lists.new.rings.items ring) ⊎ HasStopped state.new lists.new.waiting) }
    ensures others { (i : ℕ) → i ≢ ring → taken_in lists.new.rings.items i ≡ taken_in lists.old.rings.items i }
    ensures stuck { IsStuck state.old → IsStuck state.new }
    ensures stopped { HasStopped state.old lists.old.waiting → HasStopped state.new lists.new.waiting }
{
    let tail = submitted_by(tail);
    let taken = lists.taken(ring);
    state.limit_for(tail.saturating_sub(taken));
    for k in taken..tail {
        if !state.is_free() || lists.waiting.is_full() {
            break;
        }
        let req = take_up(route.board, state, lists, ring, k);
        release(route, state, lists, outbox, req)?;
    }
    Ok(())
}

/// Takes up the new requests of all rings.
pub(crate) fn take_new<R: Wait>(
    route: Route<'_, R>,
    sleeper: &Sleeper,
    state: &mut PollState,
    lists: &mut Lists,
    outbox: &mut Outbox,
) -> Result<(), Memory>
    requires may { MayRelease route.board.now route.queue.now state.old (cares_of lists.old) outbox.old }
    requires rings { (length lists.old.rings.items ≡ length sleeper.now.tails) × (length lists.old.rings.items ≤ 16) }
    ensures did { Did route.entry.board.now route.entry.queue.now state.old outbox.old state.new outbox.new }
    ensures cared { LooksAfter (cares_of lists.new) state.new.poller.view.seen }
    ensures rings { length lists.new.rings.items ≡ length lists.old.rings.items }
    ensures places { lists.new.waiting.places ≡ lists.old.waiting.places }
    ensures waited { IfOk result (λ _. HaveWaited state.old.poller state.new.poller lists.old.waiting.items lists.new.waiting.items) }
    ensures taken { IfOk result (λ _. ((i : ℕ) → i < length lists.old.rings.items → IsTaken sleeper.now.tails (taken_in lists.new.rings.items) i) ⊎ HasStopped state.new lists.new.waiting) }
    ensures stuck { IsStuck state.old → IsStuck state.new }
{
    for ring in 0..MAX_RINGS {
        if lists.rings.len() <= usize::from(ring) {
            break;
        }
        let tail = sleeper.tail(ring);
        take_ring(route, state, lists, outbox, ring, tail)?;
    }
    Ok(())
}
