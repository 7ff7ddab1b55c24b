//! The poller looks after armed timers: those that are due, and those whose targets may have replied.
ghost use Rattle.std.specs.Prelude.{◌≡◌, ◌≢◌, ◌⊎◌, ◌<◌, ◌≤◌, ℕ, true, false, length, Some};
ghost use Rattle.history.specs.declared.req.Req.{Req as Request};
ghost use Rattle.history.specs.{armed, phase, previous};
ghost use Rattle.wheel.specs.Wheel.{deadline_at};
ghost use Rattle.work.specs.Passes.{seen_of};
ghost use Rattle.board.specs.TimerCalls.{IsUnarmed};
ghost use Rattle.runtime.specs.{ArePending, LooksAfter, cares_of, HasFewerTimers, HasRung, StandsPolled, WatchesOn, WentOn, stands_armed, with_watched, RangOn, HasRoom, IsAt, Rang, MayRing};

use crate::lists::Lists;
use crate::poll_state::PollState;
use board::{Board, Phase, Polled};
use history::Req;
use outbox::Outbox;
use wheel::TimerSet;

/// Whether a request that stands so is an armed timer.
fn is_armed_at(phase: Phase) -> bool
    ensures { result ≡ stands_armed phase }
{
    match phase {
        Phase::Armed(_) => true,
        Phase::Unborn | Phase::Held | Phase::Ready | Phase::Running => false,
        Phase::Done(_) | Phase::Gone => false,
    }
}

/// Looks whether the request is an armed timer.
fn is_armed(board: &Board, state: &mut PollState, req: Req) -> bool
    requires own { IsAt board.now state.old }
    ensures went_on { WentOn board.now state.old state.new }
    ensures same { (state.new.room ≡ state.old.room) × (state.new.moved ≡ state.old.moved) }
    ensures armed { result ≡ true → (d : ℕ) × (phase (seen_of state.new.poller) req ≡ armed d) }
    ensures unarmed { result ≡ false → IsUnarmed (seen_of state.new.poller) req }
{
    is_armed_at(board.look(&mut state.poller, req))
}

/// Forgets the request's timer, where that is no longer armed.
pub(crate) fn forget(board: &Board, state: &mut PollState, lists: &mut Lists, req: Req)
    requires own { IsAt board.now state.old }
    requires cared { LooksAfter (cares_of lists.old) state.old.poller.view.seen }
    ensures went_on { WentOn board.now state.old state.new }
    ensures cared { LooksAfter (cares_of lists.new) state.new.poller.view.seen }
    ensures same { (lists.new.rings ≡ lists.old.rings) × (lists.new.waiting ≡ lists.old.waiting) }
{
    if !lists.timers.has_timer(req) {
        return;
    }
    if is_armed(board, state, req) {
        return;
    }
    lists.timers.drop_timer(req);
}

/// The request before this one, which is the target of a LINK_TIMEOUT.
fn target_of(req: Req) -> Req
    ensures { result ≡ previous req }
{
    Req {
        ring: req.ring,
        k: req.k.saturating_sub(1),
    }
}

/// Does what is to be done with an armed timer, as far as the outbox has room for what that answers, and puts it there.
fn poll(board: &Board, state: &mut PollState, outbox: &mut Outbox, req: Req) -> Polled
    requires own { IsAt board.now state.old }
    requires some { 0 < state.old.room }
    requires room { HasRoom state.old outbox.old }
    ensures rang { Rang board.now state.old outbox.old state.new outbox.new }
    ensures stands { StandsPolled state.old.poller state.new req result }
{
    let polled = board.poll_timer(&mut state.poller, req, state.room > 1);
    match polled {
        Polled::Took => {
            state.answer(outbox, target_of(req));
            state.answer(outbox, req);
        }
        Polled::Expired | Polled::Counted | Polled::Missed | Polled::Settled => {
            state.answer(outbox, req);
        }
        Polled::Early | Polled::Fewer | Polled::TargetOpen | Polled::Due | Polled::NotArmed => {}
    }
    polled
}

/// Ends the timers whose deadlines have come, the least deadline first, as long as the outbox has room.
fn end_due(board: &Board, state: &mut PollState, lists: &mut Lists, outbox: &mut Outbox)
    requires may { MayRing board.now state.old (cares_of lists.old) outbox.old }
    ensures on { RangOn board.now state.old lists.old outbox.old state.new lists.new outbox.new }
    ensures rung { HasRung state.old.poller state.new (cares_of lists.new) }
{
    let now = state.poller.clock();
    while let Some(req) = lists.timers.due(now) {
        if state.room == 0 {
            break;
        }
        if let Polled::Due = poll(board, state, outbox, req) {
            break;
        }
        lists.timers.drop_timer(req);
        state.moved = true;
    }
}

/// Ends the timers whose deadlines have come, the least deadline first, as long as the outbox has room. Those that stay are looked at
/// again once one is due.
pub(crate) fn ring_due(board: &Board, state: &mut PollState, lists: &mut Lists, outbox: &mut Outbox)
    requires may { MayRing board.now state.old (cares_of lists.old) outbox.old }
    ensures on { RangOn board.now state.old lists.old outbox.old state.new lists.new outbox.new }
    ensures rung { HasRung state.old.poller state.new (cares_of lists.new) }
{
    end_due(board, state, lists, outbox);
    lists.timers.catch_up(state.poller.clock());
}

/// Forgets timers that are no longer armed. Whether one is left that is.
pub(crate) fn has_timers(board: &Board, state: &mut PollState, lists: &mut Lists) -> bool
    requires own { IsAt board.now state.old }
    requires cared { LooksAfter (cares_of lists.old) state.old.poller.view.seen }
    ensures went_on { WentOn board.now state.old state.new }
    ensures cared { LooksAfter (cares_of lists.new) state.new.poller.view.seen }
    ensures same { (lists.new.rings ≡ lists.old.rings) × (lists.new.waiting ≡ lists.old.waiting) × (lists.new.watchers ≡ lists.old.watchers) }
    ensures fewer { HasFewerTimers lists.old lists.new }
    ensures none { result ≡ false → (r : Request) (d : ℕ) → deadline_at lists.new.timers r ≢ Some d }
{
    while let Some(req) = lists.timers.due(u32::MAX) {
        if is_armed(board, state, req) {
            return true;
        }
        lists.timers.drop_timer(req);
        state.moved = true;
    }
    false
}

/// Looks after an armed timer that a reply may end: a TIMEOUT that counts replies is answered once they are enough, and a
/// LINK_TIMEOUT once its target has replied. One that is still pending is watched on, and one that is over is forgotten.
fn watch(board: &Board, state: &mut PollState, lists: &mut Lists, outbox: &mut Outbox, req: Req)
    requires may { MayRing board.now state.old (with_watched req (cares_of lists.old)) outbox.old }
    requires some { 0 < state.old.room }
    requires watchers { length lists.old.watchers.items < lists.old.watchers.places }
    ensures on { RangOn board.now state.old lists.old outbox.old state.new lists.new outbox.new }
    ensures watched { WatchesOn req state.old.poller state.new.poller lists.old.watchers lists.new.watchers }
    ensures fewer { HasFewerTimers lists.old lists.new }
{
    match poll(board, state, outbox, req) {
        Polled::Early => {}
        Polled::Fewer | Polled::TargetOpen | Polled::Due => lists.watchers.put(req),
        _ => {
            lists.timers.drop_timer(req);
        }
    }
}

/// Answers those TIMEOUTs that have counted enough, and those LINK_TIMEOUTs whose targets have replied. Those that wait on stay, and
/// no other timer does.
pub(crate) fn watch_replies(
    board: &Board,
    state: &mut PollState,
    lists: &mut Lists,
    outbox: &mut Outbox,
)
    requires may { MayRing board.now state.old (cares_of lists.old) outbox.old }
    ensures on { RangOn board.now state.old lists.old outbox.old state.new lists.new outbox.new }
    ensures counted { ArePending state.old.poller state.new.poller lists.new.watchers.items ⊎ (state.new.room ≡ 0) }
    ensures fewer { HasFewerTimers lists.old lists.new }
{
    for _n in 0..lists.watchers.len() {
        if state.room == 0 {
            break;
        }
        let Some(req) = lists.watchers.take() else {
            unreachable!();
        };
        watch(board, state, lists, outbox, req);
    }
}
