//! How the poller ends a LINK_TIMEOUT that it armed: it fires, or is settled after its target's reply.
ghost use Rattle.std.specs.Prelude.{◌≡◌, ◌≤◌, ◌<◌, ℕ, List, true, false, Some};
ghost use Rattle.claim.specs.declared.word.TheConstants.{GENERATIONS};
ghost use Rattle.history.specs.declared.event.Event.{Event};
ghost use Rattle.history.specs.declared.req.Req.{Req as Request};
ghost use Rattle.history.specs.{IsLinkTimeout, IsTarget, previous, IsReplied, armed, clock_of, fired, phase, submits};
ghost use Rattle.history.specs.Legal.{Legal};
ghost use Rattle.steps.specs.{setup_of, events_of};
ghost use Rattle.work.specs.Passes.{pass_of};
ghost use Rattle.board.specs.declared.linked.Struck.TheVariants.{Over};
ghost use Rattle.board.specs.PollerRows.{IsAt, IsOurs, Paid, Watched};
ghost use Rattle.board.specs.{KnowsAlarm, IsPollerSeat, DidStrike, EndsFired, Fires, FiresDue, IsArmedAt, IsDueLinked, IsTargetOpen, IsUnfired, Settles};

use crate::alarm::{Alarm, deadline_of};
use crate::board::Board;
use crate::phase::{Phase, told};
use crate::poller::{Firing, Settling};
use history::Req;
use steps::claims::{Standing, looked_for, stands_at};
use steps::{TableSeat, seat, timers};
use work::Cell;

/// What came of the target of a LINK_TIMEOUT whose deadline has come.
#[derive(Clone, Copy)]
pub(crate) enum Struck {
    /// It was ended.
    Took,
    /// A worker runs it.
    Missed,
    /// It has replied.
    Over,
}

/// Where the target of a LINK_TIMEOUT lies, the request before it.
fn target_cell(board: &Board, cell: Cell, req: Req) -> Cell
    requires at { IsAt board.now.layout.cells cell.index cell.generation req }
    requires small { cell.generation < GENERATIONS }
    requires linked { (h : List Event) × Legal (setup_of board.now.layout) h × (req.k < submits h req.ring) × IsLinkTimeout h req }
    ensures at { IsAt board.now.layout.cells result.index result.generation (previous req) }
    ensures small { result.generation < GENERATIONS }
{
    let target = Req {
        ring: req.ring,
        k: req.k - 1,
    };
    let _ = cell;
    let Some(found) = board.grid.locate(target) else {
        unreachable!()
    };
    found
}

/// Answers a LINK_TIMEOUT that is armed with this deadline, and whose target has replied.
pub(crate) fn end_linked(
    board: &Board,
    seat: &mut TableSeat,
    cell: Cell,
    req: Req,
    deadline: u32,
) -> Settling
    requires armed { IsArmedAt board.now seat.old cell.index cell.generation req deadline }
    requires unfired { IsUnfired (events_of seat.old.me.0.seen) req }
    requires target { (t : Request) × IsTarget (events_of seat.old.me.0.seen) req t × IsReplied (phase (events_of seat.old.me.0.seen) t) }
    ensures seat { IsPollerSeat seat.new }
    ensures settles { Settles board.now req (pass_of seat.old) (pass_of seat.new) result }
    ensures steps { Paid seat.old.me.0 seat.new.me.0 0 1 }
{
    let _ = req;
    let words = &board.table.shared;
    let generation = cell.generation as u32;
    if timers::settle(words, seat, cell.index, generation, deadline, false) {
        Settling::Settled
    } else {
        Settling::NotArmed
    }
}

/// Looks whether the target of a LINK_TIMEOUT has replied.
fn target_replied(board: &Board, seat: &mut TableSeat, cell: Cell, req: Req) -> bool
    requires ours { IsOurs board.now seat.old }
    requires at { IsAt board.now.layout.cells cell.index cell.generation req }
    requires small { cell.generation < GENERATIONS }
    requires born { req.k < submits (events_of seat.old.me.0.seen) req.ring }
    requires linked { IsLinkTimeout (events_of seat.old.me.0.seen) req }
    ensures watched { Watched board.now seat.old seat.new }
    ensures replied { result ≡ true → (t : Request) × IsTarget (events_of seat.new.me.0.seen) req t × IsReplied (phase (events_of seat.new.me.0.seen) t) }
    ensures pending { result ≡ false → IsTargetOpen board.now.layout.cells req (pass_of seat.old) (pass_of seat.new) }
    ensures steps { Paid seat.old.me.0 seat.new.me.0 0 1 }
{
    let target = target_cell(board, cell, req);
    let word = seat::look(&board.table.shared, seat, target.index);
    matches!(told(word, target.generation), Phase::Done(_) | Phase::Gone)
}

/// Settles a LINK_TIMEOUT that is armed with this deadline, where its target has replied.
pub(crate) fn settle_armed(
    board: &Board,
    seat: &mut TableSeat,
    cell: Cell,
    req: Req,
    deadline: u32,
) -> Settling
    requires armed { IsArmedAt board.now seat.old cell.index cell.generation req deadline }
    requires unfired { IsUnfired (events_of seat.old.me.0.seen) req }
    ensures seat { IsPollerSeat seat.new }
    ensures settles { Settles board.now req (pass_of seat.old) (pass_of seat.new) result }
    ensures steps { Paid seat.old.me.0 seat.new.me.0 0 2 }
{
    if !target_replied(board, seat, cell, req) {
        return Settling::TargetOpen;
    }
    end_linked(board, seat, cell, req, deadline)
}

/// Answers a LINK_TIMEOUT whose target replied before it ran out. `alarm` is what is kept of the cell's timer.
pub(crate) fn settle(
    board: &Board,
    seat: &mut TableSeat,
    alarm: Alarm,
    cell: Cell,
    req: Req,
) -> Settling
    requires ours { IsOurs board.now seat.old }
    requires at { IsAt board.now.layout.cells cell.index cell.generation req }
    requires knows { KnowsAlarm (events_of seat.old.me.0.seen) req (Some alarm) }
    ensures seat { IsPollerSeat seat.new }
    ensures settles { Settles board.now req (pass_of seat.old) (pass_of seat.new) result }
    ensures steps { Paid seat.old.me.0 seat.new.me.0 0 3 }
{
    let Some(until) = deadline_of(board, seat, cell, req) else {
        return Settling::NotArmed;
    };
    let Alarm::Linked = alarm else {
        return Settling::NotArmed;
    };
    settle_armed(board, seat, cell, req, until)
}

/// Ends the target of a LINK_TIMEOUT whose deadline has come, or finds it running, or with a reply.
/// One exchange is enough: only the poller makes Ready or arms, so a word that it found idle stays until the request runs or ends.
pub(crate) fn strike(board: &Board, seat: &mut TableSeat, cell: Cell, req: Req) -> Struck
    requires ours { IsOurs board.now seat.old }
    requires at { IsAt board.now.layout.cells cell.index cell.generation req }
    requires small { cell.generation < GENERATIONS }
    requires due { IsDueLinked (events_of seat.old.me.0.seen) req }
    ensures seat { IsPollerSeat seat.new }
    ensures strikes { DidStrike board.now req (pass_of seat.old) (pass_of seat.new) result }
    ensures steps { Paid seat.old.me.0 seat.new.me.0 0 2 }
{
    let target = target_cell(board, cell, req);
    let generation = target.generation as u32;
    let words = &board.table.shared;
    let word = seat::look(words, seat, target.index);
    let Some(expected) = looked_for(word, generation) else {
        return Struck::Over;
    };
    let found = timers::fire(words, seat, target.index, generation, expected, true);
    if found == expected {
        return Struck::Took;
    }
    match stands_at(found, generation) {
        Standing::Running => Struck::Missed,
        Standing::Over => Struck::Over,
        Standing::Idle => unreachable!(),
    }
}

/// Answers a LINK_TIMEOUT that has fired.
pub(crate) fn end_fired(board: &Board, seat: &mut TableSeat, cell: Cell, req: Req, deadline: u32)
    requires armed { IsArmedAt board.now seat.old cell.index cell.generation req deadline }
    requires linked { IsLinkTimeout (events_of seat.old.me.0.seen) req }
    requires fired { fired (events_of seat.old.me.0.seen) req ≡ true }
    ensures seat { IsPollerSeat seat.new }
    ensures ends { EndsFired board.now req (pass_of seat.old) (pass_of seat.new) }
    ensures steps { Paid seat.old.me.0 seat.new.me.0 0 1 }
{
    let _ = req;
    let words = &board.table.shared;
    let generation = cell.generation as u32;
    timers::settle(words, seat, cell.index, generation, deadline, true);
}

/// Fires a LINK_TIMEOUT that is armed with this deadline, which has come, and answers it, unless its target has replied.
#[inline(always)]
pub(crate) fn fire_due(
    board: &Board,
    seat: &mut TableSeat,
    cell: Cell,
    req: Req,
    deadline: u32,
) -> Struck
    requires armed { IsArmedAt board.now seat.old cell.index cell.generation req deadline }
    requires due { IsDueLinked (events_of seat.old.me.0.seen) req }
    ensures seat { IsPollerSeat seat.new }
    ensures fires { FiresDue board.now seat.old seat.new cell.index cell.generation req deadline result }
    ensures over { result ≡ Over → Paid seat.old.me.0 seat.new.me.0 0 2 }
    ensures steps { Paid seat.old.me.0 seat.new.me.0 0 3 }
{
    let struck = strike(board, seat, cell, req);
    match struck {
        Struck::Over => struck,
        _ => {
            end_fired(board, seat, cell, req, deadline);
            struck
        }
    }
}

/// Fires a LINK_TIMEOUT that is armed, whose deadline has come and whose target hasn't replied, and answers it. `alarm` is what
/// is kept of the cell's timer.
pub(crate) fn fire(
    board: &Board,
    seat: &mut TableSeat,
    clock: u32,
    alarm: Alarm,
    cell: Cell,
    req: Req,
) -> Firing
    requires ours { IsOurs board.now seat.old }
    requires at { IsAt board.now.layout.cells cell.index cell.generation req }
    requires clock { clock ≡ clock_of (events_of seat.old.me.0.seen) }
    requires knows { KnowsAlarm (events_of seat.old.me.0.seen) req (Some alarm) }
    ensures seat { IsPollerSeat seat.new }
    ensures fires { Fires board.now req (pass_of seat.old) (pass_of seat.new) result }
    ensures steps { Paid seat.old.me.0 seat.new.me.0 0 4 }
{
    let Some(deadline) = deadline_of(board, seat, cell, req) else {
        return Firing::NotArmed;
    };
    let Alarm::Linked = alarm else {
        return Firing::NotArmed;
    };
    if clock < deadline {
        return Firing::Early;
    }
    match fire_due(board, seat, cell, req, deadline) {
        Struck::Over => Firing::TargetDone,
        Struck::Took => Firing::Took,
        Struck::Missed => Firing::Missed,
    }
}
