//! What the poller does with a timer: it looks whether that is armed, and by what it keeps of it ends it, or finds why it isn't to end.
ghost use Rattle.std.specs.Prelude.{◌≡◌, ◌+◌, ◌<◌, ◌≤◌, Bool, true, Some};
ghost use Rattle.history.specs.History.{clock_of};
ghost use Rattle.steps.specs.{cells_in, events_of};
ghost use Rattle.work.specs.Passes.{pass_of};
ghost use Rattle.board.specs.{IsAt, IsOurs, Paid, KnowsAlarm, IsPollerSeat, FailsAs, IsArmedAt, IsCounting, IsDueLinked, IsUnfired};
ghost use Rattle.board.specs.Polls.{Polls};

use crate::alarm::{Alarm, deadline_of, run_out};
use crate::board::Board;
use crate::counting::count_armed;
use crate::linked::{Struck, end_linked, fire_due, settle_armed};
use crate::poller::{Counting, Expiry, Polled, Settling};
use history::Req;
use steps::TableSeat;
use work::Cell;

/// The clock's time, and whether a LINK_TIMEOUT may fire.
#[derive(Clone, Copy)]
pub(crate) struct Polling {
    pub clock: u32,
    pub may_fire: bool,
}

/// Answers a TIMEOUT that is armed with this deadline, if it has counted enough completions.
fn poll_count(
    board: &Board,
    seat: &mut TableSeat,
    cell: Cell,
    req: Req,
    deadline: u32,
    count: u64,
) -> Polled
    requires armed { IsArmedAt board.now seat.old cell.index cell.generation req deadline }
    requires early { clock_of (events_of seat.old.me.0.seen) < deadline }
    requires counts { IsCounting (events_of seat.old.me.0.seen) req count }
    ensures seat { IsPollerSeat seat.new }
    ensures polls { (may : Bool) → Polls board.now may req (pass_of seat.old) (pass_of seat.new) result }
    ensures steps { Paid seat.old.me.0 seat.new.me.0 0 (cells_in board.now.layout.cells req.ring) }
{
    match count_armed(board, seat, cell, req, deadline, count) {
        Counting::Counted => Polled::Counted,
        Counting::Fewer => Polled::Fewer,
        Counting::NotArmed => Polled::NotArmed,
        Counting::NotCounted => unreachable!(),
    }
}

/// Answers a TIMEOUT that is armed with this deadline, which has come.
fn poll_expiry(
    board: &Board,
    seat: &mut TableSeat,
    cell: Cell,
    req: Req,
    deadline: u32,
    fails: bool,
) -> Polled
    requires armed { IsArmedAt board.now seat.old cell.index cell.generation req deadline }
    requires due { deadline ≤ clock_of (events_of seat.old.me.0.seen) }
    requires timeout { FailsAs (events_of seat.old.me.0.seen) req fails }
    ensures seat { IsPollerSeat seat.new }
    ensures polls { (may : Bool) → Polls board.now may req (pass_of seat.old) (pass_of seat.new) result }
    ensures steps { Paid seat.old.me.0 seat.new.me.0 0 1 }
{
    match run_out(board, seat, cell, req, deadline, fails) {
        Expiry::Expired => Polled::Expired,
        _ => Polled::NotArmed,
    }
}

/// Fires a LINK_TIMEOUT that is armed with this deadline, which has come, or settles it where its target has replied.
fn poll_due(board: &Board, seat: &mut TableSeat, cell: Cell, req: Req, deadline: u32) -> Polled
    requires armed { IsArmedAt board.now seat.old cell.index cell.generation req deadline }
    requires due { IsDueLinked (events_of seat.old.me.0.seen) req }
    ensures seat { IsPollerSeat seat.new }
    ensures polls { Polls board.now true req (pass_of seat.old) (pass_of seat.new) result }
    ensures steps { Paid seat.old.me.0 seat.new.me.0 0 3 }
{
    match fire_due(board, seat, cell, req, deadline) {
        Struck::Over => match end_linked(board, seat, cell, req, deadline) {
            Settling::Settled => Polled::Settled,
            _ => Polled::NotArmed,
        },
        Struck::Took => Polled::Took,
        Struck::Missed => Polled::Missed,
    }
}

/// Fires a LINK_TIMEOUT that is armed with this deadline, if that has come and it may, or settles it where its target has replied.
fn poll_linked(
    board: &Board,
    seat: &mut TableSeat,
    polling: Polling,
    cell: Cell,
    req: Req,
    deadline: u32,
) -> Polled
    requires armed { IsArmedAt board.now seat.old cell.index cell.generation req deadline }
    requires unfired { IsUnfired (events_of seat.old.me.0.seen) req }
    requires clock { polling.clock ≡ clock_of (events_of seat.old.me.0.seen) }
    ensures seat { IsPollerSeat seat.new }
    ensures polls { Polls board.now polling.may_fire req (pass_of seat.old) (pass_of seat.new) result }
    ensures steps { Paid seat.old.me.0 seat.new.me.0 0 3 }
{
    let is_due = deadline <= polling.clock;
    if is_due && polling.may_fire {
        return poll_due(board, seat, cell, req, deadline);
    }
    match settle_armed(board, seat, cell, req, deadline) {
        Settling::Settled => Polled::Settled,
        Settling::TargetOpen => {
            if is_due {
                Polled::Due
            } else {
                Polled::TargetOpen
            }
        }
        Settling::NotArmed => Polled::NotArmed,
    }
}

/// Does what is to be done with the request's timer, if that is armed. `alarm` is what is kept of the cell's timer.
pub(crate) fn poll(
    board: &Board,
    seat: &mut TableSeat,
    polling: Polling,
    alarm: Alarm,
    cell: Cell,
    req: Req,
) -> Polled
    requires ours { IsOurs board.now seat.old }
    requires at { IsAt board.now.layout.cells cell.index cell.generation req }
    requires clock { polling.clock ≡ clock_of (events_of seat.old.me.0.seen) }
    requires knows { KnowsAlarm (events_of seat.old.me.0.seen) req (Some alarm) }
    ensures seat { IsPollerSeat seat.new }
    ensures polls { Polls board.now polling.may_fire req (pass_of seat.old) (pass_of seat.new) result }
    ensures steps { Paid seat.old.me.0 seat.new.me.0 0 (cells_in board.now.layout.cells req.ring + 3) }
{
    let Some(deadline) = deadline_of(board, seat, cell, req) else {
        return Polled::NotArmed;
    };
    let Alarm::Alone(fails, count) = alarm else {
        return poll_linked(board, seat, polling, cell, req, deadline);
    };
    if deadline <= polling.clock {
        return poll_expiry(board, seat, cell, req, deadline, fails);
    }
    if count == 0 {
        return Polled::Early;
    }
    poll_count(board, seat, cell, req, deadline, count)
}
