//! How the poller answers a TIMEOUT that counts completions: it looks which later requests of its ring have replied.
ghost use Rattle.std.specs.Prelude.{◌≡◌, ◌≢◌, ℕ, ◌+◌, ◌-◌, ◌<◌, ◌≤◌, true, false, Some, length};
ghost use Rattle.claim.specs.declared.word.TheConstants.{GENERATIONS};
ghost use Rattle.entry.specs.Entry.{Entry};
ghost use Rattle.history.specs.{IsPlaced, armed, later_replies, phase, submits, count_of};
ghost use Rattle.steps.specs.{cells_in, events_of};
ghost use Rattle.work.specs.Passes.{pass_of};
ghost use Rattle.board.specs.declared.poller.Counting.TheVariants.{Counted, NotCounted};
ghost use Rattle.board.specs.PollerRows.{IsAt, IsNumbered, IsOurs, Paid, Spends, StepsTo, Watched};
ghost use Rattle.board.specs.{KnowsAlarm, IsPollerSeat, Counts, IsArmedAt, IsCounting, TellsReply};

use crate::alarm::{Alarm, deadline_of};
use crate::board::Board;
use crate::phase::{Phase, told};
use crate::poller::Counting;
use history::Req;
use steps::{TableSeat, seat, timers};
use work::Cell;

/// Whether a request has replied. None where it wasn't submitted yet.
fn has_replied(board: &Board, seat: &mut TableSeat, req: Req) -> Option<bool>
    requires ours { IsOurs board.now seat.old }
    requires there { req.ring < length board.now.layout.cells }
    ensures watched { Watched board.now seat.old seat.new }
    ensures told { TellsReply (events_of seat.new.me.0.seen) req result }
    ensures step { StepsTo board.now.layout.cells req seat.old.me.0 seat.new.me.0 }
{
    let Some(cell) = board.grid.locate(req) else {
        unreachable!()
    };
    let word = seat::look(&board.table.shared, seat, cell.index);
    match told(word, cell.generation) {
        Phase::Unborn => None,
        Phase::Done(_) | Phase::Gone => Some(true),
        _ => Some(false),
    }
}

/// Whether this many later requests of its ring have replied. It looks at no more than may have been submitted while the request
/// keeps its cell.
fn has_counted(board: &Board, seat: &mut TableSeat, req: Req, count: u64) -> bool
    requires ours { IsOurs board.now seat.old }
    requires numbered { IsNumbered board.now.layout.cells req }
    requires born { req.k < submits (events_of seat.old.me.0.seen) req.ring }
    requires held { submits (events_of seat.old.me.0.seen) req.ring ≤ req.k + cells_in board.now.layout.cells req.ring }
    ensures watched { Watched board.now seat.old seat.new }
    ensures enough { result ≡ true → count ≤ later_replies (events_of seat.new.me.0.seen) req }
    ensures fewer { result ≡ false → later_replies (events_of seat.old.me.0.seen) req < count }
    ensures steps { Paid seat.old.me.0 seat.new.me.0 0 (cells_in board.now.layout.cells req.ring - 1) }
    ensures looks { Spends board.now.layout.cells req seat.old.me.0 seat.new.me.0 0 (cells_in board.now.layout.cells req.ring - 1) }
{
    let end = req.k + board.grid.cells_in(usize::from(req.ring));
    let mut found = 0u64;
    let mut k = req.k + 1;
    while k < end && found < count {
        let later = Req { ring: req.ring, k };
        let Some(replied) = has_replied(board, seat, later) else {
            return false;
        };
        found += u64::from(replied);
        k += 1;
    }
    count <= found
}

/// Answers a TIMEOUT that may be armed with this deadline alone, and has counted enough completions. Whether it was armed.
fn end_counted(board: &Board, seat: &mut TableSeat, cell: Cell, req: Req, deadline: u32) -> bool
    requires ours { IsOurs board.now seat.old }
    requires at { IsAt board.now.layout.cells cell.index cell.generation req }
    requires small { cell.generation < GENERATIONS }
    requires armed { (d : ℕ) → phase (events_of seat.old.me.0.seen) req ≡ armed d → d ≡ deadline }
    requires born { req.k < submits (events_of seat.old.me.0.seen) req.ring }
    requires enough { (e : Entry) × IsPlaced (events_of seat.old.me.0.seen) req e × (0 < count_of e.op) × (count_of e.op ≤ later_replies (events_of seat.old.me.0.seen) req) }
    ensures seat { IsPollerSeat seat.new }
    ensures counted { result ≡ true → Counts board.now req (pass_of seat.old) (pass_of seat.new) Counted }
    ensures missed { result ≡ false → Counts board.now req (pass_of seat.old) (pass_of seat.new) Counting.NotArmed }
    ensures steps { Paid seat.old.me.0 seat.new.me.0 0 1 }
    ensures looks { Spends board.now.layout.cells req seat.old.me.0 seat.new.me.0 1 0 }
{
    let _ = req;
    let words = &board.table.shared;
    timers::count(words, seat, cell.index, cell.generation as u32, deadline)
}

/// Answers a TIMEOUT that is armed with this deadline, if it has counted enough completions.
#[inline(always)]
pub(crate) fn count_armed(
    board: &Board,
    seat: &mut TableSeat,
    cell: Cell,
    req: Req,
    deadline: u32,
    count: u64,
) -> Counting
    requires armed { IsArmedAt board.now seat.old cell.index cell.generation req deadline }
    requires counts { IsCounting (events_of seat.old.me.0.seen) req count }
    ensures seat { IsPollerSeat seat.new }
    ensures counts { Counts board.now req (pass_of seat.old) (pass_of seat.new) result }
    ensures counting { result ≢ NotCounted }
    ensures steps { Paid seat.old.me.0 seat.new.me.0 0 (cells_in board.now.layout.cells req.ring) }
    ensures looks { Spends board.now.layout.cells req seat.old.me.0 seat.new.me.0 1 (cells_in board.now.layout.cells req.ring - 1) }
{
    if !has_counted(board, seat, req, count) {
        return Counting::Fewer;
    }
    if end_counted(board, seat, cell, req, deadline) {
        Counting::Counted
    } else {
        Counting::NotArmed
    }
}

/// Answers the request, if it is a TIMEOUT that is armed and has counted enough completions. `alarm` is what is kept of the
/// cell's timer.
pub(crate) fn count(
    board: &Board,
    seat: &mut TableSeat,
    alarm: Alarm,
    cell: Cell,
    req: Req,
) -> Counting
    requires ours { IsOurs board.now seat.old }
    requires at { IsAt board.now.layout.cells cell.index cell.generation req }
    requires knows { KnowsAlarm (events_of seat.old.me.0.seen) req (Some alarm) }
    ensures seat { IsPollerSeat seat.new }
    ensures counts { Counts board.now req (pass_of seat.old) (pass_of seat.new) result }
    ensures steps { Paid seat.old.me.0 seat.new.me.0 0 (cells_in board.now.layout.cells req.ring + 1) }
    ensures looks { Spends board.now.layout.cells req seat.old.me.0 seat.new.me.0 2 (cells_in board.now.layout.cells req.ring - 1) }
{
    let Some(deadline) = deadline_of(board, seat, cell, req) else {
        return Counting::NotArmed;
    };
    let Alarm::Alone(_, count) = alarm else {
        return Counting::NotCounted;
    };
    if count == 0 {
        return Counting::NotCounted;
    }
    count_armed(board, seat, cell, req, deadline, count)
}
