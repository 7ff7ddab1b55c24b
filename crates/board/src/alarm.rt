//! What the poller finds out of timers, what it keeps of those that it armed, and how it arms one.
ghost use Rattle.std.specs.Prelude.{◌≡◌, ◌+◌, ◌*◌, ◌<◌, ◌≤◌, true, false, Some, IfOk, IfErr};
ghost use Rattle.limits.specs.declared.TheConstants.{TICK};
ghost use Rattle.gates.specs.EntryRows.{added, waiting};
ghost use Rattle.claim.specs.declared.word.TheConstants.{GENERATIONS};
ghost use Rattle.history.specs.{Open, Severed, IsReplied, clock_of, phase, submits};
ghost use Rattle.steps.specs.Journal.{events_of};
ghost use Rattle.work.specs.Passes.{pass_of};
ghost use Rattle.board.specs.{Stepped, IsTimerAs, KnowsAlarm, looks_at, Arms, Expires, FailsAs, IsArmedAt, IsHeldTimer, Keeps, Refuses, TellsDeadline, IsPollerSeat};
ghost use Rattle.board.specs.declared.poller.Released.TheVariants.{NotHeld};
ghost use Rattle.board.specs.PollerRows.{IsSubmitted, Decides, IsAt, IsOurs, KnowsRow, Paid, StepsTo, Watched, owed};

use crate::board::Board;
use crate::gating::{Gating, gate};
use crate::intake::take_in;
use crate::looks::is_held;
use crate::phase::{Phase, told};
use crate::poller::{Arming, Expiry};
use claim::unpack_facts;
use gates::Row;
use history::Req;
use steps::facts::{LINK_TIMEOUT, TIMEOUT};
use steps::layout::{COUNT, FACTS};
use steps::{TableSeat, seat, timers};
use work::Cell;

/// What the poller keeps of a timer that it armed, so that the calls which end it need no look at the notes.
#[derive(Clone, Copy)]
pub(crate) enum Alarm {
    /// It is a LINK_TIMEOUT.
    Linked,
    /// It is a TIMEOUT. The flag says whether running out is a failure of it: not with IORING_TIMEOUT_ETIME_SUCCESS. The number is
    /// how many completions it counts, 0 for none.
    Alone(bool, u64),
}

/// A timer's ticks, and what is kept of it.
#[derive(Clone, Copy)]
pub(crate) struct Timer {
    pub ticks: u32,
    pub alarm: Alarm,
}

/// A request, and where it lies.
#[derive(Clone, Copy)]
pub(crate) struct Place {
    pub cell: Cell,
    pub req: Req,
}

/// Which timer the request is, if any, by the facts and the count in its cell. They are right where it has no reply.
fn timer_in(board: &Board, seat: &mut TableSeat, cell: Cell, req: Req) -> Option<Timer>
    requires ours { IsOurs board.now seat.old }
    requires at { IsAt board.now.layout.cells cell.index cell.generation req }
    requires born { req.k < submits (events_of seat.old.me.0.seen) req.ring }
    ensures watched { Watched board.now seat.old seat.new }
    ensures told { cell.generation < GENERATIONS → (IsReplied (phase (events_of seat.new.me.0.seen) req) → ⊥) → IsTimerAs (events_of seat.new.me.0.seen) req result }
    ensures steps { Paid seat.old.me.0 seat.new.me.0 0 (looks_at result) }
{
    let facts = unpack_facts(seat::look_at_note(&board.table.shared, seat, cell.index, FACTS));
    if u64::from(facts.generation) != cell.generation {
        return None;
    }
    if facts.row == TIMEOUT {
        let count = seat::look_at_note(&board.table.shared, seat, cell.index, COUNT);
        return Some(Timer {
            ticks: facts.payload,
            alarm: Alarm::Alone(!facts.etime_success, count),
        });
    }
    if facts.row == LINK_TIMEOUT {
        return Some(Timer {
            ticks: facts.payload,
            alarm: Alarm::Linked,
        });
    }
    None
}

/// Which timer the request is, if it waits for the poller. Else what its arming comes to.
#[inline(always)]
fn held_timer(board: &Board, seat: &mut TableSeat, cell: Cell, req: Req) -> Result<Timer, Arming>
    requires ours { IsOurs board.now seat.old }
    requires at { IsAt board.now.layout.cells cell.index cell.generation req }
    requires born { req.k < submits (events_of seat.old.me.0.seen) req.ring }
    ensures watched { Watched board.now seat.old seat.new }
    ensures held { IfOk result (λ t. IsHeldTimer board.now seat.old seat.new cell.generation req t) }
    ensures refused { IfErr result (λ x. Refuses board.now seat.old seat.new req x) }
{
    let found = timer_in(board, seat, cell, req);
    if !is_held(board, seat, cell, req) {
        return Err(Arming::NotHeld);
    }
    let Some(timer) = found else {
        return Err(Arming::NotTimer);
    };
    Ok(timer)
}

/// Arms the timer, which may start, and keeps what is needed of it.
fn set_alarm(
    board: &Board,
    seat: &mut TableSeat,
    clock: u32,
    alarm: &mut Alarm,
    place: Place,
    timer: Timer,
) -> Arming
    requires here { IsSubmitted board.now seat.old place.cell.index place.cell.generation place.req }
    requires open { (Severed (events_of seat.old.me.0.seen) place.req → ⊥) × Open (events_of seat.old.me.0.seen) place.req }
    requires timer { IsTimerAs (events_of seat.old.me.0.seen) place.req (Some timer) }
    requires clock { (clock ≡ clock_of (events_of seat.old.me.0.seen)) × (clock ≤ TICK) }
    ensures seat { IsPollerSeat seat.new }
    ensures arms { Arms board.now place.req (pass_of seat.old) (pass_of seat.new) result }
    ensures keeps { Keeps (events_of seat.new.me.0.seen) place.req alarm.old alarm.new result }
    ensures steps { Paid seat.old.me.0 seat.new.me.0 0 1 }
{
    let deadline = clock + timer.ticks;
    let words = &board.table.shared;
    let cell = place.cell;
    if timers::arm(words, seat, cell.index, cell.generation as u32, deadline) {
        *alarm = timer.alarm;
        Arming::Armed(deadline)
    } else {
        Arming::NotHeld
    }
}

/// Takes in what the row lacks up to the request, if that is there. Whether the row has it.
fn take_up(board: &Board, seat: &mut TableSeat, row: &mut Row, cell: Cell, req: Req) -> bool
    requires ours { IsOurs board.now seat.old }
    requires at { IsAt board.now.layout.cells cell.index cell.generation req }
    requires knows { KnowsRow board.now.layout.cells seat.old.me.0.seen req.ring row.old }
    ensures watched { Watched board.now seat.old seat.new }
    ensures knows { KnowsRow board.now.layout.cells seat.new.me.0.seen req.ring row.new }
    ensures has { result ≡ true → req.k < added row.new }
    ensures lost { result ≡ false → Decides board.now req (pass_of seat.old) (pass_of seat.new) NotHeld × Paid seat.old.me.0 seat.new.me.0 0 1 }
    ensures steps { result ≡ true → Paid seat.old.me.0 seat.new.me.0 (3 * waiting row.new) (owed row.old (req.k + 1) + 1) }
{
    if req.k < row.count() {
        return true;
    }
    if !is_held(board, seat, cell, req) {
        return false;
    }
    take_in(board, seat, row, req);
    true
}

/// Arms the request, which the row has.
fn arm_known(
    board: &Board,
    seat: &mut TableSeat,
    row: &mut Row,
    clock: u32,
    alarm: &mut Alarm,
    place: Place,
) -> Arming
    requires ours { IsOurs board.now seat.old }
    requires at { IsAt board.now.layout.cells place.cell.index place.cell.generation place.req }
    requires knows { KnowsRow board.now.layout.cells seat.old.me.0.seen place.req.ring row.old }
    requires has { place.req.k < added row.old }
    requires clock { (clock ≡ clock_of (events_of seat.old.me.0.seen)) × (clock ≤ TICK) }
    ensures seat { IsPollerSeat seat.new }
    ensures arms { Arms board.now place.req (pass_of seat.old) (pass_of seat.new) result }
    ensures keeps { Keeps (events_of seat.new.me.0.seen) place.req alarm.old alarm.new result }
    ensures knows { KnowsRow board.now.layout.cells seat.new.me.0.seen place.req.ring row.new }
    ensures steps { Paid seat.old.me.0 seat.new.me.0 0 (3 * waiting row.old + 4) }
{
    let Place { cell, req } = place;
    match held_timer(board, seat, cell, req) {
        Err(arming) => arming,
        Ok(timer) => match gate(board, seat, row, cell, req) {
            Gating::Open => set_alarm(board, seat, clock, alarm, place, timer),
            Gating::Linked => set_alarm(board, seat, clock, alarm, place, timer),
            Gating::Severed => Arming::Shut,
            Gating::Shut => Arming::Shut,
            Gating::Lost => Arming::NotHeld,
        },
    }
}

/// Arms the request, which the row noted as plain: it is open, whoever has replied.
fn arm_plain(
    board: &Board,
    seat: &mut TableSeat,
    row: &Row,
    clock: u32,
    alarm: &mut Alarm,
    place: Place,
) -> Arming
    requires ours { IsOurs board.now seat.old }
    requires at { IsAt board.now.layout.cells place.cell.index place.cell.generation place.req }
    requires knows { KnowsRow board.now.layout.cells seat.old.me.0.seen place.req.ring row.now }
    requires plain { place.req.k < row.now.plain }
    requires clock { (clock ≡ clock_of (events_of seat.old.me.0.seen)) × (clock ≤ TICK) }
    ensures seat { IsPollerSeat seat.new }
    ensures arms { Arms board.now place.req (pass_of seat.old) (pass_of seat.new) result }
    ensures keeps { Keeps (events_of seat.new.me.0.seen) place.req alarm.old alarm.new result }
    ensures steps { Paid seat.old.me.0 seat.new.me.0 0 4 }
{
    let _ = row;
    match held_timer(board, seat, place.cell, place.req) {
        Err(arming) => arming,
        Ok(timer) => set_alarm(board, seat, clock, alarm, place, timer),
    }
}

/// Arms the request: by itself, if it is known as plain. Else it takes in what the row lacks, looks which timer it is and whether
/// it waits, and passes what is in its way.
pub(crate) fn arm(
    board: &Board,
    seat: &mut TableSeat,
    row: &mut Row,
    clock: u32,
    alarm: &mut Alarm,
    place: Place,
) -> Arming
    requires ours { IsOurs board.now seat.old }
    requires at { IsAt board.now.layout.cells place.cell.index place.cell.generation place.req }
    requires knows { KnowsRow board.now.layout.cells seat.old.me.0.seen place.req.ring row.old }
    requires clock { (clock ≡ clock_of (events_of seat.old.me.0.seen)) × (clock ≤ TICK) }
    ensures seat { IsPollerSeat seat.new }
    ensures arms { Arms board.now place.req (pass_of seat.old) (pass_of seat.new) result }
    ensures keeps { Keeps (events_of seat.new.me.0.seen) place.req alarm.old alarm.new result }
    ensures knows { KnowsRow board.now.layout.cells seat.new.me.0.seen place.req.ring row.new }
    ensures steps { Paid seat.old.me.0 seat.new.me.0 0 (4 * submits (events_of seat.new.me.0.seen) place.req.ring + 5) }
{
    let Place { cell, req } = place;
    if req.k < row.plain() {
        return arm_plain(board, seat, row, clock, alarm, place);
    }
    if take_up(board, seat, row, cell, req) {
        arm_known(board, seat, row, clock, alarm, place)
    } else {
        Arming::NotHeld
    }
}

/// Looks whether the request's timer is armed. Its deadline, if so.
#[inline(always)]
pub(crate) fn deadline_of(board: &Board, seat: &mut TableSeat, cell: Cell, req: Req) -> Option<u32>
    requires ours { IsOurs board.now seat.old }
    requires at { IsAt board.now.layout.cells cell.index cell.generation req }
    ensures watched { Watched board.now seat.old seat.new }
    ensures told { TellsDeadline board.now seat.old seat.new cell.index cell.generation req result }
    ensures found { Stepped board.now.layout.cells req (pass_of seat.old) (pass_of seat.new) }
    ensures step { StepsTo board.now.layout.cells req seat.old.me.0 seat.new.me.0 }
{
    let _ = req;
    let word = seat::look(&board.table.shared, seat, cell.index);
    match told(word, cell.generation) {
        Phase::Armed(deadline) => Some(deadline),
        _ => None,
    }
}

/// Answers a TIMEOUT that is armed with this deadline, which has come.
pub(crate) fn run_out(
    board: &Board,
    seat: &mut TableSeat,
    cell: Cell,
    req: Req,
    deadline: u32,
    fails: bool,
) -> Expiry
    requires armed { IsArmedAt board.now seat.old cell.index cell.generation req deadline }
    requires due { deadline ≤ clock_of (events_of seat.old.me.0.seen) }
    requires timeout { FailsAs (events_of seat.old.me.0.seen) req fails }
    ensures seat { IsPollerSeat seat.new }
    ensures expires { Expires board.now req (pass_of seat.old) (pass_of seat.new) result }
    ensures steps { Paid seat.old.me.0 seat.new.me.0 0 1 }
{
    let _ = req;
    let words = &board.table.shared;
    let generation = cell.generation as u32;
    if timers::expire(words, seat, cell.index, generation, deadline, fails) {
        Expiry::Expired
    } else {
        Expiry::NotArmed
    }
}

/// Lets the request's TIMEOUT run out, where it is armed and its deadline has come. `alarm` is what is kept of the cell's timer.
pub(crate) fn expire(
    board: &Board,
    seat: &mut TableSeat,
    clock: u32,
    alarm: Alarm,
    cell: Cell,
    req: Req,
) -> Expiry
    requires ours { IsOurs board.now seat.old }
    requires at { IsAt board.now.layout.cells cell.index cell.generation req }
    requires clock { clock ≡ clock_of (events_of seat.old.me.0.seen) }
    requires knows { KnowsAlarm (events_of seat.old.me.0.seen) req (Some alarm) }
    ensures seat { IsPollerSeat seat.new }
    ensures expires { Expires board.now req (pass_of seat.old) (pass_of seat.new) result }
    ensures steps { Paid seat.old.me.0 seat.new.me.0 0 2 }
{
    let Some(deadline) = deadline_of(board, seat, cell, req) else {
        return Expiry::NotArmed;
    };
    let Alarm::Alone(fails, _) = alarm else {
        return Expiry::NotArmed;
    };
    if clock < deadline {
        return Expiry::Early;
    }
    run_out(board, seat, cell, req, deadline, fails)
}
