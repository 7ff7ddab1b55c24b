//! The poller's pass.
ghost use Rattle.std.specs.Prelude.{◌≡◌, ◌+◌, ◌-◌, ◌*◌, List, [], ◌∷◌, length, IfOk, IfErr};
ghost use Rattle.history.specs.declared.event.Event.TheVariants.{Tick};
ghost use Rattle.history.specs.declared.req.Req.{Req as Request};
ghost use Rattle.history.specs.History.{clock_of, submits};
ghost use Rattle.steps.specs.{freed, cells_in, claim_at, total, Looks, Shown, IsStep};
ghost use Rattle.steps.specs.declared.view.Role.{Role};
ghost use Rattle.work.specs.{IsOf, pass_of, seen_of, CanReach, Took};
ghost use Rattle.board.specs.{Goes, IsPast, Arms, Counts, Expires, Fires, Settles, Decides, IsAt, KnowsRows, Paid, Spends, IsPollerSeat};
ghost use Rattle.board.specs.Polls.{Polls};

use crate::alarm::{self, Alarm, Place};
use crate::board::Board;
use crate::error::ClockEnd;
use crate::polling::{self, Polling};
use crate::{counting, linked, release};
use gates::Row;
use history::Req;
use limits::TICK;
use std::marker::Model;
use steps::{TableSeat, Words, seat, table, timers};
use work::{Cell, Messenger, Pass};

/// The poller's pass: it moves what may begin to the workers, and ends what is severed. Of each ring it keeps a row of what it
/// has seen, and of each cell what timer it armed last for a request of it. It alone sets the clock, so it knows the time.
/// Contracts see its table and what it knows.
#[derive(Drop)]
pub struct Poller {
    seat: TableSeat,
    rows: Vec<Row>,
    clock: u32,
    alarms: Vec<Alarm>,
}

impl Model for Poller {
    ghost use Rattle.work.specs.Passes.{Pass, pass_of};
    ghost use Rattle.steps.specs.Journal.{events_of};
    ghost use Rattle.board.specs.{KnowsRows, KnowsTimers, IsPollerSeat};

    ghost Value = { Pass };

    ghost view = { λ p. pass_of p.seat };

    ghost invariant = { λ p. IsPollerSeat p.seat × KnowsRows p.seat.me.0.layout.cells p.seat.me.0.seen p.rows.items × KnowsTimers p.seat.me.0.layout.cells (events_of p.seat.me.0.seen) p.clock p.alarms.items };
}

/// What became of a request that was to be released.
#[derive(Clone, Copy, PartialEq, Eq, Debug)]
pub enum Released {
    /// An earlier member of its chain failed: it was answered with -125 (ECANCELED) now.
    Severed,
    /// A worker may begin it.
    Freed,
    /// It waits for another request (IOSQE_IO_LINK and IOSQE_IO_DRAIN of io_uring_enter(2)). Nothing has changed.
    Shut,
    /// It is open, and a timer: it is to be armed. Nothing has changed.
    Timer,
    /// It doesn't wait for the poller: it wasn't submitted yet, was released before, or has a reply. Nothing has changed.
    NotHeld,
}

/// What became of a timer that was to be armed. They are tested in the order `NotHeld`, `NotTimer`, `Shut`.
#[derive(Clone, Copy, PartialEq, Eq, Debug)]
pub enum Arming {
    /// It is armed, and runs out at this tick of the clock.
    Armed(u32),
    /// It doesn't wait for the poller. Nothing has changed.
    NotHeld,
    /// It waits, and is no timer. Nothing has changed.
    NotTimer,
    /// It waits for another request, or an earlier member of its chain failed. Nothing has changed.
    Shut,
}

/// What became of a TIMEOUT that was to run out. They are tested in the order `NotArmed`, `Early`.
#[derive(Clone, Copy, PartialEq, Eq, Debug)]
pub enum Expiry {
    /// It was answered with -62 (ETIME) now.
    Expired,
    /// It is armed, and its deadline is after the clock's time. Nothing has changed.
    Early,
    /// It isn't armed, or is a LINK_TIMEOUT. Nothing has changed.
    NotArmed,
}

/// What became of a TIMEOUT that was to be answered if it has counted enough completions. They are tested in the order `NotArmed`,
/// `NotCounted`, `Fewer`.
#[derive(Clone, Copy, PartialEq, Eq, Debug)]
pub enum Counting {
    /// As many later requests of its ring have replied as it counts: it was answered with 0 now.
    Counted,
    /// Fewer had replied before this call. Nothing has changed.
    Fewer,
    /// It is armed, and counts no completions: its count is 0, or it is a LINK_TIMEOUT. Nothing has changed.
    NotCounted,
    /// It isn't armed. Nothing has changed.
    NotArmed,
}

/// What became of a LINK_TIMEOUT that was to fire. They are tested in the order `NotArmed`, `Early`, `TargetDone`.
#[derive(Clone, Copy, PartialEq, Eq, Debug)]
pub enum Firing {
    /// Its target was answered with -125 (ECANCELED) now, and it with -62 (ETIME).
    Took,
    /// A worker runs its target, which continues. It was answered with -62 (ETIME) now.
    Missed,
    /// Its target has replied: it is to be settled. Nothing has changed.
    TargetDone,
    /// Its deadline is after the clock's time. Nothing has changed.
    Early,
    /// It isn't armed, or is a TIMEOUT. Nothing has changed.
    NotArmed,
}

/// What became of a LINK_TIMEOUT that was to be settled. They are tested in the order `NotArmed`, `TargetOpen`.
#[derive(Clone, Copy, PartialEq, Eq, Debug)]
pub enum Settling {
    /// Its target had replied before it ran out: it was answered with -125 (ECANCELED) now.
    Settled,
    /// Its target has no reply. Nothing has changed.
    TargetOpen,
    /// It isn't armed, or is a TIMEOUT. Nothing has changed.
    NotArmed,
}

/// What became of a timer that was polled. Nothing has changed where it is `Early` or one of those after that.
#[derive(Clone, Copy, PartialEq, Eq, Debug)]
pub enum Polled {
    /// A TIMEOUT's deadline has come: it was answered with -62 (ETIME) now.
    Expired,
    /// A TIMEOUT has counted enough completions: it was answered with 0 now.
    Counted,
    /// A LINK_TIMEOUT fired: its target was answered with -125 (ECANCELED) now, and it with -62 (ETIME).
    Took,
    /// A LINK_TIMEOUT fired while a worker runs its target, which continues. It was answered with -62 (ETIME) now.
    Missed,
    /// A LINK_TIMEOUT's target had replied: it was answered with -125 (ECANCELED) now.
    Settled,
    /// A TIMEOUT that counts no completions, and whose deadline is after the clock's time.
    Early,
    /// The same of one that counts completions, of which fewer had replied before this call.
    Fewer,
    /// The same of a LINK_TIMEOUT, whose target has no reply.
    TargetOpen,
    /// A LINK_TIMEOUT's deadline has come, and its target has no reply: it is to fire, which this call might not do.
    Due,
    /// It isn't armed.
    NotArmed,
}

impl Poller {
    /// The pass of the poller's seat, which has seen nothing yet, with the rows of the rings, and a place for each cell's timer.
    pub(crate) fn new(seat: TableSeat, rows: Vec<Row>, alarms: Vec<Alarm>) -> Poller
        requires seat { IsPollerSeat seat }
        requires rows { KnowsRows seat.me.0.layout.cells seat.me.0.seen rows.items }
        requires alarms { (seat.me.0.seen ≡ []) × (length alarms.items ≡ total seat.me.0.layout.cells) }
        ensures { result ≡ pass_of seat }
    {
        Poller {
            seat,
            rows,
            clock: 0,
            alarms,
        }
    }

    /// The clock's time, in ticks: that of its last tick, or 0.
    pub fn clock(&self) -> u32
        ensures clock { result ≡ clock_of (seen_of self.now) }
        ensures role { self.now.view.role ≡ Role.Poller (length self.now.view.layout.cells) }
    {
        self.clock
    }

    /// Its seat.
    pub(crate) fn into_seat(self) -> TableSeat
        ensures seat { IsPollerSeat result }
        ensures value { pass_of result ≡ self }
    {
        let Poller { seat, .. } = self;
        seat
    }

    /// Loads the claim word of the cell.
    pub(crate) fn look_at(&mut self, words: &Words, cell: usize) -> u64
        requires { CanReach words.now.table_id self.old cell }
        ensures role { self.old.view.role ≡ Role.Poller (length self.old.view.layout.cells) }
        ensures table { self.new.table ≡ self.old.table }
        ensures looks { Looks self.old.view self.new.view }
        ensures shown { Shown self.old.view.layout.cells self.new.view.seen cell result }
        ensures step { IsStep (claim_at cell) result self.old.view self.new.view }
        ensures took { (self.new.took ≡ self.old.took) × (self.new.woken ≡ self.old.woken) }
    {
        seat::look(words, &mut self.seat, cell)
    }

    /// Releases the request in this cell.
    pub(crate) fn release(&mut self, board: &Board, cell: Cell, req: Req) -> Released
        requires ours { IsOf board.now self.old }
        requires at { IsAt board.now.layout.cells cell.index cell.generation req }
        ensures decides { Decides board.now req self.old self.new result }
        ensures steps { Paid self.old.view self.new.view 0 (4 * submits (seen_of self.new) req.ring + 4) }
    {
        let ring = usize::from(req.ring);
        release::release(board, &mut self.seat, &mut self.rows[ring], cell, req)
    }

    /// Arms the request in this cell.
    pub(crate) fn arm(&mut self, board: &Board, cell: Cell, req: Req) -> Arming
        requires ours { IsOf board.now self.old }
        requires at { IsAt board.now.layout.cells cell.index cell.generation req }
        ensures arms { Arms board.now req self.old self.new result }
        ensures steps { Paid self.old.view self.new.view 0 (4 * submits (seen_of self.new) req.ring + 5) }
    {
        let row = &mut self.rows[usize::from(req.ring)];
        let alarm = &mut self.alarms[cell.index];
        let place = Place { cell, req };
        alarm::arm(board, &mut self.seat, row, self.clock, alarm, place)
    }

    /// Lets the timer in this cell run out.
    pub(crate) fn expire(&mut self, board: &Board, cell: Cell, req: Req) -> Expiry
        requires ours { IsOf board.now self.old }
        requires at { IsAt board.now.layout.cells cell.index cell.generation req }
        ensures expires { Expires board.now req self.old self.new result }
        ensures steps { Paid self.old.view self.new.view 0 2 }
    {
        let alarm = self.alarms[cell.index];
        alarm::expire(board, &mut self.seat, self.clock, alarm, cell, req)
    }

    /// Answers the timer in this cell, if it has counted enough completions.
    pub(crate) fn count(&mut self, board: &Board, cell: Cell, req: Req) -> Counting
        requires ours { IsOf board.now self.old }
        requires at { IsAt board.now.layout.cells cell.index cell.generation req }
        ensures counts { Counts board.now req self.old self.new result }
        ensures steps { Paid self.old.view self.new.view 0 (cells_in board.now.layout.cells req.ring + 1) }
        ensures looks { Spends board.now.layout.cells req self.old.view self.new.view 2 (cells_in board.now.layout.cells req.ring - 1) }
    {
        let alarm = self.alarms[cell.index];
        counting::count(board, &mut self.seat, alarm, cell, req)
    }

    /// Fires the timer in this cell.
    pub(crate) fn fire(&mut self, board: &Board, cell: Cell, req: Req) -> Firing
        requires ours { IsOf board.now self.old }
        requires at { IsAt board.now.layout.cells cell.index cell.generation req }
        ensures fires { Fires board.now req self.old self.new result }
        ensures steps { Paid self.old.view self.new.view 0 4 }
    {
        let alarm = self.alarms[cell.index];
        linked::fire(board, &mut self.seat, self.clock, alarm, cell, req)
    }

    /// Settles the timer in this cell.
    pub(crate) fn settle(&mut self, board: &Board, cell: Cell, req: Req) -> Settling
        requires ours { IsOf board.now self.old }
        requires at { IsAt board.now.layout.cells cell.index cell.generation req }
        ensures settles { Settles board.now req self.old self.new result }
        ensures steps { Paid self.old.view self.new.view 0 3 }
    {
        let alarm = self.alarms[cell.index];
        linked::settle(board, &mut self.seat, alarm, cell, req)
    }

    /// Does what is to be done with the timer in this cell.
    pub(crate) fn poll_timer(
        &mut self,
        board: &Board,
        cell: Cell,
        req: Req,
        may_fire: bool,
    ) -> Polled
        requires ours { IsOf board.now self.old }
        requires at { IsAt board.now.layout.cells cell.index cell.generation req }
        ensures polls { Polls board.now may_fire req self.old self.new result }
        ensures steps { Paid self.old.view self.new.view 0 (cells_in board.now.layout.cells req.ring + 3) }
    {
        let alarm = self.alarms[cell.index];
        let polling = Polling {
            clock: self.clock,
            may_fire,
        };
        polling::poll(board, &mut self.seat, polling, alarm, cell, req)
    }

    /// Sets the clock on.
    pub(crate) fn tick(&mut self, board: &Board, to: u32) -> Result<(), ClockEnd>
        requires { IsOf board.now self.old }
        ensures ticked { IfOk result (λ u. Goes board.now self.old (Tick to ∷ []) self.new × Took self.old.view self.new.view 1 × ((q : Request) → freed self.new.view.seen q ≡ freed self.old.view.seen q)) }
        ensures refused { IfErr result (λ e. (self.new ≡ self.old) × IsPast (seen_of self.old) to) }
    {
        if to < self.clock || TICK < to {
            return Err(ClockEnd);
        }
        timers::tick(&board.table.shared, &mut self.seat, to);
        self.clock = to;
        Ok(())
    }
}

impl Pass for Poller {
    ghost knows = { λ p. p };

    fn load(&mut self, words: &Words, cell: usize) -> u64 {
        self.look_at(words, cell)
    }

    fn tell(&mut self, words: &Words) -> Messenger {
        Messenger::new(table::tell(words, &mut self.seat))
    }

    fn hear(&mut self, words: &Words, messenger: Messenger) {
        table::hear(words, &mut self.seat, messenger.into_seat());
    }
}
