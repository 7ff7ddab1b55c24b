//! What the poller does for a request that waits.
ghost use Rattle.std.specs.Prelude.{◌≡◌, ◌≢◌, ◌⊎◌, ◌+◌, ◌*◌, ◌≤◌, false, true, length, ◌<◌, IfSome, IfNone};
ghost use Rattle.history.specs.declared.req.Req.{Req};
ghost use Rattle.history.specs.{same, submits, phase, IsReplied, IsLinkTimeout, Open, Severed as IsSevered, is_timeout, IsPlacedAs};
ghost use Rattle.steps.specs.Journal.{freed, events_of};
ghost use Rattle.work.specs.{IsOf, seen_of, pass_of};
ghost use Rattle.board.specs.declared.poller.Released.TheVariants.{Severed, Freed, Shut, Timer, NotHeld};
ghost use Rattle.board.specs.{Goes, FoundHeld, IsUnheld, MayStart, Stepped, IsPollerSeat};
ghost use Rattle.board.specs.PollerRows.{IsSubmitted, IsCanceled, IsShutOut, MayArm, Paid, severed_by, KnowsRow, Watches, IsAt, IsOurs, Watched, owed, Decides};
ghost use Rattle.gates.specs.EntryRows.{added, waiting};

use crate::board::Board;
use crate::gating::{Gating, gate};
use crate::intake::{note_plain, take_in};
use crate::looks::{facts_in, is_held};
use crate::poller::{Poller, Released};
use gates::Row;
use history::Req;
use steps::facts::TIMEOUT;
use steps::{TableSeat, seat};
use work::Cell;

/// Whether a worker is to run the request, which is no LINK_TIMEOUT: its facts tell whether it is a TIMEOUT. They don't any more
/// once it has replied.
fn is_worked(board: &Board, seat: &mut TableSeat, cell: Cell, req: Req) -> bool
    requires here { IsSubmitted board.now seat.old cell.index cell.generation req }
    ensures watched { Watched board.now seat.old seat.new }
    ensures worked { result ≡ true → IsPlacedAs (events_of seat.new.me.0.seen) req is_timeout false }
    ensures timer { result ≡ false → IsPlacedAs (events_of seat.new.me.0.seen) req is_timeout true ⊎ IsReplied (phase (events_of seat.new.me.0.seen) req) }
    ensures steps { Paid seat.old.me.0 seat.new.me.0 0 1 }
{
    match facts_in(board, seat, cell, req) {
        Some(facts) => facts.row != TIMEOUT,
        None => false,
    }
}

/// Moves the request, which is open and no LINK_TIMEOUT, to the workers, unless it is a TIMEOUT that still waits.
fn hand_on(board: &Board, seat: &mut TableSeat, cell: Cell, req: Req, worked: bool) -> Released
    requires here { IsSubmitted board.now seat.old cell.index cell.generation req }
    requires open { Open (events_of seat.old.me.0.seen) req }
    requires unlinked { IsLinkTimeout (events_of seat.old.me.0.seen) req → ⊥ }
    requires worked { worked ≡ true → IsPlacedAs (events_of seat.old.me.0.seen) req is_timeout false }
    requires timer { worked ≡ false → IsPlacedAs (events_of seat.old.me.0.seen) req is_timeout true ⊎ IsReplied (phase (events_of seat.old.me.0.seen) req) }
    ensures seat { IsPollerSeat seat.new }
    ensures decides { Decides board.now req (pass_of seat.old) (pass_of seat.new) result }
    ensures steps { Paid seat.old.me.0 seat.new.me.0 0 1 }
{
    if !worked {
        if !is_held(board, seat, cell, req) {
            return Released::NotHeld;
        }
        return Released::Timer;
    }
    let words = &board.table.shared;
    if seat::release(words, seat, cell.index, cell.generation as u32) {
        Released::Freed
    } else {
        Released::NotHeld
    }
}

/// Moves the request, which is open, to the workers, unless it is a timer: a linked one, which has a target, or a TIMEOUT that
/// still waits.
fn free(board: &Board, seat: &mut TableSeat, row: &Row, cell: Cell, req: Req) -> Released
    requires here { IsSubmitted board.now seat.old cell.index cell.generation req }
    requires watches { Watches board.now.layout.cells seat.old.me.0.seen req row.now }
    requires open { (IsSevered (events_of seat.old.me.0.seen) req → ⊥) × Open (events_of seat.old.me.0.seen) req }
    ensures seat { IsPollerSeat seat.new }
    ensures decides { Decides board.now req (pass_of seat.old) (pass_of seat.new) result }
    ensures steps { Paid seat.old.me.0 seat.new.me.0 0 2 }
{
    if row.target_of(req.k).is_some() {
        return Released::Timer;
    }
    let worked = is_worked(board, seat, cell, req);
    hand_on(board, seat, cell, req, worked)
}

/// Answers the request, of which an earlier member of its chain failed.
fn sever(board: &Board, seat: &mut TableSeat, row: &Row, cell: Cell, req: Req) -> Released
    requires here { IsSubmitted board.now seat.old cell.index cell.generation req }
    requires watches { Watches board.now.layout.cells seat.old.me.0.seen req row.now }
    requires severed { IsSevered (events_of seat.old.me.0.seen) req }
    ensures seat { IsPollerSeat seat.new }
    ensures decides { Decides board.now req (pass_of seat.old) (pass_of seat.new) result }
    ensures steps { Paid seat.old.me.0 seat.new.me.0 0 1 }
{
    let fails = row.target_of(req.k).is_none();
    let words = &board.table.shared;
    if seat::sever(words, seat, cell.index, cell.generation as u32, fails) {
        Released::Severed
    } else {
        Released::NotHeld
    }
}

/// Releases the request, which the row has.
fn decide(board: &Board, seat: &mut TableSeat, row: &mut Row, cell: Cell, req: Req) -> Released
    requires here { IsSubmitted board.now seat.old cell.index cell.generation req }
    requires watches { Watches board.now.layout.cells seat.old.me.0.seen req row.old }
    ensures seat { IsPollerSeat seat.new }
    ensures decides { Decides board.now req (pass_of seat.old) (pass_of seat.new) result }
    ensures knows { KnowsRow board.now.layout.cells seat.new.me.0.seen req.ring row.new }
    ensures steps { Paid seat.old.me.0 seat.new.me.0 0 (3 * waiting row.old + 1) }
{
    match gate(board, seat, row, cell, req) {
        Gating::Severed => sever(board, seat, row, cell, req),
        Gating::Open => free(board, seat, row, cell, req),
        Gating::Linked => Released::Timer,
        Gating::Shut => Released::Shut,
        Gating::Lost => Released::NotHeld,
    }
}

/// Takes in what the row lacks up to the request. Whether that still waits.
fn follow(board: &Board, seat: &mut TableSeat, row: &mut Row, cell: Cell, req: Req) -> bool
    requires here { IsSubmitted board.now seat.old cell.index cell.generation req }
    requires knows { KnowsRow board.now.layout.cells seat.old.me.0.seen req.ring row.old }
    ensures watched { Watched board.now seat.old seat.new }
    ensures knows { KnowsRow board.now.layout.cells seat.new.me.0.seen req.ring row.new }
    ensures watches { result ≡ true → Watches board.now.layout.cells seat.new.me.0.seen req row.new }
    ensures lost { result ≡ false → Decides board.now req (pass_of seat.old) (pass_of seat.new) NotHeld }
    ensures steps { Paid seat.old.me.0 seat.new.me.0 (3 * waiting row.new) (owed row.old (req.k + 1) + 1) }
{
    take_in(board, seat, row, req);
    is_held(board, seat, cell, req)
}

/// Releases the request where all before it are plain, and it is too: it is open, whoever has replied, and the row needn't have
/// it. None where it isn't, or its facts are gone.
#[inline(always)]
fn release_plain(
    board: &Board,
    seat: &mut TableSeat,
    row: &mut Row,
    cell: Cell,
    req: Req,
) -> Option<Released>
    requires here { IsSubmitted board.now seat.old cell.index cell.generation req }
    requires knows { KnowsRow board.now.layout.cells seat.old.me.0.seen req.ring row.old }
    requires plain { req.k ≤ row.old.plain }
    ensures seat { IsPollerSeat seat.new }
    ensures decides { IfSome result (λ x. Decides board.now req (pass_of seat.old) (pass_of seat.new) x) }
    ensures watched { IfNone result (Watched board.now seat.old seat.new) }
    ensures knows { KnowsRow board.now.layout.cells seat.new.me.0.seen req.ring row.new }
    ensures same { (added row.new ≡ added row.old) × (waiting row.new ≡ waiting row.old) }
    ensures steps { Paid seat.old.me.0 seat.new.me.0 0 2 }
    ensures step { IfNone result (Paid seat.old.me.0 seat.new.me.0 0 1) }
{
    let _ = &board.grid;
    let Some(facts) = facts_in(board, seat, cell, req) else {
        return None;
    };
    if !note_plain(row, facts, req) {
        return None;
    }
    Some(hand_on(board, seat, cell, req, facts.row != TIMEOUT))
}

/// Releases the request: the row takes in what it lacks, and it passes what is in the way.
fn release_by_row(
    board: &Board,
    seat: &mut TableSeat,
    row: &mut Row,
    cell: Cell,
    req: Req,
) -> Released
    requires here { IsSubmitted board.now seat.old cell.index cell.generation req }
    requires knows { KnowsRow board.now.layout.cells seat.old.me.0.seen req.ring row.old }
    ensures seat { IsPollerSeat seat.new }
    ensures decides { Decides board.now req (pass_of seat.old) (pass_of seat.new) result }
    ensures knows { KnowsRow board.now.layout.cells seat.new.me.0.seen req.ring row.new }
    ensures steps { Paid seat.old.me.0 seat.new.me.0 0 (owed row.old (req.k + 1) + 2) }
{
    if !follow(board, seat, row, cell, req) {
        return Released::NotHeld;
    }
    decide(board, seat, row, cell, req)
}

/// Releases the request, where all before it are plain: by itself if it is plain too, else by the row.
fn release_next(
    board: &Board,
    seat: &mut TableSeat,
    row: &mut Row,
    cell: Cell,
    req: Req,
) -> Released
    requires here { IsSubmitted board.now seat.old cell.index cell.generation req }
    requires knows { KnowsRow board.now.layout.cells seat.old.me.0.seen req.ring row.old }
    requires plain { req.k ≤ row.old.plain }
    ensures seat { IsPollerSeat seat.new }
    ensures decides { Decides board.now req (pass_of seat.old) (pass_of seat.new) result }
    ensures knows { KnowsRow board.now.layout.cells seat.new.me.0.seen req.ring row.new }
    ensures steps { Paid seat.old.me.0 seat.new.me.0 0 (owed row.old (req.k + 1) + 3) }
{
    match release_plain(board, seat, row, cell, req) {
        Some(released) => released,
        None => release_by_row(board, seat, row, cell, req),
    }
}

/// Releases the request: it looks whether that waits, takes in what the row lacks, and passes what is in its way.
pub(crate) fn release(
    board: &Board,
    seat: &mut TableSeat,
    row: &mut Row,
    cell: Cell,
    req: Req,
) -> Released
    requires ours { IsOurs board.now seat.old }
    requires at { IsAt board.now.layout.cells cell.index cell.generation req }
    requires knows { KnowsRow board.now.layout.cells seat.old.me.0.seen req.ring row.old }
    ensures seat { IsPollerSeat seat.new }
    ensures decides { Decides board.now req (pass_of seat.old) (pass_of seat.new) result }
    ensures knows { KnowsRow board.now.layout.cells seat.new.me.0.seen req.ring row.new }
    ensures steps { Paid seat.old.me.0 seat.new.me.0 0 (4 * submits (events_of seat.new.me.0.seen) req.ring + 4) }
{
    if !is_held(board, seat, cell, req) {
        return Released::NotHeld;
    }
    if req.k < row.count() {
        return decide(board, seat, row, cell, req);
    }
    if row.plain() < req.k {
        return release_by_row(board, seat, row, cell, req);
    }
    release_next(board, seat, row, cell, req)
}

impl Board {
    /// Moves a request that waits, and is open, to the workers; or answers it, where an earlier member of its chain failed. It
    /// looks at the requests that the poller hasn't seen yet, up to this one, and at those that are in the way.
    pub fn release(&self, poller: &mut Poller, req: Req) -> Released
        requires { IsOf self.now poller.old }
        ensures goes { Goes self.now poller.old (severed_by result req) poller.new }
        ensures freed { result ≡ Freed → (freed poller.new.view.seen req ≡ true) × MayStart poller.new.view.seen req }
        ensures was_held { (result ≡ Freed) ⊎ (result ≡ Severed) → FoundHeld self.now.layout.cells req poller.old poller.new }
        ensures once { result ≡ Freed → freed poller.old.view.seen req ≡ false }
        ensures severed { result ≡ Severed → IsCanceled (seen_of poller.new) req }
        ensures shut { result ≡ Shut → IsShutOut self.now.layout.cells req poller.old poller.new }
        ensures timer { result ≡ Timer → MayArm (seen_of poller.new) req }
        ensures not_held { result ≡ NotHeld → IsUnheld poller.new.view.seen req × ((length self.now.layout.cells ≤ req.ring) ⊎ Stepped self.now.layout.cells req poller.old poller.new) }
        ensures steps { Paid poller.old.view poller.new.view 0 (4 * submits (seen_of poller.new) req.ring + 4) }
        ensures alone { (q : Req) → (result ≢ Freed) ⊎ (same req q ≡ false) → freed poller.new.view.seen q ≡ freed poller.old.view.seen q }
    {
        match self.grid.locate(req) {
            Some(cell) => poller.release(self, cell, req),
            None => Released::NotHeld,
        }
    }
}
