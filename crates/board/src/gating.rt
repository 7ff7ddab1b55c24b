//! How the poller finds out whether a request may start, by the row of its ring and by looks.
ghost use Rattle.std.specs.Prelude.{◌<◌, List};
ghost use Rattle.gates.specs.{Stands, Waits, Slot, nth};
ghost use Rattle.history.specs.History.{waits};
ghost use Rattle.board.specs.PollerRows.{IsSubmitted, Watches, Passes, IsNextLook, Advances, Gates};

use crate::board::Board;
use crate::looks::{Outcome, is_held, look_for_reply};
use gates::{Asked, Row};
use history::Req;
use steps::{TableSeat, seat};
use work::Cell;

/// What a look at a request that is in the way of another one came to.
#[derive(Clone, Copy)]
pub(crate) enum Passing {
    /// It has no reply.
    Waits,
    /// It has one, and the row knows.
    Passed,
    /// The other one doesn't wait any more.
    Lost,
}

/// Whether a request that waits may start.
#[derive(Clone, Copy)]
pub(crate) enum Gating {
    /// An earlier member of its chain failed.
    Severed,
    /// It may.
    Open,
    /// It is a LINK_TIMEOUT, and may be armed: its target may start, and has no reply.
    Linked,
    /// It waits for another request.
    Shut,
    /// It doesn't wait any more.
    Lost,
}

/// What a look towards whether a request may start came to.
#[derive(Clone, Copy)]
enum Round {
    /// That is decided.
    Decided(Gating),
    /// One that was in the way has replied, and the row knows.
    Passed,
    /// The nearest earlier member of its chain that was in question has no reply.
    Looked,
}

/// Looks at a request that is in the way of another one, `req`. Where its whole chain has replied, that may have too.
/// Its facts may be a later request's: then its whole chain has replied, and whether its reply failed can't be told. If `req` still waits
/// it is of another chain, and that plays no part.
fn pass(
    board: &Board,
    seat: &mut TableSeat,
    row: &mut Row,
    cell: Cell,
    req: Req,
    first: u64,
) -> Passing
    requires here { IsSubmitted board.now seat.old cell.index cell.generation req }
    requires watches { Watches board.now.layout.cells seat.old.me.0.seen req row.old }
    requires earlier { first < req.k }
    requires waits { (xs : List Slot) → Stands xs row.old → Waits xs row.old first }
    ensures { Passes board.now req (nth req.ring first) seat.old seat.new row.old row.new result }
{
    let other = Req {
        ring: req.ring,
        k: first,
    };
    match look_for_reply(board, seat, other) {
        Outcome::Pending => return Passing::Waits,
        Outcome::Replied(fails) => {
            row.replied(first, fails);
            return Passing::Passed;
        }
        Outcome::ChainDone => row.replied(first, false),
    }
    if is_held(board, seat, cell, req) {
        Passing::Passed
    } else {
        Passing::Lost
    }
}

/// Who is to be looked at, where `first` is in the way and `link` is the nearest earlier member of the request's chain that the
/// row has no reply of: that one, unless one was looked at, or it is the same. And what it comes to if it has no reply.
fn next_look(first: u64, link: Option<u64>, looked: bool) -> (u64, Round)
    ensures { IsNextLook first link looked result.0 result.1 }
{
    match link {
        Some(member) if !looked && member != first => (member, Round::Looked),
        _ => (first, Round::Decided(Gating::Shut)),
    }
}

/// Asks the row whether the request may start, or looks at one that is in its way. The members of its chain come first, from
/// the nearest back to the first that has no reply: a failure of one ends the chain, whoever else is in the way.
/// One that replied without a failure tells nothing of those before it: a LINK_TIMEOUT may run out before its target fails. Past one
/// without a reply it needn't look: if an earlier member had failed, that one would be severed itself, or is an armed timer.
fn advance(
    board: &Board,
    seat: &mut TableSeat,
    row: &mut Row,
    cell: Cell,
    req: Req,
    looked: bool,
) -> Round
    requires here { IsSubmitted board.now seat.old cell.index cell.generation req }
    requires watches { Watches board.now.layout.cells seat.old.me.0.seen req row.old }
    ensures { Advances board.now req looked seat.old seat.new row.old row.new result }
{
    let (first, waits) = match row.ask(req.k) {
        Asked::Severed => return Round::Decided(Gating::Severed),
        Asked::Open => return Round::Decided(Gating::Open),
        Asked::OpenWith(target) => (target, Round::Decided(Gating::Linked)),
        Asked::Blocked(first, link) => next_look(first, link, looked),
    };
    match pass(board, seat, row, cell, req, first) {
        Passing::Waits => waits,
        Passing::Passed => Round::Passed,
        Passing::Lost => Round::Decided(Gating::Lost),
    }
}

/// Whether the request, which the row has, may start.
pub(crate) fn gate(
    board: &Board,
    seat: &mut TableSeat,
    row: &mut Row,
    cell: Cell,
    req: Req,
) -> Gating
    requires here { IsSubmitted board.now seat.old cell.index cell.generation req }
    requires watches { Watches board.now.layout.cells seat.old.me.0.seen req row.old }
    ensures { Gates board.now req seat.old seat.new row.old row.new result }
{
    let mut looked = false;
    loop {
        match advance(board, seat, row, cell, req, looked) {
            Round::Decided(gating) => return gating,
            Round::Passed => {}
            Round::Looked => looked = true,
        }
    }
}
