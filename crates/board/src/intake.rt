//! How the poller takes in what was submitted: of each ring it keeps a row.
ghost use Rattle.std.specs.Prelude.{◌≡◌, ◌+◌, ◌*◌, ◌<◌, ◌≤◌, ◌||◌, not, Bool, List, None};
ghost use Rattle.entry.specs.Entry.{Entry};
ghost use Rattle.gates.specs.EntryRows.{added, waiting, way_in};
ghost use Rattle.history.specs.History.{submits};
ghost use Rattle.history.specs.declared.event.Event.{Event};
ghost use Rattle.steps.specs.{events_of, AreFacts, TellsFacts};
ghost use Rattle.board.specs.PollerRows.{KnowsRow, IsNumbered, IsOurs, Watched, Paid, owed, Notes, is_plain as plain_entry};

use crate::board::Board;
use crate::looks::{facts_in, traits_in};
use claim::FactsWord;
use gates::{Row, Traits};
use history::Req;
use steps::{TableSeat, seat};

/// Whether an entry of these traits neither links, drains, nor is a LINK_TIMEOUT.
fn are_plain(traits: Traits) -> bool
    ensures { result ≡ not (((traits.drains || traits.links_soft) || traits.links_hard) || traits.link_timeout) }
{
    !(traits.drains || traits.links_soft || traits.links_hard || traits.link_timeout)
}

/// The same of an entry, by its facts.
fn is_plain(facts: FactsWord) -> bool
    ensures { (e : Entry) (last : Bool) → AreFacts facts e last → result ≡ plain_entry e }
{
    are_plain(traits_in(facts))
}

/// Notes that the request is plain, if it is, and the row has noted so of all before it. Whether it is plain.
#[inline(always)]
pub(crate) fn note_plain(row: &mut Row, facts: FactsWord, req: Req) -> bool
    requires { req.k < 18446744073709551615 }
    ensures { (h : List Event) → TellsFacts h req facts → Notes h req row.old row.new result }
{
    if !is_plain(facts) {
        return false;
    }
    if row.plain() == req.k {
        row.note_plain(req.k + 1);
        return true;
    }
    true
}

/// Takes the next request of the ring in. Its cell in the row is free.
fn add_next(board: &Board, seat: &mut TableSeat, row: &mut Row, next: Req)
    requires ours { IsOurs board.now seat.old }
    requires numbered { IsNumbered board.now.layout.cells next }
    requires born { next.k < submits (events_of seat.old.me.0.seen) next.ring }
    requires knows { KnowsRow board.now.layout.cells seat.old.me.0.seen next.ring row.old }
    requires room { way_in row.old ≡ None }
    requires next { next.k ≡ added row.old }
    ensures watched { Watched board.now seat.old seat.new }
    ensures knows { KnowsRow board.now.layout.cells seat.new.me.0.seen next.ring row.new }
    ensures count { added row.new ≡ added row.old + 1 }
    ensures steps { Paid seat.old.me.0 seat.new.me.0 (3 * waiting row.new) (3 * waiting row.old + 4) }
{
    let Some(cell) = board.grid.locate(next) else {
        unreachable!()
    };
    let Some(facts) = facts_in(board, seat, cell, next) else {
        if row.add_stand_in().is_err() {
            unreachable!()
        }
        return;
    };
    if row.add_traits(traits_in(facts), facts.last).is_err() {
        unreachable!()
    }
    note_plain(row, facts, next);
}

/// Takes the next request of the ring in, or passes one that is in its way: that one's whole chain has replied, since the next
/// request was submitted to its cell.
fn take_one(board: &Board, seat: &mut TableSeat, row: &mut Row, req: Req)
    requires ours { IsOurs board.now seat.old }
    requires numbered { IsNumbered board.now.layout.cells req }
    requires born { req.k < submits (events_of seat.old.me.0.seen) req.ring }
    requires knows { KnowsRow board.now.layout.cells seat.old.me.0.seen req.ring row.old }
    requires lacks { added row.old ≤ req.k }
    ensures watched { Watched board.now seat.old seat.new }
    ensures knows { KnowsRow board.now.layout.cells seat.new.me.0.seen req.ring row.new }
    ensures less { owed row.new (req.k + 1) < owed row.old (req.k + 1) }
    ensures steps { Paid seat.old.me.0 seat.new.me.0 (owed row.new (req.k + 1)) (owed row.old (req.k + 1)) }
{
    let k = row.count();
    match row.in_the_way() {
        Some(first) => row.replied(first, false),
        None => add_next(board, seat, row, Req { ring: req.ring, k }),
    }
}

/// Lets the row begin anew where it lacks requests whose cells were used again since: the whole chain of each has replied.
fn catch_up(board: &Board, seat: &TableSeat, row: &mut Row, req: Req)
    requires ours { IsOurs board.now seat.now }
    requires numbered { IsNumbered board.now.layout.cells req }
    requires born { req.k < submits (events_of seat.now.me.0.seen) req.ring }
    requires knows { KnowsRow board.now.layout.cells seat.now.me.0.seen req.ring row.old }
    ensures knows { KnowsRow board.now.layout.cells seat.now.me.0.seen req.ring row.new }
    ensures less { owed row.new (req.k + 1) ≤ owed row.old (req.k + 1) }
{
    let _ = seat;
    let cells = board.grid.cells_in(usize::from(req.ring));
    if cells <= req.k && row.count() <= req.k - cells {
        row.restart(req.k - cells + 1);
    }
}

/// Takes in what the row lacks up to the request, one after the other.
pub(crate) fn take_in(board: &Board, seat: &mut TableSeat, row: &mut Row, req: Req)
    requires ours { IsOurs board.now seat.old }
    requires numbered { IsNumbered board.now.layout.cells req }
    requires born { req.k < submits (events_of seat.old.me.0.seen) req.ring }
    requires knows { KnowsRow board.now.layout.cells seat.old.me.0.seen req.ring row.old }
    ensures watched { Watched board.now seat.old seat.new }
    ensures knows { KnowsRow board.now.layout.cells seat.new.me.0.seen req.ring row.new }
    ensures has { req.k < added row.new }
    ensures steps { Paid seat.old.me.0 seat.new.me.0 (owed row.new (req.k + 1)) (owed row.old (req.k + 1)) }
{
    catch_up(board, seat, row, req);
    while row.count() <= req.k {
        take_one(board, seat, row, req);
    }
}
