//! What one look of the poller tells of a request.
ghost use Rattle.std.specs.Prelude.{◌≡◌, ◌<◌, Bool, true, false};
ghost use Rattle.claim.specs.declared.word.TheConstants.{GENERATIONS};
ghost use Rattle.entry.specs.Entry.{Entry};
ghost use Rattle.board.specs.declared.poller.Released.TheVariants.{NotHeld};
ghost use Rattle.gates.specs.Slots.{traits_of};
ghost use Rattle.history.specs.History.{submits, phase, waits};
ghost use Rattle.steps.specs.{events_of, freed, AreFacts};
ghost use Rattle.work.specs.Passes.{pass_of};
ghost use Rattle.board.specs.Calls.{Stepped};
ghost use Rattle.board.specs.PollerRows.{IsNumbered, IsAt, IsOurs, Watched, Paid, ToldFacts, TellsOutcome, looks_for, Decides};

use crate::board::Board;
use crate::phase::{Phase, has_failed, told};
use claim::{FactsWord, unpack_facts};
use gates::Traits;
use history::Req;
use steps::facts::{INVALID, LINK_TIMEOUT};
use steps::layout::FACTS;
use steps::{TableSeat, seat};
use work::Cell;

/// What looks at a request tell of its reply.
#[derive(Clone, Copy)]
pub(crate) enum Outcome {
    /// It has none.
    Pending,
    /// It has one, which is a failure, or not.
    Replied(bool),
    /// It was reaped, and its whole chain has replied.
    ChainDone,
}

/// What a row looks at in an entry, by its facts.
pub(crate) fn traits_in(facts: FactsWord) -> Traits
    ensures { (e : Entry) (last : Bool) → AreFacts facts e last → result ≡ traits_of e }
{
    Traits {
        invalid: facts.row == INVALID,
        link_timeout: facts.row == LINK_TIMEOUT,
        drains: facts.drains,
        links_soft: facts.links_soft,
        links_hard: facts.links_hard,
    }
}

/// Loads the facts of the request in the cell. None where they are another generation's.
pub(crate) fn facts_in(
    board: &Board,
    seat: &mut TableSeat,
    cell: Cell,
    req: Req,
) -> Option<FactsWord>
    requires ours { IsOurs board.now seat.old }
    requires at { IsAt board.now.layout.cells cell.index cell.generation req }
    requires small { cell.generation < GENERATIONS }
    requires born { req.k < submits (events_of seat.old.me.0.seen) req.ring }
    ensures watched { Watched board.now seat.old seat.new }
    ensures told { ToldFacts (events_of seat.new.me.0.seen) req result }
    ensures steps { Paid seat.old.me.0 seat.new.me.0 0 1 }
{
    let word = seat::look_at_note(&board.table.shared, seat, cell.index, FACTS);
    let facts = unpack_facts(word);
    if u64::from(facts.generation) == cell.generation {
        Some(facts)
    } else {
        None
    }
}

/// Looks whether the request has a reply, and whether that is a failure.
pub(crate) fn look_for_reply(board: &Board, seat: &mut TableSeat, req: Req) -> Outcome
    requires ours { IsOurs board.now seat.old }
    requires numbered { IsNumbered board.now.layout.cells req }
    requires born { req.k < submits (events_of seat.old.me.0.seen) req.ring }
    ensures watched { Watched board.now seat.old seat.new }
    ensures told { TellsOutcome board.now.layout.cells req (pass_of seat.old) (pass_of seat.new) result }
    ensures steps { Paid seat.old.me.0 seat.new.me.0 0 (looks_for result) }
{
    let Some(cell) = board.grid.locate(req) else {
        unreachable!()
    };
    let word = seat::look(&board.table.shared, seat, cell.index);
    match told(word, cell.generation) {
        Phase::Done(_) => Outcome::Replied(has_failed(word)),
        Phase::Gone => match facts_in(board, seat, cell, req) {
            Some(facts) => Outcome::Replied(facts.payload == 1),
            None => Outcome::ChainDone,
        },
        _ => Outcome::Pending,
    }
}

/// Whether the request waits for the poller, as its claim word tells.
pub(crate) fn is_held(board: &Board, seat: &mut TableSeat, cell: Cell, req: Req) -> bool
    requires ours { IsOurs board.now seat.old }
    requires at { IsAt board.now.layout.cells cell.index cell.generation req }
    ensures watched { Watched board.now seat.old seat.new }
    ensures held { result ≡ true → (phase (events_of seat.new.me.0.seen) req ≡ waits) × (cell.generation < GENERATIONS) }
    ensures unfreed { result ≡ true → (freed seat.new.me.0.seen req ≡ false) × Stepped board.now.layout.cells req (pass_of seat.old) (pass_of seat.new) }
    ensures lost { result ≡ false → Decides board.now req (pass_of seat.old) (pass_of seat.new) NotHeld }
    ensures steps { Paid seat.old.me.0 seat.new.me.0 0 1 }
{
    let _ = req;
    let word = seat::look(&board.table.shared, seat, cell.index);
    matches!(told(word, cell.generation), Phase::Held)
}
