//! The search of a cancel among the earlier requests of its ring.
ghost use Rattle.std.specs.Prelude.{◌≡◌, ◌≢◌, ◌⊎◌, ℕ, ◌<◌, ◌≤◌, ◌+◌, ◌*◌, ◌-◌, true, false, List, IfOk, IfErr, IfSome, IfNone};
ghost use Rattle.claim.specs.declared.word.TheConstants.{GENERATIONS};
ghost use Rattle.claim.specs.declared.tag.Tag.TheVariants.{Held, Ready, Running};
ghost use Rattle.entry.specs.declared.op.Op.{Op as OpOf};
ghost use Rattle.history.specs.declared.req.Req.{Req as Request};
ghost use Rattle.history.specs.{Matches, IsReplied, hit, nothing, phase, unborn};
ghost use Rattle.steps.specs.{IsCell, cells_in, request_at, word_of, events_of, row_number, IsIdleWord, IsSameSeat, Looks, Shown};
ghost use Rattle.steps.specs.declared.line.Line.{Line};
ghost use Rattle.work.specs.declared.cancel.Wanted.{Wanted as WantedOf};
ghost use Rattle.work.specs.{IsGridOf, Cancels, DidSearch, DidTake, DidTry, FewSteps, IsEarlier, IsFirst, IsMeant, MayAim, StepsIn, is_kind, target_in, wanted_in};

use crate::grid::Grid;
use crate::task::Task;
use claim::unpack_facts;
use entry::{Op, by_opcode};
use history::Req;
use steps::claims::{Standing, looked_for, stands_at};
use steps::facts::{LINK_TIMEOUT, TIMEOUT};
use steps::layout::{FACTS, USER_DATA};
use steps::{TableSeat, Words, cancels, seat};

/// What a cancel asks for: the user_data of what it is meant for, whether that has to be a TIMEOUT, and whether it means all
/// such requests (IORING_ASYNC_CANCEL_ALL).
#[derive(Clone, Copy)]
pub(crate) struct Wanted {
    pub user_data: u64,
    pub timeout: bool,
    pub all: bool,
}

/// What came of one request.
#[derive(Clone, Copy)]
pub(crate) enum Tried {
    /// The cancel isn't meant for it, or it has replied.
    Passed,
    /// It was ended.
    Took,
    /// A worker runs it.
    Missed,
}

/// What came of a search.
#[derive(Clone, Copy)]
pub(crate) enum Searched {
    /// Each request that the cancel is meant for has replied, or there is none.
    NoneLeft,
    /// This one was ended.
    Ended(Req),
    /// One was found running.
    Found,
}

/// A request's cell and generation.
#[derive(Clone, Copy)]
pub(crate) struct Target {
    pub cell: usize,
    pub generation: u32,
}

macro_rules! wanted {
    ((cancel timer $target:ident) ()) => { Some(Wanted { user_data: $target, timeout: true, all: false }) };
    ((cancel any $target:ident $all:ident) ()) => { Some(Wanted { user_data: $target, timeout: false, all: $all }) };
    ((timer $kind:ident $ticks:ident) ()) => { None };
    ((plain $kind:ident) ()) => { None };
    ((pipe $kind:ident $($field:ident)*) ()) => { None };
}

/// What the operation asks for. None where it is no cancel.
pub(crate) fn wanted_of(op: Op) -> Option<Wanted>
    ensures { result ≡ wanted_in op }
{
    by_opcode!(op => wanted!())
}

/// Whether a cancel may be meant for an entry with this row number.
fn is_kind(row: u8, timeout: bool) -> bool
    ensures { (op : OpOf) → row ≡ row_number op → result ≡ is_kind timeout op }
{
    if timeout {
        row == TIMEOUT
    } else {
        row != LINK_TIMEOUT
    }
}

/// Whether the cancel may be meant for the request, as its notes tell.
fn may_match(words: &Words, seat: &mut TableSeat, target: Target, wanted: Wanted) -> bool
    requires cancels { (c : Request) × Cancels words.now.table_id seat.old c wanted × IsEarlier words.now.table_id seat.old c target }
    ensures seat { IsSameSeat seat.old seat.new × (seat.new.me.1 ≡ seat.old.me.1) }
    ensures looks { Looks seat.old.me.0 seat.new.me.0 }
    ensures passed { result ≢ true → (c : Request) → Cancels words.now.table_id seat.old c wanted → Matches (events_of seat.new.me.0.seen) c (target_in seat.old target) → IsReplied (phase (events_of seat.new.me.0.seen) (target_in seat.old target)) }
    ensures meant { result ≡ true → (c : Request) → Cancels words.now.table_id seat.old c wanted → IsMeant seat.new.me.0 c (target_in seat.old target) }
    ensures steps { StepsIn seat.old.me.0 seat.new.me.0 target.cell 0 2 }
{
    let user_data = seat::look_at_note(words, seat, target.cell, USER_DATA);
    if user_data != wanted.user_data {
        return false;
    }
    let facts = unpack_facts(seat::look_at_note(words, seat, target.cell, FACTS));
    facts.generation == target.generation && is_kind(facts.row, wanted.timeout)
}

/// Ends the request where it still stands as its claim word was found, or finds it running or over. Else gives the word that
/// is there now.
fn attempt(words: &Words, seat: &mut TableSeat, target: Target, found: u64) -> Result<Tried, u64>
    requires cancels { (c : Request) × (w : WantedOf) × Cancels words.now.table_id seat.old c w × IsEarlier words.now.table_id seat.old c target × MayAim w.all seat.old.me.0 c (target_in seat.old target) × IsMeant seat.old.me.0 c (target_in seat.old target) }
    requires shown { Shown seat.old.me.0.layout.cells seat.old.me.0.seen target.cell found }
    ensures seat { IsSameSeat seat.old seat.new × (seat.new.me.1 ≡ seat.old.me.1) }
    ensures tried { IfOk result (λ t. (c : Request) (w : WantedOf) → Cancels words.now.table_id seat.old c w → DidTake seat.old.me.0 seat.new.me.0 c (target_in seat.old target) t) }
    ensures again { IfErr result (λ n. Looks seat.old.me.0 seat.new.me.0 × Shown seat.old.me.0.layout.cells seat.new.me.0.seen target.cell n × (found ≡ word_of Held 0 target.generation 0) × (n ≢ word_of Held 0 target.generation 0)) }
    ensures steps { StepsIn seat.old.me.0 seat.new.me.0 target.cell 1 1 }
{
    let Target { cell, generation } = target;
    let Some(expected) = looked_for(found, generation) else {
        return Ok(Tried::Passed);
    };
    let word = cancels::take(words, seat, cell, generation, expected, true);
    if word == expected {
        return Ok(Tried::Took);
    }
    match stands_at(word, generation) {
        Standing::Idle => Err(word),
        Standing::Running => Ok(Tried::Missed),
        Standing::Over => Ok(Tried::Passed),
    }
}

/// Ends the request, or finds it running or over.
/// Two exchanges are enough. A word that was found Held may have become Ready, or have a deadline in it. What was once Ready, Armed or
/// Running is never Held again.
fn take(words: &Words, seat: &mut TableSeat, target: Target) -> Tried
    requires cancels { (c : Request) × (w : WantedOf) × Cancels words.now.table_id seat.old c w × IsEarlier words.now.table_id seat.old c target × MayAim w.all seat.old.me.0 c (target_in seat.old target) × IsMeant seat.old.me.0 c (target_in seat.old target) }
    ensures seat { IsSameSeat seat.old seat.new × (seat.new.me.1 ≡ seat.old.me.1) }
    ensures tried { (c : Request) (w : WantedOf) → Cancels words.now.table_id seat.old c w → DidTake seat.old.me.0 seat.new.me.0 c (target_in seat.old target) result }
    ensures steps { StepsIn seat.old.me.0 seat.new.me.0 target.cell 3 3 }
{
    let first = seat::look(words, seat, target.cell);
    let second = match attempt(words, seat, target, first) {
        Ok(tried) => return tried,
        Err(second) => second,
    };
    match attempt(words, seat, target, second) {
        Ok(tried) => tried,
        Err(_) => unreachable!(),
    }
}

/// Tries a request: it ends it where the cancel is meant for it and it isn't running.
pub(crate) fn try_one(words: &Words, seat: &mut TableSeat, target: Target, wanted: Wanted) -> Tried
    requires cancels { (c : Request) × Cancels words.now.table_id seat.old c wanted × IsEarlier words.now.table_id seat.old c target × MayAim wanted.all seat.old.me.0 c (target_in seat.old target) }
    ensures seat { IsSameSeat seat.old seat.new × (seat.new.me.1 ≡ seat.old.me.1) }
    ensures tried { (c : Request) → Cancels words.now.table_id seat.old c wanted → DidTry seat.old.me.0 seat.new.me.0 c (target_in seat.old target) result }
    ensures steps { StepsIn seat.old.me.0 seat.new.me.0 target.cell 3 5 }
{
    if may_match(words, seat, target, wanted) {
        take(words, seat, target)
    } else {
        Tried::Passed
    }
}

/// The number of the oldest request of the ring that can still have a cell.
pub(crate) fn oldest(grid: &Grid, req: Req) -> u64
    ensures first { result ≡ req.k - (cells_in grid.now req.ring - 1) }
    ensures few { req.k < result + 1024 }
{
    let others = grid.others_in(usize::from(req.ring));
    req.k.saturating_sub(others)
}

/// Where an earlier request of the ring lies.
pub(crate) fn earlier(grid: &Grid, req: Req, k: u64) -> Target
    requires cell { (x : ℕ) × (g : ℕ) × (g < GENERATIONS) × IsCell grid.now x × (request_at grid.now x g ≡ req) }
    requires before { k < req.k }
    ensures cell { IsCell grid.now result.cell × (result.cell < 16384) × (result.generation < GENERATIONS) }
    ensures at { request_at grid.now result.cell result.generation ≡ record { ring = req.ring; k = k } }
{
    let Some(cell) = grid.locate(Req { ring: req.ring, k }) else {
        unreachable!()
    };
    Target {
        cell: cell.index,
        generation: cell.generation as u32,
    }
}

/// Goes over the earlier requests of the ring from this one on, in their order, until one of them was ended or found running.
pub(crate) fn search(task: &Task<'_>, seat: &mut TableSeat, first: u64, wanted: Wanted) -> Searched
    requires cancels { Cancels task.now.words.now.table_id seat.old task.now.req wanted × (wanted.all ≡ false) × (hit (events_of seat.old.me.0.seen) task.now.req ≡ nothing) }
    requires grid { IsGridOf task.now.words.now.table_id task.now.grid.now seat.old.me.0 }
    requires cell { (x : ℕ) × (g : ℕ) × (g < GENERATIONS) × IsCell task.now.grid.now x × (request_at task.now.grid.now x g ≡ task.now.req) }
    requires first { IsFirst task.now.grid.now seat.old.me.0 task.now.req first }
    ensures seat { IsSameSeat seat.old seat.new × (seat.new.me.1 ≡ seat.old.me.1) }
    ensures searched { DidSearch seat.old.me.0 seat.new.me.0 task.now.req result }
    ensures steps { FewSteps seat.old.me.0 seat.new.me.0 3 (5 * (task.now.req.k - first)) }
{
    let req = task.req;
    for k in first..req.k {
        let target = earlier(task.grid, req, k);
        match try_one(task.words, seat, target, wanted) {
            Tried::Passed => {}
            Tried::Took => return Searched::Ended(Req { ring: req.ring, k }),
            Tried::Missed => return Searched::Found,
        }
    }
    Searched::NoneLeft
}
