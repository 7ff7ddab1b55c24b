//! The steps of a submitter: it notes, submits, notes again and reaps.
ghost use Rattle.std.specs.Prelude.{◌≡◌, ℕ, ◌+◌, ◌<◌, true, false, ◌∷◌, Option, Some, None};
ghost use Rattle.atomic_table.specs.Table.{rest};
ghost use Rattle.claim.specs.declared.tag.Tag.TheVariants.{Empty};
ghost use Rattle.claim.specs.declared.word.TheConstants.{GENERATIONS};
ghost use Rattle.history.specs.declared.event.Event.TheVariants.{Submit, Reap};
ghost use Rattle.history.specs.{Submitted, data_of, submits, before_in, hosts, placed_behind, Fits as FitsEntry};
ghost use Rattle.steps.specs.declared.line.Line.TheVariants.{Did, Lent, Noted};
ghost use Rattle.steps.specs.declared.slot.Submission.{Submission};
ghost use Rattle.steps.specs.declared.slot.Thing.TheVariants.{Full};
ghost use Rattle.steps.specs.declared.view.Role.TheVariants.{Submitter, Lending};
ghost use Rattle.steps.specs.{events_of, lent, noted, ring_of, request_at, claim_at, note_at, facts_at, user_at, slot_at, word_of, IsSubmission, IsCountNoted, count_in, count_notes, facts_of, notes_of, words_in, Extends, ExtendsAfter, ExtendsNoted, ExtendsTwice, IsStep, AreSteps, IsTwoSteps, Vacant, Fits, IsSameSeat, IsDone, IsOutcomeNote};

use crate::facts::{count_in, facts};
use crate::layout::{COUNT, FACTS, USER_DATA, claim_word, note_word, slot};
use crate::slot::{Submission, Thing, submission_of};
use crate::table::{TableSeat, Words};
use crate::{claims, plays};

/// Notes the facts, takes the slot of a cell that is free, and puts the submission there.
#[inline(always)]
fn fill(
    words: &Words,
    seat: &mut TableSeat,
    cell: usize,
    generation: u32,
    submission: Submission,
    hosted: bool,
) -> u64
    requires fits { Fits words.now.table_id seat.old cell }
    requires small { generation < GENERATIONS }
    requires submitter { (seat.old.me.0.role ≡ Submitter (ring_of seat.old.me.0.layout.cells cell)) × (0 < seat.old.me.0.parts) }
    requires free { Vacant seat.old.me.0.layout.cells seat.old.me.0.seen cell generation }
    requires home { lent seat.old.me.0.seen (request_at seat.old.me.0.layout.cells cell generation) ≡ false }
    ensures facts { (before : Option Submitted) → hosted ≡ hosts before → result ≡ facts_of generation (placed_behind before submission.sqe) submission.last }
    ensures seat { IsSameSeat seat.old seat.new × (seat.new.me.1 ≡ (slot_at cell, Some (Full submission)) ∷ seat.old.me.1) }
    ensures lends { Extends seat.old.me.0 (Lent (request_at seat.old.me.0.layout.cells cell generation) (facts_at cell) result) (Lending (request_at seat.old.me.0.layout.cells cell generation)) seat.new.me.0 }
    ensures step { (found : ℕ) × IsStep (facts_at cell) found seat.old.me.0 seat.new.me.0 }
{
    let facts = facts(generation, &submission.sqe, submission.last, hosted);
    words.store::<plays::OpenCell>(seat, note_word(cell, FACTS), facts);
    let None = words.exchange(seat, slot(cell), Some(Thing::Full(submission))) else {
        unreachable!()
    };
    facts
}

/// Stores another note of the request whose slot is taken.
#[inline(always)]
fn note(
    words: &Words,
    seat: &mut TableSeat,
    cell: usize,
    generation: u32,
    number: usize,
    value: u64,
)
    requires fits { Fits words.now.table_id seat.old cell }
    requires small { generation < GENERATIONS }
    requires there { (0 < number) × (number < 3) }
    requires submitter { (seat.old.me.0.role ≡ Lending (request_at seat.old.me.0.layout.cells cell generation)) × (0 < seat.old.me.0.parts) }
    requires free { Vacant seat.old.me.0.layout.cells seat.old.me.0.seen cell generation }
    ensures seat { IsSameSeat seat.old seat.new × (seat.new.me.1 ≡ seat.old.me.1) }
    ensures notes { Extends seat.old.me.0 (Noted (request_at seat.old.me.0.layout.cells cell generation) (note_at cell number) value) seat.old.me.0.role seat.new.me.0 }
    ensures step { (found : ℕ) × IsStep (note_at cell number) found seat.old.me.0 seat.new.me.0 }
{
    words.store::<plays::Note>(seat, note_word(cell, number), value);
}

/// Submits the submission in the slot, whose notes are stored.
#[inline(always)]
fn submit_filled(words: &Words, seat: &mut TableSeat, cell: usize, generation: u32)
    requires fits { Fits words.now.table_id seat.old cell }
    requires small { generation < GENERATIONS }
    requires submitter { (seat.old.me.0.role ≡ Lending (request_at seat.old.me.0.layout.cells cell generation)) × (0 < seat.old.me.0.parts) }
    requires free { Vacant seat.old.me.0.layout.cells seat.old.me.0.seen cell generation }
    requires next { (request_at seat.old.me.0.layout.cells cell generation).k ≡ submits (events_of seat.old.me.0.seen) (ring_of seat.old.me.0.layout.cells cell) }
    requires filled { (p : Submission) × (seat.old.me.1 ≡ (slot_at cell, Some (Full p)) ∷ rest seat.old.me.1) × FitsEntry p.sqe p.buffer.items × (noted seat.old.me.0.seen (facts_at cell) ≡ facts_of generation (placed_behind (before_in (events_of seat.old.me.0.seen) (request_at seat.old.me.0.layout.cells cell generation)) p.sqe) p.last) × (noted seat.old.me.0.seen (user_at cell) ≡ p.sqe.user_data) × IsCountNoted seat.old.me.0.seen cell p.sqe }
    ensures seat { IsSameSeat seat.old seat.new × (seat.new.me.1 ≡ rest seat.old.me.1) }
    ensures submits { (p : Submission) → seat.old.me.1 ≡ (slot_at cell, Some (Full p)) ∷ rest seat.old.me.1 → Extends seat.old.me.0 (Did (Submit (request_at seat.old.me.0.layout.cells cell generation) p.sqe p.buffer.items p.last)) (Submitter (ring_of seat.old.me.0.layout.cells cell)) seat.new.me.0 }
    ensures step { IsStep (claim_at cell) (word_of Empty 0 generation 0) seat.old.me.0 seat.new.me.0 }
{
    let empty = claims::empty(generation);
    let held = claims::held(generation);
    words.compare_exchange::<plays::Submit>(seat, claim_word(cell), empty, held);
}

/// Notes the count of a TIMEOUT, and submits the submission in the slot, whose other notes are stored.
#[inline(always)]
fn submit_counted(words: &Words, seat: &mut TableSeat, cell: usize, generation: u32, count: u32)
    requires fits { Fits words.now.table_id seat.old cell }
    requires small { generation < GENERATIONS }
    requires submitter { (seat.old.me.0.role ≡ Lending (request_at seat.old.me.0.layout.cells cell generation)) × (0 < seat.old.me.0.parts) }
    requires free { Vacant seat.old.me.0.layout.cells seat.old.me.0.seen cell generation }
    requires next { (request_at seat.old.me.0.layout.cells cell generation).k ≡ submits (events_of seat.old.me.0.seen) (ring_of seat.old.me.0.layout.cells cell) }
    requires filled { (p : Submission) × (seat.old.me.1 ≡ (slot_at cell, Some (Full p)) ∷ rest seat.old.me.1) × FitsEntry p.sqe p.buffer.items × (noted seat.old.me.0.seen (facts_at cell) ≡ facts_of generation (placed_behind (before_in (events_of seat.old.me.0.seen) (request_at seat.old.me.0.layout.cells cell generation)) p.sqe) p.last) × (noted seat.old.me.0.seen (user_at cell) ≡ p.sqe.user_data) × (count_in p.sqe.op ≡ Some count) }
    ensures seat { IsSameSeat seat.old seat.new × (seat.new.me.1 ≡ rest seat.old.me.1) }
    ensures submits { (p : Submission) → seat.old.me.1 ≡ (slot_at cell, Some (Full p)) ∷ rest seat.old.me.1 → ExtendsAfter seat.old.me.0 (request_at seat.old.me.0.layout.cells cell generation) (count_notes cell (Some count)) (Did (Submit (request_at seat.old.me.0.layout.cells cell generation) p.sqe p.buffer.items p.last)) (Submitter (ring_of seat.old.me.0.layout.cells cell)) seat.new.me.0 }
    ensures steps { AreSteps (words_in (count_notes cell (Some count))) (claim_at cell) seat.old.me.0 seat.new.me.0 }
{
    note(words, seat, cell, generation, COUNT, u64::from(count));
    submit_filled(words, seat, cell, generation);
}

/// Notes the count, if there is one, and submits the submission in the slot, whose other notes are stored.
#[inline(always)]
fn submit_noted(
    words: &Words,
    seat: &mut TableSeat,
    cell: usize,
    generation: u32,
    count: Option<u32>,
)
    requires fits { Fits words.now.table_id seat.old cell }
    requires small { generation < GENERATIONS }
    requires submitter { (seat.old.me.0.role ≡ Lending (request_at seat.old.me.0.layout.cells cell generation)) × (0 < seat.old.me.0.parts) }
    requires free { Vacant seat.old.me.0.layout.cells seat.old.me.0.seen cell generation }
    requires next { (request_at seat.old.me.0.layout.cells cell generation).k ≡ submits (events_of seat.old.me.0.seen) (ring_of seat.old.me.0.layout.cells cell) }
    requires filled { (p : Submission) × (seat.old.me.1 ≡ (slot_at cell, Some (Full p)) ∷ rest seat.old.me.1) × FitsEntry p.sqe p.buffer.items × (noted seat.old.me.0.seen (facts_at cell) ≡ facts_of generation (placed_behind (before_in (events_of seat.old.me.0.seen) (request_at seat.old.me.0.layout.cells cell generation)) p.sqe) p.last) × (noted seat.old.me.0.seen (user_at cell) ≡ p.sqe.user_data) × (count_in p.sqe.op ≡ count) }
    ensures seat { IsSameSeat seat.old seat.new × (seat.new.me.1 ≡ rest seat.old.me.1) }
    ensures submits { (p : Submission) → seat.old.me.1 ≡ (slot_at cell, Some (Full p)) ∷ rest seat.old.me.1 → ExtendsAfter seat.old.me.0 (request_at seat.old.me.0.layout.cells cell generation) (count_notes cell count) (Did (Submit (request_at seat.old.me.0.layout.cells cell generation) p.sqe p.buffer.items p.last)) (Submitter (ring_of seat.old.me.0.layout.cells cell)) seat.new.me.0 }
    ensures steps { AreSteps (words_in (count_notes cell count)) (claim_at cell) seat.old.me.0 seat.new.me.0 }
{
    match count {
        Some(count) => submit_counted(words, seat, cell, generation, count),
        None => submit_filled(words, seat, cell, generation),
    }
}

/// Submits to a cell that is free: two notes, for a TIMEOUT a third, and the exchange of its claim word. `hosted` says whether a LINK_TIMEOUT may
/// stand directly after the entry before it; one that may not is placed as Invalid. Gives the facts that were noted.
#[inline(always)]
pub fn submit(
    words: &Words,
    seat: &mut TableSeat,
    cell: usize,
    generation: u32,
    submission: Submission,
    hosted: bool,
) -> u64
    requires fits { Fits words.now.table_id seat.old cell }
    requires small { generation < GENERATIONS }
    requires submitter { (seat.old.me.0.role ≡ Submitter (ring_of seat.old.me.0.layout.cells cell)) × (0 < seat.old.me.0.parts) }
    requires free { Vacant seat.old.me.0.layout.cells seat.old.me.0.seen cell generation }
    requires next { (request_at seat.old.me.0.layout.cells cell generation).k ≡ submits (events_of seat.old.me.0.seen) (ring_of seat.old.me.0.layout.cells cell) }
    requires home { lent seat.old.me.0.seen (request_at seat.old.me.0.layout.cells cell generation) ≡ false }
    requires hosted { hosted ≡ hosts (before_in (events_of seat.old.me.0.seen) (request_at seat.old.me.0.layout.cells cell generation)) }
    requires buffer { FitsEntry submission.sqe submission.buffer.items }
    ensures facts { result ≡ facts_of generation (placed_behind (before_in (events_of seat.old.me.0.seen) (request_at seat.old.me.0.layout.cells cell generation)) submission.sqe) submission.last }
    ensures seat { IsSameSeat seat.old seat.new × (seat.new.me.1 ≡ seat.old.me.1) }
    ensures submits { ExtendsNoted seat.old.me.0 (request_at seat.old.me.0.layout.cells cell generation) (facts_at cell, result) (notes_of cell submission.sqe) (Did (Submit (request_at seat.old.me.0.layout.cells cell generation) submission.sqe submission.buffer.items submission.last)) (Submitter (ring_of seat.old.me.0.layout.cells cell)) seat.new.me.0 }
    ensures steps { AreSteps (facts_at cell ∷ words_in (notes_of cell submission.sqe)) (claim_at cell) seat.old.me.0 seat.new.me.0 }
{
    let user_data = submission.sqe.user_data();
    let count = count_in(submission.sqe.op());
    let facts = fill(words, seat, cell, generation, submission, hosted);
    note(words, seat, cell, generation, USER_DATA, user_data);
    submit_noted(words, seat, cell, generation, count);
    facts
}

/// Notes the outcome, takes the slot of a request that has replied, and empties it. Gives its user_data and its buffer: of its submission no
/// more is moved than that.
#[inline(always)]
fn empty(
    words: &Words,
    seat: &mut TableSeat,
    cell: usize,
    generation: u32,
    outcome: u64,
) -> (u64, Vec<u8>)
    requires fits { Fits words.now.table_id seat.old cell }
    requires small { generation < GENERATIONS }
    requires submitter { (seat.old.me.0.role ≡ Submitter (ring_of seat.old.me.0.layout.cells cell)) × (0 < seat.old.me.0.parts) }
    requires done { IsOutcomeNote seat.old.me.0.seen (request_at seat.old.me.0.layout.cells cell generation) cell outcome }
    requires home { lent seat.old.me.0.seen (request_at seat.old.me.0.layout.cells cell generation) ≡ false }
    ensures seat { IsSameSeat seat.old seat.new × (seat.new.me.1 ≡ (slot_at cell, None) ∷ seat.old.me.1) }
    ensures lends { Extends seat.old.me.0 (Lent (request_at seat.old.me.0.layout.cells cell generation) (facts_at cell) outcome) (Lending (request_at seat.old.me.0.layout.cells cell generation)) seat.new.me.0 }
    ensures step { (found : ℕ) × IsStep (facts_at cell) found seat.old.me.0 seat.new.me.0 }
    ensures submission { (p : Submission) × IsSubmission seat.new.me.0.seen (request_at seat.old.me.0.layout.cells cell generation) (data_of (events_of seat.old.me.0.seen) (request_at seat.old.me.0.layout.cells cell generation)) p × (result.0 ≡ p.sqe.user_data) × (result.1 ≡ p.buffer) }
{
    words.store::<plays::EmptyCell>(seat, note_word(cell, FACTS), outcome);
    let thing = words.exchange(seat, slot(cell), None);
    let Submission { sqe, buffer, .. } = submission_of(thing);
    (sqe.user_data(), buffer)
}

/// Ends a request whose slot was emptied.
#[inline(always)]
fn reap_emptied(words: &Words, seat: &mut TableSeat, cell: usize, generation: u32, done: u64)
    requires fits { Fits words.now.table_id seat.old cell }
    requires small { generation + 1 < GENERATIONS }
    requires submitter { (seat.old.me.0.role ≡ Lending (request_at seat.old.me.0.layout.cells cell generation)) × (0 < seat.old.me.0.parts) }
    requires done { IsDone seat.old.me.0.seen (request_at seat.old.me.0.layout.cells cell generation) generation done }
    requires emptied { seat.old.me.1 ≡ (slot_at cell, None) ∷ rest seat.old.me.1 }
    requires out { lent seat.old.me.0.seen (request_at seat.old.me.0.layout.cells cell generation) ≡ true }
    ensures seat { IsSameSeat seat.old seat.new × (seat.new.me.1 ≡ rest seat.old.me.1) }
    ensures reaps { Extends seat.old.me.0 (Did (Reap (request_at seat.old.me.0.layout.cells cell generation))) (Submitter (ring_of seat.old.me.0.layout.cells cell)) seat.new.me.0 }
    ensures step { IsStep (claim_at cell) done seat.old.me.0 seat.new.me.0 }
{
    let empty = claims::empty(generation + 1);
    words.compare_exchange::<plays::Reap>(seat, claim_word(cell), done, empty);
}

/// Reaps the request whose claim word was seen to be `done`, after its facts were noted with its outcome. Gives its user_data and its
/// buffer.
#[inline(always)]
pub fn reap(
    words: &Words,
    seat: &mut TableSeat,
    cell: usize,
    generation: u32,
    done: u64,
    outcome: u64,
) -> (u64, Vec<u8>)
    requires fits { Fits words.now.table_id seat.old cell }
    requires small { generation + 1 < GENERATIONS }
    requires submitter { (seat.old.me.0.role ≡ Submitter (ring_of seat.old.me.0.layout.cells cell)) × (0 < seat.old.me.0.parts) }
    requires done { IsDone seat.old.me.0.seen (request_at seat.old.me.0.layout.cells cell generation) generation done }
    requires outcome { IsOutcomeNote seat.old.me.0.seen (request_at seat.old.me.0.layout.cells cell generation) cell outcome }
    requires home { lent seat.old.me.0.seen (request_at seat.old.me.0.layout.cells cell generation) ≡ false }
    ensures seat { IsSameSeat seat.old seat.new × (seat.new.me.1 ≡ seat.old.me.1) }
    ensures reaps { ExtendsTwice seat.old.me.0 (Lent (request_at seat.old.me.0.layout.cells cell generation) (facts_at cell) outcome) (Lending (request_at seat.old.me.0.layout.cells cell generation)) (Did (Reap (request_at seat.old.me.0.layout.cells cell generation))) (Submitter (ring_of seat.old.me.0.layout.cells cell)) seat.new.me.0 }
    ensures steps { IsTwoSteps (facts_at cell) (claim_at cell) seat.old.me.0 seat.new.me.0 }
    ensures submission { (p : Submission) × IsSubmission seat.new.me.0.seen (request_at seat.old.me.0.layout.cells cell generation) (data_of (events_of seat.old.me.0.seen) (request_at seat.old.me.0.layout.cells cell generation)) p × (result.0 ≡ p.sqe.user_data) × (result.1 ≡ p.buffer) }
{
    let returned = empty(words, seat, cell, generation, outcome);
    reap_emptied(words, seat, cell, generation, done);
    returned
}
