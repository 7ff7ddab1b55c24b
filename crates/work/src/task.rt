//! The request that a worker runs.
ghost use Rattle.std.specs.Prelude.{◌≡◌, ℕ, ◌<◌, ◌∷◌, Some, None, length};
ghost use Rattle.atomic_table.specs.Table.{rest};
ghost use Rattle.answers.specs.Answered.{Answered};
ghost use Rattle.answers.specs.NamedEnds.{UsesSome};
ghost use Rattle.history.specs.declared.req.Req.{Req as Request};
ghost use Rattle.history.specs.Legal.{FitsOp};
ghost use Rattle.steps.specs.declared.slot.Submission.{Submission};
ghost use Rattle.steps.specs.declared.slot.Thing.TheVariants.{Full};
ghost use Rattle.steps.specs.{slot_at, IsSameSeat, Looks};
ghost use Rattle.work.specs.{IsUnderway, RunsIt, notes_read, ReadNotes};

use crate::grid::Grid;
use answers::answer_with;
use claim::unpack_facts;
use entry::{Op, Sqe};
use history::Req;
use pipe::Pipe;
use steps::facts::NOP;
use steps::layout::{FACTS, USER_DATA, slot};
use steps::slot::submission_of;
use steps::{TableSeat, Thing, Words, seat};

/// What a worker knows of the request that it runs. The submission stays in its slot, which is the worker's until it replies or parks; only
/// the answer of a pipe takes it out, for its buffer.
#[derive(Clone, Copy)]
pub(crate) struct Task<'a> {
    pub(crate) words: &'a Words,
    pub(crate) grid: &'a Grid,
    pub(crate) cell: usize,
    pub(crate) generation: u32,
    pub(crate) req: Req,
    pub(crate) pipes: usize,
}

/// Puts a thing into the slot that the seat took last, and that is empty.
#[inline(always)]
pub(crate) fn put_back(words: &Words, seat: &mut TableSeat, slot: usize, thing: Thing)
    requires table { seat.old.table_id ≡ words.now.table_id }
    requires empty { seat.old.me.1 ≡ (slot, None) ∷ rest seat.old.me.1 }
    ensures seat { IsSameSeat seat.old seat.new }
    ensures put { seat.new.me ≡ (seat.old.me.0, (slot, Some thing) ∷ rest seat.old.me.1) }
{
    let None = words.exchange(seat, slot, Some(thing)) else {
        unreachable!()
    };
}

/// The entry of the submission in the slot that the seat took last.
pub(crate) fn entry_in(words: &Words, seat: &mut TableSeat, cell: usize) -> Sqe
    requires table { seat.old.table_id ≡ words.now.table_id }
    requires full { (p : Submission) × (seat.old.me.1 ≡ (slot_at cell, Some (Full p)) ∷ rest seat.old.me.1) }
    requires small { cell < 16384 }
    ensures seat { IsSameSeat seat.old seat.new × (seat.new.me ≡ seat.old.me) }
    ensures entry { (p : Submission) → seat.old.me.1 ≡ (slot_at cell, Some (Full p)) ∷ rest seat.old.me.1 → result ≡ p.sqe }
{
    let Some(Thing::Full(submission)) = &*seat.slot_mut(words, slot(cell)) else {
        unreachable!()
    };
    submission.sqe
}

/// What the request asks for that the seat runs: an entry with its operation and its user_data. Those of a NOP are read off its notes, and
/// its slot is left alone, so that the submitter has it at hand when it takes it back. Any other's are its submission's.
pub(crate) fn asked_of(words: &Words, seat: &mut TableSeat, cell: usize) -> Sqe
    requires table { seat.old.table_id ≡ words.now.table_id }
    requires underway { (g : ℕ) × (r : Request) × (p : Submission) × (n : ℕ) × RunsIt words.now.table_id seat.old.me.0 cell g r p n × IsUnderway seat.old.me.0 r × (seat.old.me.1 ≡ (slot_at cell, Some (Full p)) ∷ rest seat.old.me.1) }
    ensures seat { IsSameSeat seat.old seat.new × (seat.new.me.1 ≡ seat.old.me.1) }
    ensures looks { Looks seat.old.me.0 seat.new.me.0 }
    ensures asked { (g : ℕ) (r : Request) (p : Submission) (n : ℕ) → RunsIt words.now.table_id seat.old.me.0 cell g r p n → IsUnderway seat.old.me.0 r → seat.old.me.1 ≡ (slot_at cell, Some (Full p)) ∷ rest seat.old.me.1 → (result.op ≡ p.sqe.op) × (result.user_data ≡ p.sqe.user_data) × ReadNotes seat.old.me.0 seat.new.me.0 (notes_read p.sqe.op) }
{
    let facts = unpack_facts(seat::look_at_note(words, seat, cell, FACTS));
    if facts.row != NOP {
        return entry_in(words, seat, cell);
    }
    let user_data = seat::look_at_note(words, seat, cell, USER_DATA);
    Sqe::of_row(Op::Nop.row(), 0, user_data)
}

/// Answers the operation by the pipe, where it has an answer now, with the buffer of the submission in the slot that the seat took last.
pub(crate) fn answer_in(
    words: &Words,
    seat: &mut TableSeat,
    cell: usize,
    op: Op,
    pipe: &mut Pipe,
) -> Option<i32>
    requires table { seat.old.table_id ≡ words.now.table_id }
    requires full { (p : Submission) × (seat.old.me.1 ≡ (slot_at cell, Some (Full p)) ∷ rest seat.old.me.1) × FitsOp op (length p.buffer.items) }
    requires used { UsesSome op }
    requires small { cell < 16384 }
    ensures seat { IsSameSeat seat.old seat.new }
    ensures answered { (p : Submission) → seat.old.me.1 ≡ (slot_at cell, Some (Full p)) ∷ rest seat.old.me.1 → (q : Submission) × (seat.new.me ≡ (seat.old.me.0, (slot_at cell, Some (Full q)) ∷ rest seat.old.me.1)) × (q.sqe ≡ p.sqe) × (q.last ≡ p.last) × Answered op result pipe.old pipe.new p.buffer.items q.buffer.items }
{
    let slot = slot(cell);
    let mut submission = submission_of(words.exchange(seat, slot, None));
    let answer = answer_with(op, pipe, submission.buffer.as_mut_slice());
    put_back(words, seat, slot, Thing::Full(submission));
    answer
}
