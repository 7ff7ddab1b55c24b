//! A submitter's pass.
ghost use Rattle.std.specs.Prelude.{◌≡◌, ℕ, ◌+◌, ◌*◌, ◌/◌, ◌<◌, ◌≤◌, Bool, List, [], ◌∷◌, length, IfOk, IfErr};
ghost use Rattle.claim.specs.declared.word.TheConstants.{GENERATIONS};
ghost use Rattle.claim.specs.declared.tag.Tag.TheVariants.{Done};
ghost use Rattle.history.specs.declared.req.Req.{Req};
ghost use Rattle.history.specs.declared.event.Event.TheVariants.{Submit, Reap};
ghost use Rattle.history.specs.{Cause, data_of, submits, Fits as FitsEntry};
ghost use Rattle.steps.specs.declared.line.Line.TheVariants.{Did, Lent};
ghost use Rattle.steps.specs.declared.slot.Submission.{Submission};
ghost use Rattle.steps.specs.declared.view.Role.{Role};
ghost use Rattle.steps.specs.declared.view.Role.TheVariants.{Lending};
ghost use Rattle.steps.specs.{IsFree, claim_at, ring_of, place_of, request_at, cells_in, total, facts_at, word_of, cause_bits, IsSubmission, words_of, notes_of, words_in, Looks, Shown, IsStep, IsTwoSteps, AreSteps, ExtendsTwice, ExtendsNoted, IsDone};
ghost use Rattle.work.specs.Passes.{pass_of, seen_of, CanReach};
ghost use Rattle.board.specs.declared.queue.TheConstants.{LAST_GENERATION};
ghost use Rattle.board.specs.{next_of, IsSubmitterSeat, IsNextCell};
ghost use Rattle.board.specs.Queues.{AreFree, LinkedAreReaped, RefusesRoom, Watched};

use crate::error::SubmitError;
use crate::queue::{self, Queue};
use claim::with_outcome;
use history::Req;
use std::marker::Model;
use steps::{Submission, TableSeat, Words, seat, submitter, table};
use work::{Cell, Grid, Messenger, Pass};

/// The pass of the submitter of one ring. Contracts see its table and what it knows.
#[derive(Drop)]
pub struct Submitter {
    seat: TableSeat,
    queue: Queue,
}

impl Model for Submitter {
    ghost use Rattle.work.specs.Passes.{Pass, pass_of};
    ghost use Rattle.board.specs.Queues.{IsQueue};

    ghost Value = { Pass };

    ghost view = { λ s. pass_of s.seat };

    ghost invariant = { λ s. IsQueue s.seat s.queue };
}

impl Submitter {
    /// The pass of the seat of the ring's submitter, which has submitted nothing yet: of each cell it has reaped nothing, and
    /// noted nothing.
    pub(crate) fn new(seat: TableSeat, ring: u16, ages: Vec<u32>, facts: Vec<u64>) -> Submitter
        requires seat { IsSubmitterSeat seat ring 0 ages.items facts.items }
        requires fresh { seat.me.0.seen ≡ [] }
        ensures { result ≡ pass_of seat }
    {
        let queue = Queue {
            ring,
            next: 0,
            ages,
            facts,
            done: 0,
            hosted: false,
        };
        Submitter { seat, queue }
    }

    /// Its ring.
    pub fn ring(&self) -> u16
        ensures role { self.now.view.role ≡ Role.Submitter result }
        ensures there { result < length self.now.view.layout.cells }
    {
        self.queue.ring
    }

    /// The request that it submits next.
    pub fn next_request(&self) -> Req
        ensures role { self.now.view.role ≡ Role.Submitter result.ring }
        ensures next { result ≡ next_of self.now result.ring }
        ensures there { result.ring < length self.now.view.layout.cells }
        ensures few { result.k ≤ LAST_GENERATION * cells_in self.now.view.layout.cells result.ring }
    {
        Req {
            ring: self.queue.ring,
            k: self.queue.next,
        }
    }

    /// Its seat.
    pub(crate) fn into_seat(self) -> TableSeat
        ensures seat { (ring : ℕ) × (next : ℕ) × (ages : List ℕ) × (facts : List ℕ) × IsSubmitterSeat result ring next ages facts }
        ensures value { pass_of result ≡ self }
    {
        let Submitter { seat, .. } = self;
        seat
    }

    /// Loads the claim word of the cell.
    pub(crate) fn look_at(&mut self, words: &Words, cell: usize) -> u64
        requires { CanReach words.now.table_id self.old cell }
        ensures table { self.new.table ≡ self.old.table }
        ensures looks { Looks self.old.view self.new.view }
        ensures shown { Shown self.old.view.layout.cells self.new.view.seen cell result }
        ensures step { IsStep (claim_at cell) result self.old.view self.new.view }
        ensures took { (self.new.took ≡ self.old.took) × (self.new.woken ≡ self.old.woken) }
    {
        seat::look(words, &mut self.seat, cell)
    }

    /// Whether there is room for its next requests, this many of them.
    pub(crate) fn room(&mut self, words: &Words, grid: &Grid, count: u64) -> Result<(), SubmitError>
        requires over { (self.old.table ≡ words.now.table_id) × (grid.now ≡ self.old.view.layout.cells) × (words.now.table_id.words ≡ words_of (total grid.now)) }
        ensures table { self.new.table ≡ self.old.table }
        ensures there { (ring : ℕ) → self.old.view.role ≡ Role.Submitter ring → ring < length self.old.view.layout.cells }
        ensures looks { (n : ℕ) × ((ring : ℕ) → self.old.view.role ≡ Role.Submitter ring → n ≤ cells_in grid.now ring + 1) × Watched n self.old.view self.new.view × IfOk result (λ _. (ring : ℕ) → self.old.view.role ≡ Role.Submitter ring → LinkedAreReaped (seen_of self.old) ring → n ≡ 0) }
        ensures free { IfOk result (λ _. (ring : ℕ) → self.old.view.role ≡ Role.Submitter ring → AreFree grid.now self.new.view ring (submits (seen_of self.old) ring) count) }
        ensures fresh { IfOk result (λ _. (ring : ℕ) → self.old.view.role ≡ Role.Submitter ring → (i : ℕ) → i < count → (submits (seen_of self.old) ring + i) / cells_in grid.now ring < LAST_GENERATION) }
        ensures refused { IfErr result (λ e. (ring : ℕ) → self.old.view.role ≡ Role.Submitter ring → RefusesRoom grid.now ring (submits (seen_of self.old) ring) count self.old self.new e) }
    {
        queue::room(words, &mut self.seat, &mut self.queue, grid, count)
    }

    /// Submits its next request, whose cell is free.
    #[inline(always)]
    pub(crate) fn submit(&mut self, words: &Words, cell: Cell, submission: Submission)
        requires reach { CanReach words.now.table_id self.old cell.index }
        requires parts { 0 < self.old.view.parts }
        requires small { cell.generation < LAST_GENERATION }
        requires next { IsNextCell self.old cell.index cell.number cell.generation }
        requires free { IsFree self.old.view.layout.cells (seen_of self.old) (request_at self.old.view.layout.cells cell.index cell.generation) }
        requires buffer { FitsEntry submission.sqe submission.buffer.items }
        ensures table { self.new.table ≡ self.old.table }
        ensures submits { let r : Req = request_at self.old.view.layout.cells cell.index cell.generation in (facts : ℕ) × ExtendsNoted self.old.view r (facts_at cell.index, facts) (notes_of cell.index submission.sqe) (Did (Submit r submission.sqe submission.buffer.items submission.last)) (Role.Submitter r.ring) self.new.view }
        ensures steps { AreSteps (facts_at cell.index ∷ words_in (notes_of cell.index submission.sqe)) (claim_at cell.index) self.old.view self.new.view }
    {
        let hosted = queue::hosts(&submission.sqe, submission.last);
        let facts = submitter::submit(
            words,
            &mut self.seat,
            cell.index,
            cell.generation as u32,
            submission,
            self.queue.hosted,
        );
        self.queue.go_on(cell.number, facts, hosted);
    }

    /// Takes the user_data and the buffer, with the data, of the request whose claim word was seen to be `done`, and ends the request.
    #[inline(always)]
    pub(crate) fn reap(
        &mut self,
        words: &Words,
        cell: Cell,
        done: u64,
        failed: bool,
    ) -> (u64, Vec<u8>)
        requires reach { CanReach words.now.table_id self.old cell.index }
        requires parts { 0 < self.old.view.parts }
        requires small { cell.generation + 1 < GENERATIONS }
        requires number { cell.number ≡ place_of self.old.view.layout.cells cell.index }
        requires mine { self.old.view.role ≡ Role.Submitter (ring_of self.old.view.layout.cells cell.index) }
        requires done { IsDone self.old.view.seen (request_at self.old.view.layout.cells cell.index cell.generation) cell.generation done }
        requires failed { (c : Cause) (f : Bool) (g p : ℕ) → g < GENERATIONS → p < 4294967296 → done ≡ word_of Done (cause_bits c f) g p → failed ≡ f }
        requires shown { Shown self.old.view.layout.cells self.old.view.seen cell.index done }
        ensures table { self.new.table ≡ self.old.table }
        ensures reaps { let r : Req = request_at self.old.view.layout.cells cell.index cell.generation in (outcome : ℕ) × ExtendsTwice self.old.view (Lent r (facts_at cell.index) outcome) (Lending r) (Did (Reap r)) (Role.Submitter r.ring) self.new.view }
        ensures steps { IsTwoSteps (facts_at cell.index) (claim_at cell.index) self.old.view self.new.view }
        ensures submission { (p : Submission) × IsSubmission self.new.view.seen (request_at self.old.view.layout.cells cell.index cell.generation) (data_of (seen_of self.old) (request_at self.old.view.layout.cells cell.index cell.generation)) p × (result.0 ≡ p.sqe.user_data) × (result.1 ≡ p.buffer) }
    {
        let outcome = with_outcome(self.queue.facts[cell.number], failed);
        let generation = cell.generation as u32;
        let returned = submitter::reap(
            words,
            &mut self.seat,
            cell.index,
            generation,
            done,
            outcome,
        );
        self.queue.facts[cell.number] = outcome;
        self.queue.ages[cell.number] += 1;
        returned
    }
}

impl Pass for Submitter {
    ghost knows = { λ s. s };

    fn load(&mut self, words: &Words, cell: usize) -> u64 {
        self.look_at(words, cell)
    }

    fn tell(&mut self, words: &Words) -> Messenger {
        Messenger::new(table::tell(words, &mut self.seat))
    }

    fn hear(&mut self, words: &Words, messenger: Messenger) {
        table::hear(words, &mut self.seat, messenger.into_seat());
    }
}
