//! The submission of an entry, and of a batch.
ghost use Rattle.std.specs.Prelude.{◌≡◌, ℕ, ◌+◌, ◌/◌, ◌<◌, ◌≤◌, true, [], ◌∷◌, Some, length, IfOk, IfErr};
ghost use Rattle.history.specs.declared.event.Event.TheVariants.{Submit};
ghost use Rattle.history.specs.{submits, before_in, Fits};
ghost use Rattle.steps.specs.{cells_in, IsFree};
ghost use Rattle.steps.specs.declared.view.Role.{Role};
ghost use Rattle.work.specs.{IsOf, seen_of, Took};
ghost use Rattle.board.specs.declared.queue.TheConstants.{LAST_GENERATION};
ghost use Rattle.board.specs.{Goes, next_of, IsReady, steps_for, steps_in, submits_of, nth, LinkedAreReaped, RefusesBatch, RefusesEntry};

use crate::batch::{are_fit, fits_length};
use crate::board::Board;
use crate::error::SubmitError;
use crate::submitter::Submitter;
use entry::Sqe;
use history::Req;
use steps::Submission;

impl Board {
    /// Submits a batch of one entry with its buffer.
    pub fn submit(
        &self,
        submitter: &mut Submitter,
        sqe: Sqe,
        buffer: Vec<u8>,
    ) -> Result<Req, (SubmitError, Vec<u8>)>
        requires { IsOf self.now submitter.old }
        ensures submitted { (ring : ℕ) → submitter.old.view.role ≡ Role.Submitter ring → IfOk result (λ r. (r ≡ next_of submitter.old ring) × Goes self.now submitter.old (Submit r sqe buffer.items true ∷ []) submitter.new) }
        ensures free { IfOk result (λ r. IsFree self.now.layout.cells (seen_of submitter.new) r) }
        ensures steps { IfOk result (λ r. (n : ℕ) × (n ≤ cells_in self.now.layout.cells r.ring + 1) × (LinkedAreReaped (seen_of submitter.old) r.ring → n ≡ 0) × Took submitter.old.view submitter.new.view (n + steps_for sqe)) }
        ensures refused { IfErr result (λ e. Goes self.now submitter.old [] submitter.new × (e.1 ≡ buffer)) }
        ensures reason { (ring : ℕ) → submitter.old.view.role ≡ Role.Submitter ring → IfErr result (λ e. RefusesEntry self.now sqe buffer.items (next_of submitter.old ring) submitter.old submitter.new e.0) }
    {
        if !fits_length(&sqe, buffer.len()) {
            return Err((SubmitError::BufferLength, buffer));
        }
        let words = &self.table.shared;
        if let Err(error) = submitter.room(words, &self.grid, 1) {
            return Err((error, buffer));
        }
        Ok(self.submit_next(
            submitter,
            Submission {
                sqe,
                buffer,
                last: true,
            },
        ))
    }

    /// Submits a batch, in order, or none of it, and gives its first request: the entry i is the i-th after that. The last entry
    /// ends the batch. An empty batch submits nothing, and gives the ring's next request.
    pub fn submit_batch(
        &self,
        submitter: &mut Submitter,
        batch: Vec<(Sqe, Vec<u8>)>,
    ) -> Result<Req, (SubmitError, Vec<(Sqe, Vec<u8>)>)>
        requires { IsOf self.now submitter.old }
        ensures submitted { (ring : ℕ) → submitter.old.view.role ≡ Role.Submitter ring → IfOk result (λ r. (r ≡ next_of submitter.old ring) × Goes self.now submitter.old (submits_of ring r.k batch.items) submitter.new) }
        ensures free { IfOk result (λ r. (i : ℕ) → i < length batch.items → IsFree self.now.layout.cells (seen_of submitter.new) (nth r.ring (r.k + i))) }
        ensures steps { IfOk result (λ r. (n : ℕ) × (n ≤ cells_in self.now.layout.cells r.ring + 1) × (LinkedAreReaped (seen_of submitter.old) r.ring → n ≡ 0) × Took submitter.old.view submitter.new.view (n + steps_in batch.items)) }
        ensures refused { IfErr result (λ e. Goes self.now submitter.old [] submitter.new × (e.1 ≡ batch)) }
        ensures reason { (ring : ℕ) → submitter.old.view.role ≡ Role.Submitter ring → IfErr result (λ e. RefusesBatch self.now batch.items ring (next_of submitter.old ring).k submitter.old submitter.new e.0) }
    {
        if !are_fit(batch.as_slice()) {
            return Err((SubmitError::BufferLength, batch));
        }
        let words = &self.table.shared;
        if let Err(error) = submitter.room(words, &self.grid, batch.len() as u64) {
            return Err((error, batch));
        }
        let req = submitter.next_request();
        self.submit_all(submitter, batch);
        Ok(req)
    }

    /// Submits these entries, in order, as the ring's next requests, whose cells are free.
    fn submit_all(&self, submitter: &mut Submitter, batch: Vec<(Sqe, Vec<u8>)>)
        requires ready { (ring : ℕ) × IsReady self.now submitter.old ring (submits (seen_of submitter.old) ring) batch.items }
        ensures submitted { (ring : ℕ) → submitter.old.view.role ≡ Role.Submitter ring → Goes self.now submitter.old (submits_of ring (submits (seen_of submitter.old) ring) batch.items) submitter.new }
        ensures steps { Took submitter.old.view submitter.new.view (steps_in batch.items) }
    {
        let mut left = batch.into_iter();
        while let Some((sqe, buffer)) = left.next() {
            let last = left.len() == 0;
            let submission = Submission { sqe, buffer, last };
            self.submit_next(submitter, submission);
        }
    }

    /// Submits the ring's next request, whose cell is free.
    #[inline(always)]
    fn submit_next(&self, submitter: &mut Submitter, submission: Submission) -> Req
        requires of { IsOf self.now submitter.old }
        requires free { (ring : ℕ) → submitter.old.view.role ≡ Role.Submitter ring → IsFree self.now.layout.cells (seen_of submitter.old) (next_of submitter.old ring) × ((next_of submitter.old ring).k / cells_in self.now.layout.cells ring < LAST_GENERATION) }
        requires fits { Fits submission.sqe submission.buffer.items }
        ensures role { submitter.old.view.role ≡ Role.Submitter result.ring }
        ensures next { (ring : ℕ) → submitter.old.view.role ≡ Role.Submitter ring → (submits (seen_of submitter.new) ring ≡ submits (seen_of submitter.old) ring + 1) × (before_in (seen_of submitter.new) (nth ring (submits (seen_of submitter.old) ring + 1)) ≡ Some (record { entry = submission.sqe; bytes = submission.buffer.items; last = submission.last })) }
        ensures submitted { (ring : ℕ) → submitter.old.view.role ≡ Role.Submitter ring → (result ≡ next_of submitter.old ring) × Goes self.now submitter.old (Submit result submission.sqe submission.buffer.items submission.last ∷ []) submitter.new }
        ensures steps { Took submitter.old.view submitter.new.view (steps_for submission.sqe) }
    {
        let req = submitter.next_request();
        let Some(cell) = self.grid.locate(req) else {
            unreachable!()
        };
        submitter.submit(&self.table.shared, cell, submission);
        req
    }
}
