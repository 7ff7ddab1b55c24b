//! What a cancel's events make of the requests of a ring, and what it comes to.
ghost use Rattle.std.specs.Prelude.{◌≡◌, ◌<◌, true, cond, length, List, Some, slice_get, IfOk, OnErr};
ghost use Rattle.history.specs.State.{with_took, with_missed};
ghost use Rattle.model.specs.{put_stage, put_found, cancelled, answer_as, comes_upon, may_take, may_miss, cancel_answer};
ghost use Rattle.model.specs.Content.{Content};

use crate::errno::{ALREADY, CANCELLED, NOT_FOUND};
use crate::kind::is_all;
use crate::ready::Ready;
use crate::request::{Request, RequestStage};
use crate::ring::Ring;
use entry::Op;
use std::alloc::AllocError;

impl Ring {
    /// The cancel runs and means `target`: one of all its matches where that has not escaped it, another one where that is
    /// the first, and as long as it has done nothing.
    fn comes_upon(&self, cancel: u64, target: u64) -> bool
        ensures comes { result ≡ comes_upon self.now cancel target }
        ensures within { result ≡ true → cancel < length self.now }
    {
        let Some(request) = self.get(cancel) else {
            return false;
        };
        if request.stage != RequestStage::Runs {
            return false;
        }
        let (op, found) = (self.op(cancel as usize), &request.found);
        if target >= cancel || !self.is_wanted(op, target) {
            return false;
        }
        if is_all(op) {
            !found.is_escaped(target)
        } else {
            found.is_none() && !self.any_wanted(op, target)
        }
    }

    /// Nothing changes where memory is wanting.
    #[tactic(auto, using(crate::proofs::RequestWrites::found_length))]
    pub fn take(&mut self, cancel: u64, target: u64) -> Result<bool, AllocError>
        ensures may { IfOk result (λ done. done ≡ may_take self.old cancel target) }
        ensures after { IfOk result (λ done. self.new ≡ cond done (put_stage (put_found self.old cancel with_took) target cancelled) self.old) }
        ensures wanting { OnErr result (may_take self.old cancel target ≡ true) }
        ensures same { OnErr result (self.new ≡ self.old) }
    {
        let Some(request) = self.get(target) else {
            return Ok(false);
        };
        if !request.stage.is_idle() || !self.comes_upon(cancel, target) {
            return Ok(false);
        }
        self.add_ended(cancel as usize)?;
        self.set_stage(target as usize, RequestStage::Replied(CANCELLED));
        Ok(true)
    }

    /// Nothing changes where memory is wanting.
    pub fn miss(&mut self, cancel: u64, target: u64) -> Result<bool, AllocError>
        ensures may { IfOk result (λ done. done ≡ may_miss self.old cancel target) }
        ensures after { IfOk result (λ done. self.new ≡ cond done (put_found self.old cancel (with_missed target)) self.old) }
        ensures wanting { OnErr result (may_miss self.old cancel target ≡ true) }
        ensures same { OnErr result (self.new ≡ self.old) }
    {
        let Some(request) = self.get(target) else {
            return Ok(false);
        };
        if request.stage != RequestStage::Runs || !self.comes_upon(cancel, target) {
            return Ok(false);
        }
        self.add_escaped(cancel as usize, target)?;
        Ok(true)
    }

    /// What the cancel `k` of this operation comes to.
    pub fn cancel_now(&self, k: u64, request: &Request, op: Op) -> Ready
        requires { slice_get self.now k ≡ Some request.now }
        ensures { (ps : List Content) → answer_as ps result ≡ cancel_answer self.now k op }
    {
        let found = &request.found;
        if is_all(op) {
            if self.any_untried(op, found, k) {
                return Ready::Wait;
            }
            return Ready::Now(found.ended());
        }
        if found.has_ended() {
            return Ready::Now(0);
        }
        if !found.is_none() {
            return Ready::Now(ALREADY);
        }
        if self.any_wanted(op, k) {
            return Ready::Wait;
        }
        Ready::Now(NOT_FOUND)
    }
}
