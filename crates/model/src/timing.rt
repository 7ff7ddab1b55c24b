//! What the timers' events make of the requests of a ring.
ghost use Rattle.std.specs.Prelude.{◌≡◌, ◌<◌, true, cond, length, slice_get};
ghost use Rattle.std.specs.List.{filter};
ghost use Rattle.model.specs.declared.request.RequestStage.TheVariants.{Armed};
ghost use Rattle.model.specs.{put_stage, put_fired, put_settled, may_arm, may_expire, is_done, later_answered, may_count, runs_out, may_fire, may_fire_miss, may_settle, cancelled, timed_out, counted, is_answered, stage_at};

use crate::errno::{CANCELLED, TIMED_OUT};
use crate::kind::{count_of, is_timeout, ticks_of};
use crate::request::{Request, RequestStage};
use crate::ring::Ring;

impl Ring {
    pub fn arm(&mut self, clock: u32, k: u64, deadline: u32) -> bool
        ensures may { result ≡ may_arm clock self.old k deadline }
        ensures after { self.new ≡ cond result (put_stage self.old k (Armed deadline)) self.old }
    {
        let Some(request) = self.get(k) else {
            return false;
        };
        if request.stage != RequestStage::Waits || !self.is_open(k as usize) {
            return false;
        }
        let Some(ticks) = ticks_of(self.op(k as usize)) else {
            return false;
        };
        if u64::from(deadline) != u64::from(clock) + u64::from(ticks) {
            return false;
        }
        self.set_stage(k as usize, RequestStage::Armed(deadline));
        true
    }

    pub fn expire(&mut self, clock: u32, k: u64) -> bool
        ensures may { result ≡ may_expire clock self.old k }
        ensures after { self.new ≡ cond result (put_stage self.old k timed_out) self.old }
    {
        let Some(request) = self.get(k) else {
            return false;
        };
        if !request.stage.is_due(clock) || !is_timeout(self.op(k as usize)) {
            return false;
        }
        self.set_stage(k as usize, RequestStage::Replied(TIMED_OUT));
        true
    }

    /// How many requests after `k` were answered.
    /// They are counted anew at each Count, so that no reply has a number to change.
    fn later_answered(&self, k: usize) -> usize
        requires { k < length self.now }
        ensures { result ≡ later_answered self.now k }
    {
        count_answered(&self.requests[k + 1..])
    }

    pub fn count(&mut self, k: u64) -> bool
        ensures may { result ≡ may_count self.old k }
        ensures after { self.new ≡ cond result (put_stage self.old k counted) self.old }
    {
        let Some(request) = self.get(k) else {
            return false;
        };
        if !matches!(request.stage, RequestStage::Armed(_)) {
            return false;
        }
        let count = count_of(self.op(k as usize)) as usize;
        if count == 0 || self.later_answered(k as usize) < count {
            return false;
        }
        self.set_stage(k as usize, RequestStage::Replied(0));
        true
    }

    /// The timer runs out now, and `target` is its target.
    fn runs_out(&self, clock: u32, timer: u64, target: u64) -> bool
        ensures out { result ≡ runs_out clock self.now timer target }
        ensures within { result ≡ true → timer < length self.now }
    {
        let Some(request) = self.get(timer) else {
            return false;
        };
        if !request.stage.is_due(clock) || request.fired {
            return false;
        }
        self.op(timer as usize).is_link_timeout() && target < timer && target + 1 == timer
    }

    #[tactic(auto, using(crate::proofs::RequestWrites::fired_length))]
    pub fn fire(&mut self, clock: u32, timer: u64, target: u64) -> bool
        ensures may { result ≡ may_fire clock self.old timer target }
        ensures after { self.new ≡ cond result (put_stage (put_fired self.old timer) target cancelled) self.old }
    {
        let Some(request) = self.get(target) else {
            return false;
        };
        if !request.stage.is_idle() || !self.runs_out(clock, timer, target) {
            return false;
        }
        self.set_fired(timer as usize);
        self.set_stage(target as usize, RequestStage::Replied(CANCELLED));
        true
    }

    pub fn fire_miss(&mut self, clock: u32, timer: u64, target: u64) -> bool
        ensures may { result ≡ may_fire_miss clock self.old timer target }
        ensures after { self.new ≡ cond result (put_fired self.old timer) self.old }
    {
        let Some(request) = self.get(target) else {
            return false;
        };
        if request.stage != RequestStage::Runs || !self.runs_out(clock, timer, target) {
            return false;
        }
        self.set_fired(timer as usize);
        true
    }

    pub fn settle(&mut self, k: u64) -> bool
        ensures may { result ≡ may_settle self.old k }
        ensures after { self.new ≡ cond result (put_settled self.old k) self.old }
    {
        let Some(request) = self.get(k) else {
            return false;
        };
        if !matches!(request.stage, RequestStage::Armed(_))
            || !self.op(k as usize).is_link_timeout()
        {
            return false;
        }
        let fired = request.fired;
        if !fired && !self.is_answered(k.saturating_sub(1)) {
            return false;
        }
        let res = if fired { TIMED_OUT } else { CANCELLED };
        self.set_stage(k as usize, RequestStage::Replied(res));
        true
    }

    fn is_answered(&self, k: u64) -> bool
        ensures { result ≡ is_answered (stage_at (slice_get self.now k)) }
    {
        match self.get(k) {
            Some(request) => !request.stage.is_pending(),
            None => false,
        }
    }
}

/// How many of the requests were answered.
fn count_answered(requests: &[Request]) -> usize
    ensures { result ≡ length (filter is_done requests.now) }
{
    let mut n = 0;
    for request in requests {
        n += usize::from(!request.stage.is_pending());
    }
    n
}
