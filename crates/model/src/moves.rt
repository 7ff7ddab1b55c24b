//! What the events make of the requests of a ring.
ghost use Rattle.std.specs.Prelude.{◌≡◌, ◌<◌, cond, length};
ghost use Rattle.model.specs.declared.request.RequestStage.TheVariants.{Waits, Runs, Replied, Reaped};
ghost use Rattle.model.specs.Moves.{put_stage, put_reaped, may_begin, may_park, may_sever, may_reap, may_cut, open_in, cancelled};

use crate::errno::CANCELLED;
use crate::kind::ticks_of;
use crate::request::RequestStage;
use crate::ring::Ring;

impl Ring {
    /// Its chain and the drains let it start. The place of a LINK_TIMEOUT's target decides for it.
    pub fn is_open(&self, k: usize) -> bool
        requires { k < length self.now }
        ensures { result ≡ open_in self.now k }
    {
        if self.op(k).is_link_timeout() {
            self.is_clear(k.saturating_sub(1))
        } else {
            self.is_clear(k)
        }
    }

    pub fn begin(&mut self, k: u64) -> bool
        ensures may { result ≡ may_begin self.old k }
        ensures after { self.new ≡ cond result (put_stage self.old k Runs) self.old }
    {
        let Some(request) = self.get(k) else {
            return false;
        };
        let k = k as usize;
        if request.stage != RequestStage::Waits
            || !self.is_open(k)
            || ticks_of(self.op(k)).is_some()
        {
            return false;
        }
        self.set_stage(k, RequestStage::Runs);
        true
    }

    pub fn park(&mut self, k: u64) -> bool
        ensures may { result ≡ may_park self.old k }
        ensures after { self.new ≡ cond result (put_stage self.old k Waits) self.old }
    {
        let Some(request) = self.get(k) else {
            return false;
        };
        if request.stage != RequestStage::Runs {
            return false;
        }
        self.set_stage(k as usize, RequestStage::Waits);
        true
    }

    /// It waits, and an earlier member of its chain ended the rest.
    pub fn may_sever(&self, k: u64) -> bool
        ensures { result ≡ may_sever self.now k }
    {
        match self.get(k) {
            Some(request) => request.stage == RequestStage::Waits && self.is_severed(k as usize),
            None => false,
        }
    }

    pub fn sever(&mut self, k: u64) -> bool
        ensures may { result ≡ may_sever self.old k }
        ensures after { self.new ≡ cond result (put_stage self.old k cancelled) self.old }
    {
        if !self.may_sever(k) {
            return false;
        }
        self.set_stage(k as usize, RequestStage::Replied(CANCELLED));
        true
    }

    #[tactic(auto, using(crate::proofs::RequestWrites::put_reaped_is))]
    pub fn reap(&mut self, k: u64) -> bool
        ensures may { result ≡ may_reap self.old k }
        ensures after { self.new ≡ cond result (put_reaped self.old k) self.old }
    {
        let Some(request) = self.get(k) else {
            return false;
        };
        let RequestStage::Replied(res) = request.stage else {
            return false;
        };
        self.set_stage(k as usize, RequestStage::Reaped(res));
        true
    }

    pub fn cut(&mut self, k: u64) -> bool
        ensures may { result ≡ may_cut self.old k }
        ensures after { self.new ≡ cond result (put_stage self.old k cancelled) self.old }
    {
        let Some(request) = self.get(k) else {
            return false;
        };
        if !request.stage.is_pending() {
            return false;
        }
        self.set_stage(k as usize, RequestStage::Replied(CANCELLED));
        true
    }
}
