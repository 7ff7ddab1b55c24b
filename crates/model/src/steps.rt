//! Every event, carried out or refused.
ghost use Rattle.std.specs.Prelude.{◌≡◌, true, cond, IfOk, OnErr};
ghost use Rattle.history.specs.Legal.{shut_for};
ghost use Rattle.model.specs.{Decision, IsNext, ring_of, may_step, put_step};

use crate::ring::Ring;
use crate::state::State;
use history::Event;
use std::alloc::{AllocError, Global};

impl State {
    /// True where the event was allowed; it then has happened. Else nothing changes. An error comes for an allowed
    /// event alone.
    #[tactic(auto, using(crate::proofs::RunAgreement::decision, crate::proofs::RunAgreement::ill_timed, crate::proofs::RunAgreement::following))]
    pub fn carry_out(&mut self, alloc: Global, event: &Event) -> Result<bool, AllocError>
        ensures decision { IfOk result (λ done. Decision done self.old event.now self.new) }
        ensures wanting { OnErr result (IsNext self.old event.now) }
        ensures same { OnErr result (self.new ≡ self.old) }
    {
        if self.shut != is_cut(event) {
            return Ok(false);
        }
        match event {
            Event::Submit {
                req,
                sqe,
                bytes,
                last,
            } => self.submit(alloc, *req, *sqe, bytes, *last),
            Event::Reply { req, res, data } => self.reply(alloc, *req, *res, data),
            Event::Tick(to) => Ok(self.tick(*to)),
            Event::Shut => Ok(self.shut_down()),
            _ => self.step(event),
        }
    }
}

/// The event comes after `Shut` alone.
fn is_cut(event: &Event) -> bool
    ensures { result ≡ shut_for event.now }
{
    matches!(event, Event::Cut(_))
}

/// The ring of the first request that the event names.
pub fn ring_of(event: &Event) -> u16
    ensures { result ≡ ring_of event.now }
{
    match event {
        Event::Submit { req, .. } | Event::Reply { req, .. } | Event::Arm { req, .. } => req.ring,
        Event::Take { cancel, .. } | Event::Miss { cancel, .. } => cancel.ring,
        Event::Fire { timer, .. } | Event::FireMiss { timer, .. } => timer.ring,
        Event::Begin(req)
        | Event::Park(req)
        | Event::Expire(req)
        | Event::Count(req)
        | Event::Settle(req)
        | Event::Sever(req)
        | Event::Reap(req)
        | Event::Cut(req) => req.ring,
        Event::Tick(_) | Event::Shut => 0,
    }
}

impl Ring {
    /// An event of its requests is carried out where it may come. An error comes for one that may come, and changes nothing.
    pub fn step(&mut self, clock: u32, event: &Event) -> Result<bool, AllocError>
        ensures may { IfOk result (λ done. done ≡ may_step clock self.old event.now) }
        ensures after { IfOk result (λ done. self.new ≡ cond done (put_step self.old event.now) self.old) }
        ensures wanting { OnErr result (may_step clock self.old event.now ≡ true) }
        ensures same { OnErr result (self.new ≡ self.old) }
    {
        match event {
            Event::Begin(req) => Ok(self.begin(req.k)),
            Event::Park(req) => Ok(self.park(req.k)),
            Event::Take { cancel, target } => {
                if cancel.ring != target.ring {
                    return Ok(false);
                }
                self.take(cancel.k, target.k)
            }
            Event::Miss { cancel, target } => {
                if cancel.ring != target.ring {
                    return Ok(false);
                }
                self.miss(cancel.k, target.k)
            }
            Event::Arm { req, deadline } => Ok(self.arm(clock, req.k, *deadline)),
            Event::Expire(req) => Ok(self.expire(clock, req.k)),
            Event::Count(req) => Ok(self.count(req.k)),
            Event::Fire { timer, target } => {
                if timer.ring != target.ring {
                    return Ok(false);
                }
                Ok(self.fire(clock, timer.k, target.k))
            }
            Event::FireMiss { timer, target } => {
                if timer.ring != target.ring {
                    return Ok(false);
                }
                Ok(self.fire_miss(clock, timer.k, target.k))
            }
            Event::Settle(req) => Ok(self.settle(req.k)),
            Event::Sever(req) => Ok(self.sever(req.k)),
            Event::Reap(req) => Ok(self.reap(req.k)),
            Event::Cut(req) => Ok(self.cut(req.k)),
            Event::Submit { .. } | Event::Reply { .. } | Event::Tick(_) | Event::Shut => Ok(false),
        }
    }
}
