//! Which event may come next.

use crate::list::{DRAIN, HARD_LINK, List, TIMED_OUT};
use entry::{Op, Sqe};
use history::{Event, Req};

/// The reply ends a soft chain.
fn fails(op: Op, res: i32) -> bool {
    match op {
        Op::LinkTimeout { .. } => false,
        Op::Timeout {
            etime_success: true,
            ..
        } if res == TIMED_OUT => false,
        Op::Read { len, .. } | Op::Write { len, .. } | Op::Splice { len, .. } => {
            i64::from(res) < i64::from(len)
        }
        _ => res < 0,
    }
}

/// The buffer has the length that the entry asks for.
fn fits(sqe: Sqe, len: usize) -> bool {
    match sqe.op() {
        Op::Read { len: wanted, .. } | Op::Write { len: wanted, .. } => len == wanted as usize,
        Op::Invalid => true,
        _ => len == 0,
    }
}

fn ticks(op: Op) -> Option<u32> {
    match op {
        Op::Timeout { ticks, .. } | Op::LinkTimeout { ticks } => Some(ticks),
        _ => None,
    }
}

impl<'a> List<'a> {
    /// An earlier member of the chain replied so that the rest is ended.
    fn is_severed(self, r: Req) -> bool {
        for k in 0..r.k {
            if self.is_severed_by(Req { ring: r.ring, k }, r) {
                return true;
            }
        }
        false
    }

    fn is_severed_by(self, q: Req, r: Req) -> bool {
        match (self.placed(q), self.reply(q)) {
            (Some(placed), Some(res)) => {
                self.is_chain_before(q, r)
                    && fails(placed.op, res)
                    && (!placed.has(HARD_LINK) || placed.op == Op::Invalid)
            }
            _ => false,
        }
    }

    /// An earlier request that has no answer and for which this one has to wait.
    fn is_held_by(self, q: Req, r: Req, drains: bool) -> bool {
        match self.placed(q) {
            Some(placed) => {
                self.reply(q).is_none()
                    && (self.is_chain_before(q, r) || placed.has(DRAIN) || drains)
            }
            None => false,
        }
    }

    fn is_clear(self, r: Req) -> bool {
        let Some(placed) = self.placed(r) else {
            return false;
        };
        let drains = placed.has(DRAIN);
        for k in 0..r.k {
            if self.is_held_by(Req { ring: r.ring, k }, r, drains) {
                return false;
            }
        }
        !self.is_severed(r)
    }

    /// A LINK_TIMEOUT is open where its target is.
    fn is_open(self, r: Req) -> bool {
        match self.target(r) {
            Some(t) => self.is_clear(t),
            None => self.is_clear(r),
        }
    }

    fn op(self, r: Req) -> Option<Op> {
        Some(self.placed(r)?.op)
    }

    fn is_timeout(self, r: Req) -> bool {
        matches!(self.op(r), Some(Op::Timeout { .. }))
    }

    fn is_link_timeout(self, r: Req) -> bool {
        matches!(self.op(r), Some(Op::LinkTimeout { .. }))
    }

    fn is_due(self, r: Req) -> bool {
        match self.armed(r) {
            Some(deadline) => deadline <= self.now(),
            None => false,
        }
    }

    /// The event may come next. Nothing but Cut follows Shut, and Cut nothing else.
    pub fn allows(self, event: &Event) -> bool {
        if self.is_shut() {
            return match event {
                Event::Cut(r) => self.is_pending(*r),
                _ => false,
            };
        }
        match event {
            Event::Submit {
                req,
                sqe,
                bytes,
                ..
            } => {
                req.ring < self.rings
                    && req.k == self.submits(req.ring)
                    && fits(*sqe, bytes.as_slice().len())
            }
            Event::Tick(to) => *to >= self.now() && *to <= 2_147_483_647,
            Event::Shut => !self.any_runs(),
            Event::Cut(_) => false,
            Event::Take { cancel, target } => {
                self.may_hit(*cancel, *target) && !self.runs(*target)
            }
            Event::Miss { cancel, target } => {
                self.may_hit(*cancel, *target) && self.runs(*target)
            }
            Event::Fire { timer, target } => {
                self.runs_out(*timer, *target) && !self.runs(*target)
            }
            Event::FireMiss { timer, target } => {
                self.runs_out(*timer, *target) && self.runs(*target)
            }
            _ => self.allows_single(event),
        }
    }

    /// The same, of the events of one request.
    fn allows_single(self, event: &Event) -> bool {
        match event {
            Event::Begin(r) => self.begins(*r),
            Event::Park(r) => self.runs(*r),
            Event::Reply { req, res, data } => {
                self.runs(*req) && self.answers(*req, *res, data.as_slice())
            }
            Event::Arm { req, deadline } => self.arms(*req, *deadline),
            Event::Expire(r) => self.is_timeout(*r) && self.is_due(*r),
            Event::Count(r) => self.has_counted(*r),
            Event::Settle(l) => self.settles(*l),
            Event::Sever(r) => self.waits(*r) && self.is_severed(*r),
            Event::Reap(r) => self.reply(*r).is_some() && !self.is_reaped(*r),
            _ => false,
        }
    }

    fn begins(self, r: Req) -> bool {
        self.waits(r) && self.is_open(r) && !self.is_timeout(r) && !self.is_link_timeout(r)
    }

    fn any_runs(self) -> bool {
        for event in self.events {
            if let Event::Submit { req, .. } = *event
                && self.runs(*req)
            {
                return true;
            }
        }
        false
    }

    /// The cancel runs and means this request, which has no answer. Where it cancels all, it means each match, and each of
    /// them once. Else it means the first, and only as long as it has found nothing.
    fn may_hit(self, c: Req, t: Req) -> bool {
        if !self.runs(c) {
            return false;
        }
        match self.op(c) {
            Some(Op::AsyncCancel { all: true, .. }) => {
                self.is_match(c, t) && self.reply(t).is_none() && !self.has_hit(c, t)
            }
            Some(Op::AsyncCancel { .. } | Op::TimeoutRemove { .. }) => {
                !self.has_taken(c) && !self.has_missed(c) && self.first(c) == Some(t)
            }
            _ => false,
        }
    }

    /// The LINK_TIMEOUT is due, has not run out before, and this is its target, which has no answer.
    fn runs_out(self, l: Req, t: Req) -> bool {
        self.is_link_timeout(l)
            && self.is_due(l)
            && !self.has_fired(l)
            && self.target(l) == Some(t)
            && self.reply(t).is_none()
    }

    fn arms(self, r: Req, deadline: u32) -> bool {
        let Some(op) = self.op(r) else {
            return false;
        };
        let Some(ticks) = ticks(op) else {
            return false;
        };
        self.waits(r)
            && self.is_open(r)
            && u64::from(deadline) == u64::from(self.now()) + u64::from(ticks)
    }

    /// It is an armed TIMEOUT with a count, and this many later requests of its ring have an answer.
    fn has_counted(self, r: Req) -> bool {
        match self.op(r) {
            Some(Op::Timeout { count, .. }) => {
                count > 0 && self.armed(r).is_some() && self.later_answers(r) >= u64::from(count)
            }
            _ => false,
        }
    }

    /// How many later requests of its ring have an answer.
    fn later_answers(self, r: Req) -> u64 {
        let mut answers = 0u64;
        for event in self.events {
            if let Event::Submit { req, .. } = *event
                && req.ring == r.ring
                && req.k > r.k
                && self.reply(*req).is_some()
            {
                answers = answers.wrapping_add(1);
            }
        }
        answers
    }

    /// It is an armed LINK_TIMEOUT that ran out, or whose target has an answer.
    fn settles(self, l: Req) -> bool {
        let Some(t) = self.target(l) else {
            return false;
        };
        self.armed(l).is_some() && (self.has_fired(l) || self.reply(t).is_some())
    }
}
