//! What a list of events says of its requests. Nothing is kept: each question goes over the whole list again.

use bitflags::Flags;
use entry::Op;
use history::{Event, Req};

pub const CANCELLED: i32 = -125;

pub const TIMED_OUT: i32 = -62;

pub const DRAIN: u8 = 2;

pub const LINK: u8 = 4;

pub const HARD_LINK: u8 = 8;

/// The events so far, the oldest first, of this many rings, and of pipes with these capacities.
#[derive(Clone, Copy)]
pub struct List<'a> {
    pub rings: u16,
    pub caps: &'a [u32],
    pub events: &'a [&'a Event],
}

/// What was handed in.
#[derive(Clone, Copy)]
pub struct Handed<'a> {
    pub op: Op,
    pub user_data: u64,
    /// The flags byte.
    pub flags: u8,
    pub bytes: &'a [u8],
    /// It ends its batch.
    pub last: bool,
}

/// The entry that a request stands for.
#[derive(Clone, Copy)]
pub struct Placed {
    pub op: Op,
    pub user_data: u64,
    pub flags: u8,
}

impl Placed {
    pub fn has(self, flag: u8) -> bool {
        self.flags & flag != 0
    }
}

impl<'a> List<'a> {
    /// How many requests were submitted to the ring.
    pub fn submits(self, ring: u16) -> u64 {
        let mut count = 0u64;
        for event in self.events {
            if let Event::Submit { req, .. } = *event
                && req.ring == ring
            {
                count = count.wrapping_add(1);
            }
        }
        count
    }

    /// What was handed in as this request.
    pub fn handed(self, r: Req) -> Option<Handed<'a>> {
        for event in self.events {
            if let Event::Submit {
                req,
                sqe,
                bytes,
                last,
            } = *event
                && *req == r
            {
                return Some(Handed {
                    op: sqe.op(),
                    user_data: sqe.user_data(),
                    flags: sqe.flags().bits(),
                    bytes: bytes.as_slice(),
                    last: *last,
                });
            }
        }
        None
    }

    /// A chain ends at the request: it has no link flag, or it ends its batch.
    fn ends_chain(self, r: Req) -> bool {
        match self.handed(r) {
            Some(handed) => handed.last || handed.flags & (LINK | HARD_LINK) == 0,
            None => false,
        }
    }

    /// The number of the request's chain: how many chains of its ring ended before it.
    fn chain(self, r: Req) -> u64 {
        let mut count = 0u64;
        for k in 0..r.k {
            if self.ends_chain(Req { ring: r.ring, k }) {
                count = count.wrapping_add(1);
            }
        }
        count
    }

    /// Both are of one chain, and `q` comes first.
    pub fn is_chain_before(self, q: Req, r: Req) -> bool {
        q.ring == r.ring && q.k < r.k && self.chain(q) == self.chain(r)
    }

    /// It was handed in as a LINK_TIMEOUT.
    fn is_handed_as_link_timeout(self, r: Req) -> bool {
        match self.handed(r) {
            Some(handed) => matches!(handed.op, Op::LinkTimeout { .. }),
            None => false,
        }
    }

    /// A LINK_TIMEOUT in a wrong place: it begins its chain, or stands directly after another of its chain.
    fn is_misplaced(self, r: Req) -> bool {
        if !self.is_handed_as_link_timeout(r) {
            return false;
        }
        if r.k == 0 {
            return true;
        }
        let before = Req {
            ring: r.ring,
            k: r.k - 1,
        };
        !self.is_chain_before(before, r) || self.is_handed_as_link_timeout(before)
    }

    /// The entry that the request stands for.
    pub fn placed(self, r: Req) -> Option<Placed> {
        let handed = self.handed(r)?;
        let flags = handed.flags;
        let misplaced = self.is_misplaced(r);
        Some(Placed {
            op: if misplaced { Op::Invalid } else { handed.op },
            user_data: handed.user_data,
            flags: if misplaced {
                flags & (LINK | HARD_LINK)
            } else {
                flags
            },
        })
    }

    /// The request that a placed LINK_TIMEOUT is about: the entry directly before it.
    pub fn target(self, l: Req) -> Option<Req> {
        match self.placed(l)?.op {
            Op::LinkTimeout { .. } if l.k > 0 => Some(Req {
                ring: l.ring,
                k: l.k - 1,
            }),
            _ => None,
        }
    }

    /// The timer ended its target or found it running.
    pub fn has_fired(self, l: Req) -> bool {
        for event in self.events {
            if let Event::Fire { timer, .. } | Event::FireMiss { timer, .. } = *event
                && *timer == l
            {
                return true;
            }
        }
        false
    }

    /// The reply that the event gives to the request.
    fn answer(self, event: &Event, r: Req) -> Option<i32> {
        match event {
            Event::Reply { req, res, .. } if *req == r => Some(*res),
            Event::Take { target, .. } | Event::Fire { target, .. } if *target == r => {
                Some(CANCELLED)
            }
            Event::Expire(req) if *req == r => Some(TIMED_OUT),
            Event::Count(req) if *req == r => Some(0),
            Event::Settle(req) if *req == r => Some(if self.has_fired(r) {
                TIMED_OUT
            } else {
                CANCELLED
            }),
            Event::Sever(req) | Event::Cut(req) if *req == r => Some(CANCELLED),
            _ => None,
        }
    }

    pub fn reply(self, r: Req) -> Option<i32> {
        for event in self.events {
            if let Some(res) = self.answer(*event, r) {
                return Some(res);
            }
        }
        None
    }

    /// The data of the answer, none but what a READ took.
    pub fn data(self, r: Req) -> Option<&'a [u8]> {
        self.reply(r)?;
        for event in self.events {
            if let Event::Reply { req, data, .. } = *event
                && *req == r
            {
                return Some(data.as_slice());
            }
        }
        Some(&[])
    }

    /// The last of its Begin, its Park and what answers it is Begin.
    pub fn runs(self, r: Req) -> bool {
        let mut runs = false;
        for event in self.events {
            match *event {
                Event::Begin(req) if *req == r => runs = true,
                Event::Park(req) if *req == r => runs = false,
                other => runs = runs && self.answer(other, r).is_none(),
            }
        }
        runs
    }

    /// The deadline of an armed timer that has no answer.
    pub fn armed(self, r: Req) -> Option<u32> {
        if self.reply(r).is_some() {
            return None;
        }
        for event in self.events {
            if let Event::Arm { req, deadline } = *event
                && *req == r
            {
                return Some(*deadline);
            }
        }
        None
    }

    /// It was submitted, has no answer, doesn't run and isn't armed.
    pub fn waits(self, r: Req) -> bool {
        self.is_pending(r) && !self.runs(r) && self.armed(r).is_none()
    }

    /// It was submitted and has no answer.
    pub fn is_pending(self, r: Req) -> bool {
        self.handed(r).is_some() && self.reply(r).is_none()
    }

    pub fn is_reaped(self, r: Req) -> bool {
        for event in self.events {
            if let Event::Reap(req) = *event
                && *req == r
            {
                return true;
            }
        }
        false
    }

    pub fn is_shut(self) -> bool {
        for event in self.events {
            if let Event::Shut = *event {
                return true;
            }
        }
        false
    }

    /// The value of the last Tick, or 0.
    pub fn now(self) -> u32 {
        let mut now = 0;
        for event in self.events {
            if let Event::Tick(to) = *event {
                now = *to;
            }
        }
        now
    }
}
