//! What can happen to a group of rings.
use crate::bytes::Bytes;
use crate::req::Req;
use entry::Sqe;

/// One step in the life of the rings. Which event may follow which is the definition `Allowed`.
#[derive(Drop)]
pub enum Event {
    /// An entry was handed in with its buffer. `last` ends the batch (io_uring_enter(2)).
    Submit {
        req: Req,
        sqe: Sqe,
        bytes: Bytes,
        last: bool,
    },
    /// A worker took the request up.
    Begin(Req),
    /// The worker put the request back: it has no answer yet.
    Park(Req),
    /// The request was answered with `res`; `data` is what a READ took.
    Reply {
        req: Req,
        res: i32,
        data: Bytes,
    },
    /// A cancel ended its target, which is answered with -125 (ECANCELED).
    Take {
        cancel: Req,
        target: Req,
    },
    /// A cancel found its target running.
    Miss {
        cancel: Req,
        target: Req,
    },
    /// The clock was set.
    Tick(u32),
    /// A timer was armed with this deadline (in ticks).
    Arm {
        req: Req,
        deadline: u32,
    },
    /// An armed TIMEOUT ran out: it is answered with -62 (ETIME).
    Expire(Req),
    /// An armed TIMEOUT has counted enough completions: it is answered with 0.
    Count(Req),
    /// An armed LINK_TIMEOUT ended its target, which is answered with -125 (ECANCELED).
    Fire {
        timer: Req,
        target: Req,
    },
    /// An armed LINK_TIMEOUT ran out and found its target running.
    FireMiss {
        timer: Req,
        target: Req,
    },
    /// A LINK_TIMEOUT is answered: with -62 (ETIME) where it ran out in time, else with -125 (ECANCELED).
    Settle(Req),
    /// A request was ended by the failure of an earlier member of its chain: it is answered with -125 (ECANCELED).
    Sever(Req),
    /// The completion was taken, and the buffer with it.
    Reap(Req),
    /// Nothing continues from here.
    Shut,
    /// A request that was never answered is answered with -125 (ECANCELED), after `Shut`.
    Cut(Req),
}
