//! All short lists with timers.

use crate::alphabet::Asks::{LinkTimeout, Nop, Read, Timeout, TimeoutCount};
use crate::alphabet::Line::{self, Last, Within};
use crate::alphabet::Step::{
    Arms, Begin, Count, Expire, Fires, Park, Reap, Replies, Settle, Sever, Submits,
};
use crate::list::{DRAIN, LINK};
use crate::plan::{Plan, SMALL};
use crate::tests::{BOTH, THREE, TWO, compares};
use history::Req;
use std::test::Fail;

#[test]
fn timers(rt: HostRuntime) -> Result<(), Fail> {
    const LINES: &[Line] = &[
        Last(Timeout(0, 0), 0, b""),
        Last(Timeout(2, 0), 0, b""),
        Within(Timeout(1, 32), LINK, b""),
        Within(Timeout(1, 0), LINK, b""),
    ];
    const PLAN: Plan = Plan {
        depth: 10,
        requests: TWO,
        steps: &[
            Submits(LINES),
            Arms(&[0, 1, 2, 3, 4]),
            Expire,
            Settle,
            Begin,
            Sever,
        ],
        ticks: &[1, 2, 3],
        ..SMALL
    };
    compares(&rt, rt.alloc(), PLAN, 15_764_400, 1_302_546)
}

/// A TIMEOUT counts the later requests of its ring that have replied.
#[test]
fn counted_timeouts(rt: HostRuntime) -> Result<(), Fail> {
    const LINES: &[Line] = &[
        Last(TimeoutCount(1, 1, 0), 0, b""),
        Last(TimeoutCount(0, 2, 0), DRAIN, b""),
        Within(TimeoutCount(1, 1, 0), LINK, b""),
        Last(Timeout(1, 0), 0, b""),
        Last(Nop, 0, b""),
        Within(Read(1, 1), LINK, b"\0"),
    ];
    const REQUESTS: &[Req] = &[
        Req { ring: 0, k: 0 },
        Req { ring: 0, k: 1 },
        Req { ring: 0, k: 2 },
        Req { ring: 1, k: 0 },
    ];
    const PLAN: Plan = Plan {
        rings: 2,
        caps: &[2],
        depth: 10,
        first: &[LINES, LINES, LINES],
        requests: REQUESTS,
        steps: &[
            Begin,
            Replies(&[0, -9]),
            Arms(&[0, 1]),
            Expire,
            Count,
            Sever,
            Reap,
        ],
        nops: &[Req { ring: 1, k: 0 }],
        ticks: &[1],
        shut: false,
    };
    compares(&rt, rt.alloc(), PLAN, 24_813_536, 2_551_095)
}

#[test]
fn link_timeouts(rt: HostRuntime) -> Result<(), Fail> {
    const TARGETS: &[Line] = &[
        Within(Nop, LINK, b""),
        Within(Nop, BOTH, b""),
        Within(Read(0, 1), LINK, b"\0"),
        Within(Timeout(1, 0), LINK, b""),
        Within(LinkTimeout(1), LINK, b""),
    ];
    const TIMERS: &[Line] = &[
        Within(LinkTimeout(1), LINK, b""),
        Last(LinkTimeout(1), LINK, b""),
    ];
    const ENDS: &[Line] = &[Last(Nop, 0, b""), Last(LinkTimeout(1), 0, b"")];
    const PLAN: Plan = Plan {
        caps: &[2],
        depth: 11,
        first: &[TARGETS, TIMERS, ENDS],
        requests: THREE,
        steps: &[
            Begin,
            Park,
            Replies(&[0, -22]),
            Arms(&[1, 2]),
            Expire,
            Settle,
            Sever,
            Fires(THREE),
        ],
        ticks: &[1, 2],
        ..SMALL
    };
    compares(&rt, rt.alloc(), PLAN, 21_407_031, 1_737_315)
}
