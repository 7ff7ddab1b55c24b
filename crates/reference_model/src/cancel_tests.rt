//! All short lists with cancels.

use crate::alphabet::Asks::{Cancel, CancelAll, LinkTimeout, Nop, Read, Timeout, TimeoutRemove};
use crate::alphabet::Line::{self, Last, Within};
use crate::alphabet::Step::{Arms, Begin, Cancels, Expire, Park, Replies, Settle};
use crate::list::LINK;
use crate::plan::{Plan, SMALL};
use crate::tests::{FOUR, THREE, compares};
use std::test::Fail;

#[test]
fn cancels(rt: HostRuntime) -> Result<(), Fail> {
    const LINES: &[Line] = &[
        Last(Nop, 0, b""),
        Last(Read(0, 1), 0, b"\0"),
        Last(Timeout(0, 0), 0, b""),
        Last(Cancel(1), 0, b""),
        Within(Nop, LINK, b""),
        Last(LinkTimeout(0), 0, b""),
    ];
    const ENDS: &[Line] = &[
        Last(Cancel(1), 0, b""),
        Last(TimeoutRemove(1), 0, b""),
        Last(Cancel(2), 0, b""),
    ];
    const PLAN: Plan = Plan {
        caps: &[2],
        depth: 11,
        first: &[LINES, LINES, ENDS],
        requests: THREE,
        steps: &[
            Begin,
            Park,
            Replies(&[0, -2, -114]),
            Arms(&[0]),
            Expire,
            Settle,
            Cancels(THREE),
        ],
        ..SMALL
    };
    compares(&rt, rt.alloc(), PLAN, 21_398_394, 1_571_556)
}

/// A cancel of all its matches, after other cancels.
#[test]
fn cancels_of_all(rt: HostRuntime) -> Result<(), Fail> {
    const LINES: &[Line] = &[
        Last(Read(0, 1), 0, b"\0"),
        Last(Timeout(0, 0), 0, b""),
        Last(Cancel(1), 0, b""),
        Last(CancelAll(1), 0, b""),
        Within(Nop, LINK, b""),
        Last(LinkTimeout(0), 0, b""),
    ];
    const ENDS: &[Line] = &[Last(CancelAll(1), 0, b""), Last(CancelAll(2), 0, b"")];
    const PLAN: Plan = Plan {
        caps: &[2],
        depth: 11,
        first: &[LINES, LINES, ENDS],
        requests: THREE,
        steps: &[
            Begin,
            Park,
            Replies(&[0, 1, 2, -2, -114]),
            Arms(&[0]),
            Expire,
            Settle,
            Cancels(THREE),
        ],
        ..SMALL
    };
    compares(&rt, rt.alloc(), PLAN, 21_572_658, 1_475_985)
}

/// Three matches, which escape a cancel of all in any order.
#[test]
fn a_cancel_of_three(rt: HostRuntime) -> Result<(), Fail> {
    const LINES: &[Line] = &[Last(Nop, 0, b""), Last(Timeout(0, 0), 0, b"")];
    const ENDS: &[Line] = &[Last(CancelAll(1), 0, b"")];
    const PLAN: Plan = Plan {
        depth: 12,
        first: &[LINES, LINES, LINES, ENDS],
        requests: FOUR,
        steps: &[
            Begin,
            Park,
            Replies(&[0, 1, 2, 3, -114]),
            Arms(&[0]),
            Cancels(THREE),
        ],
        ..SMALL
    };
    compares(&rt, rt.alloc(), PLAN, 24_854_166, 1_908_080)
}
