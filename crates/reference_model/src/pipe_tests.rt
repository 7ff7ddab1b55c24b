//! All short lists of reads, writes and splices.

use crate::alphabet::Asks::{Cancel, Close, LinkTimeout, Nop, PollAdd, Read, Splice, Write};
use crate::alphabet::Line::{self, Last, Within};
use crate::alphabet::Step::{
    Arms, Begin, Cancels, Fires, Park, Reads, Replies, Reply, Settle, Sever,
};
use crate::list::{DRAIN, HARD_LINK, LINK};
use crate::plan::{Plan, SMALL};
use crate::tests::{BOTH, FOUR, THREE, TWO, compares};
use std::test::Fail;

#[test]
fn pipes(rt: HostRuntime) -> Result<(), Fail> {
    const LINES: &[Line] = &[
        Last(Write(1, 1), 0, b"a"),
        Last(Write(1, 2), 0, b"bc"),
        Last(Write(1, 3), 0, b"def"),
        Last(Write(1, 0), 0, b""),
        Last(Read(0, 0), 0, b""),
        Last(Read(0, 1), 0, b"\0"),
        Last(Read(0, 3), 0, b"\0\0\0"),
        Last(Close(0), 0, b""),
        Last(Close(1), 0, b""),
        Last(PollAdd(0, 1), 0, b""),
        Last(PollAdd(1, 4), 0, b""),
        Last(PollAdd(1, 0), 0, b""),
    ];
    const PLAN: Plan = Plan {
        caps: &[2],
        depth: 9,
        first: &[LINES, LINES, LINES],
        requests: THREE,
        steps: &[
            Begin,
            Replies(&[0, 1, 2, 3, 4, 8, 12, 16, 17, -9, -32]),
            Reads(&[b"a", b"b", b"d", b"bc", b"de", b"ad", b"ba"]),
            Reply(1, b"bc"),
        ],
        ..SMALL
    };
    compares(&rt, rt.alloc(), PLAN, 11_199_324, 251_490)
}

/// Bytes go from a pipe of 2 bytes into one of 1 byte, or back.
#[test]
fn splices(rt: HostRuntime) -> Result<(), Fail> {
    const LINES: &[Line] = &[
        Last(Write(1, 1), 0, b"a"),
        Last(Write(1, 2), 0, b"bc"),
        Last(Write(3, 1), 0, b"d"),
        Last(Read(0, 2), 0, b"\0\0"),
        Last(Read(2, 2), 0, b"\0\0"),
        Last(Splice(0, 3, 0), 0, b""),
        Last(Splice(0, 3, 1), 0, b""),
        Last(Splice(0, 3, 2), 0, b""),
        Last(Splice(2, 1, 2), 0, b""),
        Last(Splice(0, 1, 0), 0, b""),
        Last(Splice(1, 3, 1), 0, b""),
        Last(Splice(0, 2, 1), 0, b""),
        Last(Splice(0, 5, 1), 0, b""),
        Last(Splice(4, 3, 1), 0, b""),
        Last(PollAdd(2, 1), 0, b""),
        Last(PollAdd(1, 4), 0, b""),
        Last(Close(0), 0, b""),
        Last(Close(1), 0, b""),
        Last(Close(2), 0, b""),
        Last(Close(3), 0, b""),
    ];
    const PLAN: Plan = Plan {
        caps: &[2, 1],
        depth: 9,
        first: &[LINES, LINES, LINES],
        requests: THREE,
        steps: &[
            Begin,
            Replies(&[0, 1, 2, 4, 8, 16, 17, -9, -22, -32]),
            Reads(&[b"a", b"b", b"c", b"d", b"bc", b"ad", b"da"]),
        ],
        ..SMALL
    };
    compares(&rt, rt.alloc(), PLAN, 49_468_100, 1_240_160)
}

/// Bytes go through two pipes and come out of either, in order.
#[test]
fn splices_behind_splices(rt: HostRuntime) -> Result<(), Fail> {
    const FILLS: &[Line] = &[
        Last(Write(1, 3), 0, b"abc"),
        Last(Write(1, 2), 0, b"ab"),
        Last(Write(3, 2), 0, b"de"),
    ];
    const MOVES: &[Line] = &[
        Last(Splice(0, 3, 1), 0, b""),
        Last(Splice(0, 3, 2), 0, b""),
        Last(Splice(2, 1, 1), 0, b""),
        Last(Splice(2, 1, 2), 0, b""),
        Last(Write(3, 1), 0, b"f"),
        Last(Read(0, 1), 0, b"\0"),
    ];
    const ENDS: &[Line] = &[
        Last(Read(0, 3), 0, b"\0\0\0"),
        Last(Read(2, 3), 0, b"\0\0\0"),
    ];
    const PLAN: Plan = Plan {
        caps: &[3, 2],
        depth: 12,
        first: &[FILLS, MOVES, MOVES, ENDS],
        requests: FOUR,
        steps: &[
            Begin,
            Replies(&[1, 2, 3]),
            Reads(&[
                b"a", b"b", b"c", b"d", b"f", b"ab", b"bc", b"ba", b"ca", b"de", b"fa", b"af",
                b"abc", b"bca", b"cab",
            ]),
        ],
        ..SMALL
    };
    compares(&rt, rt.alloc(), PLAN, 12_887_817, 202_671)
}

/// A SPLICE that moves fewer bytes than it asks for ends a soft chain.
#[test]
fn splices_in_chains(rt: HostRuntime) -> Result<(), Fail> {
    const FILLS: &[Line] = &[
        Last(Write(1, 1), 0, b"a"),
        Last(Write(1, 2), 0, b"ab"),
        Last(Write(3, 1), 0, b"c"),
    ];
    const MOVES: &[Line] = &[
        Within(Splice(0, 3, 1), LINK, b""),
        Within(Splice(0, 3, 2), LINK, b""),
        Within(Splice(0, 3, 2), BOTH, b""),
        Last(Splice(0, 3, 2), LINK, b""),
        Within(Splice(0, 3, 0), LINK | DRAIN, b""),
        Within(Splice(0, 1, 1), HARD_LINK, b""),
        Within(Splice(0, 2, 1), LINK, b""),
    ];
    const ENDS: &[Line] = &[
        Last(Nop, 0, b""),
        Last(Splice(0, 3, 1), 0, b""),
        Last(Splice(2, 1, 1), DRAIN, b""),
        Last(LinkTimeout(0), 0, b""),
        Last(Cancel(1), 0, b""),
    ];
    const PLAN: Plan = Plan {
        caps: &[2, 2],
        depth: 11,
        first: &[FILLS, MOVES, ENDS],
        requests: THREE,
        steps: &[
            Begin,
            Park,
            Replies(&[0, 1, 2, -2, -9, -22, -114]),
            Arms(&[0]),
            Settle,
            Sever,
            Cancels(TWO),
            Fires(TWO),
        ],
        ..SMALL
    };
    compares(&rt, rt.alloc(), PLAN, 10_527_009, 492_969)
}
