//! Timers call by call, in the sorted list and in the wheel.
use history::Req;
use std::alloc::Global;
use std::test::Fail;
use wheel::{Answer, Call, Memory, SortedTimers, TimerSet, Timers, run};

fn nth(k: u64) -> Req {
    Req { ring: 0, k }
}

fn arm(k: u64, at: u32) -> Call {
    Call::Arm { req: nth(k), at }
}

/// Whether the calls, one after another, answer so.
fn answers_so<T: TimerSet>(
    alloc: Global,
    timers: &mut T,
    calls: &[Call],
    wanted: &[Answer],
) -> Result<bool, Memory> {
    let answers = run(alloc, timers, calls)?;
    Ok(answers.as_slice() == wanted)
}

/// Three timers, of which two share a slot of the wheel.
fn has_the_least_first<T: TimerSet>(alloc: Global, timers: &mut T) -> Result<bool, Memory> {
    let calls = [
        arm(0, 300),
        arm(1, 44),
        arm(2, 2147483647),
        Call::Due(43),
        Call::Due(44),
        Call::DropTimer(nth(1)),
        Call::DropTimer(nth(1)),
        Call::Due(299),
        Call::Due(300),
    ];
    let answers = [
        Answer::Armed,
        Answer::Armed,
        Answer::Armed,
        Answer::First(None),
        Answer::First(Some(nth(1))),
        Answer::Dropped(true),
        Answer::Dropped(false),
        Answer::First(None),
        Answer::First(Some(nth(0))),
    ];
    answers_so(alloc, timers, &calls, &answers)
}

/// A new deadline in the same slot of the wheel, and then one in another.
fn replaces_deadlines<T: TimerSet>(alloc: Global, timers: &mut T) -> Result<bool, Memory> {
    let calls = [
        arm(0, 10),
        arm(0, 266),
        Call::Due(265),
        Call::Due(266),
        arm(0, 400),
        Call::Due(399),
        Call::Due(400),
        Call::DropTimer(nth(0)),
        Call::Due(2147483647),
    ];
    let answers = [
        Answer::Armed,
        Answer::Armed,
        Answer::First(None),
        Answer::First(Some(nth(0))),
        Answer::Armed,
        Answer::First(None),
        Answer::First(Some(nth(0))),
        Answer::Dropped(true),
        Answer::First(None),
    ];
    answers_so(alloc, timers, &calls, &answers)
}

#[test]
fn the_least_deadline_is_due_first(rt: HostRuntime) -> Result<(), Fail> {
    let (mut sorted, mut wheel) = (SortedTimers::new(rt.alloc()), Timers::new(rt.alloc()));
    assert_eq!(rt; has_the_least_first(rt.alloc(), &mut sorted), Ok(true));
    assert_eq!(rt; has_the_least_first(rt.alloc(), &mut wheel), Ok(true));
    Ok(())
}

#[test]
fn a_new_deadline_takes_the_place_of_the_old_one(rt: HostRuntime) -> Result<(), Fail> {
    let (mut sorted, mut wheel) = (SortedTimers::new(rt.alloc()), Timers::new(rt.alloc()));
    assert_eq!(rt; replaces_deadlines(rt.alloc(), &mut sorted), Ok(true));
    assert_eq!(rt; replaces_deadlines(rt.alloc(), &mut wheel), Ok(true));
    Ok(())
}
