//! Runtimes on real threads: what their clients take, and what their reports tell.
use crate::batches::Entry;
use crate::pair::Pair;
use controls::{Hold, Holds, Open, Point};
use entry::Sqe;
use history::Req;
use prep::{cancel, close, nop, read, timeout, write};
use std::alloc::{AllocError, Global};
use std::sync::Wait;
use std::test::Fail;
use std::thread;
use std::thread::Threads;

/// IOSQE_IO_LINK.
pub const LINK: u8 = 4;

/// This many rounds, one after another, until one goes wrong: whether none did.
macro_rules! rounds {
    ($count:expr, $number:ident, $round:expr) => {{
        for $number in 0..$count {
            if !$round? {
                return Ok(false);
            }
        }
        Ok(true)
    }};
}

fn nth(ring: u16, k: u64) -> Req {
    Req { ring, k }
}

/// An entry with a buffer of this many bytes, from `first` on.
pub fn entry(sqe: Sqe, flags: u8, user_data: u64, bytes: u8, first: u8) -> Entry {
    Entry {
        sqe,
        flags,
        user_data,
        bytes,
        first,
    }
}

/// A WRITE of ring 1 and a READ linked to it, whether both transfer three bytes.
fn goes_through<R: Wait>(pair: &mut Pair, rt: &R) -> Result<bool, Fail> {
    let batch = [
        entry(write(1, 3, 0), LINK, 31, 3, 7),
        entry(read(0, 5, 0), 0, 32, 5, 60),
    ];
    let req = pair.submit(1, &batch)?;
    let (one, other) = (pair.take(rt, 1)?, pair.take(rt, 1)?);
    // the worker that ran the WRITE may post it after the other one has posted the READ
    let (write, read) = if one.as_str().starts_with("1.0") {
        (one, other)
    } else {
        (other, one)
    };
    let is_written = write.as_str() == "1.0 31 3:7:8:9";
    Ok(req == nth(1, 0) && is_written && read.as_str() == "1.1 32 3:7:8:9:63:64")
}

#[test]
fn a_linked_write_and_read_go_through_the_pipe(rt: HostRuntime) -> Result<(), Fail> {
    let mut pair = Pair::new(rt, rt.alloc(), 2, 3, Open)?;
    let went = goes_through(&mut pair, &rt);
    assert!(rt; reports(pair, &rt, went, &[""])?);
    Ok(())
}

/// Two NOPs, whether the second one's completion comes first.
fn comes_second_first<R: Wait>(pair: &mut Pair, rt: &R) -> Result<bool, Fail> {
    let batch = [entry(nop(), 0, 41, 0, 0), entry(nop(), 0, 42, 0, 0)];
    let req = pair.submit(0, &batch)?;
    let (one, other) = (pair.take(rt, 0)?, pair.take(rt, 0)?);
    Ok(req == nth(0, 0) && one.as_str() == "0.1 42 0" && other.as_str() == "0.0 41 0")
}

#[test]
fn a_request_is_held_until_another_thread_has_posted(rt: HostRuntime) -> Result<(), Fail> {
    let mut holds = Vec::new(rt.alloc());
    holds.push(Hold::new((Point::Run, nth(0, 0)), (Point::Post, nth(0, 1))))?;
    let mut pair = Pair::new(rt, rt.alloc(), 2, 1, Holds { holds })?;
    let went = comes_second_first(&mut pair, &rt);
    assert!(rt; reports(pair, &rt, went, &[""])?);
    Ok(())
}

/// A NOP after the poller has gone to sleep, whether it is answered.
fn wakes_the_poller<R: Wait>(
    pair: &mut Pair,
    rt: &R,
    alloc: Global,
    round: u64,
) -> Result<bool, Fail> {
    for _turn in 0..1_000 {
        thread::yield_now();
    }
    let req = pair.submit(0, &[entry(nop(), 0, round, 0, 0)])?;
    let wanted = format!(in alloc; "0.{round} {round} 0")?;
    let told = pair.take(rt, 0)?;
    Ok(req == nth(0, round) && told.as_str() == wanted.as_str())
}

/// Twenty of them.
fn wakes_twenty_times<R: Wait>(pair: &mut Pair, rt: &R, alloc: Global) -> Result<bool, Fail> {
    rounds!(20u64, number, wakes_the_poller(pair, rt, alloc, number))
}

#[test]
fn a_sleeper_is_back_after_it_was_rung(rt: HostRuntime) -> Result<(), Fail> {
    let mut pair = Pair::new(rt, rt.alloc(), 1, 0, Open)?;
    let went = wakes_twenty_times(&mut pair, &rt, rt.alloc());
    assert!(rt; reports(pair, &rt, went, &[""])?);
    Ok(())
}

/// What the end may report of a READ, a TIMEOUT and two NOPs, of which one was taken.
const REPORTS: [&str; 4] = [
    "0.0 -125 true;0.1 -125 true;1.0 0 false;",
    "0.0 -125 true;0.1 -125 true;1.1 0 false;",
    "0.0 -125 true;0.1 -125 true;1.0 -125 true;",
    "0.0 -125 true;0.1 -125 true;1.1 -125 true;",
];

fn is_one_of(text: &str, texts: &[&str]) -> bool {
    for it in texts {
        if *it == text {
            return true;
        }
    }
    false
}

/// A READ and a TIMEOUT of ring 0 and two NOPs of ring 1, of which it takes one.
fn takes_one<R: Wait>(pair: &mut Pair, rt: &R) -> Result<bool, Fail> {
    let batch = [
        entry(read(0, 4, 0), 0, 51, 4, 1),
        entry(timeout(9, 0), 0, 52, 0, 0),
    ];
    let zero = pair.submit(0, &batch)?;
    let other = [entry(nop(), 0, 53, 0, 0), entry(nop(), 0, 54, 0, 0)];
    let one = pair.submit(1, &other)?;
    pair.take(rt, 1)?;
    Ok(zero == nth(0, 0) && one == nth(1, 0))
}

/// Ends a runtime. Whether all went well, and its report is one of these.
pub fn reports<R: Threads + Wait>(
    pair: Pair,
    rt: &R,
    went: Result<bool, Fail>,
    wanted: &[&str],
) -> Result<bool, Fail> {
    let report = pair.end(rt);
    let is_right = went?;
    match report {
        Ok(report) => Ok(is_right && is_one_of(report.as_str(), wanted)),
        Err(why) => Err(Fail::new(why)),
    }
}

#[test]
fn the_report_has_what_nobody_took(rt: HostRuntime) -> Result<(), Fail> {
    let mut pair = Pair::new(rt, rt.alloc(), 3, 5, Open)?;
    let went = takes_one(&mut pair, &rt);
    assert!(rt; reports(pair, &rt, went, &REPORTS)?);
    Ok(())
}

/// A NOP for which the client waits, whether it is answered.
fn waits<R: Wait>(pair: &mut Pair, rt: &R, alloc: Global, round: u32) -> Result<bool, Fail> {
    let number = u64::from(round);
    let req = pair.submit(0, &[entry(nop(), 0, number + 7, 0, 0)])?;
    let wanted = format!(in alloc; "0.{number} {} 0", number + 7);
    let has_come = comes(pair, rt, 0, wanted)?;
    Ok(req == nth(0, number) && has_come)
}

/// Ten thousand of them.
fn waits_often<R: Wait>(pair: &mut Pair, rt: &R, alloc: Global) -> Result<bool, Fail> {
    rounds!(10_000u32, number, waits(pair, rt, alloc, number))
}

/// A put between a worker's last look and its sleep, a post between a client's, and a tail between the poller's: each wakes who sleeps.
#[test]
fn a_client_waits_ten_thousand_times(rt: HostRuntime) -> Result<(), Fail> {
    let mut pair = Pair::new(rt, rt.alloc(), 3, 0, Open)?;
    let went = waits_often(&mut pair, &rt, rt.alloc());
    assert!(rt; reports(pair, &rt, went, &[""])?);
    Ok(())
}

/// Whether the next completion of the ring is this one.
fn comes<R: Wait>(
    pair: &mut Pair,
    rt: &R,
    ring: u16,
    wanted: Result<String, AllocError>,
) -> Result<bool, Fail> {
    let wanted = wanted?;
    let told = pair.wait(rt, ring)?;
    Ok(told.as_str() == wanted.as_str())
}

/// A READ of ring 0 and a WRITE of ring 1, whether both transfer two bytes.
fn writes_and_reads<R: Wait>(
    pair: &mut Pair,
    rt: &R,
    alloc: Global,
    round: u32,
) -> Result<bool, Fail> {
    let first = (round % 200) as u8;
    pair.submit(0, &[entry(read(0, 2, 0), 0, 71, 2, 250)])?;
    pair.submit(1, &[entry(write(1, 2, 0), 0, 72, 2, first)])?;
    let read = format!(in alloc; "0.{round} 71 2:{first}:{}", first + 1);
    let has_read = comes(pair, rt, 0, read)?;
    let wrote = format!(in alloc; "1.{round} 72 2:{first}:{}", first + 1);
    let has_written = comes(pair, rt, 1, wrote)?;
    Ok(has_read && has_written)
}

/// Ten thousand of them.
fn writes_and_reads_often<R: Wait>(pair: &mut Pair, rt: &R, alloc: Global) -> Result<bool, Fail> {
    rounds!(10_000u32, number, writes_and_reads(pair, rt, alloc, number))
}

/// The WRITE comes before the READ finds the pipe empty, between that look and its park, or when it lies with the pipe.
#[test]
fn a_write_answers_the_other_clients_read_ten_thousand_times(rt: HostRuntime) -> Result<(), Fail> {
    let mut pair = Pair::new(rt, rt.alloc(), 2, 0, Open)?;
    let went = writes_and_reads_often(&mut pair, &rt, rt.alloc());
    assert!(rt; reports(pair, &rt, went, &[""])?);
    Ok(())
}

/// Two READs of ring 0 and a cancel of the first, whether it is canceled.
fn cancels_the_first<R: Wait>(
    pair: &mut Pair,
    rt: &R,
    alloc: Global,
    round: u32,
) -> Result<bool, Fail> {
    let batch = [
        entry(read(0, 1, 0), 0, 81, 1, 7),
        entry(read(0, 1, 0), 0, 82, 1, 8),
        entry(cancel(81), 0, 83, 0, 0),
    ];
    let req = pair.submit(0, &batch)?;
    let canceled = format!(in alloc; "0.{} 81 -125:7", u64::from(round) * 3);
    let is_canceled = comes(pair, rt, 0, canceled)?;
    let cancel = format!(in alloc; "0.{} 83 0", u64::from(round) * 3 + 2);
    let has_canceled = comes(pair, rt, 0, cancel)?;
    Ok(is_canceled && has_canceled && req.k == u64::from(round) * 3)
}

/// A WRITE of ring 1, whether its byte is the second READ's.
fn serves_the_second<R: Wait>(
    pair: &mut Pair,
    rt: &R,
    alloc: Global,
    round: u32,
) -> Result<bool, Fail> {
    let first = (round % 200) as u8;
    pair.submit(1, &[entry(write(1, 1, 0), 0, 84, 1, first)])?;
    let read = format!(in alloc; "0.{} 82 1:{first}", u64::from(round) * 3 + 1);
    let has_read = comes(pair, rt, 0, read)?;
    pair.wait(rt, 1)?;
    Ok(has_read)
}

/// Both, one after the other.
fn cancels_and_serves<R: Wait>(
    pair: &mut Pair,
    rt: &R,
    alloc: Global,
    round: u32,
) -> Result<bool, Fail> {
    Ok(cancels_the_first(pair, rt, alloc, round)? && serves_the_second(pair, rt, alloc, round)?)
}

/// Ten thousand of them.
fn cancels_and_serves_often<R: Wait>(pair: &mut Pair, rt: &R, alloc: Global) -> Result<bool, Fail> {
    rounds!(
        10_000u32,
        number,
        cancels_and_serves(pair, rt, alloc, number)
    )
}

/// With one worker both READs lie with the pipe when the cancel takes the first. Its number is woken with the second.
#[test]
fn bytes_after_a_cancel_are_the_next_reads_ten_thousand_times(rt: HostRuntime) -> Result<(), Fail> {
    let mut pair = Pair::new(rt, rt.alloc(), 1, 0, Open)?;
    let went = cancels_and_serves_often(&mut pair, &rt, rt.alloc());
    assert!(rt; reports(pair, &rt, went, &[""])?);
    Ok(())
}

/// A READ of each ring at this pipe and a CLOSE of its write end, whether the end of the pipe answers that of ring 1.
fn closes<R: Wait>(pair: &mut Pair, rt: &R, alloc: Global, pipe: u8) -> Result<bool, Fail> {
    pair.submit(0, &[entry(read(i32::from(pipe) * 2, 2, 0), 0, 91, 2, 5)])?;
    pair.submit(1, &[entry(read(i32::from(pipe) * 2, 1, 0), 0, 92, 1, 6)])?;
    pair.submit(0, &[entry(close(i32::from(pipe) * 2 + 1), 0, 93, 0, 0)])?;
    let wanted = format!(in alloc; "1.{pipe} 92 0:6");
    let is_answered = comes(pair, rt, 1, wanted)?;
    pair.wait(rt, 0)?;
    pair.wait(rt, 0)?;
    Ok(is_answered)
}

/// The same at each of 64 pipes.
fn closes_all<R: Wait>(pair: &mut Pair, rt: &R, alloc: Global) -> Result<bool, Fail> {
    rounds!(64u8, number, closes(pair, rt, alloc, number))
}

/// Each READ is answered by the end of its pipe, whether it lies there or comes later. Each runtime has 64 pipes.
#[test]
fn a_close_wakes_each_read_ten_thousand_times(rt: HostRuntime) -> Result<(), Fail> {
    for _runtime in 0..157u32 {
        let mut pair = Pair::new(rt, rt.alloc(), 3, 0, Open)?;
        let went = closes_all(&mut pair, &rt, rt.alloc());
        assert!(rt; reports(pair, &rt, went, &[""])?);
    }
    Ok(())
}

/// A NOP, and then two for which it waits, whether all three can be taken.
fn waits_for_three<R: Wait>(pair: &mut Pair, rt: &R) -> Result<bool, Fail> {
    let first = [entry(nop(), 0, 61, 0, 0)];
    let zero = pair.submit_and_wait(rt, &first, 1)?;
    let second = [entry(nop(), LINK, 62, 0, 0), entry(nop(), 0, 63, 0, 0)];
    let one = pair.submit_and_wait(rt, &second, 3)?;
    let told = pair.take_now(rt, 3)?;
    let has_all = told.as_str() == "0.0 61 0;0.1 62 0;0.2 63 0;";
    Ok(zero == nth(0, 0) && one == nth(0, 1) && has_all)
}

#[test]
fn a_submission_waits_for_so_many_completions(rt: HostRuntime) -> Result<(), Fail> {
    let mut pair = Pair::new(rt, rt.alloc(), 1, 0, Open)?;
    let went = waits_for_three(&mut pair, &rt);
    assert!(rt; reports(pair, &rt, went, &[""])?);
    Ok(())
}
