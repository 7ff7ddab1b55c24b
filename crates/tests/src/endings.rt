//! Runtimes on real threads that are ended while their threads sleep, or at rest.
use crate::pair::Pair;
use crate::threads::{LINK, entry, reports};
use controls::Open;
use prep::{nop, read, write};
use std::alloc::Global;
use std::sync::Wait;
use std::test::Fail;
use std::thread;
use std::thread::Threads;
use std::time::{Clock, Duration};

/// Runtimes with this many workers, each ended while its threads sleep, whether their reports have no line.
fn ends_asleep<R: Threads + Wait + Clock + Copy + Send + 'static>(
    rt: R,
    alloc: Global,
    workers: u32,
) -> Result<bool, Fail> {
    for _runtime in 0..2_500u32 {
        let pair = Pair::new(rt, alloc, workers, 0, Open)?;
        thread::sleep(&rt, Duration::from_micros(500));
        if !reports(pair, &rt, Ok(true), &[""])? {
            return Ok(false);
        }
    }
    Ok(true)
}

#[test]
fn a_runtime_of_one_worker_is_ended_while_it_sleeps(rt: HostRuntime) -> Result<(), Fail> {
    assert!(rt; ends_asleep(rt, rt.alloc(), 1)?);
    Ok(())
}

#[test]
fn a_runtime_of_two_workers_is_ended_while_all_sleep(rt: HostRuntime) -> Result<(), Fail> {
    assert!(rt; ends_asleep(rt, rt.alloc(), 2)?);
    Ok(())
}

#[test]
fn a_runtime_of_three_workers_is_ended_while_all_sleep(rt: HostRuntime) -> Result<(), Fail> {
    assert!(rt; ends_asleep(rt, rt.alloc(), 3)?);
    Ok(())
}

#[test]
fn a_runtime_of_eight_workers_is_ended_while_all_sleep(rt: HostRuntime) -> Result<(), Fail> {
    assert!(rt; ends_asleep(rt, rt.alloc(), 8)?);
    Ok(())
}

/// What the end at rest reports of two NOPs and a WRITE that are linked, of a READ of that pipe, and of one of an empty pipe.
const RESTED: &str = "0.0 0 false;0.1 0 false;0.2 3 false;1.0 3 false;1.1 -125 true;";

/// Two READs of ring 1, and of ring 0 a chain of two NOPs and a WRITE.
fn submits_a_chain(pair: &mut Pair) -> Result<(), Fail> {
    let reads = [
        entry(read(0, 5, 0), 0, 61, 5, 60),
        entry(read(2, 5, 0), 0, 62, 5, 0),
    ];
    pair.submit(1, &reads)?;
    let chain = [
        entry(nop(), LINK, 63, 0, 0),
        entry(nop(), LINK, 64, 0, 0),
        entry(write(1, 3, 0), 0, 65, 3, 7),
    ];
    pair.submit(0, &chain)?;
    Ok(())
}

/// A runtime with this many workers that is to rest as soon as all is submitted, whether all but the READ of an empty pipe is answered.
fn rests<R: Threads + Wait + Copy + Send + 'static>(
    rt: R,
    alloc: Global,
    workers: u32,
) -> Result<bool, Fail> {
    let mut pair = Pair::new(rt, alloc, workers, 3, Open)?;
    let went = submits_a_chain(&mut pair);
    let report = pair.end_at_rest(&rt);
    went?;
    match report {
        Ok(report) => Ok(report.as_str() == RESTED),
        Err(why) => Err(Fail::new(why)),
    }
}

/// A hundred such runtimes with 1, 2 and 8 workers each, whether each was as wanted.
fn rests_often<R: Threads + Wait + Copy + Send + 'static>(
    rt: R,
    alloc: Global,
) -> Result<bool, Fail> {
    for _runtime in 0..100u32 {
        if !rests(rt, alloc, 1)? || !rests(rt, alloc, 2)? || !rests(rt, alloc, 8)? {
            return Ok(false);
        }
    }
    Ok(true)
}

#[test]
fn a_runtime_at_rest_has_answered_what_it_can(rt: HostRuntime) -> Result<(), Fail> {
    assert!(rt; rests_often(rt, rt.alloc())?);
    Ok(())
}
