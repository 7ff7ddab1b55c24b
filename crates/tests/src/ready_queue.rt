//! A queue of four places: in one thread, and between two that put and two that take.
ghost use Rattle.std.specs.Prelude.{All, IfOk};
ghost use Rattle.ready.specs.Ready.{IsQueuePass};

use history::Req;
use ready::span::MOST;
use ready::{GatherError, ReadyPass, ReadyQueue, Span};
use std::alloc::{AllocError, Global};
use std::sync::Wait;
use std::test::Fail;
use std::thread;
use std::thread::Threads;

/// How many requests a hand puts at most.
const COUNT: u64 = 1000;

/// How often a hand tries.
const TRIES: u32 = 20_000;

fn nth(k: u64) -> Req {
    Req { ring: 0, k }
}

#[test]
fn a_full_queue_gives_the_number_back(rt: HostRuntime) -> Result<(), Fail> {
    let (queue, mut passes) = ReadyQueue::new(rt.alloc(), 4, 1)?;
    let Some(mut pass) = passes.pop() else {
        assert!(rt; false);
        return Ok(());
    };
    assert_eq!(rt; queue.next(&rt, &mut pass), None);
    assert_eq!(rt; queue.put(&rt, &mut pass, nth(0)), Ok(()));
    assert_eq!(rt; queue.put(&rt, &mut pass, nth(1)), Ok(()));
    assert_eq!(rt; queue.put(&rt, &mut pass, nth(2)), Ok(()));
    assert_eq!(rt; queue.put(&rt, &mut pass, nth(3)), Ok(()));
    assert_eq!(rt; queue.put(&rt, &mut pass, nth(4)), Err(nth(4)));
    assert_eq!(rt; queue.next(&rt, &mut pass), Some(nth(0)));
    assert_eq!(rt; queue.put(&rt, &mut pass, nth(4)), Ok(()));
    assert_eq!(rt; queue.next(&rt, &mut pass), Some(nth(1)));
    let Err(refused) = queue.gather(&rt, rt.alloc(), Vec::new(rt.alloc())) else {
        assert!(rt; false);
        return Ok(());
    };
    assert_eq!(rt; refused.error, GatherError::Missing);
    let mut passes = refused.passes;
    passes.push(pass)?;
    match refused.queue.gather(&rt, rt.alloc(), passes) {
        Ok(left) => assert_eq!(rt; left.as_slice(), [nth(2), nth(3), nth(4)].as_slice()),
        Err(_) => assert!(rt; false),
    }
    Ok(())
}

/// A span of this many requests of ring 0, from number 7 on.
fn span_of(count: u64) -> Span {
    let mut span = Span::of(nth(7));
    for n in 1..count {
        span.extend(nth(n.saturating_add(7)), MOST);
    }
    span
}

/// Only the next request of the same ring joins a span, and only where there is room.
#[test]
fn a_span_takes_in_the_next_request_alone(rt: HostRuntime) -> Result<(), Fail> {
    let mut span = span_of(2);
    assert!(rt; !span.extend(nth(8), MOST));
    assert!(rt; !span.extend(nth(10), MOST));
    assert!(rt; !span.extend(nth(6), MOST));
    assert!(rt; !span.extend(Req { ring: 1, k: 9 }, MOST));
    assert!(rt; !span.extend(nth(9), 2));
    assert!(rt; span.extend(nth(9), 3));
    let mut most = span_of(u64::from(MOST) - 1);
    assert!(rt; most.extend(nth(u64::from(MOST) + 6), MOST));
    assert!(rt; !most.extend(nth(u64::from(MOST) + 7), MOST));
    Ok(())
}

/// A span takes one place and comes out one by one. What its pass hasn't given yet is among what is left.
#[test]
fn a_span_takes_one_place(rt: HostRuntime) -> Result<(), Fail> {
    let (queue, mut passes) = ReadyQueue::new(rt.alloc(), 2, 1)?;
    let Some(mut pass) = passes.pop() else {
        assert!(rt; false);
        return Ok(());
    };
    assert!(rt; queue.put_span(&rt, &mut pass, span_of(3)).is_ok());
    assert_eq!(rt; queue.put(&rt, &mut pass, nth(1)), Ok(()));
    assert!(rt; queue.put_span(&rt, &mut pass, span_of(2)).is_err());
    assert_eq!(rt; queue.next(&rt, &mut pass), Some(nth(7)));
    assert!(rt; queue.put_span(&rt, &mut pass, span_of(2)).is_ok());
    assert_eq!(rt; queue.next(&rt, &mut pass), Some(nth(8)));
    passes.push(pass)?;
    match queue.gather(&rt, rt.alloc(), passes) {
        Ok(left) => assert_eq!(rt;
            left.as_slice(),
            [nth(9), nth(1), nth(7), nth(8)].as_slice()
        ),
        Err(_) => assert!(rt; false),
    }
    Ok(())
}

/// A pass at work: it puts the requests of a ring, or takes what it finds.
#[derive(Drop)]
struct Hand {
    pass: ReadyPass,
    ring: Option<u16>,
    put: u64,
    found: Vec<Req>,
}

/// One try.
fn turn<R: Wait>(rt: &R, queue: &ReadyQueue, hand: &mut Hand)
    requires { IsQueuePass queue.now hand.old.pass }
    ensures { IsQueuePass queue.now hand.new.pass }
{
    if let Some(ring) = hand.ring {
        let req = Req { ring, k: hand.put };
        if hand.put < COUNT && queue.put(rt, &mut hand.pass, req).is_ok() {
            hand.put += 1;
        }
    } else if hand.found.reserve(1).is_ok() {
        if let Some(req) = queue.next(rt, &mut hand.pass) {
            hand.found.push_reserved(req);
        }
    }
}

/// All tries of a hand.
fn work<R: Wait>(rt: &R, queue: &ReadyQueue, mut hand: Hand) -> Hand
    requires { IsQueuePass queue.now hand.pass }
    ensures { IsQueuePass queue.now result.pass }
{
    for _n in 0..TRIES {
        turn(rt, queue, &mut hand);
    }
    hand
}

/// All hands, each in a thread of its own.
fn work_all<R: Threads + Wait + Sync>(
    rt: &R,
    queue: &ReadyQueue,
    hands: Vec<Hand>,
) -> Result<Vec<Hand>, AllocError>
    requires { All (λ h. IsQueuePass queue.now h.pass) hands.items }
    ensures { IfOk result (λ v. All (λ h. IsQueuePass queue.now h.pass) v.items) }
{
    thread::map_vec(rt, hands, &|hand| work(rt, queue, hand))
}

/// A hand for each pass: the first and the third put.
fn hands_of(
    alloc: Global,
    queue: &ReadyQueue,
    mut passes: Vec<ReadyPass>,
) -> Result<Vec<Hand>, AllocError>
    requires { All (λ p. IsQueuePass queue.now p) passes.items }
    ensures { IfOk result (λ v. All (λ h. IsQueuePass queue.now h.pass) v.items) }
{
    let _ = queue;
    let mut hands = Vec::new(alloc);
    let mut ring = Some(0);
    while let Some(pass) = passes.pop() {
        let hand = Hand {
            pass,
            ring,
            put: 0,
            found: Vec::new(alloc),
        };
        hands.push(hand)?;
        ring = match ring {
            Some(_) => None,
            None => Some(1),
        };
    }
    Ok(hands)
}

/// Counts what was found, and what was put, at the places of the requests.
fn count_up(times: &mut Vec<u64>, found: &[Req]) {
    for req in found {
        let place = (u64::from(req.ring) * COUNT).saturating_add(req.k) as usize;
        if let Some(count) = times.get_mut(place) {
            *count = count.saturating_add(1);
        }
    }
}

/// The passes of all hands. What the hands put and found is counted.
fn count_all(
    alloc: Global,
    queue: &ReadyQueue,
    mut hands: Vec<Hand>,
    went: &mut Vec<u64>,
    came: &mut Vec<u64>,
) -> Result<Vec<ReadyPass>, AllocError>
    requires { All (λ h. IsQueuePass queue.now h.pass) hands.items }
    ensures { IfOk result (λ v. All (λ p. IsQueuePass queue.now p) v.items) }
{
    let _ = queue;
    let mut passes = Vec::new(alloc);
    while let Some(hand) = hands.pop() {
        let Hand {
            pass,
            ring,
            put,
            found,
        } = hand;
        count_put(went, ring.unwrap_or(0), put);
        count_up(came, found.as_slice());
        passes.push(pass)?;
    }
    Ok(passes)
}

/// Counts the requests that a hand put.
fn count_put(times: &mut Vec<u64>, ring: u16, put: u64) {
    for k in 0..put {
        count_up(times, [Req { ring, k }].as_slice());
    }
}

#[test]
fn each_number_comes_out_once(rt: HostRuntime) -> Result<(), Fail> {
    let alloc = rt.alloc();
    let (queue, passes) = ReadyQueue::new(alloc, 4, 4)?;
    let hands = hands_of(alloc, &queue, passes)?;
    let hands = work_all(&rt, &queue, hands)?;
    let mut came = Vec::from_elem(alloc, 0u64, 2 * COUNT as usize)?;
    let mut went = Vec::from_elem(alloc, 0u64, 2 * COUNT as usize)?;
    let passes = count_all(alloc, &queue, hands, &mut went, &mut came)?;
    match queue.gather(&rt, alloc, passes) {
        Ok(left) => count_up(&mut came, left.as_slice()),
        Err(_) => assert!(rt; false),
    }
    assert_eq!(rt; came, went);
    Ok(())
}
