//! Turnstiles with two requests.
use controls::{Clock, Hold, Holds, NoClock, Open, Point, Turnstile};
use history::Req;
use std::sync::atomic::{AtomicU64, Ordering};
use std::test::Fail;
use std::thread;

fn nth(k: u64) -> Req {
    Req { ring: 0, k }
}

/// Goes through the turnstile, and says which turn it was.
fn go<G: Turnstile>(turnstile: &G, at: Point, r: Req, turns: &AtomicU64) -> u64 {
    turnstile.pass(at, r);
    turns.fetch_add(1, Ordering::SeqCst)
}

#[test]
fn the_held_one_comes_last(rt: HostRuntime) -> Result<(), Fail> {
    let mut holds = Vec::new(rt.alloc());
    holds.push(Hold::new((Point::Run, nth(0)), (Point::Post, nth(1))))?;
    let turnstile = Holds { holds };
    let turns = AtomicU64::new(0);
    let shared = &turnstile;
    let counter = &turns;
    let (held, other) = thread::join(
        &rt,
        || go(shared, Point::Run, nth(0), counter),
        || {
            go(shared, Point::Begin, nth(1), counter);
            shared.pass(Point::Post, nth(1));
        },
    );
    let _ = other;
    assert_eq!(rt; held, 1);
    Ok(())
}

#[test]
fn an_open_turnstile_and_no_clock(rt: HostRuntime) -> Result<(), Fail> {
    Open.pass(Point::Park, nth(0));
    let mut clock = NoClock;
    assert_eq!(rt; clock.ask(), None);
    assert_eq!(rt; clock.advance(7, None), None);
    Ok(())
}
