//! A sleeper of the bell: what its doze and a ringer find, and on a thread of its own.
ghost use Rattle.std.specs.Prelude.{◌≡◌, IfOk};
ghost use Rattle.std.specs.Arc.{arc_value};
ghost use Rattle.bell.specs.BellPasses.{IsRingerOf, IsSleeperOf};

use bell::{Bell, Nap, Ringer, Sleeper};
use std::alloc::Global;
use std::sync::atomic::{AtomicU32, Ordering};
use std::sync::{Arc, Wait};
use std::test::Fail;
use std::thread;

/// In how many turns of the thread that rang the sleeper has to be back.
const TURNS: u32 = 1_000_000;

/// For how many turns it is watched before it is rung.
const WATCHED: u32 = 20_000;

/// Where the sleeper's thread is: it dozed and is about to sleep, it found work, or it is back from its sleep.
const DOZED: u32 = 1;

const FOUND_WORK: u32 = 2;

const BACK: u32 = 3;

/// A new bell of one ring, its ringer and its sleeper.
fn bell_of(alloc: Global) -> Result<(Bell, Ringer, Sleeper), Fail>
    ensures sleeper { IfOk result (λ t. IsSleeperOf t.0 t.2) }
    ensures ringer { IfOk result (λ t. IsRingerOf t.0 t.1 × (t.1.tail ≡ 0)) }
{
    let (bell, mut ringers, sleeper) = Bell::new(alloc, 1)?;
    match ringers.pop() {
        Some(ringer) => Ok((bell, ringer, sleeper)),
        None => Err(Fail::new("the bell has no ringer")),
    }
}

#[test]
fn a_tail_after_the_doze_owes_a_wake(rt: HostRuntime) -> Result<(), Fail> {
    let (bell, mut ringer, mut sleeper) = bell_of(rt.alloc())?;
    bell.collect(&mut sleeper);
    let nap = bell.doze(&mut sleeper);
    let wake = bell.publish(&mut ringer, 1);
    let is_owed = wake.is_owed();
    bell.ring(wake);
    assert_eq!(rt; nap, Nap::Dozed);
    assert!(rt; is_owed);
    Ok(())
}

#[test]
fn a_tail_before_the_doze_is_work(rt: HostRuntime) -> Result<(), Fail> {
    let (bell, mut ringer, mut sleeper) = bell_of(rt.alloc())?;
    bell.collect(&mut sleeper);
    let wake = bell.publish(&mut ringer, 1);
    let is_owed = wake.is_owed();
    bell.ring(wake);
    assert!(rt; !is_owed);
    assert_eq!(rt; bell.doze(&mut sleeper), Nap::Work);
    Ok(())
}

/// What the sleeper's thread does: it dozes, sleeps, and tells where it is.
fn doze_and_sleep<R: Wait>(rt: &R, bell: &Bell, sleeper: &mut Sleeper, place: &AtomicU32)
    requires own { IsSleeperOf bell.now sleeper.old }
{
    bell.collect(sleeper);
    let nap = bell.doze(sleeper);
    let here = if nap == Nap::Dozed { DOZED } else { FOUND_WORK };
    place.store(here, Ordering::SeqCst);
    bell.sleep(rt, sleeper);
    place.store(BACK, Ordering::SeqCst);
}

/// Whether the sleeper's thread comes to a place within this many turns of this one.
fn comes_to(place: &AtomicU32, wanted: u32, turns: u32) -> bool {
    for _turn in 0..turns {
        if place.load(Ordering::SeqCst) == wanted {
            return true;
        }
        thread::yield_now();
    }
    false
}

#[test]
fn a_sleeper_sleeps_until_it_is_rung(rt: HostRuntime) -> Result<(), Fail> {
    let alloc = rt.alloc();
    let (bell, mut ringer, mut sleeper) = bell_of(alloc)?;
    let bell = Arc::new(alloc, bell)?;
    let theirs = Arc::try_clone(&bell)?;
    let place = Arc::new(alloc, AtomicU32::new(0))?;
    let told = Arc::try_clone(&place)?;
    let Ok(thread) = thread::spawn(
        &rt,
        move || -> ()
            requires own { IsSleeperOf (arc_value theirs) sleeper }
        {
            doze_and_sleep(&rt, &theirs, &mut sleeper, &told);
        },
    ) else {
        return Err(Fail::new("there is no thread"));
    };
    let has_dozed = comes_to(&place, DOZED, TURNS);
    let is_early = comes_to(&place, BACK, WATCHED);
    let wake = bell.publish(&mut ringer, 1);
    let is_owed = wake.is_owed();
    bell.ring(wake);
    let is_back = comes_to(&place, BACK, TURNS);
    assert!(rt; !is_early);
    assert!(rt; has_dozed);
    assert!(rt; is_owed);
    assert!(rt; is_back);
    thread.join(&rt);
    Ok(())
}
