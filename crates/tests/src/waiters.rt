//! Waiters and notifiers on threads of their own: what no clause says is that a waiter comes back.
ghost use Rattle.std.specs.Prelude.{◌≡◌, ◌<◌, false, IfOk};
ghost use Rattle.std.specs.Arc.{arc_value};
ghost use Rattle.event_count.specs.Passes.{IsNotifierOf, IsWaiterOf};

use event_count::{EventCount, EventCountError, Notifier, Waiter};
use std::alloc::Global;
use std::sync::atomic::{AtomicU32, Ordering};
use std::sync::{Arc, Wait};
use std::test::Fail;
use std::thread;
use std::thread::{JoinHandle, Threads};

/// How often two threads meet.
const MEETINGS: u32 = 10_000;

/// In how many turns of this thread another has to come to its place.
const TURNS: u32 = 1_000_000;

/// For how many turns the waiters are watched before they get notice.
const WATCHED: u32 = 20_000;

/// A new event count, one of its waiters and one of its notifiers.
fn event_count_of(alloc: Global) -> Result<(EventCount, Waiter, Notifier), Fail>
    ensures waiter { IfOk result (λ t. IsWaiterOf t.0 t.1 × (t.1.entered ≡ false)) }
    ensures notifier { IfOk result (λ t. IsNotifierOf t.0 t.2) }
{
    let (event_count, mut waiters, mut notifiers) = EventCount::new(alloc, 1, 1)?;
    match (waiters.pop(), notifiers.pop()) {
        (Some(waiter), Some(notifier)) => Ok((event_count, waiter, notifier)),
        _ => Err(Fail::new("the event count lacks a pass")),
    }
}

#[test]
fn a_notifier_finds_who_has_entered(rt: HostRuntime) -> Result<(), Fail> {
    let (event_count, mut waiter, mut notifier) = event_count_of(rt.alloc())?;
    assert!(rt; !event_count.notify(&mut notifier));
    event_count.prepare(&mut waiter);
    assert!(rt; waiter.has_entered());
    assert!(rt; event_count.notify(&mut notifier));
    event_count.cancel(&mut waiter);
    assert!(rt; !waiter.has_entered());
    assert!(rt; !event_count.notify_all(&mut notifier));
    Ok(())
}

#[test]
fn a_notice_after_prepare_ends_the_wait(rt: HostRuntime) -> Result<(), Fail> {
    let (event_count, mut waiter, mut notifier) = event_count_of(rt.alloc())?;
    for _meeting in 0..MEETINGS {
        event_count.prepare(&mut waiter);
        assert!(rt; event_count.notify(&mut notifier));
        event_count.wait(&rt, &mut waiter);
    }
    Ok(())
}

#[test]
fn more_than_1024_waiters_are_refused(rt: HostRuntime) -> Result<(), Fail> {
    let (_event_count, waiters, notifiers) = EventCount::new(rt.alloc(), 1024, 0)?;
    assert_eq!(rt; waiters.len(), 1024);
    assert_eq!(rt; notifiers.len(), 0);
    match EventCount::new(rt.alloc(), 1, 1025) {
        Err(error) => assert_eq!(rt; error, EventCountError::BadShape),
        Ok(_) => assert!(rt; false),
    }
    Ok(())
}

/// Looks once whether the flag has come so far, and waits if not.
fn look_or_wait<R: Wait>(
    rt: &R,
    event_count: &EventCount,
    waiter: &mut Waiter,
    flag: &AtomicU32,
    wanted: u32,
) -> bool
    requires own { IsWaiterOf event_count.now waiter.old × (waiter.old.entered ≡ false) }
    ensures own { IsWaiterOf event_count.now waiter.new × (waiter.new.entered ≡ false) }
{
    event_count.prepare(waiter);
    let has_come = flag.load(Ordering::SeqCst) >= wanted;
    if has_come {
        event_count.cancel(waiter);
    } else {
        event_count.wait(rt, waiter);
    }
    has_come
}

/// Waits until the flag has come so far.
fn wait_for<R: Wait>(
    rt: &R,
    event_count: &EventCount,
    waiter: &mut Waiter,
    flag: &AtomicU32,
    wanted: u32,
)
    requires own { IsWaiterOf event_count.now waiter.old × (waiter.old.entered ≡ false) }
    ensures own { IsWaiterOf event_count.now waiter.new × (waiter.new.entered ≡ false) }
{
    for _ in rt.forever() {
        if look_or_wait(rt, event_count, waiter, flag, wanted) {
            return;
        }
    }
    unreachable!()
}

/// One of two that meet: it sets its own flag, gives notice, and waits for the other's.
fn meet<R: Wait>(
    rt: &R,
    event_count: &EventCount,
    waiter: &mut Waiter,
    notifier: &mut Notifier,
    mine: &AtomicU32,
    theirs: &AtomicU32,
)
    requires waiter { IsWaiterOf event_count.now waiter.old × (waiter.old.entered ≡ false) }
    requires notifier { IsNotifierOf event_count.now notifier.old }
{
    for meeting in 0..MEETINGS {
        mine.store(meeting + 1, Ordering::SeqCst);
        event_count.notify(notifier);
        wait_for(rt, event_count, waiter, theirs, meeting + 1);
    }
}

/// A new event count with two waiters and two notifiers.
fn pair_of(alloc: Global) -> Result<(EventCount, (Waiter, Notifier), (Waiter, Notifier)), Fail>
    ensures one { IfOk result (λ t. IsWaiterOf t.0 t.1.0 × (t.1.0.entered ≡ false) × IsNotifierOf t.0 t.1.1) }
    ensures other { IfOk result (λ t. IsWaiterOf t.0 t.2.0 × (t.2.0.entered ≡ false) × IsNotifierOf t.0 t.2.1) }
{
    let (event_count, mut waiters, mut notifiers) = EventCount::new(alloc, 2, 2)?;
    match (
        waiters.pop(),
        notifiers.pop(),
        waiters.pop(),
        notifiers.pop(),
    ) {
        (Some(waiter), Some(notifier), Some(their_waiter), Some(their_notifier)) => Ok((
            event_count,
            (waiter, notifier),
            (their_waiter, their_notifier),
        )),
        _ => Err(Fail::new("the event count lacks a pass")),
    }
}

#[test]
fn a_notice_between_the_last_look_and_the_sleep_is_not_lost(rt: HostRuntime) -> Result<(), Fail> {
    let alloc = rt.alloc();
    let (event_count, (mut waiter, mut notifier), (mut their_waiter, mut their_notifier)) = pair_of(
        alloc,
    )?;
    let event_count = Arc::new(alloc, event_count)?;
    let theirs = Arc::try_clone(&event_count)?;
    let one = Arc::new(alloc, AtomicU32::new(0))?;
    let other = Arc::new(alloc, AtomicU32::new(0))?;
    let (their_one, their_other) = (Arc::try_clone(&one)?, Arc::try_clone(&other)?);
    let Ok(thread) = thread::spawn(
        &rt,
        move || -> ()
            requires waiter { IsWaiterOf (arc_value theirs) their_waiter × (their_waiter.entered ≡ false) }
            requires notifier { IsNotifierOf (arc_value theirs) their_notifier }
        {
            meet(
                &rt,
                &theirs,
                &mut their_waiter,
                &mut their_notifier,
                &their_other,
                &their_one,
            );
        },
    ) else {
        return Err(Fail::new("there is no thread"));
    };
    meet(&rt, &event_count, &mut waiter, &mut notifier, &one, &other);
    thread.join(&rt);
    assert_eq!(rt; other.load(Ordering::SeqCst), MEETINGS);
    Ok(())
}

/// Whether the other threads come so far within this many turns of this one.
fn comes_to(place: &AtomicU32, wanted: u32, turns: u32) -> bool {
    for _turn in 0..turns {
        if place.load(Ordering::SeqCst) == wanted {
            return true;
        }
        thread::yield_now();
    }
    false
}

/// Enters, tells so, waits, and tells that it is back.
fn sleep_once<R: Wait>(
    rt: &R,
    event_count: &EventCount,
    waiter: &mut Waiter,
    asleep: &AtomicU32,
    back: &AtomicU32,
)
    requires own { IsWaiterOf event_count.now waiter.old × (waiter.old.entered ≡ false) }
{
    event_count.prepare(waiter);
    asleep.fetch_add(1, Ordering::SeqCst);
    event_count.wait(rt, waiter);
    back.fetch_add(1, Ordering::SeqCst);
}

/// A thread that sleeps once.
fn sleeper<R: Threads + Wait + Copy + Send + 'static>(
    rt: R,
    event_count: &Arc<EventCount>,
    mut waiter: Waiter,
    asleep: &Arc<AtomicU32>,
    back: &Arc<AtomicU32>,
) -> Result<JoinHandle<()>, Fail>
    requires own { IsWaiterOf (arc_value event_count.now) waiter × (waiter.entered ≡ false) }
{
    let theirs = Arc::try_clone(event_count)?;
    let (asleep, back) = (Arc::try_clone(asleep)?, Arc::try_clone(back)?);
    match thread::spawn(
        &rt,
        move || -> ()
            requires own { IsWaiterOf (arc_value theirs) waiter × (waiter.entered ≡ false) }
        {
            sleep_once(&rt, &theirs, &mut waiter, &asleep, &back);
        },
    ) {
        Ok(thread) => Ok(thread),
        Err(_) => Err(Fail::new("there is no thread")),
    }
}

#[test]
fn three_who_sleep_are_back_after_one_notice_and_not_before(rt: HostRuntime) -> Result<(), Fail> {
    let alloc = rt.alloc();
    let (event_count, mut waiters, mut notifiers) = EventCount::new(alloc, 3, 1)?;
    let event_count = Arc::new(alloc, event_count)?;
    let asleep = Arc::new(alloc, AtomicU32::new(0))?;
    let back = Arc::new(alloc, AtomicU32::new(0))?;
    let (Some(first), Some(second), Some(third), Some(mut notifier)) = (
        waiters.pop(),
        waiters.pop(),
        waiters.pop(),
        notifiers.pop(),
    ) else {
        return Err(Fail::new("the event count lacks a pass"));
    };
    let first = sleeper(rt, &event_count, first, &asleep, &back)?;
    let second = sleeper(rt, &event_count, second, &asleep, &back)?;
    let third = sleeper(rt, &event_count, third, &asleep, &back)?;
    let have_entered = comes_to(&asleep, 3, TURNS);
    let is_early = comes_to(&back, 1, WATCHED);
    let has_found = event_count.notify_all(&mut notifier);
    let are_back = comes_to(&back, 3, TURNS);
    assert!(rt; have_entered);
    assert!(rt; !is_early);
    assert!(rt; has_found);
    assert!(rt; are_back);
    first.join(&rt);
    second.join(&rt);
    third.join(&rt);
    Ok(())
}
