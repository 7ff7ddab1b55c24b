//! How a worker that has nothing to do sleeps, and a client that waits. Whoever sleeps has read the count of its event count, and has
//! looked once more since then: a notice of what came after the look changes the count, and no thread sleeps while it has changed.
ghost use Rattle.std.specs.Prelude.{◌≡◌, ◌⊎◌, ◌≤◌, ◌<◌, ◌+◌, ◌++◌, false, List, length, IfOk, IfErr};
ghost use Rattle.board.specs.ShapeLimits.{widest};
ghost use Rattle.event_count.specs.Passes.{HasEntered, HasLeft, HasNoticed, HasWoken, IsNotifierOf, IsWaiterOf};
ghost use Rattle.std.specs.Arc.{arc_value};
ghost use Rattle.history.specs.declared.req.Req.{Req};
ghost use Rattle.runtime.specs.{IsServing, FoundNone, IsWorkTurn};

use crate::held::Held;
use crate::locks::PostLocks;
use crate::serving::{WorkDesk, work_turn};
use crate::shared::Context;
use crate::turn::Turn;
use board::Worker;
use controls::Turnstile;
use event_count::{EventCount, Notifier, Waiter};
use outbox::Outbox;
use std::marker::Model;
use std::sync::atomic::Ordering;
use std::sync::{Arc, Wait};
use std::time::Duration;

/// One who may sleep until there is notice. Contracts see its pass of the event count.
#[derive(Drop)]
pub(crate) struct Listener {
    count: Arc<EventCount>,
    waiter: Waiter,
}

impl Model for Listener {
    ghost use Rattle.std.specs.Prelude.{◌≡◌, false};
    ghost use Rattle.std.specs.Arc.{arc_value};
    ghost use Rattle.event_count.specs.Passes.{Waiting, IsWaiterOf};

    ghost Value = { Waiting };

    ghost view = { λ l. l.waiter };

    ghost invariant = { λ l. IsWaiterOf (arc_value l.count) l.waiter × (l.waiter.entered ≡ false) };
}

/// A listener that has read the count.
#[derive(Drop)]
pub(crate) struct Entered {
    count: Arc<EventCount>,
    waiter: Waiter,
}

impl Model for Entered {
    ghost use Rattle.std.specs.Prelude.{◌≡◌, true};
    ghost use Rattle.std.specs.Arc.{arc_value};
    ghost use Rattle.event_count.specs.Passes.{Waiting, IsWaiterOf};

    ghost Value = { Waiting };

    ghost view = { λ l. l.waiter };

    ghost invariant = { λ l. IsWaiterOf (arc_value l.count) l.waiter × (l.waiter.entered ≡ true) };
}

/// A listener that has looked since it read the count, and found nothing. It alone may sleep.
#[derive(Drop)]
struct Drowsy {
    entered: Entered,
}

/// One who gives notice. Contracts see its pass of the event count.
#[derive(Drop)]
pub(crate) struct Caller {
    count: Arc<EventCount>,
    notifier: Notifier,
}

impl Model for Caller {
    ghost use Rattle.std.specs.Arc.{arc_value};
    ghost use Rattle.event_count.specs.Passes.{Notifying, IsNotifierOf};

    ghost Value = { Notifying };

    ghost view = { λ c. c.notifier };

    ghost invariant = { λ c. IsNotifierOf (arc_value c.count) c.notifier };
}

impl Listener {
    /// The listener of a pass that has not entered.
    pub(crate) fn new(count: Arc<EventCount>, waiter: Waiter) -> Listener
        requires own { IsWaiterOf (arc_value count) waiter }
        requires outside { waiter.entered ≡ false }
        ensures { result ≡ waiter }
    {
        Listener { count, waiter }
    }

    /// Enters, and reads the count.
    pub(crate) fn enter(self) -> Entered
        ensures { HasEntered self result }
    {
        let Listener { count, mut waiter } = self;
        count.prepare(&mut waiter);
        Entered { count, waiter }
    }
}

impl Entered {
    /// Leaves, without a sleep.
    pub(crate) fn leave(self) -> Listener
        ensures { HasLeft self result }
    {
        let Entered { count, mut waiter } = self;
        count.cancel(&mut waiter);
        Listener { count, waiter }
    }
}

impl Drowsy {
    /// Sleeps until the count is another one, and leaves.
    fn sleep<R: Wait>(self, rt: &R) -> Listener
        ensures { HasWoken self.entered result }
    {
        let Entered { count, mut waiter } = self.entered;
        count.wait(rt, &mut waiter);
        Listener { count, waiter }
    }

    /// The same, for no longer than about `most`.
    fn sleep_at_most<R: Wait>(self, rt: &R, most: Duration) -> Listener
        ensures { HasWoken self.entered result ⊎ HasLeft self.entered result }
    {
        let Entered { count, mut waiter } = self.entered;
        count.wait_timeout(rt, &mut waiter, most);
        Listener { count, waiter }
    }
}

impl Caller {
    /// Who gives notice by this pass.
    pub(crate) fn new(count: Arc<EventCount>, notifier: Notifier) -> Caller
        requires { IsNotifierOf (arc_value count) notifier }
        ensures { result ≡ notifier }
    {
        Caller { count, notifier }
    }

    /// Wakes one listener, where one may sleep. Whether one may.
    pub(crate) fn call(&mut self) -> bool
        ensures { HasNoticed self.old self.new result }
    {
        self.count.notify(&mut self.notifier)
    }

    /// Wakes all listeners, where one may sleep. Whether one may.
    pub(crate) fn call_all(&mut self) -> bool
        ensures { HasNoticed self.old self.new result }
    {
        self.count.notify_all(&mut self.notifier)
    }
}

/// One more turn of a worker that has read the count. Where it found nothing to do the worker may sleep.
fn look_again<R: Wait, G: Turnstile>(
    context: Context<'_, R, G>,
    desk: &mut WorkDesk,
    worker: Worker,
    outbox: &mut Outbox,
    entered: Entered,
) -> (Worker, Result<Drowsy, Listener>)
    requires desk { IsServing context.shared.now desk.old worker }
    requires places { length outbox.old.items + widest context.shared.now.board.layout.cells ≤ outbox.old.places }
    ensures desk { IsServing context.entry.shared.now desk.new result.0 }
    ensures turned { IsWorkTurn context.entry.shared.now.board desk.old desk.new worker result.0 outbox.old outbox.new }
    ensures idle { IfOk result.1 (λ d. (d.entered ≡ entered) × (FoundNone desk.old desk.new × (outbox.new ≡ outbox.old) × (result.0 ≡ worker))) }
    ensures left { IfErr result.1 (λ l. HasLeft entered l) }
    ensures places { outbox.new.places ≡ outbox.old.places }
    ensures share { desk.new.ready.share ≡ desk.old.ready.share }
{
    let (worker, turn) = work_turn(context.route(), desk, worker, context.turnstile, outbox);
    match turn {
        Turn::Idle => (worker, Ok(Drowsy { entered })),
        Turn::Still | Turn::Moved => (worker, Err(entered.leave())),
    }
}

/// A worker that has nothing to do sleeps until there is notice, unless one more turn finds something, or the workers are told to end.
pub(crate) fn doze<R: Wait, G: Turnstile>(
    context: Context<'_, R, G>,
    desk: &mut WorkDesk,
    worker: Worker,
    outbox: &mut Outbox,
    listener: Listener,
) -> (Worker, Listener)
    requires desk { IsServing context.shared.now desk.old worker }
    requires places { length outbox.old.items + widest context.shared.now.board.layout.cells ≤ outbox.old.places }
    ensures desk { IsServing context.entry.shared.now desk.new result.0 }
    ensures turned { IsWorkTurn context.entry.shared.now.board desk.old desk.new worker result.0 outbox.old outbox.new }
    ensures places { outbox.new.places ≡ outbox.old.places }
    ensures share { desk.new.ready.share ≡ desk.old.ready.share }
{
    let entered = listener.enter();
    let (worker, looked) = look_again(context, desk, worker, outbox, entered);
    let is_over = &context.shared.is_over;
    match looked {
        Err(listener) => (worker, listener),
        Ok(drowsy) if is_over.load(Ordering::SeqCst) => (worker, drowsy.entered.leave()),
        Ok(drowsy) => (worker, drowsy.sleep(context.rt)),
    }
}

/// Takes posts out of the completion ring, for a client that has read the count. Where it then holds fewer than `count` it may sleep.
fn look_for<R: Wait>(
    rt: &R,
    posts: &PostLocks,
    held: &mut Held,
    count: usize,
    entered: Entered,
) -> Result<Drowsy, Listener>
    requires { count ≤ held.old.places }
    ensures held { (held.new.ring ≡ held.old.ring) × (held.new.places ≡ held.old.places) }
    ensures found { (found : List Req) × (held.new.posts ≡ held.old.posts ++ found) }
    ensures few { IfOk result (λ d. (d.entered ≡ entered) × (length held.new.posts < count)) }
    ensures enough { IfErr result (λ l. HasLeft entered l × (count ≤ length held.new.posts)) }
{
    held.gather_all(rt, posts);
    if held.len() < count {
        Ok(Drowsy { entered })
    } else {
        Err(entered.leave())
    }
}

/// Takes posts out of the completion ring until the client holds that many, and sleeps as long as there are too few.
pub(crate) fn await_posts<R: Wait>(
    rt: &R,
    posts: &PostLocks,
    held: &mut Held,
    count: usize,
    listener: Listener,
) -> Listener
    requires { count ≤ held.old.places }
    ensures held { (held.new.ring ≡ held.old.ring) × (held.new.places ≡ held.old.places) }
    ensures found { (found : List Req) × (held.new.posts ≡ held.old.posts ++ found) }
    ensures enough { count ≤ length held.new.posts }
{
    let mut listener = listener;
    for _ in rt.forever() {
        match look_for(rt, posts, held, count, listener.enter()) {
            Ok(drowsy) => listener = drowsy.sleep(rt),
            Err(listener) => return listener,
        }
    }
    unreachable!()
}

/// Takes posts out of the completion ring. Where the client then holds fewer than `count` it sleeps once, for no longer than about
/// `most`.
pub(crate) fn await_posts_at_most<R: Wait>(
    rt: &R,
    posts: &PostLocks,
    held: &mut Held,
    count: usize,
    most: Duration,
    listener: Listener,
) -> Listener
    requires { count ≤ held.old.places }
    ensures held { (held.new.ring ≡ held.old.ring) × (held.new.places ≡ held.old.places) }
    ensures found { (found : List Req) × (held.new.posts ≡ held.old.posts ++ found) }
{
    match look_for(rt, posts, held, count, listener.enter()) {
        Ok(drowsy) => drowsy.sleep_at_most(rt, most),
        Err(listener) => listener,
    }
}
