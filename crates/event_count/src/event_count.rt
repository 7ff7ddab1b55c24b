//! The event count and its calls.
ghost use Rattle.std.specs.Prelude.{◌≡◌, ◌≢◌, ◌↔◌, ◌⊎◌, ◌+◌, ◌<◌, true, false, IfErr, IfOk, IsErrOf};
ghost use Rattle.event_count.specs.Passes.{AreNewNotifiers, AreNewWaiters, HasEntered, HasLeft, HasNoticed, HasWoken, IsNew, IsNotifierOf, IsWaiterOf, wakes_for};
ghost use Rattle.event_count.specs.declared.view.Role.{Role};

use crate::error::EventCountError;
use crate::law::Law;
use crate::notifier::{Notifier, count_one, look};
use crate::plays::{CutNotifier, CutWaiter};
use crate::view::View;
use crate::waiter::{Waiter, Words, enter, leave, read_count, wait_at_most, wait_for_notice};
use crate::wakes::Wakes;
use atomic_table::{Seat, Table};
use std::alloc::Global;
use std::marker::{Brand, Model};
use std::sync::Wait;
use std::sync::ledger::{Blank, Ledger};
use std::time::Duration;

/// The most waiters of an event count, and the most notifiers.
pub const MAX_PASSES: u16 = 1024;

/// Whom a notice wakes of those who are parked.
#[derive(Clone, Copy)]
pub enum Reach {
    /// One of them.
    One,
    /// All of them.
    All,
}

/// An event count. A pass belongs to the event count that made it.
#[derive(Drop)]
pub struct EventCount {
    table: Table<u8, View, (), Law, Global>,
}

impl Model for EventCount {
    ghost use Rattle.std.specs.Prelude.{◌≡◌};
    ghost use Rattle.atomic_table.specs.Seated.{TableId};

    ghost Value = { TableId };

    ghost view = { λ e. e.table.shared.table_id };

    ghost invariant = { λ e. e.table.shared.table_id.words ≡ 2 };
}

/// The waiters of a new event count, in order.
fn cut_waiters(
    alloc: Global,
    words: &Words,
    seat: &mut Seat<u8, View>,
    count: u16,
) -> Result<Vec<Waiter>, EventCountError>
    requires own { (seat.old.table_id ≡ words.now.table_id) × (words.now.table_id.words ≡ 2) }
    requires first { (seat.old.me.0.role ≡ Role.Maker) × (seat.old.me.0.waiters ≡ 0) }
    requires few { count < 1025 }
    ensures seat { seat.new.table_id ≡ seat.old.table_id }
    ensures cut { IfOk result (λ v. AreNewWaiters seat.old.table_id count v.items × (seat.new.me.0 ≡ record seat.old.me.0 { waiters = count })) }
    ensures refused { IfErr result (λ e. e ≢ EventCountError.BadShape) }
{
    let mut waiters = Vec::new(alloc);
    for _number in 0..count {
        let cut = words.split_seat::<CutWaiter>(seat);
        waiters.push(Waiter::new(cut))?;
    }
    Ok(waiters)
}

/// The notifiers of a new event count, in order.
fn cut_notifiers(
    alloc: Global,
    words: &Words,
    seat: &mut Seat<u8, View>,
    count: u16,
) -> Result<Vec<Notifier>, EventCountError>
    requires own { (seat.old.table_id ≡ words.now.table_id) × (words.now.table_id.words ≡ 2) }
    requires first { (seat.old.me.0.role ≡ Role.Maker) × (seat.old.me.0.notifiers ≡ 0) }
    requires few { seat.old.me.0.waiters < 1025 }
    ensures cut { IfOk result (λ v. AreNewNotifiers seat.old.table_id count v.items) }
    ensures refused { IfErr result (λ e. e ≢ EventCountError.BadShape) }
{
    let mut notifiers = Vec::new(alloc);
    for _number in 0..count {
        let cut = words.split_seat::<CutNotifier>(seat);
        notifiers.push(Notifier::new(cut))?;
    }
    Ok(notifiers)
}

/// `notify_counted`, uncounted.
fn notify_by<L: Ledger>(
    event_count: &EventCount,
    notifier: &mut Notifier,
    reach: Reach,
    blank: Blank,
) -> bool
    requires own { IsNotifierOf event_count.now notifier.old }
    requires name { blank.name ≡ L.name }
    requires parts { blank.parts ≡ L.parts }
    requires some { 0 < blank.parts }
    ensures pass { notifier.new ≡ record notifier.old { seen = notifier.new.seen } }
    ensures noticed { HasNoticed notifier.old notifier.new result }
{
    let mut wakes = Wakes::<L>::new(blank);
    event_count.notify_counted(notifier, reach, &mut wakes)
}

impl EventCount {
    /// An event count, its waiters and its notifiers, each in order. No thread has entered, and nothing was counted.
    /// `BadShape` with more than 1,024 waiters, or notifiers.
    pub fn new(
        alloc: Global,
        waiters: u16,
        notifiers: u16,
    ) -> Result<(EventCount, Vec<Waiter>, Vec<Notifier>), EventCountError>
        ensures bad_shape { IsErrOf result EventCountError.BadShape ↔ ((1024 < waiters) ⊎ (1024 < notifiers)) }
        ensures new { IfOk result (λ t. IsNew waiters notifiers t.0 t.1.items t.2.items) }
    {
        if waiters > MAX_PASSES || notifiers > MAX_PASSES {
            return Err(EventCountError::BadShape);
        }
        let words = Vec::from_elem(alloc, 0u64, 2)?;
        let (table, mut seat) = Table::of_words(alloc, words.as_slice(), &())?;
        let waiters = cut_waiters(alloc, &table.shared, &mut seat, waiters)?;
        let notifiers = cut_notifiers(alloc, &table.shared, &mut seat, notifiers)?;
        Ok((EventCount { table }, waiters, notifiers))
    }

    /// Enters, and then reads the count, its key. Whoever waits looks once more after this whether it has to, and then calls
    /// `wait` or `cancel`: a notice that comes after the look finds the waiter.
    pub fn prepare(&self, waiter: &mut Waiter)
        requires own { IsWaiterOf self.now waiter.old }
        requires outside { waiter.old.entered ≡ false }
        ensures pass { waiter.new ≡ record waiter.old { entered = true; key = waiter.new.key; seen = waiter.new.seen } }
        ensures entered { HasEntered waiter.old waiter.new }
    {
        let words = &self.table.shared;
        enter(words, &mut waiter.seat);
        waiter.key = read_count(words, &mut waiter.seat);
        waiter.entered = true;
    }

    /// Leaves without waiting.
    pub fn cancel(&self, waiter: &mut Waiter)
        requires own { IsWaiterOf self.now waiter.old }
        requires entered { waiter.old.entered ≡ true }
        ensures pass { waiter.new ≡ record waiter.old { entered = false; seen = waiter.new.seen } }
        ensures left { HasLeft waiter.old waiter.new }
    {
        leave(&self.table.shared, &mut waiter.seat);
        waiter.entered = false;
    }

    /// Waits until the count is another than the key, and leaves. It parks, and burns no time.
    pub fn wait<R: Wait>(&self, rt: &R, waiter: &mut Waiter)
        requires own { IsWaiterOf self.now waiter.old }
        requires entered { waiter.old.entered ≡ true }
        ensures pass { waiter.new ≡ record waiter.old { entered = false; seen = waiter.new.seen } }
        ensures woken { HasWoken waiter.old waiter.new }
    {
        let (words, seat) = (&self.table.shared, &mut waiter.seat);
        wait_for_notice(rt, words, seat, waiter.key);
        leave(words, seat);
        waiter.entered = false;
    }

    /// `wait`, for no longer than about `most`: it may also return sooner. The answer says whether it found the count to be another
    /// than the key.
    pub fn wait_timeout<R: Wait>(&self, rt: &R, waiter: &mut Waiter, most: Duration) -> bool
        requires own { IsWaiterOf self.now waiter.old }
        requires entered { waiter.old.entered ≡ true }
        ensures pass { waiter.new ≡ record waiter.old { entered = false; seen = waiter.new.seen } }
        ensures woken { result ≡ true → HasWoken waiter.old waiter.new }
        ensures left { result ≡ false → HasLeft waiter.old waiter.new }
    {
        let (words, inside) = (&self.table.shared, &mut waiter.seat);
        let is_woken = wait_at_most(rt, words, inside, waiter.key, most);
        leave(words, inside);
        waiter.entered = false;
        is_woken
    }

    /// Gives notice of what was done before: where a waiter has entered, the count grows, and one who is parked is woken. The
    /// answer says whether somebody had entered. One is enough where any waiter can do what there is to do, since one who is
    /// woken in another's place read its key after the count grew, and so has looked after what the notice is of. Else take
    /// `notify_all`.
    pub fn notify(&self, notifier: &mut Notifier) -> bool
        requires own { IsNotifierOf self.now notifier.old }
        ensures pass { notifier.new ≡ record notifier.old { seen = notifier.new.seen } }
        ensures noticed { HasNoticed notifier.old notifier.new result }
    {
        notify_by::<Brand>(self, notifier, Reach::One, Blank::new(1))
    }

    /// `notify`, and all who are parked are woken.
    pub fn notify_all(&self, notifier: &mut Notifier) -> bool
        requires own { IsNotifierOf self.now notifier.old }
        ensures pass { notifier.new ≡ record notifier.old { seen = notifier.new.seen } }
        ensures noticed { HasNoticed notifier.old notifier.new result }
    {
        notify_by::<Brand>(self, notifier, Reach::All, Blank::new(1))
    }

    /// `notify` or `notify_all`, and a wake that is given is counted: one where somebody had entered, else none.
    pub fn notify_counted<L: Ledger>(
        &self,
        notifier: &mut Notifier,
        reach: Reach,
        wakes: &mut Wakes<L>,
    ) -> bool
        requires own { IsNotifierOf self.now notifier.old }
        ensures pass { notifier.new ≡ record notifier.old { seen = notifier.new.seen } }
        ensures noticed { HasNoticed notifier.old notifier.new result }
        ensures wakes { wakes.new ≡ wakes.old + wakes_for result }
    {
        let words = &self.table.shared;
        let has_found = look(words, &mut notifier.seat);
        if has_found {
            count_one(words, &mut notifier.seat);
            wakes.give(words, reach);
        }
        has_found
    }
}
