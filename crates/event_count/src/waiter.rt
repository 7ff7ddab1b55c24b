//! The one who enters before it may sleep, and leaves again.
ghost use Rattle.std.specs.Prelude.{◌≡◌, true, false};
ghost use Rattle.event_count.specs.{number_of, count_of, Enters, Stayed, Hears, Leaves, is_in, IsSameSeat, IsWaiterAt, IsWaiterSeat};

use crate::law::Law;
use crate::plays::{AskCount, Enter, Leave, ReadCount};
use crate::view::View;
use atomic_table::{Seat, Shared};
use std::marker::Model;
use std::sync::Wait;
use std::time::Duration;

/// The words of an event count.
pub(crate) type Words = Shared<u8, View, (), Law>;

/// The word that grows with each notice, and that waiters park on.
pub(crate) const COUNT: usize = 0;

/// The word that says how many waiters have entered.
pub(crate) const INSIDE: usize = 1;

/// The pass of one who may sleep. Contracts see its number, whether it has entered, the count that it read after it entered, its
/// key, and what it has seen of the journal.
#[derive(Drop)]
pub struct Waiter {
    pub(crate) seat: Seat<u8, View>,
    pub(crate) entered: bool,
    pub(crate) key: u64,
}

impl Model for Waiter {
    ghost use Rattle.event_count.specs.{number_of, Waiting, IsWaiterSeat};

    ghost Value = { Waiting };

    ghost view = { λ w. record { table = w.seat.table_id; number = number_of w.seat.me.0.role; entered = w.entered; key = w.key; seen = w.seat.me.0.seen } };

    ghost invariant = { λ w. IsWaiterSeat w.seat w.entered w.key };
}

/// Adds one to those who have entered.
pub(crate) fn enter(words: &Words, seat: &mut Seat<u8, View>)
    requires own { IsWaiterAt words.now.table_id seat.old }
    requires outside { is_in seat.old.me.0 ≡ false }
    ensures same { IsSameSeat seat.old seat.new }
    ensures inside { is_in seat.new.me.0 ≡ true }
    ensures entered { Enters (number_of seat.old.me.0.role) seat.old.me.0.seen seat.new.me.0.seen }
{
    words.fetch_add::<Enter>(seat, INSIDE, 1);
}

/// Reads the count.
pub(crate) fn read_count(words: &Words, seat: &mut Seat<u8, View>) -> u64
    requires own { IsWaiterAt words.now.table_id seat.old }
    requires inside { is_in seat.old.me.0 ≡ true }
    ensures same { IsSameSeat seat.old seat.new }
    ensures inside { is_in seat.new.me.0 ≡ true }
    ensures read { Stayed (number_of seat.old.me.0.role) seat.old.me.0.seen seat.new.me.0.seen × (result ≡ count_of seat.new.me.0.seen) }
{
    words.load::<ReadCount>(seat, COUNT)
}

/// Whether the count is another than the key.
fn is_other(words: &Words, seat: &mut Seat<u8, View>, key: u64) -> bool
    requires own { IsWaiterAt words.now.table_id seat.old }
    requires inside { is_in seat.old.me.0 ≡ true }
    requires key { key ≡ count_of seat.old.me.0.seen }
    ensures same { IsSameSeat seat.old seat.new }
    ensures inside { is_in seat.new.me.0 ≡ true }
    ensures still { result ≡ false → seat.new.me.0.seen ≡ seat.old.me.0.seen }
    ensures heard { result ≡ true → Hears (number_of seat.old.me.0.role) seat.old.me.0.seen seat.new.me.0.seen }
{
    words.load::<AskCount>(seat, COUNT) != key
}

/// Parks until the count is another than the key. A park looks at the low 32 bits alone.
pub(crate) fn wait_for_notice<R: Wait>(rt: &R, words: &Words, seat: &mut Seat<u8, View>, key: u64)
    requires own { IsWaiterAt words.now.table_id seat.old }
    requires inside { is_in seat.old.me.0 ≡ true }
    requires key { key ≡ count_of seat.old.me.0.seen }
    ensures same { IsSameSeat seat.old seat.new }
    ensures inside { is_in seat.new.me.0 ≡ true }
    ensures heard { Hears (number_of seat.old.me.0.role) seat.old.me.0.seen seat.new.me.0.seen }
{
    for _ in rt.forever() {
        if is_other(words, seat, key) {
            return;
        }
        words.park(rt, COUNT, (key % 0x1_0000_0000) as u32);
    }
    unreachable!()
}

/// Parks while the count is the key, once, and no longer than about `most`. Whether the count is then another.
pub(crate) fn wait_at_most<R: Wait>(
    rt: &R,
    words: &Words,
    seat: &mut Seat<u8, View>,
    key: u64,
    most: Duration,
) -> bool
    requires own { IsWaiterAt words.now.table_id seat.old }
    requires inside { is_in seat.old.me.0 ≡ true }
    requires key { key ≡ count_of seat.old.me.0.seen }
    ensures same { IsSameSeat seat.old seat.new }
    ensures inside { is_in seat.new.me.0 ≡ true }
    ensures still { result ≡ false → seat.new.me.0.seen ≡ seat.old.me.0.seen }
    ensures heard { result ≡ true → Hears (number_of seat.old.me.0.role) seat.old.me.0.seen seat.new.me.0.seen }
{
    words.park_timeout(rt, COUNT, (key % 0x1_0000_0000) as u32, most);
    is_other(words, seat, key)
}

/// Takes one from those who have entered.
pub(crate) fn leave(words: &Words, seat: &mut Seat<u8, View>)
    requires own { IsWaiterAt words.now.table_id seat.old }
    requires inside { is_in seat.old.me.0 ≡ true }
    ensures same { IsSameSeat seat.old seat.new }
    ensures outside { is_in seat.new.me.0 ≡ false }
    ensures left { Leaves (number_of seat.old.me.0.role) seat.old.me.0.seen seat.new.me.0.seen }
{
    words.fetch_sub::<Leave>(seat, INSIDE, 1);
}

impl Waiter {
    /// The pass of this seat.
    pub(crate) fn new(seat: Seat<u8, View>) -> Waiter
        requires { IsWaiterSeat seat false 0 }
        ensures { result ≡ record { table = seat.table_id; number = number_of seat.me.0.role; entered = false; key = 0; seen = seat.me.0.seen } }
    {
        Waiter {
            seat,
            entered: false,
            key: 0,
        }
    }

    /// Whether it has entered, and not left since.
    pub fn has_entered(&self) -> bool
        ensures { result ≡ self.now.entered }
    {
        self.entered
    }
}
