//! The one who gives notice.
ghost use Rattle.std.specs.Prelude.{◌≡◌, true, false};
ghost use Rattle.event_count.specs.{number_of, IsQuiet, Finds, Counts, is_owing, IsNotifierAt, IsNotifierSeat, IsSameSeat};

use crate::plays::{CountOne, LookInside};
use crate::view::View;
use crate::waiter::{COUNT, INSIDE, Words};
use atomic_table::Seat;
use std::marker::Model;

/// The pass of one who gives notice. Contracts see its number, and what it has seen of the journal.
#[derive(Drop)]
pub struct Notifier {
    pub(crate) seat: Seat<u8, View>,
}

impl Model for Notifier {
    ghost use Rattle.event_count.specs.{number_of, Notifying, IsNotifierSeat};

    ghost Value = { Notifying };

    ghost view = { λ n. record { table = n.seat.table_id; number = number_of n.seat.me.0.role; seen = n.seat.me.0.seen } };

    ghost invariant = { λ n. IsNotifierSeat n.seat };
}

/// Whether somebody has entered.
pub(crate) fn look(words: &Words, seat: &mut Seat<u8, View>) -> bool
    requires own { IsNotifierAt words.now.table_id seat.old }
    requires paid { is_owing seat.old.me.0 ≡ false }
    ensures same { IsSameSeat seat.old seat.new }
    ensures owes { is_owing seat.new.me.0 ≡ result }
    ensures quiet { result ≡ false → IsQuiet (number_of seat.old.me.0.role) seat.old.me.0.seen seat.new.me.0.seen }
    ensures found { result ≡ true → Finds (number_of seat.old.me.0.role) seat.old.me.0.seen seat.new.me.0.seen }
{
    words.load::<LookInside>(seat, INSIDE) != 0
}

/// Adds one to the count.
pub(crate) fn count_one(words: &Words, seat: &mut Seat<u8, View>)
    requires own { IsNotifierAt words.now.table_id seat.old }
    requires owed { is_owing seat.old.me.0 ≡ true }
    ensures same { IsSameSeat seat.old seat.new }
    ensures paid { is_owing seat.new.me.0 ≡ false }
    ensures counted { Counts (number_of seat.old.me.0.role) seat.old.me.0.seen seat.new.me.0.seen }
{
    words.fetch_add::<CountOne>(seat, COUNT, 1);
}

impl Notifier {
    /// The pass of this seat.
    pub(crate) fn new(seat: Seat<u8, View>) -> Notifier
        requires { IsNotifierSeat seat }
        ensures { result ≡ record { table = seat.table_id; number = number_of seat.me.0.role; seen = seat.me.0.seen } }
    {
        Notifier { seat }
    }
}
