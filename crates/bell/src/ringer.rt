//! The one who stores a ring's tail, and what it owes where the sleeper asked to be woken.
ghost use Rattle.std.specs.Prelude.{◌≡◌, ◌+◌, ◌≤◌, ◌<◌, ◌==◌, ◌∷◌, true};
ghost use Rattle.bell.specs.BellPasses.{HasLooked, IsRingerSeat};

use crate::law::Law;
use crate::plays::{ClearBit, StoreTail};
use crate::view::View;
use atomic_table::{Seat, Shared};
use std::marker::Model;

/// The words of a bell.
pub(crate) type Words = Shared<u8, View, u64, Law>;

/// The pass of one who submits to a ring. Contracts see its ring, the tail that it stored last, what it found, and what it has
/// seen of the history of the wake word.
#[derive(Drop)]
pub struct Ringer {
    seat: Seat<u8, View>,
    ring: u16,
}

impl Model for Ringer {
    ghost use Rattle.bell.specs.BellPasses.{Ringing, IsRingerSeat};

    ghost Value = { Ringing };

    ghost view = { λ r. record { table = r.seat.table_id; ring = r.ring; tail = r.seat.me.0.tail; found = r.seat.me.0.found; wakes = r.seat.me.0.wakes } };

    ghost invariant = { λ r. IsRingerSeat r.seat r.ring };
}

/// Whether the sleeper has to be woken. It has to be spent, by `Bell::ring`.
pub struct MustWake {
    pub(crate) owed: bool,
}

impl MustWake {
    /// Whether the wake bit was found set, so that a wake is owed.
    pub fn is_owed(&self) -> bool
        ensures { result ≡ self.now.owed }
    {
        self.owed
    }
}

impl Ringer {
    /// The pass of this ring's seat.
    pub(crate) fn new(seat: Seat<u8, View>, ring: u16) -> Ringer
        requires { IsRingerSeat seat ring }
        ensures { result ≡ record { table = seat.table_id; ring = ring; tail = seat.me.0.tail; found = seat.me.0.found; wakes = seat.me.0.wakes } }
    {
        Ringer { seat, ring }
    }

    /// Stores the tail, and then clears the wake bit.
    pub(crate) fn publish(&mut self, words: &Words, tail: u64) -> MustWake
        requires own { self.old.table ≡ words.now.table_id }
        requires rising { self.old.tail ≤ tail }
        ensures pass { self.new ≡ record self.old { tail = tail; found = result.owed ∷ self.old.found; wakes = self.new.wakes } }
        ensures wake { HasLooked self.old self.new result.owed }
    {
        words.store::<StoreTail>(&mut self.seat, usize::from(self.ring) + 1, tail);
        let found = words.swap::<ClearBit>(&mut self.seat, 0, 0);
        MustWake { owed: found == 1 }
    }
}
