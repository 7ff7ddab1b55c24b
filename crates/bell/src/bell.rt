//! The bell and its calls.
ghost use Rattle.std.specs.Prelude.{◌≡◌, ◌≢◌, ◌↔◌, ◌⊎◌, ◌+◌, ◌≤◌, ◌<◌, ◌∷◌, true, false, IfOk, IsErrOf};
ghost use Rattle.bell.specs.BellPasses.{IsRingerOf, IsSleeperOf, HasAsked, HasLoaded, HasLooked, HasTakenBack, HaveRisen, IsNew, WasFound, wakes_for};

use crate::error::BellError;
use crate::law::Law;
use crate::plays::CutRinger;
use crate::ringer::{MustWake, Ringer};
use crate::sleeper::{Nap, Sleeper, read_all};
use crate::view::View;
use crate::wakes::Wakes;
use atomic_table::Table;
use std::alloc::Global;
use std::marker::{Brand, Model};
use std::sync::Wait;
use std::sync::ledger::{Blank, Ledger};

/// The most rings of a bell.
pub const MAX_RINGS: u16 = 16;

/// A doorbell for this many rings. A pass belongs to the bell that made it.
#[derive(Drop)]
pub struct Bell {
    table: Table<u8, View, u64, Law, Global>,
}

impl Model for Bell {
    ghost use Rattle.bell.specs.BellPasses.{Facts, IsBell};

    ghost Value = { Facts };

    ghost view = { λ b. record { table = b.table.shared.table_id; rings = b.table.shared.key } };

    ghost invariant = { λ b. IsBell b.table.shared.table_id b.table.shared.key };
}

/// `ring_counted`, uncounted.
fn ring_by<L: Ledger>(bell: &Bell, wake: MustWake, blank: Blank)
    requires name { blank.name ≡ L.name }
    requires parts { blank.parts ≡ L.parts }
    requires some { 0 < blank.parts }
{
    let mut wakes = Wakes::<L>::new(blank);
    bell.ring_counted(wake, &mut wakes);
}

impl Bell {
    /// A bell, the ringer of each ring in order, and the sleeper. No tail was stored, and none read.
    /// `BadShape` outside 1 to 16 rings.
    pub fn new(alloc: Global, rings: u16) -> Result<(Bell, Vec<Ringer>, Sleeper), BellError>
        ensures bad_shape { IsErrOf result BellError.BadShape ↔ ((rings ≡ 0) ⊎ (16 < rings)) }
        ensures new { IfOk result (λ t. IsNew rings t.0 t.1.items t.2) }
    {
        if rings == 0 || rings > MAX_RINGS {
            return Err(BellError::BadShape);
        }
        let words = Vec::from_elem(alloc, 0u64, usize::from(rings) + 1)?;
        let tails = Vec::from_elem(alloc, 0u64, usize::from(rings))?;
        let mut ringers = Vec::new(alloc);
        let (table, mut seat) = Table::of_words(alloc, words.as_slice(), &u64::from(rings))?;
        for ring in 0..rings {
            let cut = table.shared.split_seat::<CutRinger>(&mut seat);
            ringers.push(Ringer::new(cut, ring))?;
        }
        Ok((Bell { table }, ringers, Sleeper::new(seat, tails)))
    }

    /// Stores the ring's tail, and then clears the wake bit: the answer says whether it was set, and has to be spent by
    /// `ring` (io_uring_enter(2) on IORING_ENTER_SQ_WAKEUP). Tails don't fall.
    pub fn publish(&self, ringer: &mut Ringer, tail: u64) -> MustWake
        requires own { IsRingerOf self.now ringer.old }
        requires rising { ringer.old.tail ≤ tail }
        ensures pass { ringer.new ≡ record ringer.old { tail = tail; found = result.owed ∷ ringer.old.found; wakes = ringer.new.wakes } }
        ensures wake { HasLooked ringer.old ringer.new result.owed }
    {
        ringer.publish(&self.table.shared, tail)
    }

    /// Wakes the sleeper, where that is owed.
    pub fn ring(&self, wake: MustWake) {
        ring_by::<Brand>(self, wake, Blank::new(1));
    }

    /// `ring`, and a wake that is given is counted: one where it is owed, else none.
    pub fn ring_counted<L: Ledger>(&self, wake: MustWake, wakes: &mut Wakes<L>)
        ensures { wakes.new ≡ wakes.old + wakes_for wake.owed }
    {
        let MustWake { owed } = wake;
        if owed {
            wakes.give(&self.table.shared);
        }
    }

    /// Reads all tails.
    pub fn collect(&self, sleeper: &mut Sleeper)
        requires own { IsSleeperOf self.now sleeper.old }
        ensures pass { (sleeper.new.table ≡ sleeper.old.table) × (sleeper.new.dozes ≡ sleeper.old.dozes) × (sleeper.new.wakes ≡ sleeper.old.wakes) }
        ensures read { HasLoaded sleeper.old sleeper.new }
        ensures risen { HaveRisen sleeper.old.tails sleeper.new.tails }
        ensures few { self.now.rings ≤ 16 }
    {
        read_all(&self.table.shared, &mut sleeper.seat, &mut sleeper.tails);
    }

    /// Sets the wake bit, and reads all tails again: `Dozed` where none has changed since it was read last, else `Work`,
    /// and the bit is cleared.
    pub fn doze(&self, sleeper: &mut Sleeper) -> Nap
        requires own { IsSleeperOf self.now sleeper.old }
        ensures table { sleeper.new.table ≡ sleeper.old.table }
        ensures dozed { result ≡ Nap.Dozed → (sleeper.new.dozes ≡ true) × (sleeper.new.tails ≡ sleeper.old.tails) }
        ensures work { result ≡ Nap.Work → (sleeper.new.dozes ≡ false) × (sleeper.new.tails ≢ sleeper.old.tails) }
        ensures asked { result ≡ Nap.Dozed → HasAsked sleeper.old sleeper.new }
        ensures took_back { result ≡ Nap.Work → HasTakenBack sleeper.old sleeper.new }
        ensures read { HasLoaded sleeper.old sleeper.new }
        ensures risen { HaveRisen sleeper.old.tails sleeper.new.tails }
    {
        sleeper.doze(&self.table.shared)
    }

    /// Waits until the wake bit is clear: at once, but for a sleeper that dozed and wasn't woken. That one comes back only after a
    /// ringer has found the bit set. It parks, and burns no time.
    pub fn sleep<R: Wait>(&self, rt: &R, sleeper: &mut Sleeper)
        requires own { IsSleeperOf self.now sleeper.old }
        ensures pass { sleeper.new ≡ record sleeper.old { dozes = false; wakes = sleeper.new.wakes } }
        ensures woken { sleeper.old.dozes ≡ true → WasFound sleeper.old sleeper.new }
        ensures awake { sleeper.old.dozes ≡ false → sleeper.new.wakes ≡ sleeper.old.wakes }
    {
        sleeper.sleep(rt, &self.table.shared);
    }
}
