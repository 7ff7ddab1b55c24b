//! The one who dozes where no ring has anything new, and is woken.
ghost use Rattle.std.specs.Prelude.{◌≡◌, ◌≢◌, ◌+◌, ◌≤◌, ◌<◌, true, false, length, slice_index};
ghost use Rattle.bell.specs.{IsSleeperSeat, IsBell, HasAsked, HasGivenUp, HasReadOne, HasRead, HasLoaded, HasTakenBack, HasWoken, HaveRisen, WasFound, reading};
ghost use Rattle.bell.specs.declared.view.Role.{Role};

use crate::plays::{AskBit, LoadTail, SetBit, TakeBack};
use crate::ringer::Words;
use crate::view::View;
use atomic_table::Seat;
use std::marker::Model;
use std::sync::Wait;

/// The poller's pass of the bell. Contracts see the tails that it read last, whether it sleeps soundly, and what it has seen of the
/// history of the wake word.
#[derive(Drop)]
pub struct Sleeper {
    pub(crate) seat: Seat<u8, View>,
    pub(crate) tails: Vec<u64>,
    dozes: bool,
}

impl Model for Sleeper {
    ghost use Rattle.bell.specs.BellPasses.{Sleeping, IsSleeperSeat};

    ghost Value = { Sleeping };

    ghost view = { λ s. record { table = s.seat.table_id; tails = s.tails.items; loads = s.seat.me.0.loads; dozes = s.dozes; wakes = s.seat.me.0.wakes } };

    ghost invariant = { λ s. IsSleeperSeat s.seat s.tails.items s.dozes };
}

/// What a doze came to.
#[derive(Clone, Copy, PartialEq, Eq, Debug)]
pub enum Nap {
    /// No tail changed, and the wake bit stands: the sleeper may sleep.
    Dozed,
    /// A tail changed since it was read last. The wake bit is cleared.
    Work,
}

/// Reads the tail of the ring.
fn read_tail(words: &Words, seat: &mut Seat<u8, View>, ring: usize) -> u64
    requires own { (seat.old.table_id ≡ words.now.table_id) × IsBell words.now.table_id words.now.key }
    requires sleeper { seat.old.me.0.role ≡ Role.Sleeper }
    requires ring { ring < words.now.key }
    ensures seat { seat.new.table_id ≡ seat.old.table_id }
    ensures read { (seat.new.me.0 ≡ reading ring result seat.old.me.0) × (slice_index seat.old.me.0.tails ring ≤ result) }
{
    words.load::<LoadTail>(seat, ring + 1)
}

/// Reads the tail of the ring into the list, and says whether it changed.
fn read_one(words: &Words, seat: &mut Seat<u8, View>, tails: &mut Vec<u64>, ring: usize) -> bool
    requires own { (seat.old.table_id ≡ words.now.table_id) × IsBell words.now.table_id words.now.key }
    requires sleeper { seat.old.me.0.role ≡ Role.Sleeper }
    requires tails { (seat.old.me.0.tails ≡ tails.old.items) × (length tails.old.items ≡ words.now.key) × (ring < words.now.key) }
    ensures seat { seat.new.table_id ≡ seat.old.table_id }
    ensures one { HasReadOne ring seat.old.me.0 seat.new.me.0 tails.old.items tails.new.items }
    ensures changed { result ≡ true → slice_index tails.new.items ring ≢ slice_index tails.old.items ring }
    ensures same { result ≡ false → tails.new.items ≡ tails.old.items }
{
    let tail = read_tail(words, seat, ring);
    let changed = tails[ring] != tail;
    tails[ring] = tail;
    changed
}

/// Reads all tails, and says whether one of them changed.
pub(crate) fn read_all(words: &Words, seat: &mut Seat<u8, View>, tails: &mut Vec<u64>) -> bool
    requires own { (seat.old.table_id ≡ words.now.table_id) × IsBell words.now.table_id words.now.key }
    requires sleeper { seat.old.me.0.role ≡ Role.Sleeper }
    requires tails { (seat.old.me.0.tails ≡ tails.old.items) × (length tails.old.items ≡ words.now.key) }
    ensures seat { (seat.new.table_id ≡ seat.old.table_id) × HasRead seat.old.me.0 seat.new.me.0 tails.new.items }
    ensures risen { HaveRisen tails.old.items tails.new.items }
    ensures changed { result ≡ true → tails.new.items ≢ tails.old.items }
    ensures same { result ≡ false → tails.new.items ≡ tails.old.items }
{
    let mut changed = false;
    for ring in 0..tails.len() {
        changed = read_one(words, seat, tails, ring) || changed;
    }
    changed
}

/// Takes the wake bit back.
fn take_back(words: &Words, seat: &mut Seat<u8, View>)
    requires own { (seat.old.table_id ≡ words.now.table_id) × IsBell words.now.table_id words.now.key }
    requires sleeper { seat.old.me.0.role ≡ Role.Sleeper }
    ensures seat { (seat.new.table_id ≡ seat.old.table_id) × HasGivenUp seat.old.me.0 seat.new.me.0 }
{
    words.swap::<TakeBack>(seat, 0, 0);
}

/// Parks on the wake word until its bit is clear.
fn wait_for_wake<R: Wait>(rt: &R, words: &Words, seat: &mut Seat<u8, View>)
    requires own { (seat.old.table_id ≡ words.now.table_id) × IsBell words.now.table_id words.now.key }
    requires sleeper { seat.old.me.0.role ≡ Role.Sleeper }
    ensures seat { (seat.new.table_id ≡ seat.old.table_id) × HasWoken seat.old.me.0 seat.new.me.0 }
{
    for _ in rt.forever() {
        if words.load::<AskBit>(seat, 0) == 0 {
            return;
        }
        words.park(rt, 0, 1);
    }
    unreachable!()
}

impl Sleeper {
    /// The pass of the sleeper's seat.
    pub(crate) fn new(seat: Seat<u8, View>, tails: Vec<u64>) -> Sleeper
        requires { IsSleeperSeat seat tails.items false }
        ensures { result ≡ record { table = seat.table_id; tails = tails.items; loads = seat.me.0.loads; dozes = false; wakes = seat.me.0.wakes } }
    {
        Sleeper {
            seat,
            tails,
            dozes: false,
        }
    }

    /// The tail of the ring that `collect` or `doze` read last, 0 before any.
    pub fn tail(&self, ring: u16) -> u64
        requires { ring < length self.now.tails }
        ensures { result ≡ slice_index self.now.tails ring }
    {
        self.tails[ring as usize]
    }

    /// Sets the wake bit, reads all tails again, and takes the bit back where one of them changed.
    pub(crate) fn doze(&mut self, words: &Words) -> Nap
        requires own { (self.old.table ≡ words.now.table_id) × IsBell words.now.table_id words.now.key }
        ensures table { self.new.table ≡ self.old.table }
        ensures dozed { result ≡ Nap.Dozed → (self.new.dozes ≡ true) × (self.new.tails ≡ self.old.tails) }
        ensures work { result ≡ Nap.Work → (self.new.dozes ≡ false) × (self.new.tails ≢ self.old.tails) }
        ensures asked { result ≡ Nap.Dozed → HasAsked self.old self.new }
        ensures took_back { result ≡ Nap.Work → HasTakenBack self.old self.new }
        ensures read { HasLoaded self.old self.new }
        ensures risen { HaveRisen self.old.tails self.new.tails }
    {
        words.swap::<SetBit>(&mut self.seat, 0, 1);
        let changed = read_all(words, &mut self.seat, &mut self.tails);
        if changed {
            take_back(words, &mut self.seat);
        }
        self.dozes = !changed;
        if changed { Nap::Work } else { Nap::Dozed }
    }

    /// Waits until the wake bit is clear.
    pub(crate) fn sleep<R: Wait>(&mut self, rt: &R, words: &Words)
        requires own { (self.old.table ≡ words.now.table_id) × IsBell words.now.table_id words.now.key }
        ensures pass { self.new ≡ record self.old { dozes = false; wakes = self.new.wakes } }
        ensures woken { self.old.dozes ≡ true → WasFound self.old self.new }
        ensures awake { self.old.dozes ≡ false → self.new.wakes ≡ self.old.wakes }
    {
        wait_for_wake(rt, words, &mut self.seat);
        self.dozes = false;
    }
}
