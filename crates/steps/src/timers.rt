//! The steps of the poller on the clock and on timers.
ghost use Rattle.std.specs.Prelude.{◌≡◌, ◌≢◌, ◌⊎◌, ℕ, ◌+◌, ◌<◌, ◌≤◌, true, false, negsuc, Some};
ghost use Rattle.limits.specs.declared.TheConstants.{TICK};
ghost use Rattle.claim.specs.declared.tag.Tag.TheVariants.{Held, Running, Armed};
ghost use Rattle.claim.specs.declared.word.TheConstants.{GENERATIONS};
ghost use Rattle.entry.specs.Entry.{Entry, fails as fails_with};
ghost use Rattle.history.specs.declared.event.Event.TheVariants.{Tick, Arm, Expire, Count, Fire, FireMiss, Settle};
ghost use Rattle.history.specs.declared.req.Req.{Req};
ghost use Rattle.history.specs.{IsPlaced, IsLinkTimeout, IsTarget, Open, is_timeout, IsReplied, armed, clock_of, fired, later_replies, phase, submits, count_of, ticks_of};
ghost use Rattle.steps.specs.declared.line.Line.TheVariants.{Did};
ghost use Rattle.steps.specs.declared.view.Role.TheVariants.{Poller};
ghost use Rattle.steps.specs.{events_of, ring_of, request_at, claim_at, word_of, Looks, Extends, Shown, IsStep, Fits, IsSameSeat, FitsClock, IsIdleWord, request_after};

use crate::layout::{CLOCK_WORD, claim_word};
use crate::table::{TableSeat, Words};
use crate::{claims, plays};

/// Sets the clock on to `now`, in ticks.
pub fn tick(words: &Words, seat: &mut TableSeat, now: u32)
    requires fits { FitsClock words.now.table_id seat.old }
    requires poller { ((n : ℕ) × (seat.old.me.0.role ≡ Poller n)) × (0 < seat.old.me.0.parts) }
    requires later { (clock_of (events_of seat.old.me.0.seen) ≤ now) × (now ≤ TICK) }
    ensures seat { IsSameSeat seat.old seat.new × (seat.new.me.1 ≡ seat.old.me.1) }
    ensures ticks { Extends seat.old.me.0 (Did (Tick now)) seat.old.me.0.role seat.new.me.0 }
    ensures step { (found : ℕ) × IsStep 0 found seat.old.me.0 seat.new.me.0 }
{
    words.store::<plays::Tick>(seat, CLOCK_WORD, u64::from(now));
}

/// Arms a Held timer, which runs out at `deadline`, in ticks. Else it reports what was found.
pub fn arm(words: &Words, seat: &mut TableSeat, cell: usize, generation: u32, deadline: u32) -> bool
    requires fits { Fits words.now.table_id seat.old cell }
    requires poller { ((n : ℕ) × (seat.old.me.0.role ≡ Poller n)) × (0 < seat.old.me.0.parts) }
    requires small { generation < GENERATIONS }
    requires submitted { (request_at seat.old.me.0.layout.cells cell generation).k < submits (events_of seat.old.me.0.seen) (ring_of seat.old.me.0.layout.cells cell) }
    requires may { Open (events_of seat.old.me.0.seen) (request_at seat.old.me.0.layout.cells cell generation) }
    requires timer { (e : Entry) × (n : ℕ) × IsPlaced (events_of seat.old.me.0.seen) (request_at seat.old.me.0.layout.cells cell generation) e × (ticks_of e.op ≡ Some n) × (deadline ≡ clock_of (events_of seat.old.me.0.seen) + n) }
    ensures seat { IsSameSeat seat.old seat.new × (seat.new.me.1 ≡ seat.old.me.1) }
    ensures arms { result ≡ true → Extends seat.old.me.0 (Did (Arm (request_at seat.old.me.0.layout.cells cell generation) deadline)) seat.old.me.0.role seat.new.me.0 }
    ensures step { result ≡ true → IsStep (claim_at cell) (word_of Held 0 generation 0) seat.old.me.0 seat.new.me.0 }
    ensures looks { result ≢ true → Looks seat.old.me.0 seat.new.me.0 }
    ensures missed { result ≢ true → (n : ℕ) × IsStep (claim_at cell) n seat.old.me.0 seat.new.me.0 × Shown seat.old.me.0.layout.cells seat.new.me.0.seen cell n × (n ≢ word_of Held 0 generation 0) }
{
    let held = claims::held(generation);
    let armed = claims::armed(generation, deadline);
    words.compare_exchange::<plays::Arm>(seat, claim_word(cell), held, armed) == held
}

/// Answers a TIMEOUT that was armed with this deadline, which has come, with -62 (ETIME). `fails` says whether that is a
/// failure of its entry. Else it reports what was found.
pub fn expire(
    words: &Words,
    seat: &mut TableSeat,
    cell: usize,
    generation: u32,
    deadline: u32,
    fails: bool,
) -> bool
    requires fits { Fits words.now.table_id seat.old cell }
    requires poller { ((n : ℕ) × (seat.old.me.0.role ≡ Poller n)) × (0 < seat.old.me.0.parts) }
    requires small { generation < GENERATIONS }
    requires submitted { (request_at seat.old.me.0.layout.cells cell generation).k < submits (events_of seat.old.me.0.seen) (ring_of seat.old.me.0.layout.cells cell) }
    requires due { deadline ≤ clock_of (events_of seat.old.me.0.seen) }
    requires timeout { (e : Entry) × IsPlaced (events_of seat.old.me.0.seen) (request_at seat.old.me.0.layout.cells cell generation) e × (is_timeout e.op ≡ true) × (fails ≡ fails_with e (negsuc 61)) }
    ensures seat { IsSameSeat seat.old seat.new × (seat.new.me.1 ≡ seat.old.me.1) }
    ensures expires { result ≡ true → Extends seat.old.me.0 (Did (Expire (request_at seat.old.me.0.layout.cells cell generation))) seat.old.me.0.role seat.new.me.0 }
    ensures step { result ≡ true → IsStep (claim_at cell) (word_of Armed 0 generation deadline) seat.old.me.0 seat.new.me.0 }
    ensures looks { result ≢ true → Looks seat.old.me.0 seat.new.me.0 }
    ensures missed { result ≢ true → (n : ℕ) × IsStep (claim_at cell) n seat.old.me.0 seat.new.me.0 × Shown seat.old.me.0.layout.cells seat.new.me.0.seen cell n × (n ≢ word_of Armed 0 generation deadline) }
{
    let armed = claims::armed(generation, deadline);
    let expired = claims::expired(generation, fails);
    words.compare_exchange::<plays::Expire>(seat, claim_word(cell), armed, expired) == armed
}

/// Answers a TIMEOUT that was armed with this deadline with 0, which is no failure: as many later requests of its ring have been
/// answered as it counts. Else it reports what was found.
pub fn count(
    words: &Words,
    seat: &mut TableSeat,
    cell: usize,
    generation: u32,
    deadline: u32,
) -> bool
    requires fits { Fits words.now.table_id seat.old cell }
    requires poller { ((n : ℕ) × (seat.old.me.0.role ≡ Poller n)) × (0 < seat.old.me.0.parts) }
    requires small { generation < GENERATIONS }
    requires submitted { (request_at seat.old.me.0.layout.cells cell generation).k < submits (events_of seat.old.me.0.seen) (ring_of seat.old.me.0.layout.cells cell) }
    requires counted { (e : Entry) × IsPlaced (events_of seat.old.me.0.seen) (request_at seat.old.me.0.layout.cells cell generation) e × (0 < count_of e.op) × (count_of e.op ≤ later_replies (events_of seat.old.me.0.seen) (request_at seat.old.me.0.layout.cells cell generation)) }
    ensures seat { IsSameSeat seat.old seat.new × (seat.new.me.1 ≡ seat.old.me.1) }
    ensures counts { result ≡ true → Extends seat.old.me.0 (Did (Count (request_at seat.old.me.0.layout.cells cell generation))) seat.old.me.0.role seat.new.me.0 }
    ensures step { result ≡ true → IsStep (claim_at cell) (word_of Armed 0 generation deadline) seat.old.me.0 seat.new.me.0 }
    ensures looks { result ≢ true → Looks seat.old.me.0 seat.new.me.0 }
    ensures missed { result ≢ true → (n : ℕ) × IsStep (claim_at cell) n seat.old.me.0 seat.new.me.0 × Shown seat.old.me.0.layout.cells seat.new.me.0.seen cell n × (n ≢ word_of Armed 0 generation deadline) }
{
    let armed = claims::armed(generation, deadline);
    let counted = claims::counted(generation);
    words.compare_exchange::<plays::Count>(seat, claim_word(cell), armed, counted) == armed
}

/// Answers a LINK_TIMEOUT that was armed with this deadline: with -62 (ETIME) where it ran out before its target replied, which
/// `in_time` says, else with -125 (ECANCELED). Else it reports what was found.
pub fn settle(
    words: &Words,
    seat: &mut TableSeat,
    cell: usize,
    generation: u32,
    deadline: u32,
    in_time: bool,
) -> bool
    requires fits { Fits words.now.table_id seat.old cell }
    requires poller { ((n : ℕ) × (seat.old.me.0.role ≡ Poller n)) × (0 < seat.old.me.0.parts) }
    requires small { generation < GENERATIONS }
    requires submitted { (request_at seat.old.me.0.layout.cells cell generation).k < submits (events_of seat.old.me.0.seen) (ring_of seat.old.me.0.layout.cells cell) }
    requires link { IsLinkTimeout (events_of seat.old.me.0.seen) (request_at seat.old.me.0.layout.cells cell generation) }
    requires told { in_time ≡ fired (events_of seat.old.me.0.seen) (request_at seat.old.me.0.layout.cells cell generation) }
    requires may { (in_time ≡ true) ⊎ ((t : Req) × IsTarget (events_of seat.old.me.0.seen) (request_at seat.old.me.0.layout.cells cell generation) t × IsReplied (phase (events_of seat.old.me.0.seen) t)) }
    ensures seat { IsSameSeat seat.old seat.new × (seat.new.me.1 ≡ seat.old.me.1) }
    ensures settles { result ≡ true → Extends seat.old.me.0 (Did (Settle (request_at seat.old.me.0.layout.cells cell generation))) seat.old.me.0.role seat.new.me.0 }
    ensures step { result ≡ true → IsStep (claim_at cell) (word_of Armed 0 generation deadline) seat.old.me.0 seat.new.me.0 }
    ensures looks { result ≢ true → Looks seat.old.me.0 seat.new.me.0 }
    ensures missed { result ≢ true → (n : ℕ) × IsStep (claim_at cell) n seat.old.me.0 seat.new.me.0 × Shown seat.old.me.0.layout.cells seat.new.me.0.seen cell n × (n ≢ word_of Armed 0 generation deadline) }
{
    let armed = claims::armed(generation, deadline);
    let settled = claims::settled(generation, in_time);
    words.compare_exchange::<plays::Settle>(seat, claim_word(cell), armed, settled) == armed
}

/// The LINK_TIMEOUT after this request, whose deadline has come, ends it with -125 (ECANCELED) where its claim word is `found`,
/// which says that it isn't running, or has it running still. `fails` says whether -125 is a failure of its entry. Gives the
/// word that was there.
pub fn fire(
    words: &Words,
    seat: &mut TableSeat,
    cell: usize,
    generation: u32,
    found: u64,
    fails: bool,
) -> u64
    requires fits { Fits words.now.table_id seat.old cell }
    requires poller { ((n : ℕ) × (seat.old.me.0.role ≡ Poller n)) × (0 < seat.old.me.0.parts) }
    requires small { generation < GENERATIONS }
    requires submitted { (request_at seat.old.me.0.layout.cells cell generation).k < submits (events_of seat.old.me.0.seen) (ring_of seat.old.me.0.layout.cells cell) }
    requires due { (d : ℕ) × (phase (events_of seat.old.me.0.seen) (request_after (request_at seat.old.me.0.layout.cells cell generation)) ≡ armed d) × (d ≤ clock_of (events_of seat.old.me.0.seen)) }
    requires target { IsTarget (events_of seat.old.me.0.seen) (request_after (request_at seat.old.me.0.layout.cells cell generation)) (request_at seat.old.me.0.layout.cells cell generation) }
    requires unfired { fired (events_of seat.old.me.0.seen) (request_after (request_at seat.old.me.0.layout.cells cell generation)) ≡ false }
    requires found { IsIdleWord generation found }
    requires fails { (e : Entry) × IsPlaced (events_of seat.old.me.0.seen) (request_at seat.old.me.0.layout.cells cell generation) e × (fails ≡ fails_with e (negsuc 124)) }
    ensures seat { IsSameSeat seat.old seat.new × (seat.new.me.1 ≡ seat.old.me.1) }
    ensures fires { result ≡ found → Extends seat.old.me.0 (Did (Fire (request_after (request_at seat.old.me.0.layout.cells cell generation)) (request_at seat.old.me.0.layout.cells cell generation))) seat.old.me.0.role seat.new.me.0 }
    ensures misses { result ≡ word_of Running 0 generation 0 → Extends seat.old.me.0 (Did (FireMiss (request_after (request_at seat.old.me.0.layout.cells cell generation)) (request_at seat.old.me.0.layout.cells cell generation))) seat.old.me.0.role seat.new.me.0 }
    ensures looks { result ≢ found → result ≢ word_of Running 0 generation 0 → Looks seat.old.me.0 seat.new.me.0 × Shown seat.old.me.0.layout.cells seat.new.me.0.seen cell result }
    ensures step { IsStep (claim_at cell) result seat.old.me.0 seat.new.me.0 }
{
    let fired = claims::fired(generation, fails);
    words.compare_exchange::<plays::Fire>(seat, claim_word(cell), found, fired)
}
