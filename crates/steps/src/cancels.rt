//! The step of a worker that runs a cancel, at the request that it is meant for.
ghost use Rattle.std.specs.Prelude.{◌≡◌, ◌≢◌, ℕ, ◌<◌, negsuc};
ghost use Rattle.claim.specs.declared.tag.Tag.TheVariants.{Running};
ghost use Rattle.claim.specs.declared.word.TheConstants.{GENERATIONS};
ghost use Rattle.entry.specs.Entry.{Entry, fails as fails_with};
ghost use Rattle.history.specs.declared.event.Event.TheVariants.{Take, Miss};
ghost use Rattle.history.specs.declared.req.Req.{Req};
ghost use Rattle.history.specs.{MayHit, IsPlaced, submits};
ghost use Rattle.steps.specs.declared.line.Line.TheVariants.{Did};
ghost use Rattle.steps.specs.declared.view.Role.TheVariants.{Busy};
ghost use Rattle.steps.specs.{events_of, ring_of, request_at, claim_at, word_of, Looks, Extends, Shown, IsStep, Fits, IsSameSeat, IsIdleWord};

use crate::layout::claim_word;
use crate::table::{TableSeat, Words};
use crate::{claims, plays};

/// The cancel that this seat runs ends the request with -125 (ECANCELED) where its claim word is `found`, which says that it isn't
/// running. The request is the first of its ring that the cancel matches and that has no reply, or, of a cancel of all its matches,
/// one that it hasn't found running. `fails` says whether -125 is a failure of the request's entry. Gives the word that was there.
pub fn take(
    words: &Words,
    seat: &mut TableSeat,
    cell: usize,
    generation: u32,
    found: u64,
    fails: bool,
) -> u64
    requires fits { Fits words.now.table_id seat.old cell }
    requires small { generation < GENERATIONS }
    requires submitted { (request_at seat.old.me.0.layout.cells cell generation).k < submits (events_of seat.old.me.0.seen) (ring_of seat.old.me.0.layout.cells cell) }
    requires cancel { (c : Req) × (seat.old.me.0.role ≡ Busy c) × MayHit (events_of seat.old.me.0.seen) c (request_at seat.old.me.0.layout.cells cell generation) }
    requires found { IsIdleWord generation found }
    requires fails { (e : Entry) × IsPlaced (events_of seat.old.me.0.seen) (request_at seat.old.me.0.layout.cells cell generation) e × (fails ≡ fails_with e (negsuc 124)) }
    ensures seat { IsSameSeat seat.old seat.new × (seat.new.me.1 ≡ seat.old.me.1) }
    ensures takes { result ≡ found → (c : Req) → seat.old.me.0.role ≡ Busy c → Extends seat.old.me.0 (Did (Take c (request_at seat.old.me.0.layout.cells cell generation))) seat.old.me.0.role seat.new.me.0 }
    ensures misses { result ≡ word_of Running 0 generation 0 → (c : Req) → seat.old.me.0.role ≡ Busy c → Extends seat.old.me.0 (Did (Miss c (request_at seat.old.me.0.layout.cells cell generation))) seat.old.me.0.role seat.new.me.0 }
    ensures looks { result ≢ found → result ≢ word_of Running 0 generation 0 → Looks seat.old.me.0 seat.new.me.0 × Shown seat.old.me.0.layout.cells seat.new.me.0.seen cell result }
    ensures step { IsStep (claim_at cell) result seat.old.me.0 seat.new.me.0 }
{
    let taken = claims::taken(generation, fails);
    words.compare_exchange::<plays::Take>(seat, claim_word(cell), found, taken)
}
