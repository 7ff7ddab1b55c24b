//! Single steps of a seat on a request's path.
ghost use Rattle.std.specs.Prelude.{◌≡◌, ◌≢◌, ℕ, ◌+◌, ◌*◌, ◌<◌, true, negsuc, List, [], Some};
ghost use Rattle.atomic_table.specs.Table.{rest};
ghost use Rattle.claim.specs.declared.tag.Tag.TheVariants.{Held, Ready, Running};
ghost use Rattle.claim.specs.declared.word.TheConstants.{GENERATIONS};
ghost use Rattle.entry.specs.Entry.{Entry, fails as fails_with};
ghost use Rattle.history.specs.declared.event.Event.TheVariants.{Begin, Park, Reply, Sever};
ghost use Rattle.history.specs.{IsPlaced, Severed, hit, nothing, submits};
ghost use Rattle.steps.specs.declared.line.Line.TheVariants.{Did, Freed};
ghost use Rattle.steps.specs.declared.view.Role.TheVariants.{Poller, Idle, Busy, Spent};
ghost use Rattle.steps.specs.{events_of, noted, holder, FactsTell, NotesTell, ring_of, request_at, claim_at, note_at, word_of, MayBegin, Looks, Extends, Shown, IsStep, Fits, IsSameSeat, Hands, MayReply};

use crate::layout::{claim_word, note_word};
use crate::table::{TableSeat, Words};
use crate::{claims, plays};

/// The reply to the request that runs in this cell. `fails` says whether that is a failure of it.
#[derive(Clone, Copy)]
pub struct Response {
    pub cell: usize,
    pub generation: u32,
    pub fails: bool,
    pub res: i32,
}

/// Loads the claim word of the cell.
pub fn look(words: &Words, seat: &mut TableSeat, cell: usize) -> u64
    requires fits { Fits words.now.table_id seat.old cell }
    requires live { seat.old.me.0.role ≢ Spent }
    ensures seat { IsSameSeat seat.old seat.new × (seat.new.me.1 ≡ seat.old.me.1) }
    ensures looks { Looks seat.old.me.0 seat.new.me.0 }
    ensures shown { Shown seat.old.me.0.layout.cells seat.new.me.0.seen cell result }
    ensures step { IsStep (claim_at cell) result seat.old.me.0 seat.new.me.0 }
{
    words.load::<plays::Look>(seat, claim_word(cell))
}

/// Loads a note word of the cell, which has what was stored there last: of a request that was submitted and not reaped its
/// facts, the outcome in them once it is reaped, and its user_data. Its facts stay there until a later request of the cell has
/// its own stored, which comes only once the whole chain of this one has replied.
pub fn look_at_note(words: &Words, seat: &mut TableSeat, cell: usize, number: usize) -> u64
    requires fits { Fits words.now.table_id seat.old cell }
    requires there { number < 7 }
    requires live { seat.old.me.0.role ≢ Spent }
    ensures seat { IsSameSeat seat.old seat.new × (seat.new.me.1 ≡ seat.old.me.1) }
    ensures looks { Looks seat.old.me.0 seat.new.me.0 }
    ensures noted { result ≡ noted seat.new.me.0.seen (note_at cell number) }
    ensures tells { NotesTell seat.old.me.0.layout.cells seat.new.me.0.seen cell }
    ensures facts { FactsTell seat.old.me.0.layout.cells seat.new.me.0.seen cell }
    ensures step { IsStep (note_at cell number) result seat.old.me.0 seat.new.me.0 }
{
    words.load::<plays::LookAtNote>(seat, note_word(cell, number))
}

/// Moves a Held request to Ready, or reports what else was found.
pub fn release(words: &Words, seat: &mut TableSeat, cell: usize, generation: u32) -> bool
    requires fits { Fits words.now.table_id seat.old cell }
    requires poller { ((n : ℕ) × (seat.old.me.0.role ≡ Poller n)) × (0 < seat.old.me.0.parts) }
    requires small { generation < GENERATIONS }
    requires submitted { (request_at seat.old.me.0.layout.cells cell generation).k < submits (events_of seat.old.me.0.seen) (ring_of seat.old.me.0.layout.cells cell) }
    requires may { MayBegin seat.old.me.0.seen (request_at seat.old.me.0.layout.cells cell generation) }
    ensures seat { IsSameSeat seat.old seat.new × (seat.new.me.1 ≡ seat.old.me.1) }
    ensures frees { result ≡ true → Extends seat.old.me.0 (Freed (request_at seat.old.me.0.layout.cells cell generation)) seat.old.me.0.role seat.new.me.0 }
    ensures step { result ≡ true → IsStep (claim_at cell) (word_of Held 0 generation 0) seat.old.me.0 seat.new.me.0 }
    ensures looks { result ≢ true → Looks seat.old.me.0 seat.new.me.0 }
    ensures missed { result ≢ true → (n : ℕ) × IsStep (claim_at cell) n seat.old.me.0 seat.new.me.0 × Shown seat.old.me.0.layout.cells seat.new.me.0.seen cell n × (n ≢ word_of Held 0 generation 0) }
{
    let held = claims::held(generation);
    let ready = claims::ready(generation);
    words.compare_exchange::<plays::Release>(seat, claim_word(cell), held, ready) == held
}

/// Ends a Held request of which an earlier member of its chain has failed: it is answered with -125 (ECANCELED). `fails` says
/// whether that is a failure of its entry. Else it reports what was found.
/// What is severed was never open by its own place, so no worker has it.
pub fn sever(words: &Words, seat: &mut TableSeat, cell: usize, generation: u32, fails: bool) -> bool
    requires fits { Fits words.now.table_id seat.old cell }
    requires poller { ((n : ℕ) × (seat.old.me.0.role ≡ Poller n)) × (0 < seat.old.me.0.parts) }
    requires small { generation < GENERATIONS }
    requires submitted { (request_at seat.old.me.0.layout.cells cell generation).k < submits (events_of seat.old.me.0.seen) (ring_of seat.old.me.0.layout.cells cell) }
    requires may { Severed (events_of seat.old.me.0.seen) (request_at seat.old.me.0.layout.cells cell generation) }
    requires fails { (e : Entry) × IsPlaced (events_of seat.old.me.0.seen) (request_at seat.old.me.0.layout.cells cell generation) e × (fails ≡ fails_with e (negsuc 124)) }
    ensures seat { IsSameSeat seat.old seat.new × (seat.new.me.1 ≡ seat.old.me.1) }
    ensures severs { result ≡ true → Extends seat.old.me.0 (Did (Sever (request_at seat.old.me.0.layout.cells cell generation))) seat.old.me.0.role seat.new.me.0 }
    ensures step { result ≡ true → IsStep (claim_at cell) (word_of Held 0 generation 0) seat.old.me.0 seat.new.me.0 }
    ensures looks { result ≢ true → Looks seat.old.me.0 seat.new.me.0 }
    ensures missed { result ≢ true → (n : ℕ) × IsStep (claim_at cell) n seat.old.me.0 seat.new.me.0 × Shown seat.old.me.0.layout.cells seat.new.me.0.seen cell n × (n ≢ word_of Held 0 generation 0) }
{
    let held = claims::held(generation);
    let severed = claims::severed(generation, fails);
    words.compare_exchange::<plays::Sever>(seat, claim_word(cell), held, severed) == held
}

/// Begins a request that is Ready, or reports that it isn't.
pub fn begin(words: &Words, seat: &mut TableSeat, cell: usize, generation: u32) -> bool
    requires fits { Fits words.now.table_id seat.old cell }
    requires idle { (seat.old.me.0.role ≡ Idle) × (0 < seat.old.me.0.parts) }
    requires small { generation < GENERATIONS }
    ensures seat { IsSameSeat seat.old seat.new }
    ensures begins { result ≡ true → Extends seat.old.me.0 (Did (Begin (request_at seat.old.me.0.layout.cells cell generation))) (Busy (request_at seat.old.me.0.layout.cells cell generation)) seat.new.me.0 × Hands seat.new.me cell (request_at seat.old.me.0.layout.cells cell generation) [] seat.old.me.1 × ((p : ℕ) → holder seat.new.me.0.seen p ≢ Some (request_at seat.old.me.0.layout.cells cell generation)) }
    ensures step { result ≡ true → IsStep (claim_at cell) (word_of Ready 0 generation 0) seat.old.me.0 seat.new.me.0 }
    ensures looks { result ≢ true → Looks seat.old.me.0 seat.new.me.0 × (seat.new.me.1 ≡ seat.old.me.1) }
    ensures missed { result ≢ true → (n : ℕ) × IsStep (claim_at cell) n seat.old.me.0 seat.new.me.0 × Shown seat.old.me.0.layout.cells seat.new.me.0.seen cell n × (n ≢ word_of Ready 0 generation 0) }
{
    let ready = claims::ready(generation);
    let running = claims::running(generation);
    words.compare_exchange::<plays::Begin>(seat, claim_word(cell), ready, running) == ready
}

/// Replies to the request that this seat runs, which needs no pipe of the board.
#[inline(always)]
pub fn reply(words: &Words, seat: &mut TableSeat, response: Response)
    requires fits { Fits words.now.table_id seat.old response.cell }
    requires small { response.generation < GENERATIONS }
    requires busy { seat.old.me.0.role ≡ Busy (request_at seat.old.me.0.layout.cells response.cell response.generation) }
    requires bare { (p : ℕ) → holder seat.old.me.0.seen p ≢ Some (request_at seat.old.me.0.layout.cells response.cell response.generation) }
    requires answer { (e : Entry) × (data' : List ℕ) × MayReply seat.old.me response.cell (request_at seat.old.me.0.layout.cells response.cell response.generation) e response.res data' × (response.fails ≡ fails_with e response.res) }
    ensures seat { IsSameSeat seat.old seat.new × (seat.new.me.1 ≡ rest seat.old.me.1) }
    ensures ended { (seat.new.me.0.role ≡ Idle) × (seat.new.me.0.parts ≡ seat.old.me.0.parts) × (seat.new.me.0.layout ≡ seat.old.me.0.layout) }
    ensures replies { (e : Entry) (data' : List ℕ) → MayReply seat.old.me response.cell (request_at seat.old.me.0.layout.cells response.cell response.generation) e response.res data' → Extends seat.old.me.0 (Did (Reply (request_at seat.old.me.0.layout.cells response.cell response.generation) response.res data')) Idle seat.new.me.0 }
    ensures step { IsStep (claim_at response.cell) (word_of Running 0 response.generation 0) seat.old.me.0 seat.new.me.0 }
{
    let running = claims::running(response.generation);
    let done = claims::done(response.generation, response.fails, response.res);
    words.compare_exchange::<plays::Reply>(seat, claim_word(response.cell), running, done);
}

/// Puts the request that this seat runs back to Ready. It is no cancel that took a request, or found one running.
pub fn park(words: &Words, seat: &mut TableSeat, cell: usize, generation: u32)
    requires fits { Fits words.now.table_id seat.old cell }
    requires small { generation < GENERATIONS }
    requires busy { seat.old.me.0.role ≡ Busy (request_at seat.old.me.0.layout.cells cell generation) }
    requires submission { Hands seat.old.me cell (request_at seat.old.me.0.layout.cells cell generation) [] (rest seat.old.me.1) }
    requires unhit { hit (events_of seat.old.me.0.seen) (request_at seat.old.me.0.layout.cells cell generation) ≡ nothing }
    requires bare { (p : ℕ) → holder seat.old.me.0.seen p ≢ Some (request_at seat.old.me.0.layout.cells cell generation) }
    ensures seat { IsSameSeat seat.old seat.new × (seat.new.me.1 ≡ rest seat.old.me.1) }
    ensures parks { Extends seat.old.me.0 (Did (Park (request_at seat.old.me.0.layout.cells cell generation))) Idle seat.new.me.0 }
    ensures step { IsStep (claim_at cell) (word_of Running 0 generation 0) seat.old.me.0 seat.new.me.0 }
{
    let running = claims::running(generation);
    let ready = claims::ready(generation);
    words.compare_exchange::<plays::Park>(seat, claim_word(cell), running, ready);
}
