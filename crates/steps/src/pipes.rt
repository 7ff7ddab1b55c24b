//! The steps of a worker on its pipes: it takes one, or two of them, and gives them back, with its request or without, or replies and
//! then gives them back.
ghost use Rattle.std.specs.Prelude.{◌≡◌, ◌≢◌, ℕ, ◌+◌, ◌<◌, true, List, length, Some};
ghost use Rattle.atomic_table.specs.Table.{rest};
ghost use Rattle.claim.specs.declared.tag.Tag.TheVariants.{Running};
ghost use Rattle.claim.specs.declared.word.TheConstants.{GENERATIONS};
ghost use Rattle.entry.specs.Entry.{Entry, fails as fails_with};
ghost use Rattle.history.specs.declared.event.Event.TheVariants.{Reply};
ghost use Rattle.history.specs.declared.req.Req.{Req};
ghost use Rattle.steps.specs.declared.line.Line.TheVariants.{Did, Hold, Free};
ghost use Rattle.steps.specs.declared.view.Role.TheVariants.{Idle, Busy, Leaving, Parting};
ghost use Rattle.steps.specs.declared.view.View.{View};
ghost use Rattle.steps.specs.{HasWaited, MayLay, events_of, holder, request_at, claim_at, pipe_at, word_of, Looks, Extends, IsStep, IsTwoSteps, IsThreeSteps, Fits, IsSameSeat, leaves, leaves_one, HasAlone, HasBoth, HasPipe, HasPipeLaid, HasPipeAfter, HasPipesAfter, IsSamePipe, MayReply, FitsPipe};

use crate::layout::{claim_word, pipe_word};
use crate::line::Laid;
use crate::seat::Response;
use crate::table::{TableSeat, Words};
use crate::{claims, plays};

/// The word of a pipe that is at home, in its slot.
const AT_HOME: u64 = 0;

/// The word of a pipe that is out with a worker.
const OUT: u64 = 1;

/// Takes the pipe for the request that this seat runs. False where some worker has it.
fn take(words: &Words, seat: &mut TableSeat, pipe: usize) -> bool
    requires fits { FitsPipe words.now.table_id seat.old pipe }
    requires busy { (q : Req) × (seat.old.me.0.role ≡ Busy q) }
    ensures seat { IsSameSeat seat.old seat.new }
    ensures holds { result ≡ true → (q : Req) → seat.old.me.0.role ≡ Busy q → Extends seat.old.me.0 (Hold q pipe) (Busy q) seat.new.me.0 × HasPipe seat.new.me pipe seat.old.me.1 }
    ensures step { result ≡ true → IsStep (pipe_at pipe) 0 seat.old.me.0 seat.new.me.0 }
    ensures looks { result ≢ true → Looks seat.old.me.0 seat.new.me.0 × (seat.new.me.1 ≡ seat.old.me.1) }
    ensures missed { result ≢ true → (n : ℕ) × IsStep (pipe_at pipe) n seat.old.me.0 seat.new.me.0 × (n ≢ 0) × (other : Req) × (holder seat.new.me.0.seen pipe ≡ Some other) }
{
    words.compare_exchange::<plays::Hold>(seat, pipe_word(pipe), AT_HOME, OUT) == AT_HOME
}

/// Takes the pipe for the request that this seat runs. False where another worker has it.
pub fn hold(words: &Words, seat: &mut TableSeat, pipe: usize) -> bool
    requires fits { FitsPipe words.now.table_id seat.old pipe }
    requires busy { (q : Req) × (seat.old.me.0.role ≡ Busy q) × ((n : ℕ) → holder seat.old.me.0.seen n ≢ Some q) }
    ensures seat { IsSameSeat seat.old seat.new }
    ensures holds { result ≡ true → (q : Req) → seat.old.me.0.role ≡ Busy q → Extends seat.old.me.0 (Hold q pipe) (Busy q) seat.new.me.0 × HasAlone seat.new.me.0.seen pipe q × HasPipe seat.new.me pipe seat.old.me.1 }
    ensures step { result ≡ true → IsStep (pipe_at pipe) 0 seat.old.me.0 seat.new.me.0 }
    ensures looks { result ≢ true → Looks seat.old.me.0 seat.new.me.0 × (seat.new.me.1 ≡ seat.old.me.1) }
    ensures missed { result ≢ true → (n : ℕ) × IsStep (pipe_at pipe) n seat.old.me.0 seat.new.me.0 × (n ≢ 0) × (other : Req) × (holder seat.new.me.0.seen pipe ≡ Some other) × (seat.new.me.0.role ≢ Busy other) }
{
    take(words, seat, pipe)
}

/// Takes a second pipe for the request that this seat runs, which has one already. False where another worker has it. The first
/// one stays as it was.
pub fn hold_second(words: &Words, seat: &mut TableSeat, second: usize) -> bool
    requires fits { FitsPipe words.now.table_id seat.old second }
    requires busy { (q : Req) × (first : ℕ) × (seat.old.me.0.role ≡ Busy q) × (first ≢ second) × (first < length seat.old.me.0.layout.caps) × HasAlone seat.old.me.0.seen first q }
    ensures seat { IsSameSeat seat.old seat.new }
    ensures holds { result ≡ true → (q : Req) (first : ℕ) → seat.old.me.0.role ≡ Busy q → HasAlone seat.old.me.0.seen first q → Extends seat.old.me.0 (Hold q second) (Busy q) seat.new.me.0 × HasBoth seat.new.me.0.seen first second q × HasPipe seat.new.me second seat.old.me.1 }
    ensures step { result ≡ true → IsStep (pipe_at second) 0 seat.old.me.0 seat.new.me.0 }
    ensures looks { result ≢ true → Looks seat.old.me.0 seat.new.me.0 × (seat.new.me.1 ≡ seat.old.me.1) }
    ensures alone { result ≢ true → (q : Req) (first : ℕ) → seat.old.me.0.role ≡ Busy q → HasAlone seat.old.me.0.seen first q → HasAlone seat.new.me.0.seen first q }
    ensures missed { result ≢ true → (n : ℕ) × IsStep (pipe_at second) n seat.old.me.0 seat.new.me.0 × (n ≢ 0) × (other : Req) × (holder seat.new.me.0.seen second ≡ Some other) × (seat.new.me.0.role ≢ Busy other) }
    ensures same { (q : Req) (first : ℕ) → seat.old.me.0.role ≡ Busy q → HasAlone seat.old.me.0.seen first q → IsSamePipe seat.old.me.0 seat.new.me.0 first }
{
    take(words, seat, second)
}

/// Gives the pipe back, as it was taken, by a worker that has not replied. Its request lies there then, or not.
fn give_back(words: &Words, seat: &mut TableSeat, pipe: usize, laid: Laid)
    requires fits { FitsPipe words.now.table_id seat.old pipe }
    requires busy { (q : Req) × (seat.old.me.0.role ≡ Busy q) × (holder seat.old.me.0.seen pipe ≡ Some q) }
    requires pipe { (q : Req) → seat.old.me.0.role ≡ Busy q → HasPipeLaid seat.old.me pipe q laid × MayLay seat.old.me.0.layout.caps (events_of seat.old.me.0.seen) q pipe laid }
    ensures seat { IsSameSeat seat.old seat.new × (seat.new.me.1 ≡ rest seat.old.me.1) }
    ensures frees { (q : Req) → seat.old.me.0.role ≡ Busy q → Extends seat.old.me.0 (Free q pipe laid) (Busy q) seat.new.me.0 }
    ensures step { (found : ℕ) × IsStep (pipe_at pipe) found seat.old.me.0 seat.new.me.0 }
{
    let word = pipe_word(pipe);
    match laid {
        Laid::NoRequest => words.store::<plays::Free>(seat, word, AT_HOME),
        Laid::Behind => words.store::<plays::Lay>(seat, word, AT_HOME),
        Laid::Alone => words.store::<plays::LayAlone>(seat, word, AT_HOME),
    }
}

/// Gives the only pipe back, as it was taken, by a worker that has not replied, and lays its request down there, or not.
pub fn free(words: &Words, seat: &mut TableSeat, pipe: usize, laid: Laid)
    requires fits { FitsPipe words.now.table_id seat.old pipe }
    requires busy { (q : Req) × (seat.old.me.0.role ≡ Busy q) × (0 < seat.old.me.0.parts) × HasAlone seat.old.me.0.seen pipe q }
    requires pipe { (q : Req) → seat.old.me.0.role ≡ Busy q → HasPipeLaid seat.old.me pipe q laid × MayLay seat.old.me.0.layout.caps (events_of seat.old.me.0.seen) q pipe laid }
    ensures seat { IsSameSeat seat.old seat.new × (seat.new.me.1 ≡ rest seat.old.me.1) }
    ensures frees { (q : Req) → seat.old.me.0.role ≡ Busy q → Extends seat.old.me.0 (Free q pipe laid) (Busy q) seat.new.me.0 × ((n : ℕ) → holder seat.new.me.0.seen n ≢ Some q) }
    ensures step { (found : ℕ) × IsStep (pipe_at pipe) found seat.old.me.0 seat.new.me.0 }
{
    give_back(words, seat, pipe, laid);
}

/// Gives one of two pipes back, as it was taken, by a worker that has not replied, and lays its request down there, or not. The
/// other one stays as it was, and what waited for it does so still.
pub fn free_one(words: &Words, seat: &mut TableSeat, one: usize, laid: Laid)
    requires fits { FitsPipe words.now.table_id seat.old one }
    requires busy { (q : Req) × (kept : ℕ) × (seat.old.me.0.role ≡ Busy q) × (kept < length seat.old.me.0.layout.caps) × HasBoth seat.old.me.0.seen one kept q }
    requires pipe { (q : Req) → seat.old.me.0.role ≡ Busy q → HasPipeLaid seat.old.me one q laid × MayLay seat.old.me.0.layout.caps (events_of seat.old.me.0.seen) q one laid }
    ensures seat { IsSameSeat seat.old seat.new × (seat.new.me.1 ≡ rest seat.old.me.1) }
    ensures frees { (q : Req) (kept : ℕ) → seat.old.me.0.role ≡ Busy q → HasBoth seat.old.me.0.seen one kept q → Extends seat.old.me.0 (Free q one laid) (Busy q) seat.new.me.0 × HasAlone seat.new.me.0.seen kept q × IsSamePipe seat.old.me.0 seat.new.me.0 kept × (HasWaited seat.old.me.0.layout.caps q kept (events_of seat.old.me.0.seen) → HasWaited seat.old.me.0.layout.caps q kept (events_of seat.new.me.0.seen)) }
    ensures step { (found : ℕ) × IsStep (pipe_at one) found seat.old.me.0 seat.new.me.0 }
{
    give_back(words, seat, one, laid);
}

/// Replies to the request that this seat runs, whose pipe it has, or whose two pipes.
#[inline(always)]
fn reply_holding(words: &Words, seat: &mut TableSeat, response: Response)
    requires fits { Fits words.now.table_id seat.old response.cell }
    requires small { response.generation < GENERATIONS }
    requires busy { seat.old.me.0.role ≡ Busy (request_at seat.old.me.0.layout.cells response.cell response.generation) }
    requires answer { (e : Entry) × (data' : List ℕ) × MayReply seat.old.me response.cell (request_at seat.old.me.0.layout.cells response.cell response.generation) e response.res data' × (response.fails ≡ fails_with e response.res) }
    ensures seat { IsSameSeat seat.old seat.new × (seat.new.me.1 ≡ rest seat.old.me.1) }
    ensures replies { (e : Entry) (data' : List ℕ) → MayReply seat.old.me response.cell (request_at seat.old.me.0.layout.cells response.cell response.generation) e response.res data' → Extends seat.old.me.0 (Did (Reply (request_at seat.old.me.0.layout.cells response.cell response.generation) response.res data')) (Leaving (request_at seat.old.me.0.layout.cells response.cell response.generation)) seat.new.me.0 }
    ensures step { IsStep (claim_at response.cell) (word_of Running 0 response.generation 0) seat.old.me.0 seat.new.me.0 }
{
    let running = claims::running(response.generation);
    let done = claims::done(response.generation, response.fails, response.res);
    words.compare_exchange::<plays::ReplyWithPipe>(seat, claim_word(response.cell), running, done);
}

/// Gives the pipe back, by a worker that has replied.
fn leave(words: &Words, seat: &mut TableSeat, pipe: usize)
    requires fits { FitsPipe words.now.table_id seat.old pipe }
    requires leaving { (q : Req) × (seat.old.me.0.role ≡ Leaving q) × HasAlone seat.old.me.0.seen pipe q }
    requires pipe { HasPipe seat.old.me pipe (rest seat.old.me.1) }
    ensures seat { IsSameSeat seat.old seat.new × (seat.new.me.1 ≡ rest seat.old.me.1) }
    ensures leaves { (found : ℕ) × (seat.new.me.0 ≡ leaves (pipe_at pipe) found seat.old.me.0) }
{
    words.store::<plays::Leave>(seat, pipe_word(pipe), AT_HOME);
}

/// Replies to the request that this seat runs, and gives back its pipe, which is already what the reply makes of it.
#[inline(always)]
pub fn reply(words: &Words, seat: &mut TableSeat, response: Response, pipe: usize)
    requires fits { Fits words.now.table_id seat.old response.cell }
    requires pipe_fits { FitsPipe words.now.table_id seat.old pipe }
    requires small { response.generation < GENERATIONS }
    requires busy { seat.old.me.0.role ≡ Busy (request_at seat.old.me.0.layout.cells response.cell response.generation) }
    requires alone { HasAlone seat.old.me.0.seen pipe (request_at seat.old.me.0.layout.cells response.cell response.generation) }
    requires answer { (e : Entry) × (data' : List ℕ) × MayReply seat.old.me response.cell (request_at seat.old.me.0.layout.cells response.cell response.generation) e response.res data' × (response.fails ≡ fails_with e response.res) × HasPipeAfter seat.old.me pipe (request_at seat.old.me.0.layout.cells response.cell response.generation) e response.res }
    ensures seat { IsSameSeat seat.old seat.new × (seat.new.me.1 ≡ rest (rest seat.old.me.1)) }
    ensures ended { (seat.new.me.0.role ≡ Idle) × (seat.new.me.0.parts ≡ seat.old.me.0.parts) × (seat.new.me.0.layout ≡ seat.old.me.0.layout) }
    ensures replies { (e : Entry) (data' : List ℕ) → MayReply seat.old.me response.cell (request_at seat.old.me.0.layout.cells response.cell response.generation) e response.res data' → (mid : View) × Extends seat.old.me.0 (Did (Reply (request_at seat.old.me.0.layout.cells response.cell response.generation) response.res data')) (Leaving (request_at seat.old.me.0.layout.cells response.cell response.generation)) mid × (found : ℕ) × (seat.new.me.0 ≡ leaves (pipe_at pipe) found mid) }
    ensures steps { IsTwoSteps (claim_at response.cell) (pipe_at pipe) seat.old.me.0 seat.new.me.0 }
{
    reply_holding(words, seat, response);
    leave(words, seat, pipe);
}

/// Gives one of two pipes back, by a worker that has replied. It keeps the other one.
fn leave_first(words: &Words, seat: &mut TableSeat, pipe: usize)
    requires fits { FitsPipe words.now.table_id seat.old pipe }
    requires leaving { (q : Req) × (kept : ℕ) × (seat.old.me.0.role ≡ Leaving q) × HasBoth seat.old.me.0.seen pipe kept q }
    requires pipe { HasPipe seat.old.me pipe (rest seat.old.me.1) }
    ensures seat { IsSameSeat seat.old seat.new × (seat.new.me.1 ≡ rest seat.old.me.1) }
    ensures leaves { (q : Req) (kept : ℕ) → seat.old.me.0.role ≡ Leaving q → HasBoth seat.old.me.0.seen pipe kept q → (found : ℕ) × (seat.new.me.0 ≡ leaves_one q kept (pipe_at pipe) found seat.old.me.0) }
{
    words.store::<plays::LeaveFirst>(seat, pipe_word(pipe), AT_HOME);
}

/// Gives the last pipe back, by a worker that has replied and given the other one back.
fn leave_last(words: &Words, seat: &mut TableSeat, pipe: usize)
    requires fits { FitsPipe words.now.table_id seat.old pipe }
    requires parting { (q : Req) × (seat.old.me.0.role ≡ Parting q pipe) × (holder seat.old.me.0.seen pipe ≡ Some q) }
    requires pipe { HasPipe seat.old.me pipe (rest seat.old.me.1) }
    ensures seat { IsSameSeat seat.old seat.new × (seat.new.me.1 ≡ rest seat.old.me.1) }
    ensures leaves { (found : ℕ) × (seat.new.me.0 ≡ leaves (pipe_at pipe) found seat.old.me.0) }
{
    words.store::<plays::LeaveLast>(seat, pipe_word(pipe), AT_HOME);
}

/// Gives both pipes back, by a worker that has replied.
fn leave_both(words: &Words, seat: &mut TableSeat, first: usize, second: usize)
    requires fits { FitsPipe words.now.table_id seat.old first × FitsPipe words.now.table_id seat.old second }
    requires leaving { (q : Req) × (seat.old.me.0.role ≡ Leaving q) × HasBoth seat.old.me.0.seen first second q }
    requires pipes { HasPipe seat.old.me first (rest seat.old.me.1) × HasPipe (seat.old.me.0, rest seat.old.me.1) second (rest (rest seat.old.me.1)) }
    ensures seat { IsSameSeat seat.old seat.new × (seat.new.me.1 ≡ rest (rest seat.old.me.1)) }
    ensures leaves { (q : Req) → seat.old.me.0.role ≡ Leaving q → (found : ℕ) × (n : ℕ) × (seat.new.me.0 ≡ leaves (pipe_at second) n (leaves_one q second (pipe_at first) found seat.old.me.0)) }
{
    leave_first(words, seat, first);
    leave_last(words, seat, second);
}

/// Replies to the request that this seat runs, and gives back its two pipes, which are already what the reply makes of them:
/// `first`, which lies right below the submission, and then `second`, which lies below that.
#[inline(always)]
pub fn reply_both(
    words: &Words,
    seat: &mut TableSeat,
    response: Response,
    first: usize,
    second: usize,
)
    requires fits { Fits words.now.table_id seat.old response.cell }
    requires pipes_fit { FitsPipe words.now.table_id seat.old first × FitsPipe words.now.table_id seat.old second }
    requires small { response.generation < GENERATIONS }
    requires busy { seat.old.me.0.role ≡ Busy (request_at seat.old.me.0.layout.cells response.cell response.generation) }
    requires both { HasBoth seat.old.me.0.seen first second (request_at seat.old.me.0.layout.cells response.cell response.generation) }
    requires answer { (e : Entry) × (data' : List ℕ) × MayReply seat.old.me response.cell (request_at seat.old.me.0.layout.cells response.cell response.generation) e response.res data' × (response.fails ≡ fails_with e response.res) × HasPipesAfter seat.old.me first second (request_at seat.old.me.0.layout.cells response.cell response.generation) e response.res }
    ensures seat { IsSameSeat seat.old seat.new × (seat.new.me.1 ≡ rest (rest (rest seat.old.me.1))) }
    ensures ended { (seat.new.me.0.role ≡ Idle) × (seat.new.me.0.parts ≡ seat.old.me.0.parts) × (seat.new.me.0.layout ≡ seat.old.me.0.layout) }
    ensures replies { (e : Entry) (data' : List ℕ) → MayReply seat.old.me response.cell (request_at seat.old.me.0.layout.cells response.cell response.generation) e response.res data' → (mid : View) × Extends seat.old.me.0 (Did (Reply (request_at seat.old.me.0.layout.cells response.cell response.generation) response.res data')) (Leaving (request_at seat.old.me.0.layout.cells response.cell response.generation)) mid × (found : ℕ) × (n : ℕ) × (seat.new.me.0 ≡ leaves (pipe_at second) n (leaves_one (request_at seat.old.me.0.layout.cells response.cell response.generation) second (pipe_at first) found mid)) }
    ensures steps { IsThreeSteps (claim_at response.cell) (pipe_at first) (pipe_at second) seat.old.me.0 seat.new.me.0 }
{
    reply_holding(words, seat, response);
    leave_both(words, seat, first, second);
}
