//! The claim words that steps write and look for.
ghost use Rattle.std.specs.Prelude.{◌≡◌, ◌≢◌, ◌⊎◌, ◌<◌, ℕ, List, pos, negsuc, false, cond, IfSome, IfNone};
ghost use Rattle.claim.specs.declared.tag.Tag.TheVariants.{Empty, Held, Ready, Armed, Done};
ghost use Rattle.claim.specs.declared.word.TheConstants.{GENERATIONS};
ghost use Rattle.history.specs.History.{by_reply, by_take, by_expire, by_count, by_fire, by_settle, by_sever, phase, unborn, IsReplied};
ghost use Rattle.steps.specs.declared.claims.Standing.TheVariants.{Idle, Running, Over};
ghost use Rattle.steps.specs.declared.line.Line.{Line};
ghost use Rattle.steps.specs.{request_at, word_of, reply_bits, cause_bits, events_of, IsIdleWord, Shown};

use claim::{Cause, ClaimWord, Tag, pack, unpack};

/// The reply of a request that was ended before it ran: -ECANCELED.
const CANCELED: i32 = -125;

/// The reply of a timer that ran out: -ETIME.
const TIMED_OUT: i32 = -62;

/// No request yet of this generation.
pub fn empty(generation: u32) -> u64
    requires { generation < GENERATIONS }
    ensures { result ≡ word_of Empty 0 generation 0 }
{
    pack(ClaimWord::empty(generation))
}

/// The request of this generation was submitted.
pub(crate) fn held(generation: u32) -> u64
    requires { generation < GENERATIONS }
    ensures { result ≡ word_of Held 0 generation 0 }
{
    pack(ClaimWord::held(generation))
}

/// A worker may begin the request.
pub fn ready(generation: u32) -> u64
    requires { generation < GENERATIONS }
    ensures { result ≡ word_of Ready 0 generation 0 }
{
    pack(ClaimWord::ready(generation))
}

/// A worker runs the request.
pub(crate) fn running(generation: u32) -> u64
    requires { generation < GENERATIONS }
    ensures { result ≡ word_of Tag.Running 0 generation 0 }
{
    pack(ClaimWord::running(generation))
}

/// A worker answered the request.
pub(crate) fn done(generation: u32, fails: bool, res: i32) -> u64
    requires { generation < GENERATIONS }
    ensures { (b : ℕ) → reply_bits res b → result ≡ word_of Done (cause_bits by_reply fails) generation b }
{
    pack(ClaimWord::done(generation, Cause::Reply, fails, res))
}

/// The request was ended by the failure of an earlier member of its chain.
pub(crate) fn severed(generation: u32, fails: bool) -> u64
    requires { generation < GENERATIONS }
    ensures { (b : ℕ) → reply_bits (negsuc 124) b → result ≡ word_of Done (cause_bits by_sever fails) generation b }
{
    pack(ClaimWord::done(generation, Cause::Sever, fails, CANCELED))
}

/// The timer of this generation runs out at a time of the clock, in ticks.
pub(crate) fn armed(generation: u32, deadline: u32) -> u64
    requires { generation < GENERATIONS }
    ensures { result ≡ word_of Armed 0 generation deadline }
{
    pack(ClaimWord::armed(generation, deadline))
}

/// A cancel took the request.
pub(crate) fn taken(generation: u32, fails: bool) -> u64
    requires { generation < GENERATIONS }
    ensures { (b : ℕ) → reply_bits (negsuc 124) b → result ≡ word_of Done (cause_bits by_take fails) generation b }
{
    pack(ClaimWord::done(generation, Cause::Take, fails, CANCELED))
}

/// The TIMEOUT ran out.
pub(crate) fn expired(generation: u32, fails: bool) -> u64
    requires { generation < GENERATIONS }
    ensures { (b : ℕ) → reply_bits (negsuc 61) b → result ≡ word_of Done (cause_bits by_expire fails) generation b }
{
    pack(ClaimWord::done(generation, Cause::Expire, fails, TIMED_OUT))
}

/// The TIMEOUT has counted enough completions.
pub(crate) fn counted(generation: u32) -> u64
    requires { generation < GENERATIONS }
    ensures { (b : ℕ) → reply_bits (pos 0) b → result ≡ word_of Done (cause_bits by_count false) generation b }
{
    pack(ClaimWord::done(generation, Cause::Count, false, 0))
}

/// The request was ended by its LINK_TIMEOUT.
pub(crate) fn fired(generation: u32, fails: bool) -> u64
    requires { generation < GENERATIONS }
    ensures { (b : ℕ) → reply_bits (negsuc 124) b → result ≡ word_of Done (cause_bits by_fire fails) generation b }
{
    pack(ClaimWord::done(generation, Cause::Fire, fails, CANCELED))
}

/// The LINK_TIMEOUT ran out in time, or else its target replied before.
pub(crate) fn settled(generation: u32, in_time: bool) -> u64
    requires { generation < GENERATIONS }
    ensures { (b : ℕ) → reply_bits (cond in_time (negsuc 61) (negsuc 124)) b → result ≡ word_of Done (cause_bits by_settle false) generation b }
{
    let reply = if in_time { TIMED_OUT } else { CANCELED };
    pack(ClaimWord::done(generation, Cause::Settle, false, reply))
}

/// Where a request stands for one that would end it before it runs.
#[derive(Clone, Copy)]
pub enum Standing {
    /// It waits or is armed.
    Idle,
    /// A worker runs it.
    Running,
    /// It has replied.
    Over,
}

/// Where the request of this generation stands, as the word of its cell tells.
pub fn stands_at(word: u64, generation: u32) -> Standing
    requires { generation < GENERATIONS }
    ensures idle { result ≡ Idle → IsIdleWord generation word }
    ensures running { result ≡ Running → word ≡ word_of Tag.Running 0 generation 0 }
    ensures still { result ≡ Over → word ≢ word_of Tag.Running 0 generation 0 }
    ensures over { result ≡ Over → (K : List ℕ) (j : List Line) (x : ℕ) → Shown K j x word → phase (events_of j) (request_at K x generation) ≢ unborn → IsReplied (phase (events_of j) (request_at K x generation)) }
{
    let Some(claim) = unpack(word) else {
        return Standing::Over;
    };
    if claim.generation != generation {
        return Standing::Over;
    }
    match claim.tag {
        Tag::Held | Tag::Ready | Tag::Armed => Standing::Idle,
        Tag::Running => Standing::Running,
        Tag::Empty | Tag::Done => Standing::Over,
    }
}

/// The word that an exchange looks for, of a request whose claim word was found so: the same, or that of a Ready request where
/// it was running. None where the request is over.
pub fn looked_for(found: u64, generation: u32) -> Option<u64>
    requires { generation < GENERATIONS }
    ensures some { IfSome result (λ e. IsIdleWord generation e × ((e ≡ found) ⊎ ((found ≡ word_of Tag.Running 0 generation 0) × (e ≡ word_of Ready 0 generation 0)))) }
    ensures none { IfNone result ((K : List ℕ) (j : List Line) (x : ℕ) → Shown K j x found → phase (events_of j) (request_at K x generation) ≢ unborn → IsReplied (phase (events_of j) (request_at K x generation))) }
{
    match stands_at(found, generation) {
        Standing::Idle => Some(found),
        Standing::Running => Some(ready(generation)),
        Standing::Over => None,
    }
}
