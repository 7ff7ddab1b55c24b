//! What a submitter notes of its request: the word of facts, and the count of a TIMEOUT.
ghost use Rattle.std.specs.Prelude.{◌≡◌, ◌≤◌, ℕ, ◌+◌, ◌*◌, ◌<◌, Option};
ghost use Rattle.limits.specs.declared.TheConstants.{TICK};
ghost use Rattle.claim.specs.declared.word.TheConstants.{GENERATIONS};
ghost use Rattle.history.specs.{Submitted, hosts, placed_behind};
ghost use Rattle.steps.specs.Notes.{count_in, etime_in, facts_of, row_number, ticks_in};

use claim::{FactsWord, pack_facts};
use entry::{Op, Sqe, by_opcode};

/// The number of NOP among the facts.
pub const NOP: u8 = 0;

/// That of TIMEOUT.
pub const TIMEOUT: u8 = 2;

/// That of LINK_TIMEOUT.
pub const LINK_TIMEOUT: u8 = 5;

/// That of all Invalid entries.
pub const INVALID: u8 = 10;

macro_rules! row_number {
    (($op:expr) $($text:literal $name:ident { $($field:ident),* } = $code:tt: $fd:tt $off:tt $addr:tt $len:tt $word:tt $splice_fd_in:tt $flags:tt $fails:tt;)*) => {
        match $op {
            $(Op::$name { .. } => number_of!($code),)*
            Op::Invalid => INVALID,
        }
    };
}

macro_rules! number_of {
    (0) => { NOP };
    (6) => { 1 };
    (11) => { TIMEOUT };
    (12) => { 3 };
    (14) => { 4 };
    (15) => { LINK_TIMEOUT };
    (19) => { 6 };
    (22) => { 7 };
    (23) => { 8 };
    (30) => { 9 };
}

macro_rules! ticks_in {
    (($op:expr) $($text:literal $name:ident { $($field:ident),* } = $code:literal: $fd:tt $off:tt [$($addr:tt)*] $len:tt $word:tt $splice_fd_in:tt $flags:tt $fails:tt;)*) => {
        match $op {
            $(Op::$name { $($field),* } => ticks_column!($($addr)*),)*
            Op::Invalid => 0,
        }
    };
}

macro_rules! ticks_column {
    (zero) => { 0 };
    (current) => { 0 };
    (target $word:ident) => { 0 };
    (ticks $ticks:ident) => { $ticks };
}

macro_rules! count_in {
    (($op:expr) $($text:literal $name:ident { $($field:ident),* } = $code:literal: $fd:tt [$($off:tt)*] $addr:tt $len:tt $word:tt $splice_fd_in:tt $flags:tt $fails:tt;)*) => {
        match $op {
            $(Op::$name { $($field),* } => count_column!($($off)*),)*
            Op::Invalid => None,
        }
    };
}

macro_rules! count_column {
    (zero) => { None };
    (current) => { None };
    (place $offset:ident) => { None };
    (completions $count:ident) => { Some($count) };
}

macro_rules! etime_in {
    (($op:expr) $($text:literal $name:ident { $($field:ident),* } = $code:tt: $fd:tt $off:tt $addr:tt $len:tt $word:tt $splice_fd_in:tt $flags:tt [$($fails:tt)*];)*) => {
        match $op {
            $(Op::$name { $($field),* } => etime_column!($($fails)*),)*
            Op::Invalid => false,
        }
    };
}

macro_rules! etime_column {
    (never) => { false };
    (negative) => { false };
    (short $len:ident) => { false };
    (unless_etime $success:ident) => { $success };
}

/// The operation's number: its row of the table of opcodes, and after them all Invalid.
fn row_number(op: Op) -> u8
    ensures row { result ≡ row_number op }
    ensures small { result < 16 }
{
    by_opcode!(row_number!(op))
}

/// The ticks of a timer, and 0 for any other entry.
fn ticks_in(sqe: &Sqe) -> u32
    ensures ticks { result ≡ ticks_in sqe.now.op }
    ensures small { result ≤ TICK }
{
    let _fits = sqe.row();
    by_opcode!(ticks_in!(sqe.op()))
}

/// The count of a TIMEOUT, 0 where it counts none.
pub(crate) fn count_in(op: Op) -> Option<u32>
    ensures { result ≡ count_in op }
{
    by_opcode!(count_in!(op))
}

/// Whether it is a TIMEOUT with ETIME_SUCCESS.
fn etime_in(op: Op) -> bool
    ensures { result ≡ etime_in op }
{
    by_opcode!(etime_in!(op))
}

/// The facts of a request of this generation, as it is placed: a LINK_TIMEOUT as Invalid, unless the entry before it hosts one.
pub(crate) fn facts(generation: u32, sqe: &Sqe, last: bool, hosted: bool) -> u64
    requires { generation < GENERATIONS }
    ensures facts { (before : Option Submitted) → hosted ≡ hosts before → result ≡ facts_of generation (placed_behind before sqe.now) last }
    ensures generation { (n : ℕ) × (result ≡ generation + GENERATIONS * n) }
{
    let misplaced = sqe.op().is_link_timeout() && !hosted;
    let ticks = ticks_in(sqe);
    pack_facts(FactsWord {
        generation,
        row: if misplaced {
            INVALID
        } else {
            row_number(sqe.op())
        },
        drains: sqe.drains(),
        links_soft: sqe.links_soft(),
        links_hard: sqe.links_hard(),
        last,
        etime_success: !misplaced && etime_in(sqe.op()),
        payload: if misplaced { 0 } else { ticks },
    })
}
