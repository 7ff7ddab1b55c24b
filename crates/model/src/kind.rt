//! What kind of work an operation asks for.
ghost use Rattle.std.specs.Prelude.{◌≡◌};
ghost use Rattle.history.specs.{is_timeout, is_all, ticks_of, count_of};

use entry::{Op, by_opcode};

macro_rules! is_lone_timer {
    ((timer alone $ticks:ident) ()) => { true };
    ((timer linked $ticks:ident) ()) => { false };
    ((plain $kind:ident) ()) => { false };
    ((pipe $kind:ident $($field:ident)*) ()) => { false };
    ((cancel $kind:ident $($field:ident)*) ()) => { false };
}

macro_rules! ticks_of_work {
    ((timer $kind:ident $ticks:ident) ()) => { Some($ticks) };
    ((plain $kind:ident) ()) => { None };
    ((pipe $kind:ident $($field:ident)*) ()) => { None };
    ((cancel $kind:ident $($field:ident)*) ()) => { None };
}

/// What each row counts, by what its `off` may be.
macro_rules! count_of_row {
    (($op:expr) $($text:literal $name:ident { $($field:ident),* } = $code:literal: $fd:tt [$($off:tt)*] $addr:tt $len:tt $word:tt $splice_fd_in:tt $flags:tt $fails:tt;)*) => {
        match $op {
            $(Op::$name { $($field),* } => count_column!($($off)*),)*
            Op::Invalid => 0,
        }
    };
}

macro_rules! count_column {
    (zero) => { 0 };
    (current) => { 0 };
    (place $offset:ident) => { 0 };
    (completions $count:ident) => { $count };
}

macro_rules! goes_for_all {
    ((cancel any $target:ident $all:ident) ()) => { $all };
    ((cancel timer $target:ident) ()) => { false };
    ((plain $kind:ident) ()) => { false };
    ((pipe $kind:ident $($field:ident)*) ()) => { false };
    ((timer $kind:ident $ticks:ident) ()) => { false };
}

/// It is a timer of its own.
pub fn is_timeout(op: Op) -> bool
    ensures { result ≡ is_timeout op }
{
    by_opcode!(op => is_lone_timer!())
}

/// The ticks after which a timer runs out.
pub fn ticks_of(op: Op) -> Option<u32>
    ensures { result ≡ ticks_of op }
{
    by_opcode!(op => ticks_of_work!())
}

/// After how many completions a TIMEOUT may be answered with 0; 0 for none.
pub fn count_of(op: Op) -> u32
    ensures { result ≡ count_of op }
{
    by_opcode!(count_of_row!(op))
}

/// It cancels each request that it means, and not the first alone.
pub fn is_all(op: Op) -> bool
    ensures { result ≡ is_all op }
{
    by_opcode!(op => goes_for_all!())
}
