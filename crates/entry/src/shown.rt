//! Entries as text, for a log: `READ fd 0 len 4 link ud 1`.
ghost use Rattle.std.specs.Prelude.{Some, ◌≡◌, [], if◌then◌else◌};
ghost use Rattle.entry.specs.Shown.{entry_text, flags_text, offset_text, op_text};

use crate::flags::SqeFlags;
use crate::op::{Offset, Op};
use crate::sqe::Sqe;
use crate::{by_flag, by_opcode};
use bitflags::Flags;
use std::fmt;

impl fmt::Display for Offset {
    ghost output = { λ o. Some (offset_text o) };

    fn fmt<W: fmt::Write>(&self, f: &mut fmt::Formatter<W>) -> fmt::Result {
        match self {
            Offset::Zero => f.write_str(""),
            Offset::Current => f.write_str(" off current"),
        }
    }
}

macro_rules! shown {
    (($op:expr, $f:expr) $($text:literal $name:ident { $($field:ident),* } = $code:literal: $fd:tt $off:tt $addr:tt $len:tt [$($word:tt)*] $splice_fd_in:tt $flags:tt $fails:tt;)*) => {
        match $op {
            $(Op::$name { $($field),* } => {
                shown_column!($($word)*);
                write!($f, $text)
            })*
            Op::Invalid => write!($f, "INVALID"),
        }
    };
}

macro_rules! shown_column {
    (all $all:ident) => { let $all = word($all, " all"); };
    ($($other:tt)*) => {};
}

impl fmt::Display for Op {
    ghost output = { λ op. Some (op_text op) };

    fn fmt<W: fmt::Write>(&self, f: &mut fmt::Formatter<W>) -> fmt::Result {
        by_opcode!(shown!(*self, f))
    }
}

/// The words of the flags that are set, each with a space before it.
#[derive(Clone, Copy)]
struct Words(SqeFlags);

/// The text where it is set.
fn word(is_set: bool, text: &'static str) -> &'static str
    ensures { result.now ≡ (if is_set then text.now else []) }
{
    if is_set { text } else { "" }
}

macro_rules! words {
    (($flags:expr, $f:expr) $($flag:ident = $value:literal: $text:literal $kind:tt;)*) => {
        write!($f, "{}{}{}", $(word($flags.contains(SqeFlags::$flag), $text)),*)
    };
}

impl fmt::Display for Words {
    ghost output = { λ w. Some (flags_text w.0.0) };

    fn fmt<W: fmt::Write>(&self, f: &mut fmt::Formatter<W>) -> fmt::Result {
        by_flag!(words!(self.0, f))
    }
}

impl fmt::Display for Sqe {
    ghost output = { λ e. Some (entry_text e) };

    fn fmt<W: fmt::Write>(&self, f: &mut fmt::Formatter<W>) -> fmt::Result {
        let op = self.op();
        let words = Words(self.flags());
        let user_data = self.user_data();
        write!(f, "{op}{words} ud {user_data}")
    }
}
