//! Operations without a pipe.
ghost use Rattle.std.specs.Prelude.{◌≡◌, true, length, [], List, ℕ};
ghost use Rattle.history.specs.declared.event.Event.{Event};
ghost use Rattle.history.specs.declared.req.Req.{Req};
ghost use Rattle.history.specs.Answers.{OpAnswers};
ghost use Rattle.answers.specs.{UsesNone, is_plain, reply_without};

use entry::{Op, by_opcode};
use level::errno::EBADF;

macro_rules! plain {
    ((plain nothing) ()) => { 0 };
    ((plain invalid) ()) => { -EINVAL };
    ((pipe $kind:ident $fd:ident $($field:ident)*) ()) => { -EBADF };
    ((timer $kind:ident $ticks:ident) ()) => { unreachable!() };
    ((cancel $kind:ident $($field:ident)*) ()) => { unreachable!() };
}

/// An entry that no row of the table of opcodes fits, or a SPLICE between the ends of one pipe (errno(3), splice(2)).
pub(crate) const EINVAL: i32 = 22;

/// The answer to an operation that names none of the board's pipes: 0 to a NOP, -22 (EINVAL) to an Invalid entry, -9
/// (EBADF) to READ, WRITE, CLOSE, POLL_ADD and SPLICE. `pipes` is how many pipes the board has.
pub fn answer_without(op: Op, pipes: u64) -> i32
    requires plain { is_plain op ≡ true }
    requires past { UsesNone op pipes }
    ensures { (caps : List ℕ) (h : List Event) (r : Req) → length caps ≡ pipes → OpAnswers caps h r op result [] }
{
    let _ = pipes;
    reply_without(op)
}

fn reply_without(op: Op) -> i32
    requires { is_plain op ≡ true }
    ensures { result ≡ reply_without op }
{
    by_opcode!(op => plain!())
}
