//! What a row looks at in an entry.
ghost use Rattle.std.specs.Prelude.{◌≡◌};
ghost use Rattle.history.specs.Chains.{is_invalid};
ghost use Rattle.gates.specs.Slots.{traits_of};

use entry::{Op, Sqe, by_opcode};

macro_rules! is_invalid_entry {
    ((plain invalid) ()) => { true };
    ((plain nothing) ()) => { false };
    ((timer $kind:ident $ticks:ident) ()) => { false };
    ((pipe $kind:ident $($field:ident)*) ()) => { false };
    ((cancel $kind:ident $($field:ident)*) ()) => { false };
}

/// What chains, drains and link timeouts depend on: what the entry is, and its flags (IOSQE_IO_DRAIN, IOSQE_IO_LINK and
/// IOSQE_IO_HARDLINK of io_uring_enter(2)).
/// So much fits into the word that a submitter notes of a request: a poller that has this word alone can feed a row.
#[derive(Clone, Copy)]
pub struct Traits {
    /// It is none of the profile's entries.
    pub invalid: bool,
    /// It is a LINK_TIMEOUT.
    pub link_timeout: bool,
    pub drains: bool,
    pub links_soft: bool,
    pub links_hard: bool,
}

impl Traits {
    /// Those of an entry.
    pub fn of(sqe: &Sqe) -> Traits
        ensures { result ≡ traits_of sqe.now }
    {
        Traits {
            invalid: is_invalid(sqe.op()),
            link_timeout: sqe.op().is_link_timeout(),
            drains: sqe.drains(),
            links_soft: sqe.links_soft(),
            links_hard: sqe.links_hard(),
        }
    }
}

/// It is none of the profile's.
fn is_invalid(op: Op) -> bool
    ensures { result ≡ is_invalid op }
{
    by_opcode!(op => is_invalid_entry!())
}
