//! The passes of the ready queue.
ghost use Rattle.std.specs.Prelude.{◌↔◌, IsTrue};
ghost use Rattle.ready.specs.Ready.{AreAll};

use crate::account::Account;
use crate::span::Span;
use crossbeam_queue::Pass;
use std::marker::Model;

/// How many shares all passes of a queue have, however many there are: the rule's first view is fixed. Each pass but the last has one,
/// and the last the others.
pub(crate) const ALL_SHARES: u32 = u32::MAX;

/// What one thread holds that puts requests and takes them. A span that it took out of the queue it gives one request at a time; the
/// rest stays with the pass. Contracts see its queue, its shares of it, and which requests it put and took.
/// Its shares are kept at run time too, for `gather` to add up.
#[derive(Drop)]
pub struct ReadyPass {
    pub(crate) seat: Pass<Span, Account>,
    pub(crate) rest: Option<Span>,
    pub(crate) share: u32,
}

impl Model for ReadyPass {
    ghost use Rattle.ready.specs.Ready.{Moves, IsSeat, moves_of};

    ghost Value = { Moves };

    ghost view = { λ p. moves_of p.seat p.rest };

    ghost invariant = { λ p. IsSeat p.seat p.rest p.share };
}

/// Whether these are all passes of a queue: together they have all shares.
pub(crate) fn are_all(passes: &[ReadyPass]) -> bool
    ensures { IsTrue result ↔ AreAll passes.now }
{
    let mut rest = ALL_SHARES;
    for pass in passes {
        if rest < pass.share {
            return false;
        }
        rest -= pass.share;
    }
    rest == 0
}
