//! The rule of the queue.
use crate::account::Account;
use crate::span::Span;
use crossbeam_queue::protocol::Protocol;

/// What was put is what was taken and what is left: see `Balanced`.
pub struct Law;

impl Protocol<Span, Account> for Law {
    ghost use Rattle.std.specs.Prelude.{[]};
    ghost use Rattle.ready.specs.Rule.{Balanced, all_shares, account};

    ghost holds = { Balanced };

    ghost first = { account all_shares [] [] };
}
