//! What each kind of step makes of its pass, and what it tells.
ghost use Rattle.std.specs.Prelude.{◌≡◌, ⊤};
ghost use Rattle.ready.specs.Rule.{with_put, with_taken, without_share, new_account, both_accounts, no_account, Accounts};

use crate::account::Account;
use crate::span::Span;
use crossbeam_queue::protocol::{Join, Lesson, Outcome, Split};

pub(crate) struct Put;

impl Outcome<Span, Account> for Put {
    ghost then = { λ v s w. w ≡ with_put s v };
}

impl Lesson<Span, Account> for Put {
    ghost fact = { λ v items. ⊤ };
}

pub(crate) struct Take;

impl Outcome<Span, Account> for Take {
    ghost then = { λ v s w. w ≡ with_taken s v };
}

impl Lesson<Span, Account> for Take {
    ghost fact = { λ v items. ⊤ };
}

/// A take by the pass that has all shares.
pub(crate) struct TakeLast;

impl Outcome<Span, Account> for TakeLast {
    ghost then = { λ v s w. w ≡ with_taken s v };
}

impl Lesson<Span, Account> for TakeLast {
    ghost fact = { λ v items. Accounts v items };
}

pub(crate) struct CutPass;

impl Split<Account> for CutPass {
    ghost left = { without_share };

    ghost right = { λ v. new_account };
}

impl Join<Account> for CutPass {
    ghost both = { both_accounts };

    ghost spent = { no_account };
}
