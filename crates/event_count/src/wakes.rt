//! A count of the wakes that were given.
ghost use Rattle.std.specs.Prelude.{◌≡◌, ◌+◌, ◌<◌};

use crate::event_count::Reach;
use crate::waiter::{COUNT, Words};
use std::marker::Model;
use std::sync::ledger::{Blank, Book, Ledger, Share};

/// How many wakes were given. It has no bytes, and each wake adds one, whether it wakes one waiter or all. Contracts see the number.
#[derive(Drop)]
pub struct Wakes<L: Ledger> {
    book: Book<L>,
    share: Share<L>,
}

impl<L: Ledger> Model for Wakes<L> {
    ghost use Rattle.std.specs.Prelude.{ℕ, ◌<◌};

    ghost Value = { ℕ };

    ghost view = { λ w. w.book.total };

    ghost invariant = { λ w. 0 < w.share.parts };
}

impl<L: Ledger> Wakes<L> {
    /// No wakes.
    pub fn new(blank: Blank) -> Wakes<L>
        requires name { blank.name ≡ L.name }
        requires parts { blank.parts ≡ L.parts }
        requires some { 0 < blank.parts }
        ensures { result ≡ 0 }
    {
        let (book, share) = blank.open::<L>();
        Wakes { book, share }
    }

    /// Wakes those who are parked on the count, one or all. It is the one place that does.
    pub(crate) fn give(&mut self, words: &Words, reach: Reach)
        requires { 0 < words.now.table_id.words }
        ensures { self.new ≡ self.old + 1 }
    {
        match reach {
            Reach::One => words.wake_one(COUNT),
            Reach::All => words.wake_all(COUNT),
        }
        self.book.add(&mut self.share, 1);
    }
}
