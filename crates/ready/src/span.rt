//! Requests of one ring that go through the queue together.
ghost use Rattle.std.specs.Prelude.{◌≡◌, ◌≤◌, ◌+◌, [], ◌∷◌, ◌++◌, true, false, length, vec_capacity};
ghost use Rattle.ready.specs.Spans.{numbers_in, most};

use history::Req;
use std::marker::Model;

/// How many requests a span has at most.
pub const MOST: u8 = 16;

/// Up to `MOST` requests of one ring with consecutive numbers, which take one place of the queue. There is at least one. Contracts
/// see the list of them.
#[derive(Drop)]
pub struct Span {
    ring: u16,
    more: u8,
    k: u64,
}

impl Model for Span {
    ghost use Rattle.std.specs.Prelude.{List};
    ghost use Rattle.history.specs.declared.req.Req.{Req};

    ghost Value = { List Req };

    ghost use Rattle.ready.specs.SpanFields.{requests, IsSpan};

    ghost view = { requests };

    ghost invariant = { IsSpan };
}

impl Span {
    /// A span of one request.
    pub fn of(req: Req) -> Span
        ensures { result ≡ req ∷ [] }
    {
        Span {
            ring: req.ring,
            more: 0,
            k: req.k,
        }
    }

    /// Takes the request in at the end, where it is the next of the same ring and the span has fewer than `limit` and than `MOST`.
    /// Whether it did.
    pub fn extend(&mut self, req: Req, limit: u8) -> bool
        ensures taken { result ≡ true → self.new ≡ self.old ++ req ∷ [] }
        ensures left { result ≡ false → self.new ≡ self.old }
    {
        let more = self.more + 1;
        if more >= MOST || more >= limit || req.ring != self.ring {
            return false;
        }
        let Some(apart) = req.k.checked_sub(self.k) else {
            return false;
        };
        if apart != u64::from(more) {
            return false;
        }
        self.more = more;
        true
    }

    /// The first request, and those after it.
    pub fn split(self) -> (Req, Option<Span>)
        ensures split { self ≡ result.0 ∷ numbers_in result.1 }
        ensures few { length self ≤ most }
    {
        let Span { ring, more, k } = self;
        let first = Req { ring, k };
        let Some(more) = more.checked_sub(1) else {
            return (first, None);
        };
        let rest = Span {
            ring,
            more,
            k: k + 1,
        };
        (first, Some(rest))
    }

    /// Adds its requests to the list. There is room for as many as a span may have.
    pub(crate) fn unfold(self, left: &mut Vec<Req>)
        requires room { length left.old.items + most ≤ vec_capacity left.old }
        ensures added { left.new.items ≡ left.old.items ++ self }
        ensures few { length self ≤ most }
        ensures room { vec_capacity left.new ≡ vec_capacity left.old }
    {
        let Span { ring, more, k } = self;
        for n in 0..u64::from(more) + 1 {
            left.push_reserved(Req { ring, k: k + n });
        }
    }
}
