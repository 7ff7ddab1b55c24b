//! The numbers of requests that the poller has moved to Ready, on their way into the ready queue.
ghost use Rattle.std.specs.Prelude.{◌≡◌, ◌≢◌, [], ◌∷◌, ◌++◌, true, false};
ghost use Rattle.ready.specs.Ready.{IsQueuePass};
ghost use Rattle.runtime.specs.{HandedOver, no_numbers};

use history::Req;
use ready::span::MOST;
use ready::{ReadyPass, ReadyQueue, Span};
use std::marker::Model;
use std::sync::Wait;

/// Numbers that are to be put into the ready queue, in order: a span that may still grow, and where that found no place there, the number
/// that came next. And how many numbers a span gets at most; and, modulo 2^32, how many spans found their places, and how many numbers
/// were added.
#[derive(Drop)]
pub(crate) struct Backlog {
    span: Option<Span>,
    next: Option<Span>,
    limit: u8,
    puts: u32,
    added: u32,
}

impl Model for Backlog {
    ghost use Rattle.runtime.specs.Backlogs.{Owed};

    ghost Value = { Owed };

    ghost use Rattle.std.specs.Prelude.{◌++◌};
    ghost use Rattle.ready.specs.Spans.{numbers_in};
    ghost use Rattle.runtime.specs.Backlogs.{HasNext, is_there};

    ghost view = { λ b. record { numbers = numbers_in b.span ++ numbers_in b.next; is_full = is_there b.next } };

    ghost invariant = { λ b. HasNext b.next };
}

impl Backlog {
    /// A backlog without numbers.
    pub fn new() -> Backlog
        ensures { result ≡ no_numbers }
    {
        Backlog {
            span: None,
            next: None,
            limit: MOST,
            puts: 0,
            added: 0,
        }
    }

    /// From here on a span gets this many numbers at most.
    pub fn limit_to(&mut self, limit: u8)
        ensures { self.new ≡ self.old }
    {
        self.limit = limit;
    }

    /// How many spans were put into the ready queue, modulo 2^32.
    pub fn puts(&self) -> u32 {
        self.puts
    }

    /// How many numbers were added, modulo 2^32.
    pub fn added(&self) -> u32 {
        self.added
    }

    /// Whether it has no numbers.
    pub fn is_empty(&self) -> bool
        ensures { result ≡ true → self.now.numbers ≡ [] }
    {
        self.span.is_none() && self.next.is_none()
    }

    /// Whether it has no place for one more: its numbers found none in the ready queue.
    pub fn is_full(&self) -> bool
        ensures full { result ≡ self.now.is_full }
        ensures some { result ≡ true → self.now.numbers ≢ [] }
    {
        self.next.is_some()
    }

    /// Adds a number. It joins the span where it is the next of the same ring and the span has room for it; else the span goes into
    /// the ready queue first.
    pub fn add<R: Wait>(&mut self, rt: &R, queue: &ReadyQueue, ready: &mut ReadyPass, req: Req)
        requires own { IsQueuePass queue.now ready.old }
        requires free { self.old.is_full ≡ false }
        ensures { HandedOver ready.old (self.old.numbers ++ req ∷ []) ready.new self.new.numbers }
    {
        self.added = self.added.wrapping_add(1);
        let Some(mut span) = self.span.take() else {
            self.span = Some(Span::of(req));
            return;
        };
        if span.extend(req, self.limit) {
            self.span = Some(span);
            return;
        }
        match queue.put_span(rt, ready, span) {
            Ok(()) => {
                self.puts = self.puts.wrapping_add(1);
                self.span = Some(Span::of(req));
            }
            Err(back) => {
                self.span = Some(back);
                self.next = Some(Span::of(req));
            }
        }
    }

    /// Puts all numbers into the ready queue. Where that is full they stay.
    pub fn flush<R: Wait>(&mut self, rt: &R, queue: &ReadyQueue, ready: &mut ReadyPass)
        requires own { IsQueuePass queue.now ready.old }
        ensures { HandedOver ready.old self.old.numbers ready.new self.new.numbers }
    {
        let Some(span) = self.span.take() else {
            return;
        };
        if let Err(back) = queue.put_span(rt, ready, span) {
            self.span = Some(back);
            return;
        }
        self.puts = self.puts.wrapping_add(1);
        let Some(next) = self.next.take() else {
            return;
        };
        match queue.put_span(rt, ready, next) {
            Ok(()) => self.puts = self.puts.wrapping_add(1),
            Err(back) => self.span = Some(back),
        }
    }
}
