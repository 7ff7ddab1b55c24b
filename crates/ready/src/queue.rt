//! The queue and its calls.
ghost use Rattle.std.specs.Prelude.{◌≡◌, ◌↔◌, ◌≤◌, ◌<◌, ◌+◌, ◌*◌, ◌++◌, [], ℕ, None, All, length, sum_by, vec_capacity, IfOk, IfErr, MatchOption, MatchResult};
ghost use Rattle.history.specs.declared.req.Req.{Req};
ghost use Rattle.crossbeam_queue.specs.Passes.{view, IsPassOf, IsSamePass, ruled_capacity};
ghost use Rattle.ready.specs.declared.span.Span.{Span};
ghost use Rattle.ready.specs.{all_shares, most, IsQueuePass, IsNew, AreAll, putting, putting_all, taking, all_put, all_taken, times, numbers_of, room_of, HasDrawn, IsRoom, listed};
ghost use Rattle.ready.specs.declared.error.GatherError.TheVariants.{Missing};

use crate::account::Account;
use crate::error::{GatherError, Memory, Ungathered};
use crate::law::Law;
use crate::pass::{ALL_SHARES, ReadyPass, are_all};
use crate::plays::{CutPass, Put, Take, TakeLast};
use crate::room::GatherRoom;
use crate::span::Span;
use crossbeam_queue::{Pass, RuledArrayQueue};
use history::Req;
use std::alloc::Global;
use std::marker::Model;
use std::sync::Wait;

type Line = RuledArrayQueue<Span, Account, Law>;

type Seat = Pass<Span, Account>;

/// Requests that may begin, in this many places. A place has one request, or a span of requests. A pass belongs to the queue that
/// made it.
#[derive(Drop)]
pub struct ReadyQueue {
    line: Line,
}

impl Model for ReadyQueue {
    ghost use Rattle.crossbeam_queue.specs.Passes.{ruled_capacity};
    ghost use Rattle.ready.specs.Ready.{Facts};

    ghost Value = { Facts };

    ghost view = { λ q. record { queue = q.line.table.shared.table_id; places = ruled_capacity q.line } };
}

impl ReadyQueue {
    /// An empty queue of this many places, and its passes. Its room is made here, once.
    pub fn new(
        alloc: Global,
        places: u32,
        passes: u32,
    ) -> Result<(ReadyQueue, Vec<ReadyPass>), Memory>
        requires places { 0 < places }
        requires passes { 0 < passes }
        ensures { IfOk result (λ t. IsNew places passes t.0 t.1.items) }
    {
        let mut given = Vec::with_capacity(alloc, passes as usize)?;
        let (line, mut last) = Line::ruled(alloc, places as usize)?;
        let others = passes - 1;
        for _n in 0..others {
            let seat = line.another::<CutPass>(&mut last);
            given.push_reserved(ReadyPass {
                seat,
                rest: None,
                share: 1,
            });
        }
        given.push_reserved(ReadyPass {
            seat: last,
            rest: None,
            share: ALL_SHARES - others,
        });
        Ok((ReadyQueue { line }, given))
    }

    /// Puts a request at the end. The number comes back where all places are taken.
    pub fn put<R: Wait>(&self, rt: &R, pass: &mut ReadyPass, req: Req) -> Result<(), Req>
        requires own { IsQueuePass self.now pass.old }
        ensures { MatchResult result (λ _. pass.new ≡ putting req pass.old) (λ back. (back ≡ req) × (pass.new ≡ pass.old)) }
    {
        match self.put_span(rt, pass, Span::of(req)) {
            Ok(()) => Ok(()),
            Err(_) => Err(req),
        }
    }

    /// Puts the requests of a span at the end, into one place. They come back where all places are taken.
    pub fn put_span<R: Wait>(&self, rt: &R, pass: &mut ReadyPass, span: Span) -> Result<(), Span>
        requires own { IsQueuePass self.now pass.old }
        ensures { MatchResult result (λ _. pass.new ≡ putting_all span pass.old) (λ back. (back ≡ span) × (pass.new ≡ pass.old)) }
    {
        self.line.push_as::<Put, R>(rt, &mut pass.seat, span)
    }

    /// Takes a request from the front: the next one of a span that the pass took out before, or else one from the queue.
    pub fn next<R: Wait>(&self, rt: &R, pass: &mut ReadyPass) -> Option<Req>
        requires own { IsQueuePass self.now pass.old }
        ensures { MatchOption result (pass.new ≡ pass.old) (λ req. pass.new ≡ taking req pass.old) }
    {
        let Some(span) = draw(rt, &self.line, &mut pass.seat, &mut pass.rest) else {
            return None;
        };
        let (req, rest) = span.split();
        pass.rest = rest;
        Some(req)
    }

    /// Ends the queue, and gives what is left in it and with its passes. `Missing` where a pass of this queue is not among those handed
    /// in, else `Memory` where the room isn't found; then all comes back, unchanged.
    pub fn gather<R: Wait>(
        self,
        rt: &R,
        alloc: Global,
        passes: Vec<ReadyPass>,
    ) -> Result<Vec<Req>, Ungathered>
        requires own { All (λ p. IsQueuePass self p) passes.items }
        ensures law { IfOk result (λ left. (r : Req) → times r (all_put passes.items) ≡ times r (all_taken passes.items) + times r left.items) }
        ensures places { IfOk result (λ left. length left.items ≤ room_of self.places (length passes.items)) }
        ensures complete { IfOk result (λ _. AreAll passes.items) }
        ensures missing { IfErr result (λ u. (u.error ≡ Missing) ↔ ¬ (AreAll passes.items)) }
        ensures back { IfErr result (λ u. (u.queue ≡ self) × (u.passes ≡ passes)) }
    {
        let error = if !are_all(passes.as_slice()) {
            GatherError::Missing
        } else {
            match self.make_room(alloc, passes.len()) {
                Ok(room) => return Ok(self.gather_in(rt, passes, room)),
                Err(_) => GatherError::Memory,
            }
        };
        Err(Ungathered {
            error,
            queue: self,
            passes,
        })
    }

    /// The room that `gather_in` needs for this many passes.
    pub fn make_room(&self, alloc: Global, passes: usize) -> Result<GatherRoom, Memory>
        ensures { IfOk result (IsRoom self.now.places passes) }
    {
        GatherRoom::new(alloc, self.line.capacity(), passes)
    }

    /// As `gather`, by all passes and in room that was made before, so that nothing is left that could fail.
    pub fn gather_in<R: Wait>(self, rt: &R, passes: Vec<ReadyPass>, room: GatherRoom) -> Vec<Req>
        requires own { All (λ p. IsQueuePass self p) passes.items }
        requires complete { AreAll passes.items }
        requires room { IsRoom self.places (length passes.items) room }
        ensures law { (r : Req) → times r (all_put passes.items) ≡ times r (all_taken passes.items) + times r result.items }
        ensures places { length result.items ≤ room_of self.places (length passes.items) }
    {
        end(rt, &self.line, passes, room)
    }
}

/// The span that the pass has left, or else one from the front of the queue.
fn draw<R: Wait>(rt: &R, line: &Line, seat: &mut Seat, rest: &mut Option<Span>) -> Option<Span>
    requires own { IsPassOf line.now seat.old }
    requires some { 0 < (view seat.old).share }
    ensures queue { IsSamePass seat.old seat.new }
    ensures same { ((view seat.new).share ≡ (view seat.old).share) × ((view seat.new).put ≡ (view seat.old).put) }
    ensures rest { rest.new ≡ None }
    ensures drawn { HasDrawn (view seat.old).taken rest.old (view seat.new).taken result }
{
    if let Some(span) = rest.take() {
        return Some(span);
    }
    line.pop_as::<Take, R>(rt, seat)
}

/// Takes in all passes with what they have left, and then what is left in the queue. There is room for it.
fn end<R: Wait>(rt: &R, line: &Line, mut passes: Vec<ReadyPass>, room: GatherRoom) -> Vec<Req>
    requires own { All (λ p. p.queue ≡ line.now.table.shared.table_id) passes.items }
    requires complete { AreAll passes.items }
    requires room { IsRoom (ruled_capacity line.now) (length passes.items) room }
    ensures law { (r : Req) → times r (all_put passes.items) ≡ times r (all_taken passes.items) + times r result.items }
    ensures places { length result.items ≤ room_of (ruled_capacity line.now) (length passes.items) }
{
    let GatherRoom {
        mut rests,
        mut spans,
        mut left,
    } = room;
    let Some(first) = passes.pop() else {
        unreachable!()
    };
    let ReadyPass {
        mut seat,
        rest,
        share: _,
    } = first;
    keep(&mut rests, rest);
    take_in(line, &mut seat, passes, &mut rests);
    drain(rt, line, &mut seat, &mut spans);
    unfold(rests, &mut left);
    unfold(spans, &mut left);
    left
}

/// Adds the span that a pass has left, if there is one.
fn keep(rests: &mut Vec<Span>, rest: Option<Span>)
    requires { length rests.old.items < vec_capacity rests.old }
    ensures added { rests.new.items ≡ rests.old.items ++ listed rest }
    ensures room { vec_capacity rests.new ≡ vec_capacity rests.old }
{
    if let Some(span) = rest {
        rests.push_reserved(span);
    }
}

/// The keeper takes in all passes. What they have left is added to the rests.
fn take_in(line: &Line, keeper: &mut Seat, mut passes: Vec<ReadyPass>, rests: &mut Vec<Span>)
    requires keeper { IsPassOf line.now keeper.old }
    requires some { 0 < (view keeper.old).share }
    requires own { All (λ p. p.queue ≡ line.now.table.shared.table_id) passes.items }
    requires room { length rests.old.items + length passes.items ≤ vec_capacity rests.old }
    ensures queue { IsSamePass keeper.old keeper.new }
    ensures share { (view keeper.new).share ≡ (view keeper.old).share + sum_by (λ p. p.share) passes.items }
    ensures put { (h : Req → ℕ) → sum_by h (numbers_of (view keeper.new).put) ≡ sum_by h (numbers_of (view keeper.old).put) + sum_by h (all_put passes.items) }
    ensures taken { (h : Req → ℕ) → sum_by h (numbers_of (view keeper.new).taken) + sum_by h (numbers_of rests.old.items) ≡ sum_by h (numbers_of (view keeper.old).taken) + sum_by h (all_taken passes.items) + sum_by h (numbers_of rests.new.items) }
    ensures count { length rests.new.items ≤ length rests.old.items + length passes.items }
{
    while let Some(pass) = passes.pop() {
        let ReadyPass {
            seat,
            rest,
            share: _,
        } = pass;
        line.absorb::<CutPass>(keeper, seat);
        keep(rests, rest);
    }
}

/// The keeper, which has all shares, takes what is left in the queue.
fn drain<R: Wait>(rt: &R, line: &Line, keeper: &mut Seat, left: &mut Vec<Span>)
    requires keeper { IsPassOf line.now keeper.old }
    requires whole { (view keeper.old).share ≡ all_shares }
    requires room { (left.old.items ≡ []) × (ruled_capacity line.now ≤ vec_capacity left.old) }
    ensures law { (h : Span → ℕ) → sum_by h (view keeper.old).put ≡ sum_by h (view keeper.old).taken + sum_by h left.new.items }
    ensures places { length left.new.items ≤ ruled_capacity line.now }
{
    let rest = line.len_as::<TakeLast, R>(rt, keeper);
    for _n in 0..rest {
        let Some(span) = line.pop_as::<TakeLast, R>(rt, keeper) else {
            unreachable!()
        };
        left.push_reserved(span);
    }
    line.learn_as::<TakeLast>(keeper);
}

/// Adds the requests of all spans to the list. There is room for them.
fn unfold(spans: Vec<Span>, left: &mut Vec<Req>)
    requires room { length left.old.items + most * length spans.items ≤ vec_capacity left.old }
    ensures added { left.new.items ≡ left.old.items ++ numbers_of spans.items }
    ensures few { length left.new.items ≤ length left.old.items + most * length spans.items }
    ensures room { vec_capacity left.new ≡ vec_capacity left.old }
{
    for span in spans {
        span.unfold(left);
    }
}
