//! Calls that make something from nothing; posts, timers, and a ready queue's end.
ghost use Rattle.std.specs.Prelude.{All};
ghost use Rattle.ready.specs.Ready.{IsQueuePass};

use crate::lines::{Call, Handed, Lines, Shown};
use crate::objects::req;
use bell::Bell;
use compring::CompletionRing;
use gates::Row;
use history::Req;
use model::Object;
use outbox::{Outbox, deliver};
use pipe::Pipe;
use ready::{ReadyPass, ReadyQueue, Ungathered};
use std::alloc::Global;
use std::sync::Wait;
use wheel::{TimerSet, Timers};

/// What is made from nothing.
#[derive(Clone, Copy)]
enum Part {
    Pipe,
    Row,
    Bell,
    Outbox,
    Ring,
    Queue,
    Object,
}

/// A call that makes a part, with its name, and the words for what is told of the part.
#[derive(Clone, Copy)]
struct New(&'static str, &'static str, Part);

const NEW: &[New] = &[
    New("Pipe::new", " of 20 bytes it takes ", Part::Pipe),
    New("Row::new", " entries ", Part::Row),
    New("Bell::new", " ringers ", Part::Bell),
    New("Outbox::new", " free places ", Part::Outbox),
    New("CompletionRing::new", " posts ", Part::Ring),
    New("ReadyQueue::new", " passes ", Part::Queue),
    New("Object::new", " replies ", Part::Object),
];

/// How many of these bytes the pipe takes.
fn taken(mut pipe: Pipe) -> u64 {
    match pipe.write_from(b"twenty bytes of text") {
        Some(count) if count > 0 => u64::from(count.unsigned_abs()),
        _ => 0,
    }
}

/// How much of the new part there is, where it is made.
fn made(alloc: Global, part: Part, gave: &mut Shown) -> Option<u64> {
    match part {
        Part::Pipe => gave.got(Pipe::new(alloc, 16)).map(taken),
        Part::Row => gave.got(Row::new(alloc, 4)).map(|row| row.count()),
        Part::Bell => gave.got(Bell::new(alloc, 3)).map(|it| it.1.len() as u64),
        Part::Outbox => gave
            .got(Outbox::new(alloc, 5))
            .map(|outbox| outbox.room() as u64),
        Part::Ring => gave
            .got(CompletionRing::new(alloc, 2))
            .map(|mut ring| u64::from(ring.take().is_some())),
        Part::Queue => gave
            .got(ReadyQueue::new(alloc, 4, 2))
            .map(|it| it.1.len() as u64),
        Part::Object => gave
            .got(Object::new(alloc, 1, &[4]))
            .map(|object| u64::from(object.reply_of(req(0)).is_some())),
    }
}

impl Call<()> for New {
    fn make(&mut self, _rt: &(), alloc: Global, gave: &mut Shown) -> bool {
        let count = made(alloc, self.2, gave);
        gave.count_if(self.1, count)
    }
}

/// Takes the posts of the ring, in order: each with its number.
fn take_posts(ring: &mut CompletionRing, gave: &mut Shown) {
    gave.text(" posts");
    for _post in 0..8 {
        if let Some((number, req)) = ring.take() {
            gave.count(" ", number);
            gave.req(req);
        }
    }
}

/// A post into a ring that is full.
#[derive(Drop)]
struct Post(CompletionRing);

impl Call<()> for Post {
    fn make(&mut self, _rt: &(), _alloc: Global, gave: &mut Shown) -> bool {
        if gave.got(self.0.post(req(1))).is_none() {
            return false;
        }
        take_posts(&mut self.0, gave);
        true
    }

    fn show(&self, shown: &mut Shown) {
        shown.count(" overflow ", u64::from(self.0.overflowed()));
    }
}

/// A ring of one place that is full.
fn full_ring(alloc: Global, first: Req) -> Option<CompletionRing> {
    let mut ring = CompletionRing::new(alloc, 1).ok()?;
    let _ = ring.post(first);
    Some(ring)
}

/// The first request of an outbox is delivered to a ring that is full.
#[derive(Drop)]
struct Delivery {
    outbox: Outbox,
    ring: CompletionRing,
}

impl Call<()> for Delivery {
    fn make(&mut self, _rt: &(), _alloc: Global, gave: &mut Shown) -> bool {
        let Some(first) = self.outbox.first() else {
            return true;
        };
        if first.ring == self.ring.owner() {
            let posted = deliver(&mut self.outbox, &mut self.ring);
            if gave.got(posted).is_none() {
                return false;
            }
        }
        take_posts(&mut self.ring, gave);
        true
    }

    fn show(&self, shown: &mut Shown) {
        shown.count(" overflow ", u64::from(self.ring.overflowed()));
        shown.count(" left ", self.outbox.len() as u64);
    }
}

/// An outbox in which two requests wait.
fn two_waiting(alloc: Global) -> Option<Outbox> {
    let mut outbox = Outbox::new(alloc, 2).ok()?;
    outbox.put(req(0));
    outbox.put(req(1));
    Some(outbox)
}

/// The times at which it is told which timer is due.
const TIMES: &[u32] = &[43, 44, 299, 300, 2_147_483_647];

/// Three timers, two of which share a slot, and then two of them once more.
const ARMED: &[(u64, u32)] = &[(0, 300), (1, 44), (2, 2_147_483_647), (1, 299), (0, 43)];

/// A timer is armed.
#[derive(Drop)]
struct Arm {
    timers: Timers,
    next: (u64, u32),
}

impl Call<()> for Arm {
    fn make(&mut self, _rt: &(), _alloc: Global, gave: &mut Shown) -> bool {
        let (k, at) = self.next;
        gave.got(self.timers.arm(req(k), at)).is_some()
    }

    fn show(&self, shown: &mut Shown) {
        shown.text(" due");
        for now in TIMES {
            match self.timers.due(*now) {
                Some(req) => shown.req(req),
                None => shown.text(" none"),
            }
        }
    }
}

fn try_posts(lines: &mut Lines) {
    if let Some(ring) = full_ring(lines.alloc, req(0)) {
        lines.try_call(&(), "CompletionRing::post", &mut Post(ring));
    }
}

fn try_delivery(lines: &mut Lines) {
    if let (Some(outbox), Some(ring)) = (two_waiting(lines.alloc), full_ring(lines.alloc, req(9))) {
        lines.try_call(&(), "deliver", &mut Delivery { outbox, ring });
    }
}

fn try_timers(lines: &mut Lines) {
    let mut arm = Arm {
        timers: Timers::new(lines.alloc),
        next: (0, 0),
    };
    for next in ARMED {
        arm.next = *next;
        lines.try_call(&(), "Timers::arm", &mut arm);
    }
}

/// A queue of 4 places, and its two passes.
#[derive(Drop)]
struct Queue {
    queue: ReadyQueue,
    passes: Vec<ReadyPass>,
    ghost own: { All (λ p. IsQueuePass queue p) passes.items },
}

impl<R: Wait> Handed<R> for Queue {
    fn hand(self, rt: &R, alloc: Global, gave: &mut Shown) -> Option<Queue> {
        match self.queue.gather(rt, alloc, self.passes) {
            Ok(left) => {
                gave.text(" left");
                for req in left.as_slice() {
                    gave.req(*req);
                }
                None
            }
            Err(
                Ungathered {
                    error,
                    queue,
                    passes,
                },
            ) => {
                gave.refused(&error);
                Some(Queue { queue, passes })
            }
        }
    }

    fn show_parts(&self, shown: &mut Shown) {
        shown.count(" passes ", self.passes.len() as u64);
    }
}

/// Puts a request into the queue, by its first pass.
fn put<R: Wait>(rt: &R, queue: &ReadyQueue, passes: &mut Vec<ReadyPass>, k: u64)
    requires { All (λ p. IsQueuePass queue.now p) passes.old.items }
    ensures { All (λ p. IsQueuePass queue.now p) passes.new.items }
{
    if let Some(pass) = passes.get_mut(0) {
        let _ = queue.put(rt, pass, req(k));
    }
}

/// A queue with three requests is ended.
fn try_queue<R: Wait>(rt: &R, lines: &mut Lines) {
    if let Ok((queue, mut passes)) = ReadyQueue::new(lines.alloc, 4, 2) {
        put(rt, &queue, &mut passes, 0);
        put(rt, &queue, &mut passes, 1);
        put(rt, &queue, &mut passes, 2);
        lines.try_call(rt, "ReadyQueue::gather", &mut Some(Queue { queue, passes }));
    }
}

/// The calls of the parts.
pub(crate) fn try_parts<R: Wait>(rt: &R, lines: &mut Lines) {
    for new in NEW {
        let mut call = *new;
        lines.try_call(&(), call.0, &mut call);
    }
    try_posts(lines);
    try_delivery(lines);
    try_timers(lines);
    try_queue(rt, lines);
}
