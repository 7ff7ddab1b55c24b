//! The events of a history, each with who takes the step.
ghost use Rattle.std.specs.Prelude.{◌≡◌, IfOk, Some, map};
ghost use Rattle.std.specs.String.{string_bytes};
ghost use Rattle.script_text.specs.HistoryText.{event_text};
ghost use Rattle.pictures.specs.Marks.{lane_of, marks, place_of, shown, target_of, workers_in};
ghost use Rattle.pictures.specs.declared.marks.Lane.TheVariants.{Worker};

use crate::workers::{let_go, place_of, take_up};
use history::{Event, Req};
use script::Script;
use script_text::write_event;
use std::alloc::{AllocError, Global};

/// Who takes a step.
#[derive(Clone, Copy)]
pub enum Lane {
    /// The submitter of a ring.
    Ring(u16),
    Poller,
    /// A worker, from 0.
    Worker(usize),
    Clock,
    /// The end, which cuts what was not answered.
    End,
}

/// An event: who takes the step, its line, and the ring of the request that a cancel took or a timer ended.
#[derive(Drop)]
pub struct Mark {
    pub lane: Lane,
    pub text: String,
    pub target: Option<u16>,
}

/// The events of a history, each once and in order, and how many workers run at once in it.
pub fn marks_of(
    alloc: Global,
    script: &Script,
    events: &[Event],
) -> Result<(Vec<Mark>, usize), AllocError>
    ensures marks { IfOk result (λ made. map shown made.0.items ≡ marks script.now events.now) }
    ensures workers { IfOk result (λ made. made.1 ≡ workers_in events.now) }
{
    let mut workers = Vec::new(alloc);
    let mut made = Vec::new(alloc);
    for place in 0..events.len() {
        let event = &events[place];
        take_up(&mut workers, event)?;
        let mut text = String::new(alloc);
        write_event(&mut text, script, &events[..place], event)?;
        made.push(Mark {
            lane: lane_of(&workers, event),
            text,
            target: target_of(event),
        })?;
        let_go(&mut workers, event);
    }
    Ok((made, workers.len()))
}

/// Who takes the step of an event, where the workers run these requests.
fn lane_of(workers: &[Option<Req>], event: &Event) -> Lane
    ensures { result ≡ lane_of workers.now event.now }
{
    match event {
        Event::Submit { req, .. } | Event::Reap(req) => Lane::Ring(req.ring),
        Event::Begin(req) | Event::Park(req) => by_worker(workers, *req),
        Event::Reply { req, .. } => by_worker(workers, *req),
        Event::Take { cancel, .. } | Event::Miss { cancel, .. } => by_worker(workers, *cancel),
        Event::Tick(_) => Lane::Clock,
        Event::Shut | Event::Cut(_) => Lane::End,
        Event::Arm { .. }
        | Event::Expire(_)
        | Event::Count(_)
        | Event::Fire { .. }
        | Event::FireMiss { .. }
        | Event::Settle(_)
        | Event::Sever(_) => Lane::Poller,
    }
}

/// The worker that runs a request.
fn by_worker(workers: &[Option<Req>], req: Req) -> Lane
    ensures { result ≡ Worker (place_of (Some req) workers.now) }
{
    Lane::Worker(place_of(workers, Some(req)))
}

/// The ring of the request that is hit by an event.
fn target_of(event: &Event) -> Option<u16>
    ensures { result ≡ target_of event.now }
{
    match event {
        Event::Take { target, .. } => Some(target.ring),
        Event::Fire { target, .. } => Some(target.ring),
        _ => None,
    }
}
