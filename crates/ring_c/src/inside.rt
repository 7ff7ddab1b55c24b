//! What a handle leads to, and its calls.
ghost use Rattle.std.specs.Prelude.{◌≡◌, IfErr};
ghost use Rattle.ring_c.specs.Handles.{EndsIn, GivesBytes, GivesTook, LooksIn, OfClient, OfDesk, OfHand, PollsThe, ReapsThe, SubmitsThe, TicksAt, WorksAt};

use crate::client::Client;
use crate::code::Code;
use crate::desk::Desk;
use crate::hand::Hand;
use crate::number::{Number, copy_numbers};
use crate::results::Turn;
use board::{Phase, Report};
use entry::Cqe;
use history::Req;
use std::alloc::Global;
use std::mem::replace;

/// What a handle leads to.
#[derive(Drop)]
pub enum Inside {
    Client(Client),
    Hand(Hand),
    Desk(Desk),
    Report(Report),
    /// Nothing, while a call is under way.
    Away,
}

/// Puts this into the place. What was there is dropped.
pub(crate) fn put(place: &mut Inside, inside: Inside)
    ensures { place.new ≡ inside }
{
    drop(replace(place, inside));
}

/// Where a request stands, as a pass of any kind finds it.
pub(crate) fn look_in(inside: &mut Inside, req: Req) -> Result<Phase, Code>
    ensures { LooksIn req inside.old inside.new result }
{
    match inside {
        Inside::Client(client) => Ok(client.look(req)),
        Inside::Hand(hand) => Ok(hand.look(req)),
        Inside::Desk(desk) => Ok(desk.look(req)),
        Inside::Report(_) | Inside::Away => Err(Code::WrongKind),
    }
}

/// Submits a batch, by a client.
pub(crate) fn submit_in(
    inside: &mut Inside,
    alloc: Global,
    entries: &[u8],
    bytes: &[u8],
) -> Result<u64, Code>
    ensures { OfClient (SubmitsThe entries.now bytes.now) inside.old inside.new result }
{
    match inside {
        Inside::Client(client) => client.submit(alloc, entries, bytes),
        _ => Err(Code::WrongKind),
    }
}

/// Takes the request's completion, by a client, which keeps its buffer. How long that is.
pub(crate) fn reap_in(inside: &mut Inside, req: Req) -> Result<(Cqe, u64), Code>
    ensures { OfClient (ReapsThe req) inside.old inside.new result }
{
    match inside {
        Inside::Client(client) => client.reap(req),
        _ => Err(Code::WrongKind),
    }
}

/// Begins the request and runs it, by a worker. How many requests that ended besides.
pub(crate) fn work_in(inside: &mut Inside, req: Req) -> Result<(Cqe, u64), Code>
    ensures { OfHand (WorksAt req) inside.old inside.new result }
{
    match inside {
        Inside::Hand(hand) => hand.run(req),
        _ => Err(Code::WrongKind),
    }
}

/// Sets the clock on, by a poller.
pub(crate) fn tick_in(inside: &mut Inside, to: u32) -> Result<(), Code>
    ensures { OfDesk (TicksAt to) inside.old inside.new result }
{
    match inside {
        Inside::Desk(desk) => desk.tick(to),
        _ => Err(Code::WrongKind),
    }
}

/// Copies the buffer that a client keeps.
pub(crate) fn bytes_in(inside: &Inside, out: &mut [u8]) -> Result<u64, Code>
    ensures bytes { OfClient (GivesBytes out.old out.new) inside.now inside.now result }
    ensures still { IfErr result (λ _. out.new ≡ out.old) }
{
    match inside {
        Inside::Client(client) => client.copy_bytes(out),
        _ => Err(Code::WrongKind),
    }
}

/// Copies which requests the last run of a worker ended.
pub(crate) fn took_in(inside: &Inside, list: &mut [Number]) -> Result<u64, Code>
    ensures took { OfHand (GivesTook list.old list.new) inside.now inside.now result }
    ensures still { IfErr result (λ _. list.new ≡ list.old) }
{
    match inside {
        Inside::Hand(hand) => copy_numbers(hand.took(), list),
        _ => Err(Code::WrongKind),
    }
}

/// One turn of a poller.
pub(crate) fn poll_in(
    inside: &mut Inside,
    ready: &mut [Number],
    answered: &mut [Number],
) -> Result<Turn, Code>
    ensures polled { OfDesk (PollsThe ready.old ready.new answered.old answered.new) inside.old inside.new result }
    ensures still { IfErr result (λ _. (ready.new ≡ ready.old) × (answered.new ≡ answered.old)) }
{
    match inside {
        Inside::Desk(desk) => Ok(desk.poll(ready, answered)),
        _ => Err(Code::WrongKind),
    }
}

/// Ends a board, by its poller, which all other passes have come back to. What is left is the report. How many lines that has.
pub(crate) fn finish_in(inside: &mut Inside, alloc: Global) -> Result<u64, Code>
    ensures { EndsIn inside.old inside.new result }
{
    match replace(inside, Inside::Away) {
        Inside::Desk(desk) => match desk.finish(alloc) {
            Ok(report) => {
                let count = report.lines().len() as u64;
                put(inside, Inside::Report(report));
                Ok(count)
            }
            Err((code, desk)) => {
                put(inside, Inside::Desk(desk));
                Err(code)
            }
        },
        other => {
            put(inside, other);
            Err(Code::WrongKind)
        }
    }
}
