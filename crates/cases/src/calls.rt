//! The calls of a case, made on the board.
ghost use Rattle.std.specs.Prelude.{All, IfSome};
ghost use Rattle.work.specs.Board.{IsOf};
ghost use Rattle.cases.specs.Cast.{AreIn, IsCast};

use crate::cast::{Away, Cast};
use crate::entries::entry_of;
use crate::printed::{Digits, Named, Printed, Slip, debugged, said, shown};
use crate::words::{Name, Words};
use board::{Board, Busy, Completion, Phase, Poller, Ran, Submitter, Worker};
use entry::Sqe;
use history::Req;
use std::alloc::Global;

/// What is printed where the pass doesn't exist, or runs a request.
const NO_PASS: &str = "no such pass";

/// The most entries that a `batch` line may have.
const ENTRIES: u32 = 256;

/// A completion with its buffer.
pub fn completed(alloc: Global, completion: &Completion) -> Printed {
    let Completion { req, cqe, buffer } = completion;
    let (req, buffer) = (Named(*req), Digits(buffer));
    Ok(format!(in alloc; "{req} {cqe} buffer {buffer}")?)
}

/// Takes the worker without a request from its place.
fn take_idle(board: &Board, idle: &mut Vec<Option<Worker>>, number: usize) -> Option<Worker>
    requires { AreIn (λ p. IsOf board.now p) idle.old.items }
    ensures taken { IfSome result (λ p. IsOf board.now p) }
    ensures left { AreIn (λ p. IsOf board.now p) idle.new.items }
{
    match idle.get_mut(number) {
        Some(slot) => slot.take(),
        None => None,
    }
}

/// Puts a worker without a request to its place.
fn put_idle(board: &Board, idle: &mut Vec<Option<Worker>>, number: usize, worker: Worker)
    requires others { AreIn (λ p. IsOf board.now p) idle.old.items }
    requires worker { IsOf board.now worker }
    ensures { AreIn (λ p. IsOf board.now p) idle.new.items }
{
    if let Some(slot) = idle.get_mut(number) {
        *slot = Some(worker);
    }
}

/// Takes the worker with a request from its place.
fn take_busy<'a>(board: &Board, busy: &mut Vec<Option<Away<'a>>>, number: usize) -> Option<Busy<'a>>
    requires { AreIn (λ a. IsOf board.now a.busy.pass) busy.old.items }
    ensures taken { IfSome result (λ b. IsOf board.now b.pass) }
    ensures left { AreIn (λ a. IsOf board.now a.busy.pass) busy.new.items }
{
    let away = busy.get_mut(number)?.take()?;
    Some(away.into_busy())
}

/// Puts a worker with a request to its place.
fn put_busy<'a>(board: &Board, busy: &mut Vec<Option<Away<'a>>>, number: usize, away: Away<'a>)
    requires others { AreIn (λ a. IsOf board.now a.busy.pass) busy.old.items }
    requires worker { IsOf board.now away.busy.pass }
    ensures { AreIn (λ a. IsOf board.now a.busy.pass) busy.new.items }
{
    if let Some(slot) = busy.get_mut(number) {
        *slot = Some(away);
    }
}

/// Where a request stands, as the pass of this name finds. None where the pass isn't there.
fn look(board: &Board, cast: &mut Cast<'_>, name: Name, req: Req) -> Option<Phase>
    requires { IsCast board.now cast.old }
    ensures { IsCast board.now cast.new }
{
    match name {
        Name::Poller => Some(board.look(&mut cast.poller, req)),
        Name::Submitter(ring) => Some(board.look(cast.submitters.get_mut(ring)?, req)),
        Name::Worker(number) => match cast.idle.get_mut(number)? {
            Some(worker) => Some(board.look(worker, req)),
            None => None,
        },
    }
}

/// A worker without a request meets another one.
fn meet_worker(
    board: &Board,
    idle: &mut Vec<Option<Worker>>,
    first: usize,
    second: usize,
) -> Option<()>
    requires { AreIn (λ p. IsOf board.now p) idle.old.items }
    ensures { AreIn (λ p. IsOf board.now p) idle.new.items }
{
    let mut worker = take_idle(board, idle, first)?;
    let Some(mut other) = take_idle(board, idle, second) else {
        put_idle(board, idle, first, worker);
        return None;
    };
    board.meet(&mut worker, &mut other);
    put_idle(board, idle, first, worker);
    put_idle(board, idle, second, other);
    Some(())
}

/// The pass of the first name meets that of the second, which is of another kind or a worker. None where one isn't there.
fn meet(board: &Board, cast: &mut Cast<'_>, first: Name, second: Name) -> Option<()>
    requires { IsCast board.now cast.old }
    ensures { IsCast board.now cast.new }
{
    match (first, second) {
        (Name::Poller, Name::Submitter(ring)) => {
            board.meet(&mut cast.poller, cast.submitters.get_mut(ring)?);
        }
        (Name::Submitter(ring), Name::Poller) => {
            board.meet(cast.submitters.get_mut(ring)?, &mut cast.poller);
        }
        (Name::Worker(first), Name::Worker(second)) => {
            meet_worker(board, &mut cast.idle, first, second)?;
        }
        (Name::Worker(number), Name::Poller) => match cast.idle.get_mut(number)? {
            Some(worker) => board.meet(worker, &mut cast.poller),
            None => return None,
        },
        (Name::Worker(number), Name::Submitter(ring)) => match cast.idle.get_mut(number)? {
            Some(worker) => board.meet(worker, cast.submitters.get_mut(ring)?),
            None => return None,
        },
        (Name::Poller, Name::Worker(number)) => match cast.idle.get_mut(number)? {
            Some(worker) => board.meet(&mut cast.poller, worker),
            None => return None,
        },
        (Name::Submitter(ring), Name::Worker(number)) => match cast.idle.get_mut(number)? {
            Some(worker) => board.meet(cast.submitters.get_mut(ring)?, worker),
            None => return None,
        },
        _ => return None,
    }
    Some(())
}

/// Submits an entry with its buffer.
fn submit(board: &Board, submitter: &mut Submitter, words: &mut Words<'_>) -> Printed
    requires { IsOf board.now submitter.old }
    ensures { IsOf board.now submitter.new }
{
    let alloc = words.alloc;
    let (sqe, buffer) = entry_of(words)?;
    words.end()?;
    let _ring = submitter.ring();
    match board.submit(submitter, sqe, buffer) {
        Ok(req) => shown(alloc, &Named(req)),
        Err((error, buffer)) => {
            let buffer = Digits(&buffer);
            Ok(format!(in alloc; "{error}, buffer {buffer}")?)
        }
    }
}

/// The entries of a `batch` line, between which a comma and a space stand, with their buffers.
fn batch_of(words: &mut Words<'_>) -> Result<Vec<(Sqe, Vec<u8>)>, Slip> {
    let mut batch = Vec::new(words.alloc);
    if words.rest.is_some() {
        for item in words.left().split(", ") {
            let mut words = Words::of(words.alloc, item);
            batch.push(entry_of(&mut words)?)?;
            words.end()?;
        }
    }
    words.end()?;
    Ok(batch)
}

/// Submits a batch.
fn submit_batch(board: &Board, submitter: &mut Submitter, words: &mut Words<'_>) -> Printed
    requires { IsOf board.now submitter.old }
    ensures { IsOf board.now submitter.new }
{
    let (alloc, batch) = (words.alloc, batch_of(words)?);
    let _ring = submitter.ring();
    match board.submit_batch(submitter, batch) {
        Ok(first) => shown(alloc, &Named(first)),
        Err((error, batch)) => {
            let mut printed = format!(in alloc; "{error}, buffers")?;
            for (_, buffer) in &batch {
                let buffer = Digits(buffer);
                printed.push_str(format!(in alloc; " {buffer}")?.as_str())?;
            }
            Ok(printed)
        }
    }
}

/// The call of the submitter of a ring: `next`, `submit`, `batch` or `reap`.
fn of_submitter(
    board: &Board,
    submitter: &mut Submitter,
    kind: &str,
    words: &mut Words<'_>,
) -> Printed
    requires { IsOf board.now submitter.old }
    ensures { IsOf board.now submitter.new }
{
    match kind {
        "submit" => submit(board, submitter, words),
        "batch" => submit_batch(board, submitter, words),
        "reap" => {
            let req = words.req();
            words.end()?;
            match board.reap(submitter, req) {
                Ok(completion) => completed(words.alloc, &completion),
                Err(error) => shown(words.alloc, &error),
            }
        }
        _ => {
            words.end()?;
            let (ring, req) = (submitter.ring(), Named(submitter.next_request()));
            Ok(format!(in words.alloc; "ring {ring}, next {req}")?)
        }
    }
}

/// The call of the poller: `tick`, `release`, `arm`, `expire`, `count`, `fire` or `settle`.
fn of_poller(board: &Board, poller: &mut Poller, kind: &str, words: &mut Words<'_>) -> Printed
    requires { IsOf board.now poller.old }
    ensures { IsOf board.now poller.new }
{
    let alloc = words.alloc;
    if kind == "tick" {
        let to = words.number();
        words.end()?;
        return match board.tick(poller, to) {
            Ok(()) => said(alloc, "ticked"),
            Err(error) => shown(alloc, &error),
        };
    }
    let req = words.req();
    words.end()?;
    match kind {
        "release" => debugged(alloc, &board.release(poller, req)),
        "arm" => debugged(alloc, &board.arm(poller, req)),
        "expire" => debugged(alloc, &board.expire(poller, req)),
        "count" => debugged(alloc, &board.count(poller, req)),
        "fire" => debugged(alloc, &board.fire(poller, req)),
        _ => debugged(alloc, &board.settle(poller, req)),
    }
}

/// Gives a request to a worker.
fn begin<'a>(board: &'a Board, cast: &mut Cast<'a>, number: usize, req: Req) -> &'static str
    requires { IsCast board.now cast.old }
    ensures { IsCast board.now cast.new }
{
    let Some(worker) = take_idle(board, &mut cast.idle, number) else {
        return NO_PASS;
    };
    match board.begin(worker, req) {
        Ok(busy) => {
            put_busy(board, &mut cast.busy, number, Away { busy });
            "begun"
        }
        Err(worker) => {
            put_idle(board, &mut cast.idle, number, worker);
            "not begun"
        }
    }
}

/// The worker puts its request back.
pub fn park(board: &Board, cast: &mut Cast<'_>, number: usize) -> &'static str
    requires { IsCast board.now cast.old }
    ensures { IsCast board.now cast.new }
{
    let Some(busy) = take_busy(board, &mut cast.busy, number) else {
        return NO_PASS;
    };
    put_idle(board, &mut cast.idle, number, busy.park());
    "parked"
}

/// What a run answered, and what it ended besides its own request, in the order of the numbers.
fn printed_of_run(alloc: Global, ran: Ran, took: &[Req]) -> Printed {
    let cqe = match ran {
        Ran::Replied { cqe } => cqe,
        Ran::Parked(why) => return Ok(format!(in alloc; "parked: {why:?}")?),
    };
    let mut printed = format!(in alloc; "{cqe}")?;
    if !took.is_empty() {
        printed.push_str(", took")?;
    }
    for req in took {
        let req = Named(*req);
        printed.push_str(format!(in alloc; " {req}")?.as_str())?;
    }
    Ok(printed)
}

/// The worker answers its request.
fn run(alloc: Global, board: &Board, cast: &mut Cast<'_>, number: usize) -> Printed
    requires { IsCast board.now cast.old }
    ensures { IsCast board.now cast.new }
{
    let Some(busy) = take_busy(board, &mut cast.busy, number) else {
        return said(alloc, NO_PASS);
    };
    let (worker, ran) = busy.run();
    let printed = printed_of_run(alloc, ran, worker.took());
    put_idle(board, &mut cast.idle, number, worker);
    printed
}

/// Releases, begins and runs this many requests of a ring, up to the first that doesn't reply: `serve WORKER REQUEST COUNT`.
fn serve<'a>(board: &'a Board, cast: &mut Cast<'a>, words: &mut Words<'_>) -> Printed
    requires { IsCast board.now cast.old }
    ensures { IsCast board.now cast.new }
{
    let (number, mut req, count) = (words.number(), words.req(), words.number::<usize>());
    words.end()?;
    for served in 0..count {
        board.release(&mut cast.poller, req);
        begin(board, cast, number, req);
        let printed = run(words.alloc, board, cast, number)?;
        if !printed.as_str().starts_with("ud ") {
            return Ok(format!(in words.alloc; "{served} replied")?);
        }
        req.k = req.k.wrapping_add(1);
    }
    Ok(format!(in words.alloc; "{count} replied")?)
}

/// The call of a worker: `begin`, `park`, `run` or `serve`.
fn of_worker<'a>(
    board: &'a Board,
    cast: &mut Cast<'a>,
    kind: &str,
    words: &mut Words<'_>,
) -> Printed
    requires { IsCast board.now cast.old }
    ensures { IsCast board.now cast.new }
{
    if kind == "serve" {
        return serve(board, cast, words);
    }
    let number = words.number();
    if kind == "begin" {
        let req = words.req();
        words.end()?;
        return said(words.alloc, begin(board, cast, number, req));
    }
    words.end()?;
    match kind {
        "park" => said(words.alloc, park(board, cast, number)),
        _ => run(words.alloc, board, cast, number),
    }
}

/// Makes the call of a line.
pub fn printed<'a>(board: &'a Board, cast: &mut Cast<'a>, words: &mut Words<'_>) -> Printed
    requires { IsCast board.now cast.old }
    ensures { IsCast board.now cast.new }
{
    let kind = words.word();
    match kind {
        "next" | "submit" | "batch" | "reap" => {
            match cast.submitters.get_mut(words.number::<usize>()) {
                Some(submitter) => of_submitter(board, submitter, kind, words),
                None => said(words.alloc, NO_PASS),
            }
        }
        "tick" | "release" | "arm" | "expire" | "count" | "fire" | "settle" => {
            of_poller(board, &mut cast.poller, kind, words)
        }
        "begin" | "park" | "run" | "serve" => of_worker(board, cast, kind, words),
        "look" => {
            let (name, req) = (words.name(), words.req());
            words.end()?;
            match look(board, cast, name, req) {
                Some(phase) => debugged(words.alloc, &phase),
                None => said(words.alloc, NO_PASS),
            }
        }
        "meet" => {
            let (first, second) = (words.name(), words.name());
            words.end()?;
            match meet(board, cast, first, second) {
                Some(()) => said(words.alloc, "met"),
                None => said(words.alloc, NO_PASS),
            }
        }
        _ => Err(Slip::BadLine),
    }
}
