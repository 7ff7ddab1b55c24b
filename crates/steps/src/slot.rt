//! What lies in a slot of the table.
ghost use Rattle.std.specs.Prelude.{◌≡◌, Some};
ghost use Rattle.steps.specs.declared.slot.Submission.{Submission};
ghost use Rattle.steps.specs.declared.slot.WaitedPipe.{WaitedPipe};
ghost use Rattle.steps.specs.declared.slot.Thing.TheVariants.{Full, Piped};

use entry::Sqe;
use history::Req;
use pipe::Pipe;

/// A request as it was handed in: its entry, its buffer, and whether it ends its batch. Once a READ was answered, its
/// data lie over the front of the buffer.
#[derive(Drop)]
pub struct Submission {
    pub sqe: Sqe,
    pub buffer: Vec<u8>,
    pub last: bool,
}

/// A pipe with its wait queue: the requests that found no answer there, the one that was laid down last at the end. There
/// is a place for each cell of the board.
#[derive(Drop)]
pub struct WaitedPipe {
    pub pipe: Pipe,
    pub lying: Vec<Req>,
}

/// What a slot has: the slot of a cell a request, the slot of a pipe the pipe and who waits for it.
#[derive(Drop)]
pub enum Thing {
    Full(Submission),
    Piped(WaitedPipe),
}

/// What a slot with a request has.
#[inline(always)]
pub fn submission_of(thing: Option<Thing>) -> Submission
    requires full { (p : Submission) × (thing ≡ Some (Full p)) }
    ensures is { thing ≡ Some (Full result) }
{
    let Some(thing) = thing else { unreachable!() };
    let Thing::Full(submission) = thing else {
        unreachable!()
    };
    submission
}

/// The pipe that a slot has.
pub fn pipe_of(thing: Option<Thing>) -> WaitedPipe
    requires piped { (c : WaitedPipe) × (thing ≡ Some (Piped c)) }
    ensures is { thing ≡ Some (Piped result) }
{
    let Some(thing) = thing else { unreachable!() };
    let Thing::Piped(pipe) = thing else {
        unreachable!()
    };
    pipe
}
