//! What a stage is made of: a board, a bell and a ready queue, and their passes.
ghost use Rattle.std.specs.Prelude.{◌≡◌, ◌<◌, All, IfOk, IfSome};
ghost use Rattle.bell.specs.BellPasses.{IsRingerOf, IsSleeperOf};
ghost use Rattle.ready.specs.Ready;
ghost use Rattle.work.specs.Board.{IsOf};

use bell::{Bell, Ringer, Sleeper};
use board::{Board, Poller, RingShape, Shape, Submitter, Worker};
use entry::Sqe;
use history::Req;
use ready::{ReadyPass, ReadyQueue};
use std::alloc::{AllocError, Global};
use std::test::Fail;

/// The bytes of the one pipe.
const CAPACITY: u32 = 16;

/// The shape of a board with one pipe, one worker, and a ring of this many cells for each of `cells`.
pub(crate) fn shape_of(alloc: Global, cells: &[u32]) -> Result<Shape, AllocError> {
    let mut rings = Vec::new(alloc);
    for count in cells {
        rings.push(RingShape {
            cells: *count,
            posts: None,
        })?;
    }
    let mut pipes = Vec::new(alloc);
    pipes.push(CAPACITY)?;
    Ok(Shape {
        rings,
        pipes,
        workers: 1,
    })
}

/// One who submits to a ring and takes completions: the passes, and the tail that was published last.
#[derive(Drop)]
pub(crate) struct Caller {
    pub submitter: Submitter,
    pub ringer: Ringer,
    pub tail: u64,
}

/// A new board and its passes.
pub(crate) fn board_of(
    alloc: Global,
    shape: &Shape,
) -> Result<(Board, Poller, Vec<Submitter>, Vec<Worker>), Fail>
    ensures poller { IfOk result (λ t. IsOf t.0 t.1) }
    ensures submitters { IfOk result (λ t. All (λ p. IsOf t.0 p) t.2.items) }
    ensures workers { IfOk result (λ t. All (λ p. IsOf t.0 p) t.3.items) }
{
    Ok(Board::new(alloc, shape)?)
}

/// A new bell and its passes.
pub(crate) fn bell_of(alloc: Global, rings: u16) -> Result<(Bell, Vec<Ringer>, Sleeper), Fail>
    ensures rings { IfOk result (λ t. t.0.rings ≡ rings) }
    ensures sleeper { IfOk result (λ t. IsSleeperOf t.0 t.2) }
    ensures ringers { IfOk result (λ t. All (λ r. IsRingerOf t.0 r × (r.tail ≡ 0)) t.1.items) }
{
    Ok(Bell::new(alloc, rings)?)
}

/// A new ready queue and its passes, one for the poller and one for the worker.
pub(crate) fn queue_of(alloc: Global, places: u32) -> Result<(ReadyQueue, Vec<ReadyPass>), Fail>
    requires { 0 < places }
    ensures { IfOk result (λ t. All (λ p. Ready.IsQueuePass t.0 p) t.1.items) }
{
    Ok(ReadyQueue::new(alloc, places, 2)?)
}

/// The last pass of the queue that is left.
pub(crate) fn last_pass(queue: &ReadyQueue, passes: &mut Vec<ReadyPass>) -> Option<ReadyPass>
    requires { All (λ p. Ready.IsQueuePass queue.now p) passes.old.items }
    ensures rest { All (λ p. Ready.IsQueuePass queue.now p) passes.new.items }
    ensures pass { IfSome result (λ p. Ready.IsQueuePass queue.now p) }
{
    let _ = queue;
    passes.pop()
}

/// One of the workers.
pub(crate) fn worker_of(board: &Board, mut workers: Vec<Worker>) -> Option<Worker>
    requires { All (λ p. IsOf board.now p) workers.items }
    ensures { IfSome result (λ p. IsOf board.now p) }
{
    let _ = board;
    workers.pop()
}

/// The passes of the last ring that are left.
fn last_caller(
    board: &Board,
    bell: &Bell,
    submitters: &mut Vec<Submitter>,
    ringers: &mut Vec<Ringer>,
) -> Option<Caller>
    requires submitters { All (λ p. IsOf board.now p) submitters.old.items }
    requires ringers { All (λ r. IsRingerOf bell.now r × (r.tail ≡ 0)) ringers.old.items }
    ensures submitters { All (λ p. IsOf board.now p) submitters.new.items }
    ensures ringers { All (λ r. IsRingerOf bell.now r × (r.tail ≡ 0)) ringers.new.items }
    ensures submitter { IfSome result (λ c. IsOf board.now c.submitter) }
    ensures ringer { IfSome result (λ c. IsRingerOf bell.now c.ringer × (c.ringer.tail ≡ c.tail)) }
{
    let _ = board;
    let _ = bell;
    let (Some(submitter), Some(ringer)) = (submitters.pop(), ringers.pop()) else {
        return None;
    };
    Some(Caller {
        submitter,
        ringer,
        tail: 0,
    })
}

/// The passes of both rings, or of the one that there is.
pub(crate) fn callers_of(
    board: &Board,
    bell: &Bell,
    mut submitters: Vec<Submitter>,
    mut ringers: Vec<Ringer>,
) -> Option<(Caller, Option<Caller>)>
    requires submitters { All (λ p. IsOf board.now p) submitters.items }
    requires ringers { All (λ r. IsRingerOf bell.now r × (r.tail ≡ 0)) ringers.items }
    ensures submitter { IfSome result (λ t. IsOf board.now t.0.submitter) }
    ensures ringer { IfSome result (λ t. IsRingerOf bell.now t.0.ringer × (t.0.ringer.tail ≡ t.0.tail)) }
    ensures one { IfSome result (λ t. IfSome t.1 (λ c. IsOf board.now c.submitter × IsRingerOf bell.now c.ringer × (c.ringer.tail ≡ c.tail))) }
{
    let Some(last) = last_caller(board, bell, &mut submitters, &mut ringers) else {
        return None;
    };
    match last_caller(board, bell, &mut submitters, &mut ringers) {
        Some(zero) => Some((zero, Some(last))),
        None => Some((last, None)),
    }
}

/// Submits the batch, and publishes the tail.
pub(crate) fn submit_by(
    board: &Board,
    bell: &Bell,
    caller: &mut Caller,
    batch: Vec<(Sqe, Vec<u8>)>,
) -> Result<Req, Fail>
    requires submitter { IsOf board.now caller.old.submitter }
    requires ringer { IsRingerOf bell.now caller.old.ringer × (caller.old.ringer.tail ≡ caller.old.tail) }
    ensures submitter { IsOf board.now caller.new.submitter }
    ensures ringer { IsRingerOf bell.now caller.new.ringer × (caller.new.ringer.tail ≡ caller.new.tail) }
{
    let count = batch.len() as u64;
    let first = caller.submitter.next_request();
    if board.submit_batch(&mut caller.submitter, batch).is_err() {
        return Err(Fail::new("the batch was refused"));
    }
    let tail = caller.tail.saturating_add(count);
    let wake = bell.publish(&mut caller.ringer, tail);
    caller.tail = tail;
    bell.ring(wake);
    Ok(first)
}

/// Takes the request's completion: its result, and its buffer.
pub(crate) fn reap_by(board: &Board, caller: &mut Caller, req: Req) -> Result<(i32, Vec<u8>), Fail>
    requires submitter { IsOf board.now caller.old.submitter }
    ensures submitter { IsOf board.now caller.new.submitter }
    ensures same { (caller.new.ringer ≡ caller.old.ringer) × (caller.new.tail ≡ caller.old.tail) }
{
    let completion = board.reap(&mut caller.submitter, req)?;
    Ok((completion.cqe.res, completion.buffer))
}
