//! A turn of the poller: it goes over what was submitted and isn't done.
ghost use Rattle.std.specs.Prelude.{◌≡◌};
ghost use Rattle.work.specs.Board.{IsOf};
ghost use Rattle.ring_c.specs.Turns.{HasRoom, Turned};

use crate::out::Out;
use board::{Arming, Board, Phase, Polled, Poller, Released};
use history::Req;

/// How many new requests of a ring a turn takes up at most.
const MOST_NEW: u64 = 1024;

/// How many rings a board has at most.
const MAX_RINGS: u16 = 16;

/// Ends an armed timer, if it is time. Whether it is done with.
fn ring(board: &Board, poller: &mut Poller, out: &mut Out, req: Req) -> bool
    requires own { IsOf board.now poller.old }
    requires room { HasRoom out.old }
    ensures { Turned board.now poller.old out.old poller.new out.new }
{
    match board.poll_timer(poller, req, true) {
        Polled::Took => {
            let Req { ring, k } = req;
            out.put_answered(Req {
                ring,
                k: k.saturating_sub(1),
            });
            out.put_answered(req);
            true
        }
        Polled::Expired | Polled::Counted | Polled::Missed | Polled::Settled => {
            out.put_answered(req);
            true
        }
        Polled::Early | Polled::Fewer | Polled::TargetOpen | Polled::Due | Polled::NotArmed =>
            false,
    }
}

/// Moves a request that waits to the workers, or answers or arms it, where that may be. Whether it is done with.
fn release(board: &Board, poller: &mut Poller, out: &mut Out, req: Req) -> bool
    requires own { IsOf board.now poller.old }
    requires room { HasRoom out.old }
    ensures { Turned board.now poller.old out.old poller.new out.new }
{
    match board.release(poller, req) {
        Released::Freed => {
            out.put_ready(req);
            true
        }
        Released::Severed => {
            out.put_answered(req);
            true
        }
        Released::Timer => match board.arm(poller, req) {
            Arming::Armed(_) => {
                out.note_move();
                false
            }
            Arming::NotHeld => false,
            Arming::NotTimer => false,
            Arming::Shut => false,
        },
        Released::Shut => false,
        Released::NotHeld => false,
    }
}

/// Looks after a request that was found so. Whether it is done with.
fn tend(board: &Board, poller: &mut Poller, out: &mut Out, req: Req, phase: Phase) -> bool
    requires own { IsOf board.now poller.old }
    requires room { HasRoom out.old }
    ensures { Turned board.now poller.old out.old poller.new out.new }
{
    match phase {
        Phase::Held => release(board, poller, out, req),
        Phase::Armed(_) => ring(board, poller, out, req),
        Phase::Unborn => false,
        Phase::Ready | Phase::Running | Phase::Done(_) | Phase::Gone => true,
    }
}

/// Looks at a request, and looks after it, where there is room. Whether it is done with.
fn look_after(board: &Board, poller: &mut Poller, out: &mut Out, req: Req) -> bool
    requires own { IsOf board.now poller.old }
    ensures { Turned board.now poller.old out.old poller.new out.new }
{
    if !out.is_free() {
        return false;
    }
    let _clock = poller.clock();
    let phase = board.look(poller, req);
    tend(board, poller, out, req, phase)
}

/// Goes over the requests that were taken up and aren't done with, in order, as long as there is room.
pub(crate) fn go_over(board: &Board, poller: &mut Poller, out: &mut Out, held: &mut Vec<Req>)
    requires own { IsOf board.now poller.old }
    ensures { Turned board.now poller.old out.old poller.new out.new }
{
    let mut kept = 0usize;
    for i in 0..held.len() {
        let req = held[i];
        if !look_after(board, poller, out, req) {
            held[kept] = req;
            kept += 1;
        }
    }
    held.truncate(kept);
}

/// Takes up the ring's new requests from the `next`-th on, as long as there is room: that one without a look, where it may start.
/// The next one after those.
fn take_ring(
    board: &Board,
    poller: &mut Poller,
    out: &mut Out,
    held: &mut Vec<Req>,
    ring: u16,
    next: u64,
) -> u64
    requires own { IsOf board.now poller.old }
    ensures { Turned board.now poller.old out.old poller.new out.new }
{
    if !out.is_free() {
        return next;
    }
    let first = if release(board, poller, out, Req { ring, k: next }) {
        next.saturating_add(1)
    } else {
        next
    };
    for k in first..first.saturating_add(MOST_NEW) {
        if !out.is_free() {
            return k;
        }
        let _clock = poller.clock();
        let phase = board.look(poller, Req { ring, k });
        if phase == Phase::Unborn {
            return k;
        }
        let is_done = tend(board, poller, out, Req { ring, k }, phase);
        if !is_done && held.push(Req { ring, k }).is_err() {
            return k;
        }
        out.note_move();
    }
    first.saturating_add(MOST_NEW)
}

/// Takes up the new requests of all rings.
pub(crate) fn take_up(
    board: &Board,
    poller: &mut Poller,
    out: &mut Out,
    held: &mut Vec<Req>,
    next: &mut [u64],
)
    requires own { IsOf board.now poller.old }
    ensures { Turned board.now poller.old out.old poller.new out.new }
{
    for ring in 0..MAX_RINGS {
        if next.len() <= usize::from(ring) {
            break;
        }
        let at = next[usize::from(ring)];
        next[usize::from(ring)] = take_ring(board, poller, out, held, ring, at);
    }
}
