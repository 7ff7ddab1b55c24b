//! How C opens a board, gets its passes, gives them back and ends it.
ghost use Rattle.std.specs.Prelude.{◌≡◌, ◌≢◌, ℕ, Result, None};
ghost use Rattle.ring_c.specs.declared.results.Line.{Line};
ghost use Rattle.ring_c.specs.{GivesLineBytes, TellsLine, counted_as, line_as, answer_of, EndsIn, Through, AreOfOne, GivesOut, GivesPass, Opens, TakesBack};
ghost use Rattle.ring_c.specs.declared.code.Code.{Code};

use crate::code::Code;
use crate::handle::Handle;
use crate::inside::finish_in;
use crate::passes::{pass_of, poller_of, take_back};
use crate::reports::{line_bytes_in, line_in};
use crate::results::{Counted, Line};
use std::alloc::Global;

/// Opens a board of rings with this many cells, pipes with this many bytes, and this many workers. The handle leads to its poller, at
/// which all other passes are.
#[unsafe(no_mangle)]
pub extern "C" fn ring_c_new(
    alloc: Global,
    stamp: u64,
    rings: &[u32],
    pipes: &[u32],
    workers: u32,
    poller: &mut Handle,
) -> u32
    ensures opened { (a : Result (Unit {0}) Code) × (result ≡ answer_of a) × Opens rings.now pipes.now workers poller.old.slot.inside poller.new.slot.inside a }
    ensures stamp { result ≡ 0 → poller.new.stamp ≡ stamp }
{
    if poller.is_open() {
        return Code::InUse.number();
    }
    match poller_of(alloc, rings, pipes, workers) {
        Ok(made) => {
            poller.open(made, stamp);
            0
        }
        Err(code) => code.number(),
    }
}

/// Hands out a worker of the poller's board, or else a client.
#[unsafe(no_mangle)]
pub extern "C" fn ring_c_give(
    alloc: Global,
    poller: &mut Handle,
    pass: &mut Handle,
    is_worker: bool,
) -> u32
    ensures given { (a : Result (Unit {0}) Code) × (result ≡ answer_of a) × GivesOut (GivesPass is_worker) poller.old.slot.inside poller.new.slot.inside pass.old.slot.inside pass.new.slot.inside a }
    ensures stamp { (poller.new.stamp ≡ poller.old.stamp) × (result ≡ 0 → pass.new.stamp ≡ poller.old.stamp) }
{
    if pass.is_open() {
        return Code::InUse.number();
    }
    let Some(mut inside) = poller.take(alloc) else {
        return Code::Closed.number();
    };
    let answer = pass_of(&mut inside, alloc, is_worker);
    poller.put(inside);
    match answer {
        Ok(made) => {
            pass.open(made, poller.stamp());
            0
        }
        Err(code) => code.number(),
    }
}

/// Takes a client or a worker back to the poller of its board.
#[unsafe(no_mangle)]
pub extern "C" fn ring_c_back(alloc: Global, poller: &mut Handle, pass: &mut Handle) -> u32
    requires stamped { poller.old.stamp ≡ pass.old.stamp → AreOfOne poller.old.slot.inside pass.old.slot.inside }
    ensures back { (a : Result (Unit {0}) Code) × (result ≡ answer_of a) × TakesBack poller.old.slot.inside poller.new.slot.inside pass.old.slot.inside pass.new.slot.inside a }
    ensures stamp { poller.new.stamp ≡ poller.old.stamp }
{
    if poller.stamp() != pass.stamp() {
        return Code::Foreign.number();
    }
    let Some(mut inside) = poller.take(alloc) else {
        return Code::Closed.number();
    };
    let Some(mut other) = pass.take(alloc) else {
        poller.put(inside);
        return Code::Closed.number();
    };
    let answer = take_back(&mut inside, &mut other);
    poller.put(inside);
    match answer {
        Ok(()) => 0,
        Err(code) => {
            pass.put(other);
            code.number()
        }
    }
}

/// Ends the board of a poller that all passes have come back to. The handle leads to the report then. How many lines that has.
#[unsafe(no_mangle)]
pub extern "C" fn ring_c_finish(alloc: Global, handle: &mut Handle) -> Counted
    ensures finished { (a : Result ℕ Code) × (result ≡ counted_as a) × Through EndsIn handle.old.slot.inside handle.new.slot.inside a }
    ensures stamp { handle.new.stamp ≡ handle.old.stamp }
{
    let Some(mut inside) = handle.take(alloc) else {
        return Counted::of(Err(Code::Closed));
    };
    let answer = finish_in(&mut inside, alloc);
    handle.put(inside);
    Counted::of(answer)
}

/// A line of a report: a request that was not reaped.
#[unsafe(no_mangle)]
pub extern "C" fn ring_c_line(alloc: Global, handle: &mut Handle, index: u64) -> Line
    ensures line { (a : Result Line Code) × (result ≡ line_as a) × Through (TellsLine index) handle.old.slot.inside handle.new.slot.inside a }
    ensures stamp { handle.new.stamp ≡ handle.old.stamp }
{
    let Some(inside) = handle.take(alloc) else {
        return Line::of(Err(Code::Closed));
    };
    let answer = line_in(&inside, index);
    handle.put(inside);
    Line::of(answer)
}

/// Copies the buffer of a line of a report.
#[unsafe(no_mangle)]
pub extern "C" fn ring_c_line_bytes(
    alloc: Global,
    handle: &mut Handle,
    index: u64,
    out: &mut [u8],
) -> Counted
    ensures bytes { (a : Result ℕ Code) × (result ≡ counted_as a) × Through (GivesLineBytes index out.old out.new) handle.old.slot.inside handle.new.slot.inside a }
    ensures still { result.code ≢ 0 → out.new ≡ out.old }
    ensures stamp { handle.new.stamp ≡ handle.old.stamp }
{
    let Some(inside) = handle.take(alloc) else {
        return Counted::of(Err(Code::Closed));
    };
    let answer = line_bytes_in(&inside, index, out);
    handle.put(inside);
    Counted::of(answer)
}

/// Closes a handle, and gives up what it leads to: a report that was read, or passes of a board that is not to be ended.
#[unsafe(no_mangle)]
pub extern "C" fn ring_c_close(alloc: Global, handle: &mut Handle)
    ensures closed { handle.new.slot.inside ≡ None }
{
    let _inside = handle.take(alloc);
}
