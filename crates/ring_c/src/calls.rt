//! The calls on a pass, as C makes them.
ghost use Rattle.std.specs.Prelude.{◌≡◌, ◌≢◌, ℕ, Result};
ghost use Rattle.entry.specs.declared.cqe.Cqe.{Cqe};
ghost use Rattle.board.specs.declared.phase.Phase.{Phase};
ghost use Rattle.ring_c.specs.declared.code.Code.{Code};
ghost use Rattle.ring_c.specs.declared.results.Turn.{Turn};
ghost use Rattle.ring_c.specs.{answer_of, GivesBytes, GivesTook, LooksIn, OfClient, OfDesk, OfHand, PollsThe, ReapsThe, SubmitsThe, Through, TicksAt, WorksAt, counted_as, looked_as, polled_as, reaped_as};

use crate::code::{Code, answer_number};
use crate::handle::Handle;
use crate::inside::{bytes_in, look_in, poll_in, reap_in, submit_in, tick_in, took_in, work_in};
use crate::number::Number;
use crate::results::{Counted, Looked, Polled, Reaped};
use history::Req;
use std::alloc::Global;

/// Where a request stands, by a pass of any kind.
#[unsafe(no_mangle)]
pub extern "C" fn ring_c_look(alloc: Global, handle: &mut Handle, ring: u16, k: u64) -> Looked
    ensures looked { (a : Result Phase Code) × (result ≡ looked_as a) × Through (LooksIn (record { ring = ring; k = k })) handle.old.slot.inside handle.new.slot.inside a }
    ensures stamp { handle.new.stamp ≡ handle.old.stamp }
{
    let Some(mut inside) = handle.take(alloc) else {
        return Looked::of(Err(Code::Closed));
    };
    let answer = look_in(&mut inside, Req { ring, k });
    handle.put(inside);
    Looked::of(answer)
}

/// Submits these entries, 64 bytes each, with their buffers one after another, by a client. The number of the first.
#[unsafe(no_mangle)]
pub extern "C" fn ring_c_submit(
    alloc: Global,
    handle: &mut Handle,
    entries: &[u8],
    bytes: &[u8],
) -> Counted
    ensures submitted { (a : Result ℕ Code) × (result ≡ counted_as a) × Through (OfClient (SubmitsThe entries.now bytes.now)) handle.old.slot.inside handle.new.slot.inside a }
    ensures stamp { handle.new.stamp ≡ handle.old.stamp }
{
    let Some(mut inside) = handle.take(alloc) else {
        return Counted::of(Err(Code::Closed));
    };
    let answer = submit_in(&mut inside, alloc, entries, bytes);
    handle.put(inside);
    Counted::of(answer)
}

/// Takes the request's completion, by a client, which keeps its buffer.
#[unsafe(no_mangle)]
pub extern "C" fn ring_c_reap(alloc: Global, handle: &mut Handle, ring: u16, k: u64) -> Reaped
    ensures reaped { (a : Result (Cqe × ℕ) Code) × (result ≡ reaped_as a) × Through (OfClient (ReapsThe (record { ring = ring; k = k }))) handle.old.slot.inside handle.new.slot.inside a }
    ensures stamp { handle.new.stamp ≡ handle.old.stamp }
{
    let Some(mut inside) = handle.take(alloc) else {
        return Reaped::of(Err(Code::Closed));
    };
    let answer = reap_in(&mut inside, Req { ring, k });
    handle.put(inside);
    Reaped::of(answer)
}

/// Copies the buffer of the completion that the client reaped last.
#[unsafe(no_mangle)]
pub extern "C" fn ring_c_bytes(alloc: Global, handle: &mut Handle, out: &mut [u8]) -> Counted
    ensures bytes { (a : Result ℕ Code) × (result ≡ counted_as a) × Through (OfClient (GivesBytes out.old out.new)) handle.old.slot.inside handle.new.slot.inside a }
    ensures still { result.code ≢ 0 → out.new ≡ out.old }
    ensures stamp { handle.new.stamp ≡ handle.old.stamp }
{
    let Some(inside) = handle.take(alloc) else {
        return Counted::of(Err(Code::Closed));
    };
    let answer = bytes_in(&inside, out);
    handle.put(inside);
    Counted::of(answer)
}

/// Begins the request and runs it, by a worker.
#[unsafe(no_mangle)]
pub extern "C" fn ring_c_work(alloc: Global, handle: &mut Handle, ring: u16, k: u64) -> Reaped
    ensures worked { (a : Result (Cqe × ℕ) Code) × (result ≡ reaped_as a) × Through (OfHand (WorksAt (record { ring = ring; k = k }))) handle.old.slot.inside handle.new.slot.inside a }
    ensures stamp { handle.new.stamp ≡ handle.old.stamp }
{
    let Some(mut inside) = handle.take(alloc) else {
        return Reaped::of(Err(Code::Closed));
    };
    let answer = work_in(&mut inside, Req { ring, k });
    handle.put(inside);
    Reaped::of(answer)
}

/// Copies which requests the worker's last run ended besides the one that it ran.
#[unsafe(no_mangle)]
pub extern "C" fn ring_c_took(alloc: Global, handle: &mut Handle, list: &mut [Number]) -> Counted
    ensures took { (a : Result ℕ Code) × (result ≡ counted_as a) × Through (OfHand (GivesTook list.old list.new)) handle.old.slot.inside handle.new.slot.inside a }
    ensures still { result.code ≢ 0 → list.new ≡ list.old }
    ensures stamp { handle.new.stamp ≡ handle.old.stamp }
{
    let Some(inside) = handle.take(alloc) else {
        return Counted::of(Err(Code::Closed));
    };
    let answer = took_in(&inside, list);
    handle.put(inside);
    Counted::of(answer)
}

/// One turn over what was submitted, by a poller.
#[unsafe(no_mangle)]
pub extern "C" fn ring_c_poll(
    alloc: Global,
    handle: &mut Handle,
    ready: &mut [Number],
    answered: &mut [Number],
) -> Polled
    ensures polled { (a : Result Turn Code) × (result ≡ polled_as a) × Through (OfDesk (PollsThe ready.old ready.new answered.old answered.new)) handle.old.slot.inside handle.new.slot.inside a }
    ensures still { result.code ≢ 0 → (ready.new ≡ ready.old) × (answered.new ≡ answered.old) }
    ensures stamp { handle.new.stamp ≡ handle.old.stamp }
{
    let Some(mut inside) = handle.take(alloc) else {
        return Polled::of(Err(Code::Closed));
    };
    let answer = poll_in(&mut inside, ready, answered);
    handle.put(inside);
    Polled::of(answer)
}

/// Sets the clock on, by a poller.
#[unsafe(no_mangle)]
pub extern "C" fn ring_c_tick(alloc: Global, handle: &mut Handle, to: u32) -> u32
    ensures ticked { (a : Result (Unit {0}) Code) × (result ≡ answer_of a) × Through (OfDesk (TicksAt to)) handle.old.slot.inside handle.new.slot.inside a }
    ensures stamp { handle.new.stamp ≡ handle.old.stamp }
{
    let Some(mut inside) = handle.take(alloc) else {
        return Code::Closed.number();
    };
    let answer = tick_in(&mut inside, to);
    handle.put(inside);
    answer_number(answer)
}
