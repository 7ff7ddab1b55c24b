//! A batch of entries, from bytes.
ghost use Rattle.std.specs.Prelude.{◌≡◌, ◌+◌, ◌*◌, ◌≤◌, [], ◌∷◌, take, drop, length, IfOk, IfErr};
ghost use Rattle.history.specs.Legal.{FitsOp};
ghost use Rattle.entry.specs.Text.{Says};
ghost use Rattle.ring_c.specs.ClientCalls.{AreSaid, IsUnread, Shows};

use crate::code::Code;
use entry::{Sqe, by_opcode};
use std::alloc::Global;

macro_rules! length_of_buffer {
    ([no_buffer] ()) => { 0 };
    ([reads $len:ident] ()) => { $len as usize };
    ([writes $len:ident] ()) => { $len as usize };
    ([any_buffer] ()) => { 0 };
}

/// How long the buffer of an entry is.
pub(crate) fn length_of(sqe: &Sqe) -> usize
    ensures { FitsOp sqe.now.op result }
{
    let op = sqe.op();
    by_opcode!(buffer of op => length_of_buffer!())
}

/// The entry that 64 of the bytes say. They are read where they lie, and the entry is in place: each copy of one takes about as long as a step on the board.
#[inline(always)]
pub(crate) fn entry_at(entries: &[u8], i: usize) -> Sqe
    requires { 64 * i + 64 ≤ length entries.now }
    ensures { Says (take 64 (drop (64 * i) entries.now)) result }
{
    let Ok(bytes) = <&[u8; 64]>::try_from(&entries[64 * i..64 * i + 64]) else {
        unreachable!()
    };
    Sqe::of_bytes(bytes)
}

/// A copy of some of the bytes.
pub(crate) fn copy_of(
    alloc: Global,
    bytes: &[u8],
    from: usize,
    count: usize,
) -> Result<Vec<u8>, Code>
    requires { from + count ≤ length bytes.now }
    ensures copy { IfOk result (λ v. v.items ≡ take count (drop from bytes.now)) }
    ensures refused { IfErr result (λ c. c ≡ Code.Memory) }
{
    let mut copy = Vec::new(alloc);
    if count == 0 {
        return Ok(copy);
    }
    match copy.extend_from_slice(&bytes[from..from + count]) {
        Ok(()) => Ok(copy),
        Err(_) => Err(Code::Memory),
    }
}

/// The batch that the bytes of these entries say, with their buffers out of the other bytes, one after another.
pub(crate) fn batch_of(
    alloc: Global,
    entries: &[u8],
    bytes: &[u8],
) -> Result<Vec<(Sqe, Vec<u8>)>, Code>
    ensures said { IfOk result (λ v. AreSaid entries.now bytes.now v.items) }
    ensures refused { IfErr result (λ c. IsUnread entries.now c) }
{
    if entries.len() % 64 != 0 {
        return Err(Code::Length);
    }
    let count = entries.len() / 64;
    let Ok(mut batch) = Vec::with_capacity(alloc, count) else {
        return Err(Code::Memory);
    };
    let mut from = 0usize;
    for i in 0..count {
        let sqe = entry_at(entries, i);
        let length = length_of(&sqe);
        if bytes.len() - from < length {
            return Err(Code::BufferLength);
        }
        let buffer = copy_of(alloc, bytes, from, length)?;
        batch.push_reserved((sqe, buffer));
        from += length;
    }
    if from != bytes.len() {
        return Err(Code::BufferLength);
    }
    Ok(batch)
}

/// Copies bytes to the begin of others, where there is room. How many.
pub(crate) fn copy_bytes(bytes: &[u8], out: &mut [u8]) -> Result<u64, Code>
    ensures { Shows bytes.now out.old out.new result }
{
    let length = bytes.len();
    if out.len() < length {
        return Err(Code::Length);
    }
    out[..length].copy_from_slice(bytes);
    Ok(length as u64)
}
